//! The outside, as the collector sees it: sources of bytes, sinks for bytes, the wish to stop copying and the gate
//! before a step of a worker. Each source and sink counts its faults. Code above can't raise that count by itself,
//! so 'this fault only if the count rose' says that no fault is made up. Beside the traits stand sources and
//! sinks in memory, for tests and for laws, and adapters over the standard streams.
#![tactic(auto)]

mod buffered;
mod gate;
mod memory_sink;
mod memory_source;
mod schedule;
mod sink;
mod source;
mod streams;
mod sure;
#[cfg(test)]
mod tests;
mod whole;
mod wish;

pub use buffered::{Buffer, Buffered};
pub use gate::{Gate, OpenGate};
pub use memory_sink::MemorySink;
pub use memory_source::MemorySource;
pub use sink::Sink;
pub use source::{Failed, Source};
pub use streams::{InSource, OutSink};
pub use sure::{SureSink, SureSource};
pub use whole::{MOST_BYTES, ReadEnd, read_all, write_all_bytes};
pub use wish::{After, Wish};
