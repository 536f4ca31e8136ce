//! The heap that a trace is replayed on, one row at a time: whose turn it is (`turns`), what a row asks of the heap
//! (`request`), the objects in words (`objects`), and all of it with the journal together (`heap`).
#![tactic(auto)]

mod heap;
mod objects;
mod request;
mod turns;

pub use heap::{Heap, StepFault};
