//! What a trace asks for and what a journal tells: the plain graph without addresses, the rows of a trace, the
//! events of a journal, and the configuration. `specs/` says what they mean: `Plain` and its step, `Walk` (what can be
//! reached), `Spelling` and `Text` (how rows and events are written). Which journals are legal is said in `bal_rules`.
#![tactic(auto)]

mod config;
mod event;
mod plain;
mod row;
mod step;
#[cfg(test)]
mod tests;

pub use bal_base::{Items, NoMemory};
pub use bal_layout::{Abort, Geometry, Kind, Name};
pub use config::Config;
pub use event::{Answer, Event, How, Journal, Kept, Packed, PartialCollection};
pub use plain::{Mutator, Node, Plain, kept_plain, reach_plain, start_plain};
pub use row::{Op, Reply, Row, Trace, Word};
pub use step::step_plain;
