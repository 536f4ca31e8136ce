//! The evacuation by one worker: what can be reached from the roots is decided, each object once and breadth first. An object is
//! copied into a region of survivors for its next age, or marked where it lies once the evacuation was abandoned.
//!
//! 1. All memory is taken: the decisions by object, the list of decisions, and the regions' table.
//! 2. What the roots hold is decided, in their order.
//! 3. The decided objects are scanned in the order in which they were decided (Cheney 1970): what their slots hold is decided.
//!
//! The abort is raised by a worker that copied as many objects as it may, or that needs a region when the pool has none left.
//!
//! - `course`: what was decided and copied so far.
//! - `evacuation`: the walk.
//! - `laws`: what the copies make of the regions.
#![tactic(auto)]

mod course;
mod evacuation;
mod laws;
#[cfg(test)]
mod tests;

pub use course::Evacuated;
pub use evacuation::Evacuation;
pub use laws::copies_lie_where_they_were_copied_to;
