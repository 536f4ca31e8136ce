//! What it means that the words of a heap are a board's, and that this stays true whatever a collector does: a law for each
//! kind of change, to the heap's state and to the board at once. Whoever allocates, stores or collects owes that its change
//! is one of these, and no more. The laws stand on functions that do nothing, so that they are proved with the crate; there
//! is no code.
//!
//! - `read`: a register is followed to its object, a slot is read, and a path of words ends where a walk of names does.
//! - `meeting`: a root or a slot is written, an object is placed, regions change or are freed, objects are removed or moved.
#![tactic(auto)]

pub mod meeting;
pub mod read;
