//! The barrier: the one way by which a reference is stored, and what keeps a region's remembered list up to date.
//!
//! 1. A store of a reference makes the card of its slot dirty, and does no more: it costs the same whatever it leads to.
//! 2. A flush visits the dirty cards. For each reference into another region it notes the card on that region's list.
//! 3. Freeing a region takes its cards out of all lists, and cleans them.
//!
//! So each reference from one region into another lies on a dirty card, or on one that the region remembers into which it
//! leads: a collection of that region asks its list, and never goes over the heap.
//!
//! - `store`: the store of a reference.
//! - `flushing`: the flush, of one card and of all; `note`: what it tells.
//! - `free`: freeing a region.
//! - `laws`: which changes of the heap keep all such references covered.
#![tactic(auto)]

mod flushing;
mod free;
mod laws;
mod note;
mod store;
#[cfg(test)]
mod tests;

pub use flushing::{CARD_SLOTS, flush, flush_card, region_into};
pub use free::free_region;
pub use laws::{a_new_object_is_covered, a_new_table_is_covered, states_say_nothing_of_references};
pub use note::Note;
pub use store::store_ref;
