//! The remembered list of a region: which cards may have references into it from other regions. A flush notes cards; freeing
//! a region takes its own cards out of all lists and empties its own. A list that would hold more cards than its limit
//! overflows: from then on any card may have such references, until the region is freed or its list is built anew.
//!
//! - `list`: the list, with its room reserved, so that a note takes no memory.
#![tactic(auto)]

mod list;
#[cfg(test)]
mod tests;

pub use list::{LISTED_CARDS, Noted, RememberedList};
