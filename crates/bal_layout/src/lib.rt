//! The words that every crate of the heap shares: names of objects, kinds, the two words that an object begins with, the
//! heap's geometry and its addresses, the word of a reference, and the state of a region. Nothing here holds a heap.
#![tactic(auto)]

mod address;
mod geometry;
mod header;
mod limits;
mod name;
mod reference;
mod region_state;
#[cfg(test)]
mod tests;

pub use address::an_address_is_a_region_and_an_offset;
pub use geometry::{Geometry, GeometryFault, Want, charge, want_arr, want_new};
pub use header::{Header, a_header_has_one_spelling, read_header, write_header};
pub use limits::{
    CARD_WORDS, CARDS, FEWEST_REGIONS, FEWEST_WORDS, GLOBALS, HEAP_WORDS, MOST_REGIONS, MOST_WORDS,
    OLDEST, PARTS, REGISTERS, SLOTS, THREADS, WORKERS,
};
pub use name::{Abort, Kind, Name};
pub use reference::{NULL, target_of, word_of};
pub use region_state::{RegionState, Role};
