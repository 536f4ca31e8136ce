//! Tools that know nothing of heaps or traces: out of memory as the one error of all that allocates, lists with room
//! reserved in advance, sets of numbers as bits, steps that are counted at no cost, numbers as they are spelled in texts,
//! lines and texts.
#![tactic(auto)]

mod bits;
mod filling;
mod items;
mod line;
mod memory;
mod number;
mod steps;
#[cfg(test)]
mod tests;
mod text;

pub use bits::{Bits, a_set_is_told_by_its_members};
pub use filling::{filled, grow};
pub use items::Items;
pub use line::Line;
pub use memory::NoMemory;
pub use number::{leading_number, push_number, read_number};
pub use steps::Steps;
pub use text::{Growing, Text};
