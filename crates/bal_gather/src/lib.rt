//! What a partial collection sees of the heap before it copies anything: the regions that were chosen, and of all others only
//! the references on cards.
//!
//! 1. `chosen`: the heap is lent as two views, and this is the one into the chosen regions.
//! 2. `outside`: the other one, which reads the rest of the heap card by card.
//! 3. `numbered`: the objects of the chosen regions get numbers.
//! 4. `graph`: they are told as a graph, as an evacuation asks for it.
//! 5. `held`: what holds them from outside is gathered.
//! - `laws`: what the numbers say, and that just what is held from outside is gathered.
#![tactic(auto)]

mod chosen;
mod graph;
mod held;
mod laws;
mod numbered;
mod outside;
#[cfg(test)]
mod tests;

pub use chosen::{Chosen, lend_chosen};
pub use held::{Gathered, gather};
pub use laws::{
    gathered_places_ascend, objects_are_numbered_by_address,
    references_into_chosen_regions_have_numbers, the_objects_are_a_graph,
    what_is_held_from_outside_is_gathered,
};
pub use numbered::Numbered;
pub use outside::{Outside, Reference};
