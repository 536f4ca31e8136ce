//! What the journal tells of a finished evacuation, and that it is a legal partial collection by the rules, however many
//! workers decided.
//!
//! 1. `telling`: the survivors as the journal tells them, worker by worker, and then by ascending name.
//! 2. `laws`: that this is the list of all survivors, and that the rules allow it.
#![tactic(auto)]

mod laws;
mod telling;
#[cfg(test)]
mod tests;

pub use laws::{
    a_region_of_copies_is_as_it_was_drawn, a_told_evacuation_is_legal,
    an_evacuation_by_one_worker_is_whole, an_evacuation_is_a_legal_partial_collection,
    an_evacuation_is_packed_by_the_rules, sorted_survivors_are_told,
    survivors_are_told_worker_by_worker, what_the_laws_ask_for_can_be_met,
};
pub use telling::{put_in_order, tell_survivors};
