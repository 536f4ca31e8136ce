//! The board after a partial collection, by what was told of the evacuation: which objects are gone, where the others lie, and
//! what each region is. There is no code: `laws` are over any whole evacuation, however many workers decided.
#![tactic(auto)]

mod laws;

pub use laws::{
    just_what_was_not_decided_is_lost, kept_objects_move_as_decided,
    marked_words_are_those_of_the_marked_objects, regions_become_what_was_copied_there,
    what_these_laws_ask_for_can_be_met,
};
