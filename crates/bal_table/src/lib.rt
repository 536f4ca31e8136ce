//! The table of the heap's regions: what each region is used for, which one takes new objects, and which object starts at
//! an address. Whoever reads or writes an object's slots asks here where they lie, so that no one else knows of the pieces
//! in which an object is laid out.
//!
//! - `table`: the regions with their states, and the current one.
//! - `objects`: the objects of all regions by address.
//! - `moving`: objects are moved, in their region and to another.
//! - `slots`: the reference slots on a card.
//! - `laws`: what each change does to the objects.
//! - `reading`: how objects and their slots are read.
//! - `occupied`: a table while its free regions are out, to be filled.
//! - `marks`: the marked objects, and which of them wait.
//! - `moves`: where moved objects went.
//! - `remap`: the marked objects after some are gone and others have moved.
#![tactic(auto)]

mod laws;
mod marks;
#[cfg(test)]
mod marks_tests;
mod moves;
mod moving;
mod objects;
mod occupied;
mod reading;
mod remap;
mod slots;
mod table;
#[cfg(test)]
mod tests;

pub use laws::{
    a_carried_object_is_the_only_change, a_cut_region_has_its_objects,
    a_freed_region_has_no_object, a_moved_object_is_the_only_change,
    a_new_object_is_the_only_change, a_region_that_is_put_back_has_its_objects,
    a_removed_object_is_the_only_change_of_a_table, a_slot_has_a_place_of_its_own,
    a_slot_is_found_by_its_place, a_slot_lies_in_its_object, a_word_of_a_table_has_one_holder,
    a_written_slot_is_the_only_change, an_empty_table_has_no_object,
    objects_of_a_table_are_moved_one_by_one, objects_of_a_table_do_not_overlap,
    states_say_nothing_of_objects, the_slots_on_a_card_are_those_that_lie_there,
    what_starts_is_an_object,
};
pub use marks::{Marks, the_queue_is_what_was_not_taken, what_is_marked_stays_in_its_place};
pub use moves::{Moves, a_move_is_the_only_change};
pub use occupied::Occupied;
pub use remap::what_is_left_is_marked_where_it_went;
pub use slots::Slot;
pub use table::Table;
