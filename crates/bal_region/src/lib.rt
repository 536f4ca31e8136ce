//! One region of the heap as words: objects are placed one after the other, found by the words that they cover, and
//! taken away. Of an object's words its header alone is read here; what the others say is told in `bal_words`.
//!
//! - `region`: the region, with room for all objects that it can ever have.
//! - `laws`: what each change does to the objects, and that no two of them overlap.
#![tactic(auto)]

mod laws;
mod region;
#[cfg(test)]
mod tests;

pub use laws::{
    a_new_object_has_its_size, a_placed_object_is_the_only_change, a_region_is_cut_to_its_objects,
    a_removed_object_is_the_only_change, a_slid_object_is_the_only_change, a_word_has_one_holder,
    a_written_word_is_the_only_change, an_empty_region_has_no_object, objects_are_found_in_order,
    objects_do_not_overlap,
};
pub use region::Region;
