//! Mending references: after objects were moved, each root and each reference is led to where its target went. A collection
//! that moves objects ends with it.
//!
//! - The roots are mended in their order.
//! - Of each region the objects are mended in ascending order, and of each object the slots.
//!
//! Each word is mended once. A second time would follow the wrong object, as one object may have gone to an address from which
//! another one went on. Where objects went stands in a table beside the heap, by the addresses that the words still name. A
//! word is not written if its target stayed. No memory is taken.
#![tactic(auto)]

ghost use Rattle.std.specs.Prelude.{◌≡◌, ℕ, ◌<◌, All, Bool, IsSome, List, length, map, slice_index, true, unwrap_or};
ghost use Rattle.std.specs.Option.{option_map};
ghost use Rattle.bal_fixup.specs.Mended.{AreReferences, HasSameStarts, IsReference, mended_thing};
ghost use Rattle.bal_fixup.specs.Mending.{MendedWhere, lies_in, word_mended};
ghost use Rattle.bal_layout.specs.Addresses.{region_of};
ghost use Rattle.bal_table.specs.Moves.{moved_to};
ghost use Rattle.bal_table.specs.Table.{IsTable, Table, refs_in, things_of};
ghost use Rattle.bal_words.specs.Moved.{Carried, Fixed, word_to};
ghost use Rattle.bal_words.specs.Paths.{words_in};
ghost use Rattle.bal_words.specs.Shown.{Finds};
ghost use Rattle.bal_words.specs.Things.{Things, Updated, with_refs};

mod partial;
#[cfg(test)]
mod tests;

use bal_layout::{target_of, word_of};
use bal_roots::Roots;
use bal_table::{Moves, Table};
pub use partial::{fix_places, fix_regions, regions_and_places_are_all_that_is_mended};

/// Leads each root to where its target went.
pub fn fix_roots(roots: &mut Roots, moves: &Moves)
    requires { All IsReference roots.old }
    ensures { roots.new ≡ map (word_to (moved_to moves.now)) roots.old }
{
    for index in 0..roots.root_count() {
        if let Some(word) = mended(roots.root(index), moves) {
            roots.set_root(index, word);
        }
    }
}

/// Leads each reference of each object to where its target went. No object moves, and nothing else of it changes.
pub fn fix_objects(table: &mut Table, moves: &Moves)
    requires { AreReferences (things_of table.old) }
    ensures fixed { Fixed (things_of table.old) (things_of table.new) (moved_to moves.now) }
    ensures same { HasSameStarts table.old table.new }
{
    for region in 0..table.geometry().regions() {
        fix_region(table, region, moves);
    }
}

// Mends the references of the objects of a region.
fn fix_region(table: &mut Table, region: u32, moves: &Moves)
    requires within { region < table.old.shape.regions }
    requires references { (a : ℕ) → region_of table.old.shape a ≡ region → All IsReference (words_in (things_of table.old a)) }
    ensures mended { MendedWhere (things_of table.old) (things_of table.new) (lies_in table.old.shape region) (moved_to moves.now) }
    ensures same { HasSameStarts table.old table.new }
{
    let geometry = table.geometry();
    let mut at = 0;
    while let Some(offset) = table.region(region).first_from(at) {
        fix_object(table, geometry.address(region, offset), moves);
        at = offset + 1;
    }
}

// Mends the references of the object that starts there.
fn fix_object(table: &mut Table, address: u32, moves: &Moves)
    requires object { IsSome (things_of table.old address) }
    requires references { All IsReference (refs_in (things_of table.old address)) }
    ensures mended { Updated (things_of table.old) (things_of table.new) address
        (mended_thing (moved_to moves.now) (things_of table.old address)) }
    ensures same { HasSameStarts table.old table.new }
{
    for slot in 0..table.slots(address) {
        fix_slot(table, address, slot, moves);
    }
}

// Mends one reference of the object that starts there.
fn fix_slot(table: &mut Table, address: u32, slot: u32, moves: &Moves)
    requires slot { slot < length (refs_in (things_of table.old address)) }
    requires reference { IsReference (slice_index (refs_in (things_of table.old address)) slot) }
    ensures mended { Updated (things_of table.old) (things_of table.new) address
        (option_map (with_refs (word_mended (moved_to moves.now) slot)) (things_of table.old address)) }
    ensures same { HasSameStarts table.old table.new }
{
    // It is a table: so the word in the slot's place is the object's reference.
    let _ = table.geometry();
    let place = table.slot_place(address, slot);
    if let Some(word) = mended(table.word(place), moves) {
        table.set_word(place, word);
    }
}

// The word that leads to where the target of this one went, or None if the word stays: it is null, or its target did not move.
fn mended(word: u64, moves: &Moves) -> Option<u64>
    requires { IsReference word }
    ensures { unwrap_or result word ≡ word_to (moved_to moves.now) word }
{
    let to = moves.to(target_of(word)?)?;
    Some(word_of(to))
}

/// Words that led to objects before these were moved may be mended, in roots and in the objects that were carried.
pub fn what_led_to_objects_may_be_mended()
    ensures roots { (t : Table) (words : List ℕ) → IsTable t → All (Finds (things_of t)) words → All IsReference words }
    ensures objects { (t : Table) (middle : Things) (keeps : ℕ → Bool) (to : ℕ → ℕ) → IsTable t
        → ((a : ℕ) → All (Finds (things_of t)) (words_in (things_of t a))) → Carried (things_of t) middle keeps to → AreReferences middle }
{}
