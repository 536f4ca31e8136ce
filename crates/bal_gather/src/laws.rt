//! What the numbers of objects say, in the words of the heap.
ghost use Rattle.std.specs.Prelude.{◌≡◌, ℕ, ◌↔◌, IsSome, IsTrue, List, Some, slice_get};
ghost use Rattle.std.specs.List.{Contains};
ghost use Rattle.bal_barrier.specs.Coverage.{AreRemembered};
ghost use Rattle.bal_base.specs.Bits.{IsAscending};
ghost use Rattle.bal_core.specs.Start.{IsGraph};
ghost use Rattle.bal_layout.specs.References.{word_of};
ghost use Rattle.bal_layout.specs.Regions.{is_in};
ghost use Rattle.bal_table.specs.Table.{IsTable, things_of};
ghost use Rattle.bal_gather.specs.Gathered.{IsGathered, IsHeld, LeadsFromOutside, NoneOverflowed};
ghost use Rattle.bal_gather.specs.Lent.{Lent, is_chosen};
ghost use Rattle.bal_gather.specs.Numbers.{is_start, number_of, starts_of};
ghost use Rattle.bal_gather.specs.Objects.{graph_of, number_behind};
ghost use Rattle.bal_words.specs.Shown.{Finds};

use bal_layout::a_header_has_one_spelling;

/// Just the objects of the chosen regions are listed, by ascending address, and the number of each is its place in the list.
pub fn objects_are_numbered_by_address()
    ensures listed { (l : Lent) (a : ℕ) → IsTable l.table
        → IsTrue (is_in a (starts_of l)) ↔ (IsSome (things_of l.table a) × IsTrue (is_chosen l a)) }
    ensures ascend { (l : Lent) → IsAscending (starts_of l) }
    ensures number { (l : Lent) (a k : ℕ) → IsTable l.table → (number_of l a ≡ Some k) ↔ (slice_get (starts_of l) k ≡ Some a) }
{}

/// What is told of the objects is what an evacuation asks for: their regions are not too old, their words begin with a header
/// of their size and are no more than the largest object has, and their slots hold only objects that have numbers.
pub fn the_objects_are_a_graph()
    ensures { (l : Lent) → IsTable l.table → IsGraph l.table.shape (graph_of l) }
{
    a_header_has_one_spelling();
}

/// A reference that leads to an object has a number exactly if it leads into a chosen region.
pub fn references_into_chosen_regions_have_numbers()
    ensures { (l : Lent) (a : ℕ) → IsTable l.table → Finds (things_of l.table) (word_of a)
        → IsSome (number_behind l (word_of a)) ↔ IsTrue (is_chosen l a) }
{}

/// If the regions remember all references from other regions, as they do after a flush, and no chosen one has overflowed, then
/// just those objects are gathered that a root or a reference from outside holds, and the places of just these references.
pub fn what_is_held_from_outside_is_gathered()
    ensures held { (l : Lent) (roots held places : List ℕ) (a k : ℕ) → IsTable l.table → AreRemembered l.table → NoneOverflowed l
        → IsGathered l roots held places → number_of l a ≡ Some k → Contains held k ↔ IsHeld l roots a }
    ensures places { (l : Lent) (roots held places : List ℕ) (p : ℕ) → IsTable l.table → AreRemembered l.table → NoneOverflowed l
        → IsGathered l roots held places
        → Contains places p ↔ ((a : ℕ) × LeadsFromOutside l p a × IsTrue (is_start l a)) }
{}

/// The places of what is gathered ascend, so none comes twice, also if several regions list its card.
pub fn gathered_places_ascend()
    ensures { (l : Lent) (roots held places : List ℕ) → IsTable l.table → IsGathered l roots held places → IsAscending places }
{}
