//! Which changes of the heap keep the references between regions covered.
ghost use Rattle.std.specs.Prelude.{◌≡◌, ℕ, ◌+◌, ◌<◌, ◌≤◌, List, Option, Some, length};
ghost use Rattle.bal_cards.specs.Cards.{Cards};
ghost use Rattle.bal_layout.specs.Shape.{IsShape, Shape};
ghost use Rattle.bal_layout.specs.declared.region_state.Role.{Role};
ghost use Rattle.bal_table.specs.Changes.{empty_table, with_current, with_estimate, with_new, with_role, with_word_at};
ghost use Rattle.bal_table.specs.Table.{IsPiece, IsTable, Table, land_at, things_of, value_place};
ghost use Rattle.bal_words.specs.Things.{Thing};
ghost use Rattle.bal_barrier.specs.Coverage.{IsCovered};
ghost use Rattle.bal_barrier.specs.Flush.{LeadToObjects};
ghost use Rattle.bal_layout.specs.declared.region_state.RegionState.{RegionState};

/// In a new table there is no reference.
pub fn a_new_table_is_covered()
    ensures found { (s : Shape) → IsShape s → LeadToObjects (empty_table s) }
    ensures covered { (s : Shape) (c : Cards) → IsShape s → IsCovered (empty_table s) c }
{}

/// A new object's references are null, so they need no card.
pub fn a_new_object_is_covered()
    ensures found { (t : Table) (q first second words : ℕ) → IsTable t → IsPiece t.shape first second words → q < t.shape.regions
        → (land_at t q).used + words ≤ t.shape.words → IsTable (with_new t q first second words)
        → LeadToObjects t → LeadToObjects (with_new t q first second words) }
    ensures covered { (t : Table) (c : Cards) (q first second words : ℕ) → IsTable t → IsPiece t.shape first second words → q < t.shape.regions
        → (land_at t q).used + words ≤ t.shape.words → IsTable (with_new t q first second words)
        → IsCovered t c → IsCovered (with_new t q first second words) c }
{}

/// What regions are used for, how much of them is thought to be alive, and which one is current, says nothing of
/// references.
pub fn states_say_nothing_of_references()
    ensures found { (t : Table) (regions : List RegionState) (current : Option ℕ) → LeadToObjects t
        → LeadToObjects (record t { regions = regions; current = current }) }
    ensures role { (t : Table) (c : Cards) (q : ℕ) (role : Role) → IsCovered t c → IsCovered (with_role t q role) c }
    ensures estimate { (t : Table) (c : Cards) (q words : ℕ) → IsCovered t c → IsCovered (with_estimate t q words) c }
    ensures current { (t : Table) (c : Cards) (q : Option ℕ) → IsCovered t c → IsCovered (with_current t q) c }
{}

/// A number that is written leaves all references as they are.
pub fn a_written_number_covers_nothing()
    ensures { (t : Table) (c : Cards) (a slot number : ℕ) (x : Thing) → IsTable t → things_of t a ≡ Some x → slot < length x.values
        → IsCovered t c → IsCovered (with_word_at t (value_place t a slot) number) c }
{}
