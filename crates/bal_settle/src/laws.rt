//! What a table is once the chosen regions were settled.
ghost use Rattle.std.specs.Prelude.{◌≡◌, ℕ, ◌<◌, ◌↔◌, IsTrue, List, None, false, map, if◌then◌else◌};
ghost use Rattle.std.specs.List.{sum_by};
ghost use Rattle.bal_layout.specs.Addresses.{region_of};
ghost use Rattle.bal_layout.specs.Regions.{all_regions, freed, is_in};
ghost use Rattle.bal_settle.specs.Settled.{MaySettle, is_lost, lost_regions, marked_in, settled, state_settled, words_at};
ghost use Rattle.bal_sweep.specs.Sweep.{left_at, words_of};
ghost use Rattle.bal_table.specs.Slots.{IsSlot};
ghost use Rattle.bal_table.specs.Table.{IsTable, Table, land_at, things_of, word_at};

/// In the chosen regions just the marked objects are left, where they were and as they were, and all others stay. The states of
/// the regions are those of the rules. No region takes new objects.
pub fn a_settled_table_keeps_just_the_marked()
    ensures objects { (t : Table) (chosen marked : List ℕ) → IsTable t → MaySettle t chosen marked → (a : ℕ)
        → things_of (settled chosen marked t) a ≡ (if is_in (region_of t.shape a) chosen then (if is_in a marked then things_of t a else None) else things_of t a) }
    ensures regions { (t : Table) (chosen marked : List ℕ) → (settled chosen marked t).regions
        ≡ freed t.shape (lost_regions t.shape chosen marked) (map (state_settled chosen marked t) (all_regions t.regions)) }
    ensures slots { (t : Table) (chosen marked : List ℕ) → IsTable t → MaySettle t chosen marked → (a i p : ℕ) → region_of t.shape a < t.shape.regions
        → (IsTrue (is_in (region_of t.shape a) chosen) → IsTrue (is_in a marked)) → IsSlot (settled chosen marked t) a i p ↔ IsSlot t a i p }
    ensures words { (t : Table) (chosen marked : List ℕ) → IsTable t → MaySettle t chosen marked → (a i p : ℕ) → IsSlot t a i p
        → (IsTrue (is_in (region_of t.shape a) chosen) → IsTrue (is_in a marked)) → word_at (settled chosen marked t) p ≡ word_at t p }
    ensures used { (t : Table) (chosen marked : List ℕ) → IsTable t → (q : ℕ) → q < t.shape.regions
        → (IsTrue (is_in q chosen) → is_lost t.shape marked q ≡ false) → (land_at (settled chosen marked t) q).used ≡ (land_at t q).used }
    ensures estimate { (t : Table) (chosen marked : List ℕ) → IsTable t → MaySettle t chosen marked → (q : ℕ) → q < t.shape.regions
        → words_of (left_at marked t q) ≡ sum_by (words_at t) (marked_in t.shape q marked) }
    ensures current { (t : Table) (chosen marked : List ℕ) → (settled chosen marked t).current ≡ None }
    ensures shape { (t : Table) (chosen marked : List ℕ) → (settled chosen marked t).shape ≡ t.shape }
{}
