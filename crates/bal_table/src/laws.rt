//! What the objects of a table are, by the addresses at which they start, and which of them each change touches.
ghost use Rattle.std.specs.Prelude.{◌≡◌, ℕ, ◌+◌, ◌*◌, ◌<◌, ◌≤◌, ◌↔◌, ◌⊎◌, Bool, List, [], Option, Some, None, IfSome, IsSome, IsTrue, length, slice_get, slice_set, false, true};
ghost use Rattle.std.specs.List.{Contains};
ghost use Rattle.bal_base.specs.Bits.{IsAscending};
ghost use Rattle.bal_layout.specs.Addresses.{IsAddress, address_in, card_of, offset_of, region_of};
ghost use Rattle.bal_layout.specs.Graph.{Graph};
ghost use Rattle.bal_layout.specs.Header.{header_of, size_in, size_of_parts};
ghost use Rattle.bal_layout.specs.Regions.{emptied, free_regions, is_free, is_in, is_object, region_at};
ghost use Rattle.bal_layout.specs.Shape.{Shape, IsShape, largest_of};
ghost use Rattle.bal_layout.specs.declared.header.Header.{Header};
ghost use Rattle.bal_layout.specs.declared.name.Kind.TheVariants.{Spine};
ghost use Rattle.bal_region.specs.Changes.{cut_short};
ghost use Rattle.bal_region.specs.Land.{IsLand, Land, object_at, starts_at};
ghost use Rattle.bal_remember.specs.Remembered.{Remembered, cards};
ghost use Rattle.bal_words.specs.Moved.{Carried, Redirected, Relocated};
ghost use Rattle.bal_words.specs.Shown.{Shows};
ghost use Rattle.bal_words.specs.Things.{Thing, Things, Updated, blank_thing, with_ref, with_value};
ghost use Rattle.bal_table.specs.Changes.{MayBeCurrent, MayBeWritten, MayCarry, MayMoveDown, empty_table, object_words, with_carried, with_current, with_cut, with_estimate, with_freed, with_new, with_remembered, with_role, with_slid_object, with_word_at, without_object};
ghost use Rattle.bal_table.specs.Occupied.{IsOccupied, IsVacant, MayPutBack, Occupied, vacated, with_put_back};
ghost use Rattle.bal_table.specs.Slots.{IsSlot, card_places, slot_at, slots_on};
ghost use Rattle.bal_table.specs.declared.slots.Slot.{Slot};
ghost use Rattle.bal_table.specs.Table.{IsPiece, IsRole, IsTable, Table, estimate_at, holder_at, land_at, objects_of, role_at, slot_place, things_of, value_place, word_at};
ghost use Rattle.bal_layout.specs.declared.region_state.RegionState.{RegionState};
ghost use Rattle.bal_layout.specs.declared.region_state.Role.{Role};
ghost use Rattle.bal_layout.specs.declared.region_state.Role.TheVariants.{Object};

use bal_words::moved::objects_are_carried_one_by_one;

/// Each object lies among the words that its region has given out, and no two objects share a word. It takes as many words
/// as its kind and its slots do, and no more than the largest object may.
pub fn objects_of_a_table_do_not_overlap()
    ensures object { (t : Table) (a : ℕ) (object : List ℕ) → IsTable t → objects_of t a ≡ Some object
        → IsAddress t.shape a × (a + length object ≤ address_in t.shape (region_of t.shape a) (land_at t (region_of t.shape a)).used) }
    ensures apart { (t : Table) (a b : ℕ) (object other : List ℕ) → IsTable t → objects_of t a ≡ Some object → objects_of t b ≡ Some other
        → a < b → a + length object ≤ b }
    ensures size { (t : Table) (a : ℕ) (x : Thing) → IsTable t → things_of t a ≡ Some x
        → (object : List ℕ) × (objects_of t a ≡ Some object)
        × (length object ≡ size_of_parts t.shape.words x.kind (length x.refs) (length x.values)) × (length object ≤ largest_of t.shape) }
{}

/// Whatever starts in a region is an object.
pub fn what_starts_is_an_object()
    ensures start { (t : Table) (q at : ℕ) → IsTable t → q < t.shape.regions → starts_at (land_at t q) at ≡ true
        → IsSome (things_of t (address_in t.shape q at)) }
    ensures object { (t : Table) (a : ℕ) (object : List ℕ) → IsTable t → objects_of t a ≡ Some object → IsSome (things_of t a) }
{}

/// The holder of a word is the one object that has it.
pub fn a_word_of_a_table_has_one_holder()
    ensures holder { (t : Table) (p a : ℕ) → IsTable t
        → (holder_at t p ≡ Some a) ↔ ((object : List ℕ) × ((objects_of t a ≡ Some object) × (a ≤ p) × (p < a + length object))) }
    ensures none { (t : Table) (p a : ℕ) (object : List ℕ) → IsTable t → holder_at t p ≡ None → objects_of t a ≡ Some object
        → (p < a) ⊎ (a + length object ≤ p) }
{}

/// A slot's word is read where the slot lies, that is a word of no other object, and it may be written.
pub fn a_slot_lies_in_its_object()
    ensures reference { (t : Table) (a slot : ℕ) (x : Thing) → IsTable t → things_of t a ≡ Some x → slot < length x.refs
        → IsAddress t.shape (slot_place t a slot) × MayBeWritten t (slot_place t a slot)
        × (slice_get x.refs slot ≡ Some (word_at t (slot_place t a slot))) × (holder_at t (slot_place t a slot) ≡ Some a) }
    ensures number { (t : Table) (a slot : ℕ) (x : Thing) → IsTable t → things_of t a ≡ Some x → slot < length x.values
        → IsAddress t.shape (value_place t a slot) × MayBeWritten t (value_place t a slot)
        × (slice_get x.values slot ≡ Some (word_at t (value_place t a slot))) × (holder_at t (value_place t a slot) ≡ Some a) }
{}

/// Each reference of an object has a slot, and a slot has a place of its own, at which no other slot and no number lies. The
/// slots of an object ascend.
pub fn a_slot_has_a_place_of_its_own()
    ensures slot { (t : Table) (a i : ℕ) (x : Thing) → IsTable t → things_of t a ≡ Some x → i < length x.refs → IsSlot t a i (slot_place t a i) }
    ensures reference { (t : Table) (a i p : ℕ) → IsTable t → IsSlot t a i p
        → (x : Thing) × ((things_of t a ≡ Some x) × (slice_get x.refs i ≡ Some (word_at t p)) × (slot_place t a i ≡ p)) }
    ensures own { (t : Table) (a b i j p : ℕ) → IsTable t → IsSlot t a i p → IsSlot t b j p → (a ≡ b) × (i ≡ j) }
    ensures no_number { (t : Table) (a i p b j : ℕ) (x : Thing) → IsTable t → IsSlot t a i p → things_of t b ≡ Some x → j < length x.values
        → value_place t b j ≡ p → ⊥ }
    ensures ascend { (t : Table) (a i j p r : ℕ) → IsSlot t a i p → IsSlot t a j r → i < j → p < r }
{}

/// The slot at a place is found from the place alone, and those on a card are listed.
pub fn a_slot_is_found_by_its_place()
    ensures found { (t : Table) (p : ℕ) (s : Slot) → IsTable t → (slot_at t p ≡ Some s) ↔ IsSlot t s.holder s.number p }
    ensures card { (t : Table) (card p : ℕ) → IsTable t
        → IsTrue (is_in p (card_places t card)) ↔ ((s : Slot) × (IsSlot t s.holder s.number p × (card_of p ≡ card))) }
{}

/// The slots on a card are exactly those that lie there, and each is listed once, since their places ascend.
pub fn the_slots_on_a_card_are_those_that_lie_there()
    ensures listed { (t : Table) (card : ℕ) (s : Slot) → IsTable t
        → Contains (slots_on t card) s ↔ ((p : ℕ) × (IsSlot t s.holder s.number p × (card_of p ≡ card))) }
    ensures place { (t : Table) (card : ℕ) (s : Slot) → IsTable t → Contains (slots_on t card) s
        → IsSlot t s.holder s.number (slot_place t s.holder s.number) × (card_of (slot_place t s.holder s.number) ≡ card) }
    ensures ascend { (t : Table) (card : ℕ) → IsTable t → IsAscending (card_places t card) }
{}

/// If a slot is written, its object has another reference or number, and all others stay. Whatever word is written, all
/// slots stay where they are.
pub fn a_written_slot_is_the_only_change()
    ensures reference { (t : Table) (a slot word : ℕ) (x : Thing) → IsTable t → things_of t a ≡ Some x → slot < length x.refs
        → Updated (things_of t) (things_of (with_word_at t (slot_place t a slot) word)) a (Some (with_ref slot word x)) }
    ensures number { (t : Table) (a slot number : ℕ) (x : Thing) → IsTable t → things_of t a ≡ Some x → slot < length x.values
        → Updated (things_of t) (things_of (with_word_at t (value_place t a slot) number)) a (Some (with_value slot number x)) }
    ensures table { (t : Table) (address word : ℕ) → IsTable t → IsAddress t.shape address → MayBeWritten t address
        → IsTable (with_word_at t address word) }
    ensures words { (t : Table) (a k word : ℕ) (object : List ℕ) → IsTable t → objects_of t a ≡ Some object → 2 ≤ k → k < length object
        → Updated (objects_of t) (objects_of (with_word_at t (a + k) word)) a (Some (slice_set object k word)) }
    ensures slots { (t : Table) (p word a i q : ℕ) → IsTable t → IsAddress t.shape p → MayBeWritten t p
        → IsSlot (with_word_at t p word) a i q ↔ IsSlot t a i q }
{}

/// At the address at which a new object is placed, none started; its slots are null and zero, and all others stay.
pub fn a_new_object_is_the_only_change()
    ensures free { (t : Table) (q : ℕ) → IsTable t → q < t.shape.regions → (land_at t q).used < t.shape.words
        → things_of t (address_in t.shape q (land_at t q).used) ≡ None }
    ensures placed { (t : Table) (q first second words : ℕ) (piece : IsPiece t.shape first second words) → IsTable t → q < t.shape.regions
        → (land_at t q).used + words ≤ t.shape.words
        → Updated (things_of t) (things_of (with_new t q first second words)) (address_in t.shape q (land_at t q).used)
        (Some (blank_thing piece.header.name piece.header.kind piece.header.refs piece.header.values)) }
    ensures table { (t : Table) (q first second words : ℕ) → IsPiece t.shape first second words → IsTable t → q < t.shape.regions
        → is_object (role_at t q) ≡ true → (land_at t q).used + words ≤ t.shape.words → IsTable (with_new t q first second words) }
{}

/// If an object is taken away, none starts there any more, and all others stay.
pub fn a_removed_object_is_the_only_change_of_a_table()
    ensures removed { (t : Table) (a : ℕ) (x : Thing) → IsTable t → things_of t a ≡ Some x
        → Updated (things_of t) (things_of (without_object t a)) a None }
    ensures table { (t : Table) (a : ℕ) → IsTable t → IsTable (without_object t a) }
{}

/// If an object is moved down in its region, it starts with its words at its new place, where none started but itself, and
/// nothing else is changed. It may be moved over words that no other object has.
pub fn a_moved_object_is_the_only_change()
    ensures may { (t : Table) (from to : ℕ) (object : List ℕ) → IsTable t → objects_of t from ≡ Some object
        → region_of t.shape to ≡ region_of t.shape from → to ≤ from
        → ((b : ℕ) (other : List ℕ) → objects_of t b ≡ Some other → region_of t.shape b ≡ region_of t.shape from → b < from → b + length other ≤ to)
        → MayMoveDown t from to }
    ensures free { (t : Table) (from to : ℕ) → IsTable t → MayMoveDown t from to → (things_of t to ≡ None) ⊎ (to ≡ from) }
    ensures moved { (t : Table) (from to : ℕ) → IsTable t → MayMoveDown t from to
        → Relocated (things_of t) (things_of (with_slid_object t from to)) from to }
    ensures words { (t : Table) (from to : ℕ) → IsTable t → MayMoveDown t from to → objects_of (with_slid_object t from to) to ≡ objects_of t from }
    ensures used { (t : Table) (from to q : ℕ) → IsTable t → MayMoveDown t from to
        → (land_at (with_slid_object t from to) q).used ≡ (land_at t q).used }
    ensures table { (t : Table) (from to : ℕ) → IsTable t → MayMoveDown t from to → IsTable (with_slid_object t from to) }
{}

/// If an object is moved to another region, it starts with its words behind all that were given out there, where none
/// started, and nothing else is changed. That region gives out so many words more, and all others as many as before.
pub fn a_carried_object_is_the_only_change()
    ensures object { (t : Table) (a : ℕ) (object : List ℕ) → objects_of t a ≡ Some object → object_words t a ≡ object }
    ensures free { (t : Table) (from q : ℕ) → IsTable t → MayCarry t from q → things_of t (address_in t.shape q (land_at t q).used) ≡ None }
    ensures moved { (t : Table) (from q : ℕ) → IsTable t → MayCarry t from q
        → Relocated (things_of t) (things_of (with_carried t from q)) from (address_in t.shape q (land_at t q).used) }
    ensures words { (t : Table) (from q : ℕ) → IsTable t → MayCarry t from q
        → objects_of (with_carried t from q) (address_in t.shape q (land_at t q).used) ≡ objects_of t from }
    ensures region { (t : Table) (from q : ℕ) → IsTable t → MayCarry t from q → region_of t.shape (address_in t.shape q (land_at t q).used) ≡ q }
    ensures used { (t : Table) (from q : ℕ) → IsTable t → MayCarry t from q
        → (land_at (with_carried t from q) q).used ≡ (land_at t q).used + length (object_words t from) }
    ensures others { (t : Table) (from q p : ℕ) → IsTable t → MayCarry t from q → (p ≡ q → ⊥)
        → (land_at (with_carried t from q) p).used ≡ (land_at t p).used }
    ensures table { (t : Table) (from q : ℕ) → IsTable t → MayCarry t from q → IsTable (with_carried t from q) }
{}

/// If a region is cut, all objects stay, and the words that it gives out end with its last object.
pub fn a_cut_region_has_its_objects()
    ensures objects { (t : Table) (q a : ℕ) → IsTable t → q < t.shape.regions → (objects_of (with_cut t q) a ≡ objects_of t a)
        × (things_of (with_cut t q) a ≡ things_of t a) }
    ensures behind { (t : Table) (q a : ℕ) (object : List ℕ) → IsTable t → q < t.shape.regions → objects_of t a ≡ Some object
        → region_of t.shape a ≡ q → a + length object ≤ address_in t.shape q (land_at (with_cut t q) q).used }
    ensures last { (t : Table) (q : ℕ) → IsTable t → q < t.shape.regions → ((land_at (with_cut t q) q).used ≡ 0)
        ⊎ ((a : ℕ) × (object : List ℕ) × (objects_of t a ≡ Some object) × (region_of t.shape a ≡ q)
        × (a + length object ≡ address_in t.shape q (land_at (with_cut t q) q).used)) }
    ensures others { (t : Table) (q p : ℕ) → (p ≡ q → ⊥) → (land_at (with_cut t q) p).used ≡ (land_at t p).used }
    ensures table { (t : Table) (q : ℕ) → IsTable t → q < t.shape.regions → estimate_at t q ≤ (cut_short (land_at t q)).used
        → IsTable (with_cut t q) }
{}

/// Objects are moved one by one, in their regions and to others: each step moves one to where none starts, and writes where
/// it went. To cut a region moves nothing.
pub fn objects_of_a_table_are_moved_one_by_one()
    ensures slid { (before : Things) (t : Table) (g : Graph) (keeps : ℕ → Bool) (old new : ℕ → ℕ) (from to : ℕ) (x : Thing)
        → Shows before g → Carried before (things_of t) keeps old → before from ≡ Some x → IsTrue (keeps from) → old from ≡ from
        → IsTable t → MayMoveDown t from to → Redirected old new from to → Carried before (things_of (with_slid_object t from to)) keeps new }
    ensures carried { (before : Things) (t : Table) (g : Graph) (keeps : ℕ → Bool) (old new : ℕ → ℕ) (from q : ℕ) (x : Thing)
        → Shows before g → Carried before (things_of t) keeps old → before from ≡ Some x → IsTrue (keeps from) → old from ≡ from
        → IsTable t → MayCarry t from q → Redirected old new from (address_in t.shape q (land_at t q).used)
        → Carried before (things_of (with_carried t from q)) keeps new }
    ensures cut { (before : Things) (t : Table) (keeps : ℕ → Bool) (to : ℕ → ℕ) (q : ℕ) → IsTable t → q < t.shape.regions
        → Carried before (things_of t) keeps to → Carried before (things_of (with_cut t q)) keeps to }
{
    objects_are_carried_one_by_one();
}

/// A region that is given back has no object any more, and those of all others stay.
pub fn a_freed_region_has_no_object()
    ensures none { (t : Table) (q a : ℕ) → IsTable t → q < t.shape.regions → region_of t.shape a ≡ q → things_of (with_freed t q) a ≡ None }
    ensures others { (t : Table) (q a : ℕ) → (region_of t.shape a ≡ q → ⊥) → things_of (with_freed t q) a ≡ things_of t a }
    ensures table { (t : Table) (q : ℕ) → IsTable t → q < t.shape.regions → (t.current ≡ Some q → ⊥) → IsTable (with_freed t q) }
{}

/// What a region is used for, how many of its words are thought to be alive, what is remembered of it, and which region is
/// current, say nothing of the objects and of their slots. The current region is eden, a region without objects has given
/// out no word, nothing is remembered of a free one, and no more words are thought to be alive than were given out.
pub fn states_say_nothing_of_objects()
    ensures objects { (t : Table) (q a words : ℕ) (role : Role) (current : Option ℕ) → (things_of (with_role t q role) a ≡ things_of t a)
        × (things_of (with_estimate t q words) a ≡ things_of t a) × (things_of (with_current t current) a ≡ things_of t a) }
    ensures remembered { (t : Table) (q a : ℕ) (list : Remembered) → things_of (with_remembered t q list) a ≡ things_of t a }
    ensures slots { (t : Table) (regions : List RegionState) (current : Option ℕ) (a i p : ℕ)
        → (IsSlot (record t { regions = regions; current = current }) a i p ↔ IsSlot t a i p)
        × (slot_at (record t { regions = regions; current = current }) p ≡ slot_at t p) }
    ensures role { (t : Table) (q : ℕ) (role : Role) → IsTable t → q < t.shape.regions → IsRole role → (t.current ≡ Some q → role ≡ Object 0)
        → (is_object role ≡ false → (region_at t.regions q).used ≡ 0)
        → (is_free role ≡ true → emptied (region_at t.regions q) ≡ region_at t.regions q) → IsTable (with_role t q role) }
    ensures estimate { (t : Table) (q words : ℕ) → IsTable t → q < t.shape.regions → words ≤ (land_at t q).used → IsTable (with_estimate t q words) }
    ensures list { (t : Table) (q : ℕ) (list : Remembered) → IsTable t → q < t.shape.regions → (is_free (role_at t q) ≡ true → list ≡ cards [])
        → IsTable (with_remembered t q list) }
    ensures current { (t : Table) (current : Option ℕ) → IsTable t → IfSome current (MayBeCurrent t) → IsTable (with_current t current) }
{}

/// An empty table has no object.
pub fn an_empty_table_has_no_object()
    ensures none { (s : Shape) (a : ℕ) → IsShape s → things_of (empty_table s) a ≡ None }
    ensures table { (s : Shape) → IsShape s → IsTable (empty_table s) }
{}

/// While the free regions of a table are out, it has the same objects. What comes out are its free regions, which have no
/// object, and have given out no word.
pub fn a_table_has_its_objects_while_free_regions_are_out()
    ensures objects { (t : Table) (a : ℕ) → IsTable t → objects_of (vacated t) a ≡ objects_of t a }
    ensures things { (t : Table) (a : ℕ) → IsTable t → things_of (vacated t) a ≡ things_of t a }
    ensures states { (t : Table) → ((vacated t).regions ≡ t.regions) × ((vacated t).current ≡ t.current) }
    ensures occupied { (t : Table) → IsTable t → IsOccupied (record { table = vacated t; out = free_regions t.regions }) }
    ensures vacant { (t : Table) (q : ℕ) → IsTable t → IsTrue (is_in q (free_regions t.regions)) → IsVacant t q (land_at t q) }
{}

/// A region that is put back has its objects, and those of all other regions stay.
pub fn a_region_that_is_put_back_has_its_objects()
    ensures there { (o : Occupied) (l : Land) (role : Role) (a : ℕ) → IsOccupied o → MayPutBack o l role → region_of o.table.shape a ≡ l.number
        → objects_of (with_put_back o l role).table a ≡ object_at l (offset_of o.table.shape a) }
    ensures beside { (o : Occupied) (l : Land) (role : Role) (a : ℕ) → (region_of o.table.shape a ≡ l.number → ⊥)
        → objects_of (with_put_back o l role).table a ≡ objects_of o.table a }
    ensures occupied { (o : Occupied) (l : Land) (role : Role) → IsOccupied o → IsLand l → MayPutBack o l role → IsOccupied (with_put_back o l role) }
{}
