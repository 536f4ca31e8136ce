//! What a region's objects are, by the offsets at which they start, and which of them each change touches.
ghost use Rattle.std.specs.Prelude.{◌≡◌, ◌+◌, ◌<◌, ◌≤◌, ◌↔◌, ◌⊎◌, ℕ, List, None, Some, IsTrue, length, slice_set};
ghost use Rattle.bal_layout.specs.declared.header.Header.{Header};
ghost use Rattle.bal_layout.specs.Header.{header_of, size_in};
ghost use Rattle.bal_words.specs.Things.{Updated};
ghost use Rattle.bal_region.specs.Changes.{MaySlide, blank_words, cut_short, empty_land, with_number, with_object, with_slid, with_word, without};
ghost use Rattle.bal_region.specs.Land.{IsBehindHeaders, IsLand, IsObject, Land, first_from, holder_of, object_at, starts_at};

/// Each object lies among the words that were given out and begins with a header of its size, and no two objects share a
/// word.
pub fn objects_do_not_overlap()
    ensures object { (l : Land) (at : ℕ) (object : List ℕ) → IsLand l → object_at l at ≡ Some object
        → IsTrue (starts_at l at) × IsObject (length l.words) object × (at + length object ≤ l.used) }
    ensures apart { (l : Land) (a b : ℕ) (object other : List ℕ) → IsLand l → object_at l a ≡ Some object → object_at l b ≡ Some other
        → a < b → a + length object ≤ b }
{}

/// The holder of an offset is the one object that has a word there.
pub fn a_word_has_one_holder()
    ensures holder { (l : Land) (s offset : ℕ) → IsLand l
        → (holder_of l offset ≡ Some s) ↔ ((object : List ℕ) × ((object_at l s ≡ Some object) × (s ≤ offset) × (offset < s + length object))) }
    ensures none { (l : Land) (s offset : ℕ) (object : List ℕ) → IsLand l → holder_of l offset ≡ None → object_at l s ≡ Some object
        → (offset < s) ⊎ (s + length object ≤ offset) }
{}

/// Whoever asks for the first object from an offset on, and then for the first one after that, goes over all objects in
/// ascending order.
pub fn objects_are_found_in_order()
    ensures first { (l : Land) (offset s : ℕ) → IsLand l
        → (first_from l offset ≡ Some s) ↔ (IsTrue (starts_at l s) × (offset ≤ s) × ((t : ℕ) → IsTrue (starts_at l t) → offset ≤ t → s ≤ t)) }
    ensures none { (l : Land) (offset s : ℕ) → first_from l offset ≡ None → IsTrue (starts_at l s) → s < offset }
{}

/// What `place_new` wants of a new object's words holds if its first two are a header's and it has that header's size.
pub fn a_new_object_has_its_size()
    ensures two { (room : ℕ) (h : Header) → 2 ≤ size_in room h }
    ensures object { (room first second words : ℕ) (h : Header) → header_of first second ≡ Some h → size_in room h ≡ words
        → IsObject room (blank_words first second words) }
{}

/// If an object is placed, none started, and all others stay.
pub fn a_placed_object_is_the_only_change()
    ensures free { (l : Land) → IsLand l → object_at l l.used ≡ None }
    ensures placed { (l : Land) (object : List ℕ) → IsLand l → IsObject (length l.words) object → l.used + length object ≤ length l.words
        → Updated (object_at l) (object_at (with_object l object)) l.used (Some object) }
    ensures land { (l : Land) (object : List ℕ) → IsLand l → IsObject (length l.words) object → l.used + length object ≤ length l.words
        → IsLand (with_object l object) }
{}

/// A word that is written after an object's header and name is written in that object, and all others stay. A word that no
/// object has is no header's, and changes no object.
pub fn a_written_word_is_the_only_change()
    ensures behind { (l : Land) (s k : ℕ) (object : List ℕ) → IsLand l → object_at l s ≡ Some object → 2 ≤ k → k < length object
        → IsBehindHeaders l (s + k) }
    ensures inside { (l : Land) (s k word : ℕ) (object : List ℕ) → IsLand l → object_at l s ≡ Some object → 2 ≤ k → k < length object
        → Updated (object_at l) (object_at (with_word l (s + k) word)) s (Some (slice_set object k word)) }
    ensures free { (l : Land) (offset : ℕ) → IsLand l → holder_of l offset ≡ None → IsBehindHeaders l offset }
    ensures outside { (l : Land) (offset word at : ℕ) → IsLand l → holder_of l offset ≡ None
        → object_at (with_word l offset word) at ≡ object_at l at }
    ensures land { (l : Land) (offset word : ℕ) → IsLand l → IsBehindHeaders l offset → IsLand (with_word l offset word) }
{}

/// If an object is taken away, none starts any more, and all others stay.
pub fn a_removed_object_is_the_only_change()
    ensures removed { (l : Land) (at : ℕ) → Updated (object_at l) (object_at (without l at)) at None }
    ensures land { (l : Land) (at : ℕ) → IsLand l → IsLand (without l at) }
{}

/// If an object is moved, it starts with the same words at its new place, where none started but itself, and all others
/// stay.
pub fn a_slid_object_is_the_only_change()
    ensures free { (l : Land) (from to : ℕ) → IsLand l → MaySlide l from to → (object_at l to ≡ None) ⊎ (to ≡ from) }
    ensures here { (l : Land) (from to : ℕ) → IsLand l → MaySlide l from to → object_at (with_slid l from to) to ≡ object_at l from }
    ensures gone { (l : Land) (from to : ℕ) → IsLand l → MaySlide l from to → (to ≡ from → ⊥) → object_at (with_slid l from to) from ≡ None }
    ensures others { (l : Land) (from to at : ℕ) → IsLand l → MaySlide l from to → (at ≡ from → ⊥) → (at ≡ to → ⊥)
        → object_at (with_slid l from to) at ≡ object_at l at }
    ensures land { (l : Land) (from to : ℕ) → IsLand l → MaySlide l from to → IsLand (with_slid l from to) }
{}

/// A region that is cut short has the same objects, and the words that it gives out end with the last one.
pub fn a_region_is_cut_to_its_objects()
    ensures objects { (l : Land) (at : ℕ) → object_at (cut_short l) at ≡ object_at l at }
    ensures within { (l : Land) (at : ℕ) (object : List ℕ) → IsLand l → object_at l at ≡ Some object → at + length object ≤ (cut_short l).used }
    ensures last { (l : Land) → IsLand l → ((cut_short l).used ≡ 0)
        ⊎ ((at : ℕ) × (object : List ℕ) × (object_at l at ≡ Some object) × (at + length object ≡ (cut_short l).used)) }
    ensures less { (l : Land) → IsLand l → (cut_short l).used ≤ l.used }
    ensures land { (l : Land) → IsLand l → IsLand (cut_short l) }
{}

/// An empty region has no object, and a region's number says nothing of its objects.
pub fn an_empty_region_has_no_object()
    ensures empty { (number words at : ℕ) → object_at (empty_land number words) at ≡ None }
    ensures land { (number words : ℕ) → IsLand (empty_land number words) }
    ensures numbered { (l : Land) (number at : ℕ) → object_at (with_number l number) at ≡ object_at l at }
{}
