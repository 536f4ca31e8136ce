//! What is seen of one object whose words are written.
ghost use Rattle.std.specs.Prelude.{◌≡◌, ℕ, ◌+◌, ◌<◌, ◌≤◌, ◌∷◌, List, replicate, slice_set};
ghost use Rattle.bal_layout.specs.declared.header.Header.{Header};
ghost use Rattle.bal_layout.specs.Header.{header_of};
ghost use Rattle.bal_words.specs.Pieces.{header_in, piece, spine};
ghost use Rattle.bal_words.specs.Things.{blank_thing, with_ref, with_value};

/// After an object's header and name come its references, and after them its numbers: a word that is written there is
/// one of them, and leaves the others and the header as they were. Zero words are a new object.
pub fn an_object_is_written_word_by_word()
    ensures reference { (h : Header) (words : List ℕ) (slot word : ℕ) → slot < h.refs
        → piece h (slice_set words (2 + slot) word) ≡ with_ref slot word (piece h words) }
    ensures number { (h : Header) (words : List ℕ) (slot number : ℕ) → slot < h.values
        → piece h (slice_set words (2 + h.refs + slot) number) ≡ with_value slot number (piece h words) }
    ensures leaf { (h : Header) (leaf_words : List ℕ) (slot word : ℕ) → slot < h.refs
        → spine h (slice_set leaf_words slot word) ≡ with_ref slot word (spine h leaf_words) }
    ensures header { (words : List ℕ) (place word : ℕ) → 2 ≤ place → header_in (slice_set words place word) ≡ header_in words }
    ensures blank { (h : Header) (first second : ℕ)
        → piece h (first ∷ second ∷ replicate (h.refs + h.values) 0) ≡ blank_thing h.name h.kind h.refs h.values }
    ensures blank_header { (first second : ℕ) (words : List ℕ) → header_in (first ∷ second ∷ words) ≡ header_of first second }
{}
