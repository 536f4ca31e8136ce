//! What is read from the words is what the plain state has.
ghost use Rattle.std.specs.Prelude.{◌≡◌, ℕ, ◌<◌, ◌↔◌, IsTrue, List, Some, length, slice_index_or};
ghost use Rattle.bal_meet.specs.Decode.{Decodes};
ghost use Rattle.bal_rules.specs.Board.{Placed};
ghost use Rattle.bal_model.specs.Entries.{Spot};
ghost use Rattle.bal_model.specs.Plain.{State, global, reference, reference_count, register, value, value_count};
ghost use Rattle.bal_roots.specs.Roots.{global_place, register_place};
ghost use Rattle.bal_layout.specs.Names.{is_among};
ghost use Rattle.bal_model.specs.Walk.{reachable};
ghost use Rattle.bal_words.specs.Paths.{EndsPath};
ghost use Rattle.bal_words.specs.Shown.{Finds, name_behind};
ghost use Rattle.bal_words.specs.Things.{Thing, Things};

/// A root's word is null or leads to an object that starts in the heap, and that is the one which the plain state's register
/// or global holds.
pub fn a_root_is_read_from_its_word()
    ensures register { (spot : ℕ → Spot) (things : Things) (roots : List ℕ) (s : State) (present : List Placed) (t r : ℕ)
        → Decodes spot things roots s present → t < 32 → r < 32
        → (register s t r ≡ name_behind things (slice_index_or roots (register_place t r) 0))
        × Finds things (slice_index_or roots (register_place t r) 0) }
    ensures global { (spot : ℕ → Spot) (things : Things) (roots : List ℕ) (s : State) (present : List Placed) (g : ℕ)
        → Decodes spot things roots s present → g < 64
        → (global s g ≡ name_behind things (slice_index_or roots (global_place g) 0))
        × Finds things (slice_index_or roots (global_place g) 0) }
{}

/// What the plain state has of an object is read from its words.
pub fn an_object_of_the_plain_state_is_read_from_its_words()
    ensures references { (spot : ℕ → Spot) (things : Things) (roots : List ℕ) (s : State) (present : List Placed) (a : ℕ) (x : Thing)
        → Decodes spot things roots s present → things a ≡ Some x → reference_count s x.name ≡ length x.refs }
    ensures reference { (spot : ℕ → Spot) (things : Things) (roots : List ℕ) (s : State) (present : List Placed) (a slot : ℕ) (x : Thing)
        → Decodes spot things roots s present → things a ≡ Some x → slot < length x.refs
        → (reference s x.name slot ≡ name_behind things (slice_index_or x.refs slot 0)) × Finds things (slice_index_or x.refs slot 0) }
    ensures numbers { (spot : ℕ → Spot) (things : Things) (roots : List ℕ) (s : State) (present : List Placed) (a : ℕ) (x : Thing)
        → Decodes spot things roots s present → things a ≡ Some x → value_count s x.name ≡ length x.values }
    ensures number { (spot : ℕ → Spot) (things : Things) (roots : List ℕ) (s : State) (present : List Placed) (a slot : ℕ) (x : Thing)
        → Decodes spot things roots s present → things a ≡ Some x → value s x.name slot ≡ slice_index_or x.values slot 0 }
{}

/// A path over words ends at an object exactly if a walk over references does in the plain state: what a marker reaches is
/// what is reachable.
pub fn a_path_ends_where_a_walk_does()
    ensures { (spot : ℕ → Spot) (things : Things) (roots : List ℕ) (s : State) (present : List Placed) (a : ℕ) (x : Thing)
        → Decodes spot things roots s present → things a ≡ Some x → (EndsPath things roots a ↔ IsTrue (is_among x.name (reachable s))) }
{}
