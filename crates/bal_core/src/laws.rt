//! What the invariant means, as laws over all states in which it holds, and over all events: each is an empty function whose
//! contract is the law.
ghost use Rattle.std.specs.Prelude.{◌≡◌, ◌+◌, ◌<◌, ◌≤◌, ◌↔◌, ℕ, List, None, Some};
ghost use Rattle.bal_core.specs.declared.event.CoreEvent.{CoreEvent};
ghost use Rattle.bal_core.specs.declared.event.Decision.{Decision};
ghost use Rattle.bal_core.specs.declared.event.Decision.TheVariants as decision;
ghost use Rattle.bal_core.specs.World.{State, row_of, size_of, word_of};
ghost use Rattle.bal_core.specs.Steps.{after, after_all, fault_of, used};
ghost use Rattle.bal_core.specs.Core.{IsCore, Wins};
ghost use Rattle.bal_core.specs.Rest.{EndsDecidedWalk, EndsWalk, IsAtRest, IsDecided};
ghost use Rattle.bal_core.specs.Finished.{AreApart, IsCopyOver, IsEvacuated, evacuation_of};

/// The invariant holds after each step that is not refused, and after every list of steps, whoever takes them.
pub fn the_invariant_holds_in_every_order()
    ensures step { (s : State) (e : CoreEvent) → IsCore s → fault_of s e ≡ None → IsCore (after e s) }
    ensures steps { (s : State) (events : List CoreEvent) → IsCore s → IsCore (after_all events s) }
{}

/// What was decided of an object is never decided anew.
pub fn decisions_stay()
    ensures { (s : State) (events : List CoreEvent) (k : ℕ) (d : Decision) → word_of s k ≡ Some d → word_of (after_all events s) k ≡ Some d }
{}

/// No garbage is kept: each decided object ends a walk of decided objects that begins at a root.
pub fn decided_objects_end_walks_of_decided_objects()
    ensures { (s : State) (k : ℕ) → IsCore s → IsDecided s k → EndsDecidedWalk s k }
{}

/// If each root and each target of a decided object is decided, then exactly the objects that a walk from a root reaches are.
pub fn at_rest_just_what_is_reached_is_decided()
    ensures { (s : State) (k : ℕ) → IsCore s → IsAtRest s → IsDecided s k ↔ EndsWalk s.world k }
{}

/// No two copies have a word in common, whoever made them.
pub fn copies_do_not_overlap()
    ensures { (s : State) (n m i j k l a b : ℕ) → IsCore s → Wins s n i k (decision.Copied a) → Wins s m j l (decision.Copied b)
        → (k ≡ l → ⊥) → AreApart a (size_of s.world k) b (size_of s.world l) }
{}

/// Copies leave no gaps: each word of a region below its first free word belongs to a copy that the region's worker made.
pub fn copies_leave_no_gaps()
    ensures { (s : State) (n region word : ℕ) → IsCore s → word < used s.world region (row_of s n).won → IsCopyOver s n region word }
{}

/// A state at rest shows a finished evacuation, with all that the rest of a partial collection needs of it.
pub fn a_state_at_rest_is_a_finished_evacuation()
    ensures { (s : State) → IsCore s → IsAtRest s → IsEvacuated (evacuation_of s) }
{}
