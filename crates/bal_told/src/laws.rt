//! What the journal tells of an evacuation is legal: each law is an empty function whose contract it is.
ghost use Rattle.std.specs.Prelude.{◌≡◌, ◌≤◌, ◌+◌, ◌++◌, ◌∷◌, ℕ, List, [], All, length};
ghost use Rattle.std.specs.List.Sorted.{IsPermutation, IsSortedBy};
ghost use Rattle.bal_core.specs.declared.row.Drawn.{Drawn};
ghost use Rattle.bal_core.specs.Finished.{AreFilled, ArePackedTight, Evacuation, IsEvacuated, IsWithinLimit, LeavesSome, Receives, filled, won_by};
ghost use Rattle.bal_model.specs.declared.config.Config.{Config};
ghost use Rattle.bal_model.specs.declared.event.Kept.{Kept};
ghost use Rattle.bal_rules.specs.Board.{Board, words_of_all};
ghost use Rattle.bal_rules.specs.Packing.{IsEvacuation, IsPacking};
ghost use Rattle.bal_rules.specs.PartialEvents.{IsPartial, destination_age, names_copied_into};
ghost use Rattle.bal_told.specs.OnBoard.{AreNamedApart, IsOfBoard};
ghost use Rattle.bal_told.specs.Telling.{AreTold, IsTellable, causes_of, goes_before, survivors_of, told_by, told_up_to};
ghost use Rattle.bal_told.specs.Whole.{AreWalksOf, IsWhole, MayCollect};
ghost use Rattle.bal_told.specs.Worked.{copied_and_marked, kept_of_them, one_copy, one_eden, one_wish};

/// What each worker decided can be told, and the list of all survivors is what is told worker by worker.
pub fn survivors_are_told_worker_by_worker()
    ensures tellable { (e : Evacuation) (n : ℕ) → IsEvacuated e → All (IsTellable e.world.shape (length e.world.ages)) (won_by e n) }
    ensures none { (e : Evacuation) → told_up_to e 0 ≡ [] }
    ensures more { (e : Evacuation) (n : ℕ) → told_up_to e (n + 1) ≡ told_up_to e n ++ told_by e n }
    ensures all { (e : Evacuation) → told_up_to e (length e.won) ≡ survivors_of e }
    ensures alone { (e : Evacuation) → length e.won ≡ 1 → survivors_of e ≡ told_by e 0 }
{}

/// Once it is sorted by names it is the journal's list, if no two objects have one name.
pub fn sorted_survivors_are_told()
    ensures { (e : Evacuation) (kept : List Kept) → IsEvacuated e → AreNamedApart e.world → IsPermutation (survivors_of e) kept
        → IsSortedBy goes_before kept → AreTold e kept }
{}

/// What one worker leaves that works alone is all that the laws below ask for.
pub fn an_evacuation_by_one_worker_is_whole()
    ensures { (c : Config) (b : Board) (chosen : List ℕ) (e : Evacuation) (kept : List Kept) → IsEvacuated e → ArePackedTight e
        → IsWithinLimit c.abort_after e → LeavesSome e → AreFilled e → IsOfBoard c b chosen e → AreTold e kept → length e.won ≡ 1
        → IsWhole c b chosen e kept }
{}

/// The workers shared the collection as the rules say: who copied where, how densely, and when copying was abandoned.
pub fn an_evacuation_is_packed_by_the_rules()
    ensures { (c : Config) (b : Board) (chosen : List ℕ) (e : Evacuation) (kept : List Kept) → IsWhole c b chosen e kept
        → IsPacking c b chosen (length kept) kept (causes_of e) }
{}

/// It keeps just what walks inside the chosen regions reach, copies go to regions of the pool by age, and they fit there.
pub fn an_evacuation_is_a_legal_partial_collection()
    ensures { (c : Config) (b : Board) (chosen : List ℕ) (e : Evacuation) (kept : List Kept) → IsWhole c b chosen e kept
        → MayCollect c b chosen → AreWalksOf b chosen e → IsPartial c b chosen (length kept) kept }
{}

/// So it is a legal partial collection, as its workers made it.
pub fn a_told_evacuation_is_legal()
    ensures { (c : Config) (b : Board) (chosen : List ℕ) (e : Evacuation) (kept : List Kept) → IsWhole c b chosen e kept
        → MayCollect c b chosen → AreWalksOf b chosen e → IsEvacuation c b chosen (length kept) kept (causes_of e) }
{}

/// A region that was drawn has the age of the draw and the words that its worker put there, as the rules see it by the journal's
/// list. One that was not drawn has no copies.
pub fn a_region_of_copies_is_as_it_was_drawn()
    ensures words { (c : Config) (b : Board) (chosen : List ℕ) (e : Evacuation) (kept : List Kept) → IsWhole c b chosen e kept
        → (n i : ℕ) (d : Drawn) → Receives e n i d → words_of_all c b (names_copied_into kept d.region) ≡ filled e n d }
    ensures age { (c : Config) (b : Board) (chosen : List ℕ) (e : Evacuation) (kept : List Kept) → IsWhole c b chosen e kept
        → (n i : ℕ) (d : Drawn) → Receives e n i d → 1 ≤ filled e n d → destination_age b kept d.region ≡ d.age }
    ensures others { (c : Config) (b : Board) (chosen : List ℕ) (e : Evacuation) (kept : List Kept) → IsWhole c b chosen e kept
        → (q : ℕ) → ((n i : ℕ) (d : Drawn) → Receives e n i d → d.region ≡ q → ⊥) → names_copied_into kept q ≡ [] }
{}

/// All that these laws ask for can be met: a small evacuation with a copy and a marked object does.
pub fn what_the_laws_ask_for_can_be_met()
    ensures whole { IsWhole one_copy one_eden (0 ∷ []) copied_and_marked kept_of_them }
    ensures begins { MayCollect one_copy one_eden (0 ∷ []) }
    ensures walks { AreWalksOf one_eden (0 ∷ []) copied_and_marked }
    ensures causes { causes_of copied_and_marked ≡ one_wish }
{}
