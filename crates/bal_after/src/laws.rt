//! What a partial collection leaves on the board, by the decisions of its workers: each law is an empty function whose contract
//! it is.
ghost use Rattle.std.specs.Prelude.{◌≡◌, ◌≤◌, ◌==◌, ℕ, true, false, List, [], ◌∷◌, Some, filter, length};
ghost use Rattle.std.specs.List.{sum_by};
ghost use Rattle.bal_layout.specs.Names.{is_among};
ghost use Rattle.bal_layout.specs.Regions.{is_in, region_at};
ghost use Rattle.bal_layout.specs.declared.name.Name.{Name};
ghost use Rattle.bal_core.specs.World.{At, size_of};
ghost use Rattle.bal_core.specs.declared.event.Decision.{Decision};
ghost use Rattle.bal_core.specs.declared.row.Drawn.{Drawn};
ghost use Rattle.bal_core.specs.Finished.{Evacuation, Receives, Survives, filled};
ghost use Rattle.bal_model.specs.Ascending.{IsAscending};
ghost use Rattle.bal_model.specs.declared.config.Config.{Config};
ghost use Rattle.bal_model.specs.declared.event.Kept.{Kept};
ghost use Rattle.bal_rules.specs.Board.{Board, Placed, is_empty, names_placed, place_of, words_of_all};
ghost use Rattle.bal_rules.specs.PartialEvents.{names_lost, names_marked_in, placed_after_partial, region_after_partial};
ghost use Rattle.bal_rules.specs.PartialEvents.{region_as_kept, regions_emptied};
ghost use Rattle.bal_told.specs.Telling.{how_of};
ghost use Rattle.bal_told.specs.Whole.{IsWhole};
ghost use Rattle.bal_told.specs.Worked.{copied_and_marked, one_eden};
ghost use Rattle.bal_after.specs.Asked.{AreInUse, AreMarkedIn, GotNoCopy, HasNoLeaves, IsLeft, passed_by, with_copies};

/// Of the present objects just those of the chosen regions that no worker decided are lost.
pub fn just_what_was_not_decided_is_lost()
    ensures outside { (c : Config) (b : Board) (chosen : List ℕ) (e : Evacuation) (kept : List Kept) → IsWhole c b chosen e kept
        → IsAscending (names_placed b.present) → (x : Name) (p : Placed) → place_of b.present x ≡ Some p → is_in p.region chosen ≡ false
        → is_among x (names_lost b chosen kept) ≡ false }
    ensures kept { (c : Config) (b : Board) (chosen : List ℕ) (e : Evacuation) (kept : List Kept) → IsWhole c b chosen e kept
        → (x : Name) (k n i : ℕ) (d : Decision) → At e.world.names k x → Survives e n i k d
        → is_among x (names_lost b chosen kept) ≡ false }
    ensures gone { (c : Config) (b : Board) (chosen : List ℕ) (e : Evacuation) (kept : List Kept) → IsWhole c b chosen e kept
        → (x : Name) (k : ℕ) → At e.world.names k x → IsLeft e k → is_among x (names_lost b chosen kept) ≡ true }
{}

/// An object that a worker decided lies where it was copied, or where it lay if it was marked. One that is no object of the
/// evacuation lies where it lay.
pub fn kept_objects_move_as_decided()
    ensures name { (kept : List Kept) (p : Placed) → (placed_after_partial kept p).name ≡ p.name }
    ensures survivor { (c : Config) (b : Board) (chosen : List ℕ) (e : Evacuation) (kept : List Kept) → IsWhole c b chosen e kept
        → (p : Placed) (k n i : ℕ) (d : Decision) → At e.world.names k p.name → Survives e n i k d
        → placed_after_partial kept p ≡ record p { region = region_as_kept (how_of e.world.shape d) p.region } }
    ensures others { (c : Config) (b : Board) (chosen : List ℕ) (e : Evacuation) (kept : List Kept) → IsWhole c b chosen e kept
        → (p : Placed) → ((k : ℕ) → At e.world.names k p.name → ⊥) → placed_after_partial kept p ≡ p }
{}

/// Without arraylets just the chosen regions in which nothing was marked are freed. A region that was drawn and has a copy gets the
/// age of the draw and the words that its worker put there. Of those that are not chosen and got no copy an eden region becomes
/// one of age 1, and each other stays as it was.
pub fn regions_become_what_was_copied_there()
    ensures emptied { (b : Board) (chosen : List ℕ) (kept : List Kept) → HasNoLeaves b
        → regions_emptied b chosen kept ≡ filter (λ q. is_empty (names_marked_in b kept q)) chosen }
    ensures drawn { (c : Config) (b : Board) (chosen : List ℕ) (e : Evacuation) (kept : List Kept) → IsWhole c b chosen e kept
        → AreInUse b chosen → (n i : ℕ) (d : Drawn) → Receives e n i d → 1 ≤ filled e n d
        → region_after_partial c b chosen kept d.region ≡ with_copies d.age (filled e n d) (region_at b.regions d.region) }
    ensures others { (c : Config) (b : Board) (chosen : List ℕ) (e : Evacuation) (kept : List Kept) → IsWhole c b chosen e kept
        → (q : ℕ) → is_in q chosen ≡ false → GotNoCopy e q → region_after_partial c b chosen kept q ≡ passed_by (region_at b.regions q) }
{}

/// The words that the rules see marked in a region are those of the objects that were marked there, by their numbers.
pub fn marked_words_are_those_of_the_marked_objects()
    ensures words { (c : Config) (b : Board) (chosen : List ℕ) (e : Evacuation) (kept : List Kept) → IsWhole c b chosen e kept
        → IsAscending (names_placed b.present) → (q : ℕ) (ks : List ℕ) → AreMarkedIn b e q ks
        → words_of_all c b (names_marked_in b kept q) ≡ sum_by (size_of e.world) ks }
    ensures none { (c : Config) (b : Board) (chosen : List ℕ) (e : Evacuation) (kept : List Kept) → IsWhole c b chosen e kept
        → IsAscending (names_placed b.present) → (q : ℕ) (ks : List ℕ) → AreMarkedIn b e q ks
        → is_empty (names_marked_in b kept q) ≡ (length ks == 0) }
{}

/// All that these laws ask for can be met, by the small evacuation of `bal_told`: in its eden region one object was marked.
pub fn what_these_laws_ask_for_can_be_met()
    ensures ascending { IsAscending (names_placed one_eden.present) }
    ensures no_leaves { HasNoLeaves one_eden }
    ensures in_use { AreInUse one_eden (0 ∷ []) }
    ensures marked { AreMarkedIn one_eden copied_and_marked 0 (1 ∷ []) }
{}
