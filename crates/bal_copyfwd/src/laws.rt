//! What a partial collection leaves: each law is an empty function whose contract it is.
ghost use Rattle.std.specs.Prelude.{◌≡◌, ◌<◌, ℕ, All, IsTrue, List, [], Some, length, not, slice_get};
ghost use Rattle.bal_after.specs.Asked.{AreInUse, HasNoLeaves};
ghost use Rattle.bal_barrier.specs.Coverage.{AreRemembered, IsCovered};
ghost use Rattle.bal_barrier.specs.Flush.{LeadToObjects};
ghost use Rattle.bal_cards.specs.Cards.{Cards};
ghost use Rattle.bal_copyfwd.specs.Covered.{IsCollected, Parts};
ghost use Rattle.bal_copyfwd.specs.Filled.{AreApart, Back, IsOther, MayFill, numbers_of, state_back, with_all_filled};
ghost use Rattle.bal_copyfwd.specs.Places.{AreTaken};
ghost use Rattle.bal_copyfwd.specs.Returned.{IsEvacuationOf, backs_of, filled_numbers, lent_of, refilled, split_of};
ghost use Rattle.bal_copyfwd.specs.States.{AreBack, AreCounted};
ghost use Rattle.bal_copyfwd.specs.Moving.{Decisions, IsLeft, IsPutBack, IsQuiet, goes_to, survives};
ghost use Rattle.bal_core.specs.Finished.{Evacuation};
ghost use Rattle.bal_core.specs.Steps.{told};
ghost use Rattle.bal_core.specs.World.{At};
ghost use Rattle.bal_core.specs.declared.event.Decision.{Decision};
ghost use Rattle.bal_evacuate.specs.Course.{Course, decision_of};
ghost use Rattle.bal_evacuate.specs.Plan.{Plan};
ghost use Rattle.bal_gather.specs.Lent.{Lent, MayBeChosen};
ghost use Rattle.bal_kept.specs.Collected.{IsCollectedFrom, world_from};
ghost use Rattle.bal_layout.specs.Addresses.{offset_of, region_of};
ghost use Rattle.bal_layout.specs.Names.{is_among};
ghost use Rattle.bal_layout.specs.Regions.{free_regions, is_in, region_at};
ghost use Rattle.bal_meet.specs.Decode.{placed_at};
ghost use Rattle.bal_model.specs.Ascending.{IsAscending};
ghost use Rattle.bal_model.specs.Entries.{Spot};
ghost use Rattle.bal_model.specs.declared.config.Config.{Config};
ghost use Rattle.bal_model.specs.declared.event.Kept.{Kept};
ghost use Rattle.bal_region.specs.Land.{object_at};
ghost use Rattle.bal_rules.specs.Board.{Board, names_placed};
ghost use Rattle.bal_rules.specs.PartialEvents.{after_partial, names_lost, placed_after_partial};
ghost use Rattle.bal_settle.specs.Settled.{settled};
ghost use Rattle.bal_table.specs.Table.{IsTable, Table, objects_of, things_of};
ghost use Rattle.bal_told.specs.OnBoard.{IsOfBoard};
ghost use Rattle.bal_told.specs.Whole.{AreWalksOf, IsWhole};
ghost use Rattle.bal_words.specs.Moved.{Carried, Closed, LeadsToKept};
ghost use Rattle.bal_words.specs.Things.{Thing};

use bal_gather::{objects_are_numbered_by_address, what_is_held_from_outside_is_gathered};
use bal_kept::{
    just_what_is_kept_is_reached, the_world_tells_the_objects, the_world_tells_what_the_board_does,
};

/// An evacuation of the chosen regions of a heap that a board tells, from what was gathered there, is one of that board, and its
/// walks end at just what the rules keep.
pub fn an_evacuation_is_one_of_the_board()
    ensures board { (c : Config) (b : Board) (spot : ℕ → Spot) (l : Lent) (roots held places : List ℕ) (e : Evacuation)
        → IsCollectedFrom b spot l roots held places → c.geometry ≡ l.table.shape → b.regions ≡ l.table.regions
        → e.world ≡ world_from l held (free_regions b.regions) → IsOfBoard c b l.regions e }
    ensures walks { (b : Board) (spot : ℕ → Spot) (l : Lent) (roots held places : List ℕ) (e : Evacuation)
        → IsCollectedFrom b spot l roots held places → e.world ≡ world_from l held (free_regions b.regions) → AreWalksOf b l.regions e }
{
    just_what_is_kept_is_reached();
    the_world_tells_the_objects();
    the_world_tells_what_the_board_does();
}

/// Regions that were out are put back, each once: its objects are there and its state is that of its role, and all other regions
/// stay.
pub fn regions_are_put_back()
    ensures objects { (bs : List Back) (t : Table) (i a : ℕ) (b : Back) → AreApart bs → slice_get bs i ≡ Some b → b.land.number < length t.lands
        → region_of t.shape a ≡ b.land.number → objects_of (with_all_filled bs t) a ≡ object_at b.land (offset_of t.shape a) }
    ensures state { (bs : List Back) (t : Table) (i : ℕ) (b : Back) → AreApart bs → slice_get bs i ≡ Some b → b.land.number < length t.regions
        → region_at (with_all_filled bs t).regions b.land.number ≡ state_back t b }
    ensures others { (bs : List Back) (t : Table) (a : ℕ) → IsOther (region_of t.shape a) bs
        → objects_of (with_all_filled bs t) a ≡ objects_of t a }
    ensures other_states { (bs : List Back) (t : Table) (q : ℕ) → IsOther q bs
        → region_at (with_all_filled bs t).regions q ≡ region_at t.regions q }
{}

/// Once the regions with the copies are put back and the chosen regions keep just their marked objects, exactly the survivors are
/// in the heap, each where it went, with its words as they were: what lies outside of the chosen regions stayed, and of their
/// objects the decided ones were copied or marked.
pub fn survivors_are_carried()
    ensures { (l : Lent) (decisions : Decisions) (drawn : List ℕ) (u v : Table) → IsTable l.table → MayBeChosen l.table l.regions
        → IsPutBack l decisions drawn u → IsLeft l decisions u v
        → Carried (things_of l.table) (things_of v) (survives l decisions) (goes_to l decisions) }
{}

/// If nothing is left to decide, then survivors and roots lead only to survivors: no reference to what is gone is left.
pub fn survivors_lead_to_survivors()
    ensures closed { (b : Board) (spot : ℕ → Spot) (l : Lent) (roots held places pool : List ℕ) (decisions : Decisions)
        → IsCollectedFrom b spot l roots held places → IsQuiet l held pool decisions → Closed (things_of l.table) (survives l decisions) }
    ensures roots { (b : Board) (spot : ℕ → Spot) (l : Lent) (roots held places pool : List ℕ) (decisions : Decisions)
        → IsCollectedFrom b spot l roots held places → IsQuiet l held pool decisions → All (LeadsToKept (survives l decisions)) roots }
{
    objects_are_numbered_by_address();
    what_is_held_from_outside_is_gathered();
}

/// The names that the board loses are just those of the objects that do not survive, and the board has each survivor in the region
/// to which it went.
pub fn survivors_lie_where_the_board_has_them()
    ensures lost { (c : Config) (b : Board) (spot : ℕ → Spot) (l : Lent) (roots held places : List ℕ) (e : Evacuation) (kept : List Kept)
        (decisions : Decisions) → IsCollectedFrom b spot l roots held places → IsWhole c b l.regions e kept → c.geometry ≡ l.table.shape
        → e.world ≡ world_from l held (free_regions b.regions) → AreTaken e decisions
        → (a : ℕ) (x : Thing) → things_of l.table a ≡ Some x → survives l decisions a ≡ not (is_among x.name (names_lost b l.regions kept)) }
    ensures moves { (c : Config) (b : Board) (spot : ℕ → Spot) (l : Lent) (roots held places : List ℕ) (e : Evacuation) (kept : List Kept)
        (decisions : Decisions) → IsCollectedFrom b spot l roots held places → IsWhole c b l.regions e kept → c.geometry ≡ l.table.shape
        → e.world ≡ world_from l held (free_regions b.regions) → AreTaken e decisions
        → (a : ℕ) (x : Thing) → things_of l.table a ≡ Some x → IsTrue (survives l decisions a) → (spot a).leaves ≡ []
        → placed_after_partial kept (placed_at x.name (spot a))
        ≡ placed_at x.name (record { region = region_of l.table.shape (goes_to l decisions a); leaves = [] }) }
{
    objects_are_numbered_by_address();
    what_is_held_from_outside_is_gathered();
    the_world_tells_the_objects();
}

/// Once the chosen regions are settled, the states of all regions are those of the board that the event leaves, their lists and the
/// freed ones included.
pub fn regions_are_those_of_the_board()
    ensures { (c : Config) (b : Board) (chosen : List ℕ) (e : Evacuation) (kept : List Kept) (u : Table) (marked : List ℕ)
        → IsWhole c b chosen e kept → HasNoLeaves b → AreInUse b chosen → IsAscending (names_placed b.present) → c.geometry ≡ u.shape
        → AreBack b chosen e u → ((q : ℕ) → IsTrue (is_in q chosen) → AreCounted b e u marked q)
        → (settled chosen marked u).regions ≡ (after_partial c b chosen kept).regions }
{}

/// If the regions remembered all references before, each reference between regions is covered afterwards: it does not matter
/// which survivors were copied and which marked.
pub fn references_are_covered_again()
    ensures { (t v : Table) (d : Cards) (p : Parts) → IsTable t → AreRemembered t → LeadToObjects t → IsCollected t v d p → IsCovered v d }
{}

/// What an evacuation decided of an object was told once, with that decision: so an object that counts as copied is one whose copy
/// lies there.
pub fn decisions_are_those_that_were_told()
    ensures told { (t : Table) (chosen : List ℕ) (p : Plan) (c : Course) (k : ℕ) (d : Decision) → IsEvacuationOf t chosen p c
        → decision_of c k ≡ Some d → (i : ℕ) × At c.won i (told k d) }
    ensures decided { (t : Table) (chosen : List ℕ) (p : Plan) (c : Course) (i k : ℕ) (d : Decision) → IsEvacuationOf t chosen p c
        → At c.won i (told k d) → decision_of c k ≡ Some d }
{}

/// Once the regions of an evacuation are put back, just the copies are added to the table: each object that was copied lies where its
/// copy was told to be, with its words, and everything else is as it was.
pub fn an_evacuation_is_put_back()
    ensures { (t : Table) (chosen : List ℕ) (p : Plan) (c : Course) → IsEvacuationOf t chosen p c → MayFill (split_of t) (backs_of c)
        → IsPutBack (lent_of t chosen) (decision_of c) (filled_numbers c) (refilled t c) }
{
    objects_are_numbered_by_address();
}

/// What an evacuation puts back is just the regions that are out, each once.
pub fn an_evacuation_puts_back_what_is_out()
    ensures out { (t : Table) (chosen : List ℕ) (p : Plan) (c : Course) → IsEvacuationOf t chosen p c
        → numbers_of (backs_of c) ≡ (split_of t).out }
    ensures apart { (t : Table) (chosen : List ℕ) (p : Plan) (c : Course) → IsEvacuationOf t chosen p c → AreApart (backs_of c) }
{}
