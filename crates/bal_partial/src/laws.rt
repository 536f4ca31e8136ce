//! What a partial collection by one worker is: each law is an empty function whose contract it is.
ghost use Rattle.std.specs.Prelude.{◌≡◌, ℕ, ◌<◌, ◌≤◌, All, IsTrue, List, length, map};
ghost use Rattle.bal_barrier.specs.Coverage.{IsCovered};
ghost use Rattle.bal_base.specs.Bits.{IsAscending};
ghost use Rattle.bal_cards.specs.Cards.{Cards};
ghost use Rattle.bal_copyfwd.specs.Filled.{MayFill};
ghost use Rattle.bal_copyfwd.specs.Returned.{backs_of, refilled, split_of};
ghost use Rattle.bal_copyfwd.specs.States.{AreBack, AreCounted};
ghost use Rattle.bal_fixup.specs.Mended.{IsReference};
ghost use Rattle.bal_fixup.specs.Placed.{ArePlacesOutside, AreSlots, lies_among};
ghost use Rattle.bal_global.specs.Global.{IsOnBoard, heap_by};
ghost use Rattle.bal_kept.specs.Collected.{IsCollectedFrom};
ghost use Rattle.bal_layout.specs.Regions.{is_in};
ghost use Rattle.bal_meet.specs.Heap.{spot_at};
ghost use Rattle.bal_model.specs.declared.config.Config.{Config};
ghost use Rattle.bal_model.specs.declared.event.Kept.{Kept};
ghost use Rattle.bal_partial.specs.Collection.{AreSurvivorRegions, Collection, IsCollection, lent_by, marked_of, seen_of};
ghost use Rattle.bal_partial.specs.Mended.{IsMended, places_mended, settled_of};
ghost use Rattle.bal_partial.specs.Outcome.{AreMoves};
ghost use Rattle.bal_rules.specs.Board.{Board};
ghost use Rattle.bal_rules.specs.Choice.{choice};
ghost use Rattle.bal_rules.specs.Packing.{IsEvacuation};
ghost use Rattle.bal_rules.specs.PartialEvents.{after_partial};
ghost use Rattle.bal_settle.specs.Settled.{MaySettle};
ghost use Rattle.bal_table.specs.Moves.{Forwarding, moved_to};
ghost use Rattle.bal_table.specs.Table.{IsTable, Table, things_of, word_at};
ghost use Rattle.bal_told.specs.Telling.{AreTold, causes_of};
ghost use Rattle.bal_told.specs.Whole.{IsWhole};
ghost use Rattle.bal_words.specs.Moved.{word_to};
ghost use Rattle.bal_words.specs.Paths.{words_in};

use bal_copyfwd::{
    an_evacuation_is_one_of_the_board, an_evacuation_is_put_back,
    an_evacuation_puts_back_what_is_out, decisions_are_those_that_were_told,
    references_are_covered_again, regions_are_put_back, regions_are_those_of_the_board,
    survivors_are_carried, survivors_lead_to_survivors, survivors_lie_where_the_board_has_them,
};
use bal_fixup::{regions_and_places_are_all_that_is_mended, what_led_to_objects_may_be_mended};
use bal_gather::{
    gathered_places_ascend, objects_are_numbered_by_address, what_is_held_from_outside_is_gathered,
};
use bal_kept::the_world_tells_the_objects;
use bal_meet::meeting::{objects_are_moved, other_words_are_written};
use bal_settle::a_settled_table_keeps_just_the_marked;
use bal_table::a_region_that_is_put_back_has_its_objects;
use bal_told::{a_told_evacuation_is_legal, an_evacuation_by_one_worker_is_whole};

/// What was gathered and evacuated is of each board that the words meet: so is what is told of it.
pub fn a_collection_is_of_its_board()
    ensures collected { (c : Config) (b : Board) (made roots : List ℕ) (x : Collection) → IsOnBoard c x.table roots made b → IsCollection roots x
        → IsCollectedFrom b (spot_at (heap_by x.table roots made)) (lent_by x) roots x.held x.places }
    ensures whole { (c : Config) (b : Board) (made roots : List ℕ) (x : Collection) (kept : List Kept) → IsOnBoard c x.table roots made b
        → c.abort_after ≡ x.limit → IsCollection roots x → AreTold (seen_of x) kept → IsWhole c b x.chosen (seen_of x) kept }
{
    other_words_are_written();
    an_evacuation_is_one_of_the_board();
    an_evacuation_by_one_worker_is_whole();
}

/// What is told of the collection is legal on each board that the words meet, if its regions are the choice there.
pub fn a_partial_collection_is_legal()
    ensures { (c : Config) (b : Board) (made roots : List ℕ) (x : Collection) (kept : List Kept) → IsOnBoard c x.table roots made b
        → c.abort_after ≡ x.limit → 1 ≤ c.workers → x.chosen ≡ choice c b.regions → IsCollection roots x → AreTold (seen_of x) kept
        → IsEvacuation c b x.chosen (length kept) kept (causes_of (seen_of x)) }
{
    a_collection_is_of_its_board();
    an_evacuation_is_one_of_the_board();
    a_told_evacuation_is_legal();
}

/// Once what was out is put back, the regions are as the board has them but for the copies, and what is marked there is what the
/// board has marked. So the settled regions are those that the event leaves.
pub fn settled_regions_are_those_of_the_board()
    ensures back { (c : Config) (b : Board) (made roots : List ℕ) (x : Collection) (kept : List Kept) → IsOnBoard c x.table roots made b
        → c.abort_after ≡ x.limit → IsCollection roots x → AreTold (seen_of x) kept
        → AreBack b x.chosen (seen_of x) (refilled x.table x.course) }
    ensures counted { (c : Config) (b : Board) (made roots : List ℕ) (x : Collection) (kept : List Kept) (q : ℕ) → IsOnBoard c x.table roots made b
        → c.abort_after ≡ x.limit → IsCollection roots x → AreTold (seen_of x) kept → IsTrue (is_in q x.chosen)
        → AreCounted b (seen_of x) (refilled x.table x.course) (marked_of x) q }
    ensures regions { (c : Config) (b : Board) (made roots : List ℕ) (x : Collection) (kept : List Kept) → IsOnBoard c x.table roots made b
        → c.abort_after ≡ x.limit → IsCollection roots x → AreTold (seen_of x) kept
        → (settled_of x).regions ≡ (after_partial c b x.chosen kept).regions }
{
    a_collection_is_of_its_board();
    what_was_out_may_be_put_back();
    what_it_mends_may_be_mended();
    regions_are_put_back();
    an_evacuation_is_put_back();
    decisions_are_those_that_were_told();
    regions_are_those_of_the_board();
    objects_are_numbered_by_address();
    the_world_tells_the_objects();
    a_settled_table_keeps_just_the_marked();
}

/// Once the chosen regions are settled and references are mended, the words meet the board that the event leaves.
pub fn the_board_after_it_is_met()
    ensures { (c : Config) (b : Board) (made roots : List ℕ) (x : Collection) (kept : List Kept) (m : Forwarding) (regions : List ℕ)
        (d e : Cards) (v : Table) → IsOnBoard c x.table roots made b → c.abort_after ≡ x.limit → IsCollection roots x
        → AreTold (seen_of x) kept → AreMoves x m → AreSurvivorRegions x regions → IsMended x m regions d e v
        → IsOnBoard c v (map (word_to (moved_to m)) roots) made (after_partial c b x.chosen kept) }
{
    a_collection_is_of_its_board();
    what_was_out_may_be_put_back();
    what_it_mends_may_be_mended();
    settled_regions_are_those_of_the_board();
    an_evacuation_is_put_back();
    a_settled_table_keeps_just_the_marked();
    objects_are_numbered_by_address();
    survivors_are_carried();
    survivors_lead_to_survivors();
    decisions_are_those_that_were_told();
    survivors_lie_where_the_board_has_them();
    regions_and_places_are_all_that_is_mended();
    objects_are_moved();
}

/// Each reference from one region into another lies on a dirty card afterwards, or on one that the other remembers.
pub fn references_are_covered_after_it()
    ensures { (roots : List ℕ) (x : Collection) (m : Forwarding) (regions : List ℕ) (d e : Cards) (v : Table) → IsCollection roots x
        → AreMoves x m → AreSurvivorRegions x regions → d.shape ≡ x.table.shape → IsMended x m regions d e v → IsCovered v e }
{
    what_was_out_may_be_put_back();
    an_evacuation_is_put_back();
    regions_are_put_back();
    a_settled_table_keeps_just_the_marked();
    objects_are_numbered_by_address();
    what_is_held_from_outside_is_gathered();
    references_are_covered_again();
    what_led_to_objects_may_be_mended();
}

/// The regions that were out may be put back: those with copies hold what may stand in the table, and the others are empty.
/// Then it is a table.
pub fn what_was_out_may_be_put_back()
    ensures fill { (roots : List ℕ) (x : Collection) → IsCollection roots x → MayFill (split_of x.table) (backs_of x.course) }
    ensures table { (roots : List ℕ) (x : Collection) → IsCollection roots x → IsTable (refilled x.table x.course) }
{
    an_evacuation_puts_back_what_is_out();
    objects_are_numbered_by_address();
    a_region_that_is_put_back_has_its_objects();
}

/// What the steps after the evacuation ask for is there: the chosen regions may be settled, the gathered places are slots outside of
/// the regions of survivors, and what is mended is null or leads to an address.
pub fn what_it_mends_may_be_mended()
    ensures settle { (roots : List ℕ) (x : Collection) → IsCollection roots x → MaySettle (refilled x.table x.course) x.chosen (marked_of x) }
    ensures ascending { (roots : List ℕ) (x : Collection) → IsCollection roots x → IsAscending x.places }
    ensures slots { (roots : List ℕ) (x : Collection) → IsCollection roots x → AreSlots (settled_of x) x.places }
    ensures words { (roots : List ℕ) (x : Collection) (p : ℕ) → IsCollection roots x → IsTrue (is_in p x.places)
        → IsReference (word_at (settled_of x) p) }
    ensures within { (roots : List ℕ) (x : Collection) (regions : List ℕ) (q : ℕ) → IsCollection roots x → AreSurvivorRegions x regions
        → IsTrue (is_in q regions) → q < x.table.shape.regions }
    ensures references { (roots : List ℕ) (x : Collection) (m : Forwarding) (regions : List ℕ) (a : ℕ) → IsCollection roots x
        → IsTable (settled_of x) → AreSurvivorRegions x regions → IsTrue (lies_among x.table.shape regions a) → All IsReference (words_in (things_of (places_mended x m) a)) }
    ensures roots { (roots : List ℕ) (x : Collection) → IsCollection roots x → All IsReference roots }
    ensures outside { (roots : List ℕ) (x : Collection) (m : Forwarding) (regions : List ℕ) → IsCollection roots x → AreMoves x m
        → AreSurvivorRegions x regions → ArePlacesOutside (settled_of x) regions x.places (moved_to m) }
{
    what_was_out_may_be_put_back();
    an_evacuation_is_put_back();
    regions_are_put_back();
    a_settled_table_keeps_just_the_marked();
    objects_are_numbered_by_address();
    what_is_held_from_outside_is_gathered();
    gathered_places_ascend();
    what_led_to_objects_may_be_mended();
}
