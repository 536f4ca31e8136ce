//! A partial collection by one worker, with all threads stopped. The cards were flushed, so that the regions know of each
//! reference from one into another.
//!
//! 1. The regions are chosen: eden, and the older ones with the most garbage.
//! 2. The free regions are taken out of the heap, so that copies are written there while objects are read here.
//! 3. `evacuating`: what walks inside the chosen regions reach is copied, or marked where it lies once that was abandoned.
//! 4. `mending`: what was taken out is put back, chosen regions are freed or keep just their marked objects, and references are led
//!    to the copies.
//!
//! All memory is taken before the first object is decided. If it is refused, the heap is as it was.
//!
//! - `laws`: that this is a partial collection by the rules, and that the heap meets the board afterwards.
#![tactic(auto)]

ghost use Rattle.std.specs.Prelude.{◌≡◌, ℕ, ◌*◌, ◌≤◌, All, IfOk, List, OnErr, OnOk, Option, length};
ghost use Rattle.bal_barrier.specs.Coverage.{AreRemembered, IsCovered};
ghost use Rattle.bal_copyfwd.specs.Filled.{IsSplit};
ghost use Rattle.bal_global.specs.Global.{IsOnBoard};
ghost use Rattle.bal_layout.specs.Graph.{Graph};
ghost use Rattle.bal_model.specs.declared.config.Config.{Config};
ghost use Rattle.bal_rules.specs.Board.{Board};
ghost use Rattle.bal_rules.specs.Packing.{IsEvacuation};
ghost use Rattle.bal_rules.specs.PartialEvents.{after_partial};
ghost use Rattle.bal_table.specs.Table.{Table, things_of};
ghost use Rattle.bal_words.specs.Shown.{Finds, Shows};

mod evacuating;
mod laws;
mod mending;
mod telling;

use bal_base::NoMemory;
use bal_cards::Cards;
use bal_choose::{choose_in, what_is_chosen_may_be_collected};
use bal_copyfwd::{put_pool_back, put_survivors_back};
use bal_layout::{FEWEST_REGIONS, FEWEST_WORDS, Geometry};
use bal_model::PartialCollection;
use bal_region::Region;
use bal_roots::Roots;
use bal_table::{Moves, Occupied, Table};
use evacuating::evacuate;
pub use laws::{
    a_collection_is_of_its_board, a_partial_collection_is_legal, references_are_covered_after_it,
    settled_regions_are_those_of_the_board, the_board_after_it_is_met, what_it_mends_may_be_mended,
    what_was_out_may_be_put_back,
};
use mending::mend;
use std::alloc::Global;
use std::mem::replace;

/// Collects eden and at most so many older regions, where the worker copies at most so many objects, if that is limited, and
/// answers what is told of it. Whatever board the words met before, the event is one of its partial collections, and they meet the
/// board that it leaves. Each reference from one region into another lies on a dirty card then, or on one that the other
/// remembers. If memory is refused, all is as it was.
pub fn partial(
    alloc: Global,
    table: &mut Table,
    cards: &mut Cards,
    roots: &mut Roots,
    moves: &mut Moves,
    older: u32,
    limit: Option<u64>,
) -> Result<PartialCollection, NoMemory>
    requires shape { cards.old.shape ≡ table.old.shape }
    requires moves { length moves.old.words ≡ table.old.shape.regions * table.old.shape.words }
    requires graph { (g : Graph) × Shows (things_of table.old) g }
    requires held { All (Finds (things_of table.old)) roots.old }
    requires remembered { AreRemembered table.old }
    ensures legal { IfOk result (λ told. (c : Config) (b : Board) (made : List ℕ) → IsOnBoard c table.old roots.old made b
        → c.older ≡ older → c.abort_after ≡ limit → 1 ≤ c.workers
        → IsEvacuation c b told.chosen.list told.scans told.kept.list told.aborts.list) }
    ensures meets { IfOk result (λ told. (c : Config) (b : Board) (made : List ℕ) → IsOnBoard c table.old roots.old made b
        → c.older ≡ older → c.abort_after ≡ limit → 1 ≤ c.workers
        → IsOnBoard c table.new roots.new made (after_partial c b told.chosen.list told.kept.list)) }
    ensures covered { OnOk result (IsCovered table.new cards.new) }
    ensures same { OnErr result ((table.new ≡ table.old) × (cards.new ≡ cards.old) × (roots.new ≡ roots.old)) }
    ensures shape { cards.new.shape ≡ cards.old.shape }
    ensures moves { length moves.new.words ≡ length moves.old.words }
{
    // What the laws say of what is chosen, evacuated and mended holds of this heap.
    what_is_chosen_may_be_collected();
    what_was_out_may_be_put_back();
    a_partial_collection_is_legal();
    the_board_after_it_is_met();
    references_are_covered_after_it();
    // It is a table: so its references are the words in its slots.
    let _ = table.geometry();
    let chosen = choose_in(alloc, table, older)?;
    let (occupied, pool) = take_free(alloc, table)?;
    match evacuate(
        alloc,
        &occupied,
        chosen.as_slice(),
        roots,
        pool,
        limit,
        moves,
    ) {
        Ok(outcome) => {
            *table = put_survivors_back(occupied, outcome.evacuated);
            let marked = outcome.marked.as_slice();
            let places = outcome.places.as_slice();
            let regions = outcome.regions.as_slice();
            mend(
                table,
                cards,
                roots,
                moves,
                chosen.as_slice(),
                marked,
                places,
                regions,
            );
            let scans = outcome.kept.len() as u32;
            Ok(PartialCollection {
                chosen,
                scans,
                kept: outcome.kept,
                aborts: outcome.aborts,
            })
        }
        Err(pool) => {
            *table = put_pool_back(occupied, pool);
            Err(NoMemory)
        }
    }
}

// Takes the free regions out. In the table's place stands one of the smallest heap meanwhile. If memory is refused, the table is
// as it was.
fn take_free(alloc: Global, table: &mut Table) -> Result<(Occupied, Vec<Region>), NoMemory>
    ensures ok { IfOk result (λ split. IsSplit table.old split.0 split.1.items) }
    ensures err { OnErr result (table.new ≡ table.old) }
{
    let _ = table.geometry();
    let Ok(smallest) = Geometry::new(u64::from(FEWEST_REGIONS), u64::from(FEWEST_WORDS)) else {
        return Err(NoMemory);
    };
    let whole = replace(table, Table::make(alloc, smallest)?);
    match whole.split(alloc) {
        Ok(split) => Ok(split),
        Err((whole, refused)) => {
            *table = whole;
            Err(refused)
        }
    }
}
