//! The evacuation of the chosen regions, and what is told of it.
//!
//! 1. The heap is lent, its objects in the chosen regions are numbered, and what holds them from outside is gathered.
//! 2. All memory is taken for what will be told.
//! 3. One worker copies or marks what can be reached.
//! 4. Then it is told where each copy is, which objects were marked, in which regions survivors lie, and the lines of the journal
//!    (`telling`).
ghost use Rattle.std.specs.Prelude.{◌≡◌, ℕ, ◌*◌, ◌<◌, ◌^◌, IfErr, IfOk, List, length};
ghost use Rattle.bal_copyfwd.specs.Filled.{IsSplit};
ghost use Rattle.bal_gather.specs.Gathered.{IsGathered};
ghost use Rattle.bal_gather.specs.Lent.{MayBeChosen};
ghost use Rattle.bal_gather.specs.Numbers.{starts_of};
ghost use Rattle.bal_partial.specs.Collection.{IsCollection, MayBegin};
ghost use Rattle.bal_partial.specs.Evacuating.{HasRoom, IsPrepared};
ghost use Rattle.bal_partial.specs.Outcome.{HasEvacuated};
ghost use Rattle.bal_table.specs.Table.{Table};

use crate::telling::{Lists, tell};
use bal_base::{Items, NoMemory, Steps};
use bal_core::FromGraph;
use bal_evacuate::{Evacuated, Evacuation};
use bal_gather::{
    Gathered, Numbered, Outside, gather, lend_chosen, objects_are_numbered_by_address,
    the_objects_are_a_graph,
};
use bal_layout::Abort;
use bal_model::Kept;
use bal_region::Region;
use bal_roots::Roots;
use bal_table::{Moves, Occupied};
use bal_told::survivors_are_told_worker_by_worker;
use std::alloc::Global;
use std::marker::Brand;
use std::sync::ledger::{Blank, Ledger};

/// What an evacuation leaves.
#[derive(Drop)]
pub(crate) struct Outcome {
    /// What was decided, the regions with copies, and those that were not drawn.
    pub evacuated: Evacuated,
    /// Where the references of other regions' objects lie that have to be mended, ascending.
    pub places: Vec<u32>,
    /// Where the marked objects start, ascending.
    pub marked: Items<u32>,
    /// The regions in which survivors lie, ascending.
    pub regions: Items<u32>,
    /// The survivors as the journal tells them, by ascending name, and why copying was abandoned, if it was.
    pub kept: Items<Kept>,
    pub aborts: Items<Abort>,
}

/// Evacuates the chosen regions of a heap into the regions of the pool, which are its free ones, and tells where objects went. If
/// memory is refused, the pool comes back as it was.
pub(crate) fn evacuate(
    alloc: Global,
    occupied: &Occupied,
    chosen: &[u32],
    roots: &Roots,
    pool: Vec<Region>,
    limit: Option<u64>,
    moves: &mut Moves,
) -> Result<Outcome, Vec<Region>>
    requires begins { (t : Table) × IsSplit t occupied.now pool.items × MayBegin t chosen.now roots.now }
    requires heap { length moves.old.words ≡ occupied.now.table.shape.regions * occupied.now.table.shape.words }
    ensures ok { IfOk result (λ outcome. (t : Table) → IsSplit t occupied.now pool.items → MayBegin t chosen.now roots.now
        → HasEvacuated t chosen.now roots.now limit moves.new outcome) }
    ensures err { IfErr result (λ refused. refused.items ≡ pool.items) }
    ensures heap { length moves.new.words ≡ length moves.old.words }
{
    survivors_are_told_worker_by_worker();
    let Ok((numbered, gathered, mut lists)) = prepare(alloc, occupied, chosen, roots) else {
        return Err(pool);
    };
    let evacuated = evacuate_gathered(alloc, &numbered, &gathered, pool, limit)?;
    tell(&numbered, &evacuated, moves, &mut lists);
    Ok(Outcome {
        evacuated,
        places: gathered.places,
        marked: lists.marked,
        regions: lists.regions,
        kept: lists.kept,
        aborts: lists.aborts,
    })
}

// Numbers the objects of the chosen regions, gathers what holds them from outside, and takes the memory for what will be told.
fn prepare<'a>(
    alloc: Global,
    occupied: &'a Occupied,
    chosen: &'a [u32],
    roots: &Roots,
) -> Result<(Numbered<'a>, Gathered, Lists), NoMemory>
    requires { MayBeChosen occupied.now.table chosen.now }
    ensures numbered { IfOk result (λ ready. ready.0 ≡ record { table = occupied.now.table; regions = chosen.now }) }
    ensures gathered { IfOk result (λ ready. IsGathered ready.0 roots.now ready.1.held.items ready.1.places.items) }
    ensures room { IfOk result (λ ready. HasRoom ready.2 (length (starts_of ready.0)) ready.0.table.shape.regions) }
{
    let (lent, mut outside) = lend_chosen(alloc, occupied, chosen)?;
    let numbered = Numbered::make(alloc, lent)?;
    let gathered = gather_all::<Brand>(alloc, &numbered, &mut outside, roots, Blank::new(1))?;
    let regions = occupied.geometry().regions();
    let lists = Lists::make(alloc, numbered.count(), regions)?;
    Ok((numbered, gathered, lists))
}

// Gathers, and counts the steps at no cost.
fn gather_all<L: Ledger>(
    alloc: Global,
    numbered: &Numbered<'_>,
    outside: &mut Outside<'_>,
    roots: &Roots,
    blank: Blank,
) -> Result<Gathered, NoMemory>
    requires lent { outside.old ≡ numbered.now }
    requires name { blank.name ≡ L.name }
    requires parts { blank.parts ≡ L.parts }
    requires one { blank.parts ≡ 1 }
    ensures { IfOk result (λ g. IsGathered numbered.now roots.now g.held.items g.places.items) }
{
    let mut steps = Steps::<L>::start(blank);
    gather(alloc, numbered, outside, roots, &mut steps)
}

// Evacuates what is held from outside, and all that it leads to. If memory is refused, the pool comes back as it was.
fn evacuate_gathered(
    alloc: Global,
    numbered: &Numbered<'_>,
    gathered: &Gathered,
    pool: Vec<Region>,
    limit: Option<u64>,
) -> Result<Evacuated, Vec<Region>>
    requires { (t : Table) × (chosen roots : List ℕ)
        × IsPrepared t chosen roots numbered.now gathered.now.held.items gathered.now.places.items pool.items }
    ensures ok { IfOk result (λ course. (t : Table) (chosen roots : List ℕ)
        → IsPrepared t chosen roots numbered.now gathered.now.held.items gathered.now.places.items pool.items
        → IsCollection roots (record {
          table = t;
          chosen = chosen;
          held = gathered.now.held.items;
          places = gathered.now.places.items;
          limit = limit;
          course = course;
        })) }
    ensures few { IfOk result (λ course. length course.won < 2 ^ 32) }
    ensures err { IfErr result (λ refused. refused.items ≡ pool.items) }
{
    objects_are_numbered_by_address();
    the_objects_are_a_graph();
    let geometry = numbered.chosen().geometry();
    let held = gathered.held.as_slice();
    match Evacuation::make(alloc, geometry, numbered, held, pool, limit) {
        Ok(evacuation) => Ok(evacuation.run()),
        Err((pool, _)) => Err(pool),
    }
}
