//! How an evacuation begins.
ghost use Rattle.std.specs.Prelude.{◌≡◌, ◌≤◌, ◌<◌, ℕ, List, length, map, replicate, IfOk, None, false};
ghost use Rattle.bal_layout.specs.Shape.{IsShape};
ghost use Rattle.bal_core.specs.World.{At, blank, slots_in};
ghost use Rattle.bal_core.specs.Start.{MayStart, name_of, start_of, world_of};

use crate::row::CoreRow;
use crate::state::Race;
use crate::{CoreState, Decision, FromGraph};
use bal_base::NoMemory;
use bal_layout::{Geometry, Name, WORKERS, read_header};
use std::alloc::Global;

/// The name in the header that an object's words begin with.
pub fn name_of(words: &[u64]) -> Name
    ensures { result ≡ name_of words.now }
{
    let first = words.get(0).copied().unwrap_or(0);
    let second = words.get(1).copied().unwrap_or(0);
    match read_header(first, second) {
        Some(header) => header.name,
        None => Name {
            thread: 0,
            ordinal: 0,
        },
    }
}

fn ages_of<F: FromGraph>(alloc: Global, graph: &F) -> Result<Vec<u8>, NoMemory>
    ensures { IfOk result (λ v. v.items ≡ (F.graph graph.now).ages) }
{
    let count = graph.count();
    let mut ages = Vec::with_capacity(alloc, count as usize)?;
    for object in 0..count {
        ages.push(graph.age(object))?;
    }
    Ok(ages)
}

fn sizes_of<F: FromGraph>(alloc: Global, graph: &F) -> Result<Vec<u32>, NoMemory>
    requires words { length (F.graph graph.now).words ≡ length (F.graph graph.now).ages }
    requires few { (k : ℕ) (words : List ℕ) → At (F.graph graph.now).words k words → length words ≤ 65536 }
    ensures { IfOk result (λ v. v.items ≡ map length (F.graph graph.now).words) }
{
    let count = graph.count();
    let mut sizes = Vec::with_capacity(alloc, count as usize)?;
    for object in 0..count {
        sizes.push(graph.words(object).len() as u32)?;
    }
    Ok(sizes)
}

fn names_of<F: FromGraph>(alloc: Global, graph: &F) -> Result<Vec<Name>, NoMemory>
    requires { length (F.graph graph.now).words ≡ length (F.graph graph.now).ages }
    ensures { IfOk result (λ v. v.items ≡ map name_of (F.graph graph.now).words) }
{
    let count = graph.count();
    let mut names = Vec::with_capacity(alloc, count as usize)?;
    for object in 0..count {
        names.push(name_of(graph.words(object)))?;
    }
    Ok(names)
}

// What an object's slots hold.
fn slots_of<F: FromGraph>(
    alloc: Global,
    graph: &F,
    object: u32,
) -> Result<Vec<Option<u32>>, NoMemory>
    requires { object < length (F.graph graph.now).ages }
    ensures { IfOk result (λ v. v.items ≡ slots_in (F.graph graph.now).targets object) }
{
    let count = graph.slots(object);
    let mut slots = Vec::with_capacity(alloc, count as usize)?;
    for slot in 0..count {
        slots.push(graph.target(object, slot))?;
    }
    Ok(slots)
}

fn targets_of<F: FromGraph>(alloc: Global, graph: &F) -> Result<Vec<Vec<Option<u32>>>, NoMemory>
    requires { length (F.graph graph.now).targets ≡ length (F.graph graph.now).ages }
    ensures { IfOk result (λ v. map (λ slots. slots.items) v.items ≡ (F.graph graph.now).targets) }
{
    let count = graph.count();
    let mut targets = Vec::with_capacity(alloc, count as usize)?;
    for object in 0..count {
        targets.push(slots_of(alloc, graph, object)?)?;
    }
    Ok(targets)
}

// So many workers that did nothing yet.
fn crew_of(alloc: Global, workers: u32) -> Result<Vec<CoreRow>, NoMemory>
    ensures { IfOk result (λ v. v.items ≡ replicate workers blank) }
{
    let mut crew = Vec::with_capacity(alloc, workers as usize)?;
    for _ in 0..workers {
        crew.push(CoreRow::make(alloc)?)?;
    }
    Ok(crew)
}

// So many objects of which nothing is decided.
fn open_words(alloc: Global, count: u32) -> Result<Vec<Option<Decision>>, NoMemory>
    ensures { IfOk result (λ v. v.items ≡ replicate count None) }
{
    Ok(vec![in alloc; None; count as usize]?)
}

// No worker's wish.
fn no_wishes(alloc: Global) -> Result<Vec<bool>, NoMemory>
    ensures { IfOk result (λ v. v.items ≡ replicate 32 false) }
{
    Ok(vec![in alloc; false; WORKERS as usize]?)
}

fn numbers_of(alloc: Global, numbers: &[u32]) -> Result<Vec<u32>, NoMemory>
    ensures { IfOk result (λ v. v.items ≡ numbers.now) }
{
    Ok(Vec::from_slice(alloc, numbers)?)
}

/// The state in which an evacuation begins: no object is decided, no region drawn and no abort raised. Each root and each slot
/// holds an object of the graph, or none, the regions of the pool are distinct, and there are 1 to 32 workers.
pub fn core_start<F: FromGraph>(
    alloc: Global,
    geometry: &Geometry,
    graph: &F,
    roots: &[u32],
    pool: &[u32],
    workers: u32,
) -> Result<CoreState, NoMemory>
    requires { MayStart geometry.now (F.graph graph.now) roots.now pool.now workers }
    ensures { IfOk result (λ s. s ≡ start_of (world_of geometry.now (F.graph graph.now) roots.now pool.now) workers) }
{
    // A region has few words, so that the size of an object fits.
    let _ = geometry.words();
    let race = Race {
        geometry: *geometry,
        ages: ages_of(alloc, graph)?,
        sizes: sizes_of(alloc, graph)?,
        names: names_of(alloc, graph)?,
        targets: targets_of(alloc, graph)?,
        roots: numbers_of(alloc, roots)?,
        pool: numbers_of(alloc, pool)?,
        words: open_words(alloc, graph.count())?,
        counter: 0,
        wished: no_wishes(alloc)?,
        drained: false,
        crew: crew_of(alloc, workers)?,
    };
    Ok(CoreState { race })
}
