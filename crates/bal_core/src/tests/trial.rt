//! A small evacuation to try, and what of its state can change.
ghost use Rattle.std.specs.Prelude.{◌≡◌, ◌∷◌, ◌<◌, [], ℕ, IfOk, IfSome, replicate};
ghost use Rattle.bal_core.specs.World.{At, Graph};
ghost use Rattle.bal_core.specs.Trials.{words_of_trial};

use crate::row::CoreRow;
use crate::state::Race;
use crate::{CoreState, Decision, FromGraph, Told, core_start};
use bal_layout::{Geometry, Header, Kind, Name, write_header};
use std::alloc::Global;
use std::test::Fail;

// So many objects of the same words and of age 0, each with one slot, which holds the same object, or none.
#[derive(Drop)]
struct Trial {
    count: u32,
    words: Vec<u64>,
    held: Option<u32>,
}

impl FromGraph for Trial {
    ghost graph = { λ t. record {
      ages = replicate t.count 0;
      words = replicate t.count t.words.items;
      targets = replicate t.count (t.held ∷ []);
    } };

    fn count(&self) -> u32 {
        self.count
    }

    fn age(&self, _object: u32) -> u8 {
        0
    }

    fn words(&self, _object: u32) -> &[u64] {
        self.words.as_slice()
    }

    fn slots(&self, _object: u32) -> u32 {
        1
    }

    fn target(&self, _object: u32, _slot: u32) -> Option<u32> {
        self.held
    }
}

// So many objects of four words.
fn make_trial(alloc: Global, count: u32, held: Option<u32>) -> Result<Trial, Fail>
    ensures { IfOk result (λ t. (t.count ≡ count) × (t.words.items ≡ words_of_trial) × (t.held ≡ held)) }
{
    let (first, second) = write_header(&Header {
        kind: Kind::Plain,
        refs: 1,
        values: 1,
        name: Name {
            thread: 0,
            ordinal: 1,
        },
    });
    let words = Vec::from_slice(alloc, &[first, second, 0, 0])?;
    Ok(Trial { count, words, held })
}

// Two workers begin, in a heap of six regions of 256 words. A root holds the object with number 0.
fn begin(alloc: Global, count: u32, held: Option<u32>, pool: &[u32]) -> Result<CoreState, Fail>
    requires some { 0 < count }
    requires held { IfSome held (λ k. k < count) }
    requires regions { (i q : ℕ) → At pool.now i q → q < 6 }
    requires distinct { (i j q : ℕ) → At pool.now i q → At pool.now j q → i ≡ j }
{
    let geometry = Geometry::new(6, 256)?;
    let trial = make_trial(alloc, count, held)?;
    Ok(core_start(alloc, &geometry, &trial, &[0], pool, 2)?)
}

/// They begin with one object and one free region.
pub(crate) fn with_one_object(alloc: Global) -> Result<CoreState, Fail> {
    begin(alloc, 1, None, &[5])
}

/// They begin with three objects, each of which holds the one with number 1, and with one free region.
pub(crate) fn with_one_region(alloc: Global) -> Result<CoreState, Fail> {
    begin(alloc, 3, Some(1), &[5])
}

/// They begin with these objects and two free regions.
pub(crate) fn with_two_regions(alloc: Global) -> Result<CoreState, Fail> {
    begin(alloc, 3, Some(1), &[5, 3])
}

fn number_of(decision: Decision) -> u64 {
    match decision {
        Decision::Copied(address) => u64::from(address),
        Decision::Marked => u64::MAX,
    }
}

fn push_told(numbers: &mut Vec<u64>, list: &[Told]) -> Result<(), Fail> {
    numbers.push(list.len() as u64)?;
    for told in list {
        numbers.push(u64::from(told.object))?;
        numbers.push(number_of(told.decision))?;
    }
    Ok(())
}

fn push_row(numbers: &mut Vec<u64>, row: &CoreRow) -> Result<(), Fail> {
    push_told(numbers, row.known.as_slice())?;
    push_told(numbers, row.won.as_slice())?;
    for drawn in row.drawn.as_slice() {
        numbers.push(drawn.ordinal)?;
        numbers.push(u64::from(drawn.region))?;
        numbers.push(u64::from(drawn.age))?;
    }
    for flag in [row.dry, row.raised, row.saw] {
        numbers.push(u64::from(flag))?;
    }
    Ok(())
}

/// All that steps change, as numbers.
pub(crate) fn numbers_of(alloc: Global, race: &Race) -> Result<Vec<u64>, Fail> {
    let mut numbers = Vec::new(alloc);
    numbers.push(race.counter)?;
    numbers.push(u64::from(race.drained))?;
    for wished in &race.wished {
        numbers.push(u64::from(*wished))?;
    }
    for word in &race.words {
        numbers.push(match word {
            Some(decision) => number_of(*decision),
            None => u64::MAX - 1,
        })?;
    }
    for row in &race.crew {
        push_row(&mut numbers, row)?;
    }
    Ok(numbers)
}
