//! A few objects to be evacuated, and the regions that they are copied into.
ghost use Rattle.std.specs.Prelude.{◌≡◌, ◌+◌, ◌<◌, ◌≤◌, ◌^◌, ℕ, IfOk, None, length};
ghost use Rattle.bal_core.specs.World.{At};
ghost use Rattle.bal_evacuate.specs.Plan.{IsBare};
ghost use Rattle.bal_evacuate.specs.Trials.{IsTrial, below, graph_of_trial, words_of_size};
ghost use Rattle.bal_region.specs.Land.{Land};

use crate::{Evacuated, Evacuation};
use bal_core::FromGraph;
use bal_layout::{Geometry, Header, Kind, Name, write_header};
use bal_region::Region;
use std::alloc::Global;
use std::test::Fail;

/// Objects of one age, each with two slots. The first one has other words than the others.
#[derive(Drop)]
pub(crate) struct Trial {
    count: u32,
    age: u8,
    first: Vec<u64>,
    other: Vec<u64>,
    slots: Vec<(Option<u32>, Option<u32>)>,
    ghost counted: { count ≡ length slots.items },
}

impl FromGraph for Trial {
    ghost graph = { λ t. graph_of_trial t.count t.age t.first.items t.other.items t.slots.items };

    fn count(&self) -> u32 {
        self.count
    }

    fn age(&self, _object: u32) -> u8 {
        self.age
    }

    fn words(&self, object: u32) -> &[u64] {
        if object == 0 {
            self.first.as_slice()
        } else {
            self.other.as_slice()
        }
    }

    fn slots(&self, _object: u32) -> u32 {
        2
    }

    fn target(&self, object: u32, slot: u32) -> Option<u32> {
        let (first, second) = self.slots[object as usize];
        below(self.count, if slot == 0 { first } else { second })
    }
}

// The object that a slot holds, if it is one of so many.
fn below(count: u32, held: Option<u32>) -> Option<u32>
    ensures { result ≡ below count held }
{
    match held {
        Some(object) if object < count => Some(object),
        _ => None,
    }
}

// The words of an object with two references.
fn words_of(alloc: Global, size: u32) -> Result<Vec<u64>, Fail>
    requires least { 4 ≤ size }
    requires most { size ≤ 32 }
    ensures { IfOk result (λ v. v.items ≡ words_of_size size) }
{
    let (first, second) = write_header(&Header {
        kind: Kind::Plain,
        refs: 2,
        values: size - 4,
        name: Name {
            thread: 0,
            ordinal: 1,
        },
    });
    let mut words = vec![in alloc; 0; size as usize]?;
    words[0] = first;
    words[1] = second;
    Ok(words)
}

// Bare regions of 256 words, numbered from 1 on.
fn pool_of(alloc: Global, count: u32) -> Result<Vec<Region>, Fail>
    requires { count ≤ 3 }
    ensures { IfOk result (λ pool. (i : ℕ) (l : Land) → At pool.items i l
        → (l.number ≡ i + 1) × (i < count) × IsBare (record { regions = 4; words = 256 }) l) }
{
    let mut pool = Vec::with_capacity(alloc, count as usize)?;
    for place in 0..count {
        let mut region = Region::make(alloc, 256)?;
        region.set_number(place + 1);
        pool.push(region)?;
    }
    Ok(pool)
}

/// Objects of this age with these slots, of which the first one has so many words and each other one 31.
pub(crate) fn make_trial(
    alloc: Global,
    age: u8,
    first: u32,
    slots: &[(Option<u32>, Option<u32>)],
) -> Result<Trial, Fail>
    requires some { 1 ≤ length slots.now }
    requires few { length slots.now < 2 ^ 32 }
    requires least { 4 ≤ first }
    requires most { first ≤ 32 }
    requires age { age ≤ 24 }
    ensures trial { IfOk result (λ t. IsTrial t.count t.first.items t.other.items t.age) }
    ensures count { IfOk result (λ t. t.count ≡ length slots.now) }
{
    Ok(Trial {
        count: slots.len() as u32,
        age,
        first: words_of(alloc, first)?,
        other: words_of(alloc, 31)?,
        slots: Vec::from_slice(alloc, slots)?,
    })
}

/// Evacuates what these objects hold, into so many regions.
pub(crate) fn evacuate(
    alloc: Global,
    trial: &Trial,
    roots: (u32, u32),
    regions: u32,
    limit: Option<u64>,
) -> Result<Evacuated, Fail>
    requires trial { IsTrial trial.now.count trial.now.first.items trial.now.other.items trial.now.age }
    requires regions { regions ≤ 3 }
    requires first { roots.0 < trial.now.count }
    requires second { roots.1 < trial.now.count }
    ensures { IfOk result (λ e. e.buffers.reserved ≡ None) }
{
    let geometry = Geometry::new(4, 256)?;
    let pool = pool_of(alloc, regions)?;
    match Evacuation::make(alloc, geometry, trial, &[roots.0, roots.1], pool, limit) {
        Ok(evacuation) => Ok(evacuation.run()),
        Err((_, refused)) => Err(Fail::from(refused)),
    }
}
