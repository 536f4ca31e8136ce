//! Survivors as they are told, and in order.
ghost use Rattle.std.specs.Prelude.{◌≡◌, ◌<◌, [], ◌∷◌, All, replicate};
ghost use Rattle.bal_told.specs.Telling.{IsTellable};

use crate::{put_in_order, tell_survivors};
use bal_base::Items;
use bal_core::{Decision, FromGraph, Told};
use bal_layout::{Geometry, Header, Kind, Name, write_header};
use bal_model::{How, Kept};
use std::alloc::Global;
use std::process::Abort;
use std::test::Fail;

// So many objects of the same words, without slots.
#[derive(Drop)]
struct Alike {
    count: u32,
    words: Vec<u64>,
}

impl FromGraph for Alike {
    ghost graph = { λ a. record {
      ages = replicate a.count 0;
      words = replicate a.count a.words.items;
      targets = replicate a.count [];
    } };

    fn count(&self) -> u32 {
        self.count
    }

    fn age(&self, _object: u32) -> u8 {
        0
    }

    fn words(&self, _object: u32) -> &[u64] {
        self.words.as_slice()
    }

    fn slots(&self, _object: u32) -> u32 {
        0
    }

    fn target(&self, _object: u32, _slot: u32) -> Option<u32> {
        None
    }
}

fn name(thread: u32, ordinal: u32) -> Name
    ensures { result ≡ record { thread = thread; ordinal = ordinal } }
{
    Name { thread, ordinal }
}

// It is told so: its region if it is a copy, and its worker.
fn is_told(rt: &impl Abort, kept: &Kept, expected: Name, region: Option<u32>, worker: u32) {
    assert!(rt; kept.name == expected);
    assert!(rt; kept.worker == worker);
    let told = match kept.how {
        How::Copied(region) => Some(region),
        How::Marked => None,
    };
    assert!(rt; told == region);
}

// What is told of a decision of worker 4, in a heap of six regions of 256 words.
fn is_told_as(
    rt: &impl Abort,
    alloc: Global,
    graph: &Alike,
    decided: Told,
    region: Option<u32>,
) -> Result<(), Fail>
    requires { IsTellable (record { regions = 6; words = 256 }) graph.now.count decided }
{
    let geometry = Geometry::new(6, 256)?;
    let mut kept = Items::make(alloc)?;
    kept.reserve(1)?;
    tell_survivors(&geometry, graph, 4, &[decided], &mut kept);
    for kept in kept.as_slice() {
        is_told(rt, kept, name(3, 7), region, 4);
    }
    assert!(rt; kept.len() == 1);
    Ok(())
}

#[test]
fn a_copy_and_a_marked_object_are_told(rt: HostRuntime) -> Result<(), Fail> {
    let alloc = rt.alloc();
    let (first, second) = write_header(&Header {
        kind: Kind::Plain,
        refs: 0,
        values: 1,
        name: name(3, 7),
    });
    let graph = Alike {
        count: 2,
        words: Vec::from_slice(alloc, &[first, second, 0])?,
    };
    let copied = Told {
        object: 1,
        decision: Decision::Copied(1283),
    };
    let marked = Told {
        object: 0,
        decision: Decision::Marked,
    };
    is_told_as(&rt, alloc, &graph, copied, Some(5))?;
    is_told_as(&rt, alloc, &graph, marked, None)
}

#[test]
fn survivors_are_in_the_order_of_their_names(rt: HostRuntime) -> Result<(), Fail> {
    let mut kept = [
        Kept {
            name: name(2, 1),
            how: How::Copied(6),
            worker: 0,
        },
        Kept {
            name: name(1, 9),
            how: How::Marked,
            worker: 1,
        },
        Kept {
            name: name(1, 3),
            how: How::Copied(8),
            worker: 2,
        },
    ];
    put_in_order(&mut kept);
    is_told(&rt, &kept[0], name(1, 3), Some(8), 2);
    is_told(&rt, &kept[1], name(1, 9), None, 1);
    is_told(&rt, &kept[2], name(2, 1), Some(6), 0);
    Ok(())
}
