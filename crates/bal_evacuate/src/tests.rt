//! Evacuations worked out by hand: the order of the decisions, full regions, and why they are abandoned.
ghost use Rattle.std.specs.Prelude.{◌≡◌, ◌<◌, ◌≤◌, None, length};

mod trial;

use crate::Evacuated;
use bal_core::Decision;
use std::process::Abort;
use std::test::Fail;
use trial::{evacuate, make_trial};

// The objects that were decided in turn: each with its new address, or marked.
fn decides(rt: &impl Abort, evacuated: &Evacuated, expected: &[(u32, Option<u32>)]) {
    let won = evacuated.won();
    assert!(rt; won.len() == expected.len());
    for (told, (object, address)) in won.iter().zip(expected) {
        let decision = match address {
            Some(address) => Decision::Copied(*address),
            None => Decision::Marked,
        };
        assert!(rt;
            told.object == *object && told.decision == decision,
            "{object}"
        );
        assert!(rt; evacuated.decision(*object) == Some(decision), "{object}");
    }
}

// Why it was abandoned: by the worker's wish, or since the pool was drained.
fn ends(rt: &impl Abort, evacuated: &Evacuated, wished: bool, drained: bool) {
    assert!(rt; evacuated.wished() == wished && evacuated.drained() == drained);
}

// The next region of survivors: its number, its age, and how many words were given out.
fn fills(rt: &impl Abort, evacuated: &mut Evacuated, expected: Option<(u32, u8, u32)>)
    requires { evacuated.old.buffers.reserved ≡ None }
    ensures { evacuated.new.buffers.reserved ≡ None }
{
    match evacuated.take_region() {
        Some((number, age, region)) => {
            assert!(rt; expected == Some((number, age, region.used())), "{number}");
        }
        None => {
            assert!(rt; expected.is_none());
        }
    }
}

// The number of the next region that was not drawn.
fn spares(rt: &impl Abort, evacuated: &mut Evacuated, expected: Option<u32>)
    ensures { evacuated.new.buffers ≡ evacuated.old.buffers }
{
    match evacuated.take_spare() {
        Some(region) => {
            assert!(rt; expected == Some(region.number()));
        }
        None => {
            assert!(rt; expected.is_none());
        }
    }
}

#[test]
fn objects_are_decided_breadth_first(rt: HostRuntime) -> Result<(), Fail> {
    // The last object is held by nothing.
    let slots = [
        (Some(1), Some(2)),
        (Some(3), Some(0)),
        (Some(4), None),
        (None, None),
        (Some(2), Some(4)),
        (Some(0), Some(3)),
    ];
    let trial = make_trial(rt.alloc(), 3, 9, &slots)?;
    let mut evacuated = evacuate(rt.alloc(), &trial, (2, 0), 2, None)?;
    let expected = [
        (2, Some(256)),
        (0, Some(287)),
        (4, Some(296)),
        (1, Some(327)),
        (3, Some(358)),
    ];
    decides(&rt, &evacuated, &expected);
    assert!(&rt; evacuated.decision(5).is_none());
    ends(&rt, &evacuated, false, false);
    fills(&rt, &mut evacuated, Some((1, 4, 133)));
    fills(&rt, &mut evacuated, None);
    spares(&rt, &mut evacuated, Some(2));
    spares(&rt, &mut evacuated, None);
    Ok(())
}

#[test]
fn a_ring_is_copied_up_to_the_limit(rt: HostRuntime) -> Result<(), Fail> {
    let ring = [(Some(1), Some(1)), (Some(2), None), (None, Some(0))];
    let trial = make_trial(rt.alloc(), 24, 4, &ring)?;
    let copied = [(1, Some(256)), (2, Some(287)), (0, Some(318))];
    for limit in 0..4u32 {
        let evacuated = evacuate(rt.alloc(), &trial, (1, 1), 1, Some(u64::from(limit)))?;
        let mut expected = copied;
        for (place, decision) in expected.iter_mut().enumerate() {
            if place >= limit as usize {
                decision.1 = None;
            }
        }
        decides(&rt, &evacuated, &expected);
        ends(&rt, &evacuated, limit < 3, false);
    }
    let mut evacuated = evacuate(rt.alloc(), &trial, (1, 1), 1, None)?;
    fills(&rt, &mut evacuated, Some((1, 24, 66)));
    let mut evacuated = evacuate(rt.alloc(), &trial, (1, 1), 1, Some(0))?;
    fills(&rt, &mut evacuated, None);
    spares(&rt, &mut evacuated, Some(1));
    Ok(())
}

// Nine objects, each of which holds the next one.
const CHAIN: [(Option<u32>, Option<u32>); 9] = [
    (Some(1), None),
    (Some(2), None),
    (Some(3), None),
    (Some(4), None),
    (Some(5), None),
    (Some(6), None),
    (Some(7), None),
    (Some(8), None),
    (None, None),
];

#[test]
fn a_region_is_filled_to_its_last_word(rt: HostRuntime) -> Result<(), Fail> {
    // The last one ends with the region's last word.
    let trial = make_trial(rt.alloc(), 0, 8, &CHAIN)?;
    let mut evacuated = evacuate(rt.alloc(), &trial, (0, 0), 1, None)?;
    assert!(&rt; evacuated.decision(8) == Some(Decision::Copied(481)));
    ends(&rt, &evacuated, false, false);
    fills(&rt, &mut evacuated, Some((1, 1, 256)));
    spares(&rt, &mut evacuated, None);
    // It would end one word behind it.
    let trial = make_trial(rt.alloc(), 0, 9, &CHAIN)?;
    let mut evacuated = evacuate(rt.alloc(), &trial, (0, 0), 1, None)?;
    assert!(&rt; evacuated.decision(7) == Some(Decision::Copied(451)));
    assert!(&rt; evacuated.decision(8) == Some(Decision::Marked));
    ends(&rt, &evacuated, false, true);
    fills(&rt, &mut evacuated, Some((1, 1, 226)));
    // There is another region.
    let mut evacuated = evacuate(rt.alloc(), &trial, (0, 0), 3, None)?;
    assert!(&rt; evacuated.decision(8) == Some(Decision::Copied(512)));
    ends(&rt, &evacuated, false, false);
    fills(&rt, &mut evacuated, Some((1, 1, 226)));
    fills(&rt, &mut evacuated, Some((2, 1, 31)));
    fills(&rt, &mut evacuated, None);
    spares(&rt, &mut evacuated, Some(3));
    Ok(())
}
