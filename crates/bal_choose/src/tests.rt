ghost use Rattle.std.specs.Prelude.{◌≡◌};
ghost use Rattle.bal_choose.specs.Choice.{AreOfDistinctRegions};

use crate::{ChoiceRow, choose};
use std::alloc::Global;
use std::process::Abort;
use std::test::Fail;

// A row whose list has not overflowed.
fn row(region: u32, age: u8, used: u32, estimate: u32) -> ChoiceRow
    ensures { result.region ≡ region }
{
    ChoiceRow {
        region,
        age,
        overflowed: false,
        used,
        estimate,
    }
}

// A row whose list has overflowed.
fn overflowed(region: u32, age: u8, used: u32, estimate: u32) -> ChoiceRow
    ensures { result.region ≡ region }
{
    ChoiceRow {
        overflowed: true,
        ..row(region, age, used, estimate)
    }
}

// With at most so many older regions, these are taken.
fn are_taken(
    rt: &impl Abort,
    alloc: Global,
    rows: &[ChoiceRow],
    cases: &[(u32, &[u32])],
) -> Result<(), Fail>
    requires { AreOfDistinctRegions rows.now }
{
    for (older, expected) in cases {
        let chosen = choose(alloc, rows, *older)?;
        assert!(rt; chosen.as_slice() == *expected, "{older}");
    }
    Ok(())
}

// The regions 1 and 2 are young, and so is 0, whose list has overflowed, as has that of 4. All words of 5 are alive. The most
// garbage is in 8; 7 and 9 have as much as each other, and 3 has one word.
#[test]
fn those_with_the_most_garbage_are_taken(rt: HostRuntime) -> Result<(), Fail> {
    let rows = [
        row(9, 24, 1000, 400),
        row(2, 0, 512, 512),
        row(7, 1, 900, 300),
        overflowed(0, 0, 100, 0),
        overflowed(4, 3, 1024, 0),
        row(5, 2, 700, 700),
        row(3, 2, 100, 99),
        row(8, 5, 1024, 0),
        row(1, 0, 0, 0),
    ];
    let cases: [(u32, &[u32]); 7] = [
        (0, &[1, 2]),
        (1, &[1, 2, 8]),
        (2, &[1, 2, 7, 8]),
        (3, &[1, 2, 7, 8, 9]),
        (4, &[1, 2, 3, 7, 8, 9]),
        (5, &[1, 2, 3, 7, 8, 9]),
        (u32::MAX, &[1, 2, 3, 7, 8, 9]),
    ];
    are_taken(&rt, rt.alloc(), &rows, &cases)
}

#[test]
fn of_nothing_nothing_is_taken(rt: HostRuntime) -> Result<(), Fail> {
    let cases: [(u32, &[u32]); 2] = [(0, &[]), (3, &[])];
    are_taken(&rt, rt.alloc(), &[], &cases)?;
    are_taken(&rt, rt.alloc(), &[row(0, 1, 50, 50)], &cases)
}
