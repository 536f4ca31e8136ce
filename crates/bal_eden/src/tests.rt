ghost use Rattle.std.specs.Prelude.{◌≡◌, ◌<◌, ◌≤◌, ◌^◌};

use crate::{Room, allocate, find_room};
use bal_layout::{Geometry, Header, Kind, Name, Role, Want, want_arr, want_new};
use bal_table::Table;
use std::alloc::Global;
use std::process::Abort;
use std::test::Fail;

// Four free regions of 256 words.
fn four_free(alloc: Global) -> Result<Table, Fail> {
    Ok(Table::make(alloc, Geometry::new(4, 256)?)?)
}

// An address or a region's number, or none.
fn answers(rt: &impl Abort, found: Option<u32>, expected: Option<u32>) {
    assert_eq!(rt; found, expected);
}

// So many words and leaves have room there.
fn has_room(
    rt: &impl Abort,
    table: &Table,
    words: u32,
    leaves: u32,
    soft: Option<u32>,
    expected: Room,
) {
    assert!(rt;
        find_room(table, &Want { words, leaves }, soft) == expected,
        "{words} {leaves}"
    );
}

// A region is eden or free, so many of its words were given out, and as many are thought to be alive.
fn holds(rt: &impl Abort, table: &Table, region: u32, eden: bool, used: u32) {
    if region >= table.geometry().regions() {
        return;
    }
    let role = if eden {
        Role::Object { age: 0 }
    } else {
        Role::Free
    };
    assert!(rt; table.role(region) == role, "{region}");
    assert_eq!(rt; table.region(region).used(), used);
    assert_eq!(rt; table.estimate(region), used);
}

// Allocates a plain object under a budget of eden regions, and answers its address.
fn put(table: &mut Table, refs: u32, values: u32, ordinal: u32, soft: Option<u32>) -> Option<u32>
    requires refs { refs < 2 ^ 24 }
    requires values { values < 2 ^ 24 }
    requires first { 1 ≤ ordinal }
{
    let want = want_new(&table.geometry(), u64::from(refs), u64::from(values))?;
    let room = find_room(table, &want, soft);
    if room == Room::Nowhere || want.leaves > 0 {
        return None;
    }
    let header = Header {
        kind: Kind::Plain,
        refs,
        values,
        name: Name { thread: 0, ordinal },
    };
    Some(allocate(table, &want, room, &header))
}

// Allocates an array in one piece, and answers its address.
fn put_array(table: &mut Table, len: u32, ordinal: u32) -> Option<u32>
    requires len { len < 2 ^ 24 }
    requires first { 1 ≤ ordinal }
{
    let want = want_arr(&table.geometry(), u64::from(len))?;
    let room = find_room(table, &want, None);
    if room == Room::Nowhere || want.leaves > 0 {
        return None;
    }
    let header = Header {
        kind: Kind::Array,
        refs: len,
        values: 0,
        name: Name { thread: 0, ordinal },
    };
    Some(allocate(table, &want, room, &header))
}

#[test]
fn room_is_here_or_fresh_or_nowhere(rt: HostRuntime) -> Result<(), Fail> {
    let mut table = four_free(rt.alloc())?;
    has_room(&rt, &table, 32, 0, None, Room::Fresh(0));
    has_room(&rt, &table, 32, 3, Some(1), Room::Fresh(0));
    has_room(&rt, &table, 32, 4, Some(1), Room::Nowhere);
    answers(&rt, put(&mut table, 10, 20, 1, Some(0)), None);
    answers(&rt, table.current(), None);
    answers(&rt, put(&mut table, 10, 20, 1, Some(1)), Some(0));
    answers(&rt, table.current(), Some(0));
    for (words, leaves, soft, found) in [
        // The current region has 224 words left.
        (224, 0, None, Room::Here),
        (224, 0, Some(0), Room::Here),
        (225, 0, None, Room::Fresh(1)),
        // It is eden, so under a budget of one no free region is taken.
        (225, 0, Some(1), Room::Nowhere),
        (225, 0, Some(2), Room::Fresh(1)),
        (u32::MAX, 0, Some(2), Room::Fresh(1)),
        // Three regions are free.
        (224, 3, None, Room::Here),
        (224, 4, None, Room::Nowhere),
        (225, 2, None, Room::Fresh(1)),
        (225, 3, None, Room::Nowhere),
        (1, u32::MAX, None, Room::Nowhere),
    ] {
        has_room(&rt, &table, words, leaves, soft, found);
    }
    Ok(())
}

// After objects of 7, 12 and 224 words 13 words are left.
#[test]
fn objects_are_placed_one_after_the_other(rt: HostRuntime) -> Result<(), Fail> {
    let mut table = four_free(rt.alloc())?;
    answers(&rt, put(&mut table, 3, 2, 1, Some(1)), Some(0));
    answers(&rt, put_array(&mut table, 10, 2), Some(7));
    holds(&rt, &table, 0, true, 19);
    for ordinal in 3..10u32 {
        answers(
            &rt,
            put(&mut table, 30, 0, ordinal, Some(1)),
            Some(32 * ordinal - 77),
        );
    }
    answers(&rt, put(&mut table, 12, 0, 10, Some(1)), None);
    answers(&rt, table.current(), Some(0));
    answers(&rt, put(&mut table, 12, 0, 10, Some(2)), Some(256));
    answers(&rt, table.current(), Some(1));
    answers(&rt, put_array(&mut table, 0, 11), Some(270));
    for (region, eden, used) in [(0, true, 243), (1, true, 16), (2, false, 0)] {
        holds(&rt, &table, region, eden, used);
    }
    Ok(())
}

#[test]
fn a_full_heap_has_no_room(rt: HostRuntime) -> Result<(), Fail> {
    let mut table = four_free(rt.alloc())?;
    for region in 0..4u32 {
        // Eight objects of 32 words fill a region.
        for ordinal in 1..9 {
            put(&mut table, 10, 20, ordinal, None);
        }
        answers(&rt, table.current(), Some(region));
        holds(&rt, &table, region, true, 256);
    }
    has_room(&rt, &table, 2, 0, None, Room::Nowhere);
    answers(&rt, put(&mut table, 0, 0, 1, None), None);
    answers(&rt, put_array(&mut table, 0, 1), None);
    Ok(())
}
