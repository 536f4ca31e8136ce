ghost use Rattle.std.specs.Prelude.{◌≡◌};
ghost use Rattle.bal_layout.specs.declared.name.Kind.TheVariants.{Plain};

use crate::{count_objects, plan};
use bal_base::Items;
use bal_layout::{Geometry, Header, Kind, Name, Role, write_header};
use bal_model::Packed;
use bal_table::{Moves, Table};
use std::alloc::Global;
use std::process::Abort;
use std::test::Fail;

// Four regions of 256 words, and each takes objects, of which the largest has 32 words.
fn empty_heap(alloc: Global) -> Result<Table, Fail> {
    let mut table = Table::make(alloc, Geometry::new(4, 256)?)?;
    for _ in 0..4 {
        table.take_free(Role::Object { age: 0 });
    }
    Ok(table)
}

// The header of a plain object of thread 0, without values.
fn plain(refs: u32, ordinal: u32) -> Header
    ensures { result ≡ record { kind = Plain; refs = refs; values = 0; name = record { thread = 0; ordinal = ordinal } } }
{
    Header {
        kind: Kind::Plain,
        refs,
        values: 0,
        name: Name { thread: 0, ordinal },
    }
}

// Places an object of so many words in a region, if it has room and the object is not too large.
fn put(table: &mut Table, region: u32, words: u32, ordinal: u32) {
    let geometry = table.geometry();
    if words < 2 || words > geometry.largest() || ordinal == 0 {
        return;
    }
    if region >= geometry.regions() || !table.region(region).fits(words) {
        return;
    }
    let Role::Object { .. } = table.role(region) else {
        return;
    };
    let (first, second) = write_header(&plain(words - 2, ordinal));
    table.place_new(region, first, second, words);
}

// A heap with these objects, as regions and words. Their names are numbered from 1 on.
fn heap_of(alloc: Global, objects: &[(u32, u32)]) -> Result<Table, Fail> {
    let mut table = empty_heap(alloc)?;
    let mut ordinal = 0u32;
    for (region, words) in objects {
        ordinal = ordinal.saturating_add(1);
        put(&mut table, *region, *words, ordinal);
    }
    Ok(table)
}

// Takes away the object that starts there.
fn take(table: &mut Table, address: u32) {
    let geometry = table.geometry();
    if address < geometry.regions() * geometry.words()
        && table.holder_at(address) == Some(address)
    {
        table.remove(address);
    }
}

// Objects go to these addresses from where they are, if they do not stay, and are told by their ordinals and regions.
fn goes(
    rt: &impl Abort,
    alloc: Global,
    table: &Table,
    expected: &[(u32, Option<u32>, u32, u32)],
) -> Result<(), Fail> {
    let mut moves = Moves::make(alloc, &table.geometry())?;
    let mut packed = Items::make(alloc)?;
    packed.reserve(count_objects(table) as usize)?;
    plan(table, &mut moves, &mut packed);
    assert_eq!(rt; count_objects(table) as usize, expected.len());
    assert_eq!(rt; packed.len(), expected.len());
    for (object, (from, to, ordinal, region)) in packed.as_slice().iter().zip(expected) {
        assert!(rt; moves.to(*from) == *to);
        assert_eq!(rt; object.name.ordinal, *ordinal);
        assert_eq!(rt; object.region, *region);
    }
    Ok(())
}

#[test]
fn objects_without_a_gap_stay(rt: HostRuntime) -> Result<(), Fail> {
    let table = heap_of(rt.alloc(), &[])?;
    goes(&rt, rt.alloc(), &table, &[])?;
    let table = heap_of(rt.alloc(), &[(0, 4), (0, 2), (0, 32)])?;
    let stay = [(0, None, 1, 0), (4, None, 2, 0), (6, None, 3, 0)];
    goes(&rt, rt.alloc(), &table, &stay)
}

#[test]
fn objects_go_down_into_gaps(rt: HostRuntime) -> Result<(), Fail> {
    let mut table = heap_of(
        rt.alloc(),
        &[(0, 10), (0, 20), (0, 5), (1, 8), (3, 32), (3, 2)],
    )?;
    take(&mut table, 10);
    take(&mut table, 800);
    goes(
        &rt,
        rt.alloc(),
        &table,
        &[
            (0, None, 1, 0),
            (30, Some(10), 3, 0),
            (256, Some(15), 4, 0),
            (768, Some(23), 5, 0),
        ],
    )
}

// The first eight fill region 0 to its last word. Those of region 2 leave one word of region 1, and the last object has two.
#[test]
fn an_object_that_does_not_fit_goes_to_the_next_region(rt: HostRuntime) -> Result<(), Fail> {
    let mut objects = [(1, 32); 17];
    for object in &mut objects[8..15] {
        *object = (2, 32);
    }
    objects[15] = (2, 31);
    objects[16] = (3, 2);
    let table = heap_of(rt.alloc(), &objects)?;
    let mut expected = [(0, None, 0, 0); 17];
    for index in 0..8u32 {
        expected[index as usize] = (256 + 32 * index, Some(32 * index), index + 1, 0);
        expected[index as usize + 8] = (512 + 32 * index, Some(256 + 32 * index), index + 9, 1);
    }
    expected[16] = (768, Some(512), 17, 2);
    goes(&rt, rt.alloc(), &table, &expected)
}
