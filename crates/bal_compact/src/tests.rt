ghost use Rattle.std.specs.Prelude.{◌≡◌, All, IfOk, IsSome, true};
ghost use Rattle.bal_compact.specs.Trials.{IsTrial};
ghost use Rattle.bal_layout.specs.declared.name.Kind.TheVariants.{Plain};
ghost use Rattle.bal_table.specs.Table.{IsTable, things_of};
ghost use Rattle.bal_words.specs.Shown.{Finds};

use crate::compact;
use bal_barrier::{
    a_new_object_is_covered, a_new_table_is_covered, states_say_nothing_of_references, store_ref,
};
use bal_base::Items;
use bal_cards::Cards;
use bal_layout::{Geometry, Header, Kind, Name, Role, word_of, write_header};
use bal_plan::count_objects;
use bal_roots::Roots;
use bal_table::{Moves, Table};
use std::alloc::Global;
use std::process::Abort;
use std::test::Fail;

// Four regions of 256 words, each older than the one before. The largest object has 32 words.
fn empty_heap(alloc: Global) -> Result<Table, Fail>
    ensures { IfOk result IsTrial }
{
    a_new_table_is_covered();
    states_say_nothing_of_references();
    let mut table = Table::make(alloc, Geometry::new(4, 256)?)?;
    // It is a table: so its shape is one.
    let _ = table.geometry();
    for age in 0..4 {
        table.take_free(Role::Object { age });
    }
    Ok(table)
}

// The header of a plain object of thread 0, without values.
fn plain(refs: u32, ordinal: u32) -> Header
    ensures { result ≡ record { kind = Plain; refs = refs; values = 0; name = record { thread = 0; ordinal = ordinal } } }
{
    Header {
        kind: Kind::Plain,
        refs,
        values: 0,
        name: Name { thread: 0, ordinal },
    }
}

// Places an object of so many words in a region, if it has room and the object is not too large.
fn put(table: &mut Table, region: u32, words: u32)
    requires { IsTrial table.old }
    ensures { IsTrial table.new }
{
    a_new_object_is_covered();
    let geometry = table.geometry();
    if words < 2 || words > geometry.largest() {
        return;
    }
    if region >= geometry.regions() || !table.region(region).fits(words) {
        return;
    }
    let Role::Object { .. } = table.role(region) else {
        return;
    };
    let address = geometry.address(region, table.region(region).used());
    let (first, second) = write_header(&plain(words - 2, address + 1));
    table.place_new(region, first, second, words);
}

// A heap with these objects, as regions and words.
fn heap_of(alloc: Global, objects: &[(u32, u32)]) -> Result<Table, Fail>
    ensures { IfOk result IsTrial }
{
    let mut table = empty_heap(alloc)?;
    for (region, words) in objects {
        put(&mut table, *region, *words);
    }
    Ok(table)
}

// Whether an object starts there.
fn starts(table: &Table, address: u32) -> bool
    ensures table { IsTable table.now }
    ensures start { result ≡ true → IsSome (things_of table.now address) }
{
    let geometry = table.geometry();
    let within = address < geometry.regions() * geometry.words();
    within && table.holder_at(address) == Some(address)
}

// The first slot of an object refers to another one, if both are objects.
fn point(table: &mut Table, cards: &mut Cards, from: u32, to: u32)
    requires trial { IsTrial table.old }
    requires shape { cards.old.shape ≡ table.old.shape }
    ensures { IsTrial table.new }
{
    if starts(table, from) && starts(table, to) && 0 < table.slots(from) {
        store_ref(table, cards, from, 0, word_of(to));
    }
}

// The first root holds what starts there, if an object does.
fn hold(table: &Table, roots: &mut Roots, to: u32)
    requires { All (Finds (things_of table.now)) roots.old }
    ensures { All (Finds (things_of table.now)) roots.new }
{
    if starts(table, to) {
        roots.set_root(0, word_of(to));
    }
}

// Compacts a heap of which the first root holds what starts at an address, and answers what it holds then.
fn compacted(alloc: Global, table: &mut Table, held: u32) -> Result<u64, Fail>
    requires { IsTrial table.old }
{
    let geometry = table.geometry();
    let mut cards = Cards::make(alloc, geometry)?;
    let mut roots = Roots::make(alloc)?;
    hold(table, &mut roots, held);
    let mut moves = Moves::make(alloc, &geometry)?;
    let mut packed = Items::make(alloc)?;
    packed.reserve(count_objects(table) as usize)?;
    compact(table, &mut cards, &mut roots, &mut moves, &mut packed);
    Ok(roots.root(0))
}

// The regions have these roles, and so many of their words are in use and alive.
fn regions_are(rt: &impl Abort, table: &Table, expected: &[(Role, u32)]) {
    let mut region = 0u32;
    for (role, used) in expected {
        assert!(rt; region < table.geometry().regions());
        let state = table.state(region);
        assert!(rt; state.role == *role);
        assert_eq!(rt; state.used, *used);
        assert_eq!(rt; state.estimate, *used);
        region = region.saturating_add(1);
    }
}

// The word at an address is what it should be.
fn reads(rt: &impl Abort, table: &Table, address: u32, expected: u64) {
    let geometry = table.geometry();
    assert!(rt; address < geometry.regions() * geometry.words());
    assert_eq!(rt; table.word(address), expected);
}

// Of ten objects eight fill the first region, which is as old then as the oldest of them.
#[test]
fn objects_are_packed_and_references_lead_to_where_they_went(rt: HostRuntime) -> Result<(), Fail> {
    let mut objects = [(3, 32); 10];
    objects[0] = (0, 32);
    for object in &mut objects[1..5] {
        *object = (2, 32);
    }
    let mut table = heap_of(rt.alloc(), &objects)?;
    let mut cards = Cards::make(rt.alloc(), table.geometry())?;
    point(&mut table, &mut cards, 0, 896);
    assert_eq!(rt; compacted(rt.alloc(), &mut table, 768)?, 161);
    let filled = (Role::Object { age: 3 }, 256);
    let last = (Role::Object { age: 0 }, 64);
    let free = (Role::Free, 0);
    regions_are(&rt, &table, &[filled, last, free, free]);
    assert!(rt; table.current() == Some(1));
    reads(&rt, &table, 2, 289);
    Ok(())
}

#[test]
fn without_objects_all_regions_are_free(rt: HostRuntime) -> Result<(), Fail> {
    let mut table = heap_of(rt.alloc(), &[])?;
    assert_eq!(rt; compacted(rt.alloc(), &mut table, 0)?, 0);
    regions_are(&rt, &table, &[(Role::Free, 0); 4]);
    assert!(rt; table.current() == None);
    Ok(())
}

// The first eight leave one word of the first region, and the last one has two.
#[test]
fn an_object_that_does_not_fit_goes_to_the_next_region(rt: HostRuntime) -> Result<(), Fail> {
    let mut objects = [(1, 32); 9];
    objects[7] = (1, 31);
    objects[8] = (2, 2);
    let mut table = heap_of(rt.alloc(), &objects)?;
    compacted(rt.alloc(), &mut table, 0)?;
    let filled = (Role::Object { age: 1 }, 255);
    let last = (Role::Object { age: 0 }, 2);
    let free = (Role::Free, 0);
    regions_are(&rt, &table, &[filled, last, free, free]);
    Ok(())
}
