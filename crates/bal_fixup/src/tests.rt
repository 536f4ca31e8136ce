ghost use Rattle.std.specs.Prelude.{◌≡◌, ◌<◌, IfOk, IsSome, true};
ghost use Rattle.bal_fixup.specs.Mended.{AreReferences};
ghost use Rattle.bal_table.specs.Table.{IsTable, things_of};

use crate::{fix_objects, fix_roots};
use bal_layout::{Geometry, Header, Kind, Name, Role, word_of, write_header};
use bal_roots::Roots;
use bal_table::{Moves, Table};
use std::alloc::Global;
use std::process::Abort;
use std::test::Fail;

// A word is what it should be.
fn is(rt: &impl Abort, word: u64, expected: u64) {
    assert_eq!(rt; word, expected);
}

// One object went from 4 to 8, and the one that was there to 512.
fn two_moves(alloc: Global) -> Result<Moves, Fail> {
    let mut moves = Moves::make(alloc, &Geometry::new(4, 256)?)?;
    moves.set(4, 8);
    moves.set(8, 512);
    Ok(moves)
}

// Four regions, of which the first two take objects.
fn empty_heap(alloc: Global) -> Result<Table, Fail>
    ensures { IfOk result (λ table. AreReferences (things_of table)) }
{
    let mut table = Table::make(alloc, Geometry::new(4, 256)?)?;
    let _geometry = table.geometry();
    table.take_free(Role::Object { age: 0 });
    table.take_free(Role::Object { age: 1 });
    Ok(table)
}

// Places an object of four words, with two slots, in a region, if this has room.
fn put(table: &mut Table, region: u32)
    requires region { region < 4 }
    requires references { AreReferences (things_of table.old) }
    ensures { AreReferences (things_of table.new) }
{
    let _geometry = table.geometry();
    let Role::Object { .. } = table.role(region) else {
        return;
    };
    if !table.region(region).fits(4) {
        return;
    }
    let header = Header {
        kind: Kind::Plain,
        refs: 2,
        values: 0,
        name: Name {
            thread: 0,
            ordinal: 1,
        },
    };
    let (first, second) = write_header(&header);
    table.place_new(region, first, second, 4);
}

// Whether an object starts there.
fn starts(table: &Table, address: u32) -> bool
    ensures table { IsTable table.now }
    ensures start { result ≡ true → IsSome (things_of table.now address) }
{
    let geometry = table.geometry();
    let within = address < geometry.regions() * geometry.words();
    within && table.holder_at(address) == Some(address)
}

// A slot of an object refers to an address, if there is one.
fn point(table: &mut Table, from: u32, slot: u32, to: u32)
    requires { AreReferences (things_of table.old) }
    ensures { AreReferences (things_of table.new) }
{
    if starts(table, from) && slot < table.slots(from) {
        let place = table.slot_place(from, slot);
        table.set_word(place, word_of(to));
    }
}

// The word at an address is what it should be.
fn reads(rt: &impl Abort, table: &Table, address: u32, expected: u64) {
    let geometry = table.geometry();
    let mut word = u64::MAX;
    if address < geometry.regions() * geometry.words() {
        word = table.word(address);
    }
    is(rt, word, expected);
}

#[test]
fn a_root_is_led_on_once(rt: HostRuntime) -> Result<(), Fail> {
    let moves = two_moves(rt.alloc())?;
    let mut roots = Roots::make(rt.alloc())?;
    roots.set_root(0, 5);
    roots.set_root(1, 9);
    roots.set_root(2, 1);
    roots.set_root(1087, 5);
    fix_roots(&mut roots, &moves);
    for (index, word) in [(0, 9), (1, 513), (2, 1), (3, 0), (1087, 9)] {
        is(&rt, roots.root(index), word);
    }
    Ok(())
}

#[test]
fn a_reference_is_led_on_once(rt: HostRuntime) -> Result<(), Fail> {
    let moves = two_moves(rt.alloc())?;
    let mut table = empty_heap(rt.alloc())?;
    put(&mut table, 0);
    put(&mut table, 0);
    put(&mut table, 1);
    point(&mut table, 0, 0, 4);
    point(&mut table, 0, 1, 8);
    point(&mut table, 4, 1, 0);
    point(&mut table, 256, 1, 4);
    fix_objects(&mut table, &moves);
    for (address, word) in [(2, 9), (3, 513), (6, 0), (7, 1), (258, 0), (259, 9)] {
        reads(&rt, &table, address, word);
    }
    Ok(())
}
