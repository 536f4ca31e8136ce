ghost use Rattle.std.specs.Prelude.{◌≡◌, ◌*◌, IfOk, IsSome, true};
ghost use Rattle.bal_mark.specs.Found.{AreFound};
ghost use Rattle.bal_table.specs.Table.{IsTable, things_of};

use crate::close_marks;
use bal_layout::{Geometry, Header, Kind, Name, Role, word_of, write_header};
use bal_roots::Roots;
use bal_table::{Marks, Table};
use std::alloc::Global;
use std::process::Abort;
use std::test::Fail;

// An address is marked, or it is not.
fn is_marked(rt: &impl Abort, marks: &Marks, address: u32, expected: bool) {
    assert_eq!(rt; marks.has(address), expected);
}

// Four regions of so many words, of which the first takes objects, and roots that hold nothing.
fn empty_heap(alloc: Global, words: u64) -> Result<(Table, Roots), Fail>
    ensures { IfOk result (λ heap. AreFound (things_of heap.0) heap.1) }
{
    let mut table = Table::make(alloc, Geometry::new(4, words)?)?;
    let _geometry = table.geometry();
    table.take_free(Role::Object { age: 0 });
    Ok((table, Roots::make(alloc)?))
}

// Places an object of four words, with two slots, in the first region, if this has room.
fn put(table: &mut Table, roots: &Roots)
    requires { AreFound (things_of table.old) roots.now }
    ensures { AreFound (things_of table.new) roots.now }
{
    let _geometry = table.geometry();
    let Role::Object { .. } = table.role(0) else {
        return;
    };
    if !table.region(0).fits(4) {
        return;
    }
    let header = Header {
        kind: Kind::Plain,
        refs: 2,
        values: 0,
        name: Name {
            thread: 0,
            ordinal: 1,
        },
    };
    let (first, second) = write_header(&header);
    table.place_new(0, first, second, 4);
}

// Places so many objects.
fn put_all(table: &mut Table, roots: &Roots, count: u32)
    requires { AreFound (things_of table.old) roots.now }
    ensures { AreFound (things_of table.new) roots.now }
{
    for _ in 0..count {
        put(table, roots);
    }
}

// Whether an object starts there.
fn starts(table: &Table, address: u32) -> bool
    ensures table { IsTable table.now }
    ensures start { result ≡ true → IsSome (things_of table.now address) }
{
    let geometry = table.geometry();
    let within = address < geometry.regions() * geometry.words();
    within && table.holder_at(address) == Some(address)
}

// The last slot of an object refers to another one, if both are objects.
fn point(table: &mut Table, roots: &Roots, from: u32, to: u32)
    requires { AreFound (things_of table.old) roots.now }
    ensures { AreFound (things_of table.new) roots.now }
{
    if starts(table, from) && starts(table, to) && 1 < table.slots(from) {
        let place = table.slot_place(from, 1);
        table.set_word(place, word_of(to));
    }
}

// A root holds what starts there, if an object does.
fn hold(table: &Table, roots: &mut Roots, index: u32, to: u32)
    requires { AreFound (things_of table.now) roots.old }
    ensures { AreFound (things_of table.now) roots.new }
{
    if index < roots.root_count() && starts(table, to) {
        roots.set_root(index, word_of(to));
    }
}

// Each root holds the object of its number.
fn hold_all(table: &Table, roots: &mut Roots)
    requires { AreFound (things_of table.now) roots.old }
    ensures { AreFound (things_of table.now) roots.new }
{
    for index in 0..1088 {
        hold(table, roots, index, 4 * index);
    }
}

// The last slots of three objects refer to one another.
fn tie(table: &mut Table, roots: &Roots, first: u32, second: u32, third: u32)
    requires { AreFound (things_of table.old) roots.now }
    ensures { AreFound (things_of table.new) roots.now }
{
    point(table, roots, first, second);
    point(table, roots, second, third);
    point(table, roots, third, first);
}

// Of 1,089 objects just those from an address on and before another one are marked from the roots.
fn marks_just(rt: &impl Abort, table: &Table, roots: &Roots, marks: &mut Marks, from: u32, to: u32)
    requires found { AreFound (things_of table.now) roots.now }
    requires words { marks.old.words ≡ table.now.shape.regions * table.now.shape.words }
    ensures words { marks.new.words ≡ marks.old.words }
{
    close_marks(table, roots, marks);
    for address in 0..4356 {
        let within = from <= address && address < to && address % 4 == 0;
        is_marked(rt, marks, address, within);
    }
}

#[test]
fn a_ring_is_marked_as_long_as_a_root_holds_it(rt: HostRuntime) -> Result<(), Fail> {
    let (mut table, mut roots) = empty_heap(rt.alloc(), 256)?;
    put_all(&mut table, &roots, 6);
    tie(&mut table, &roots, 0, 4, 8);
    tie(&mut table, &roots, 12, 16, 20);
    let mut marks = Marks::make(rt.alloc(), &table.geometry())?;
    hold(&table, &mut roots, 40, 4);
    marks_just(&rt, &table, &roots, &mut marks, 0, 12);
    hold(&table, &mut roots, 40, 20);
    marks_just(&rt, &table, &roots, &mut marks, 12, 24);
    Ok(())
}

// The last object is held by no root.
#[test]
fn what_each_root_holds_is_marked(rt: HostRuntime) -> Result<(), Fail> {
    let (mut table, mut roots) = empty_heap(rt.alloc(), 8192)?;
    put_all(&mut table, &roots, 1089);
    hold_all(&table, &mut roots);
    let mut marks = Marks::make(rt.alloc(), &table.geometry())?;
    marks_just(&rt, &table, &roots, &mut marks, 0, 4352);
    Ok(())
}
