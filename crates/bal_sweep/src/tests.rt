ghost use Rattle.std.specs.Prelude.{◌≡◌, ◌<◌, IfOk, true};
ghost use Rattle.bal_layout.specs.Addresses.{cards_of};
ghost use Rattle.bal_layout.specs.declared.name.Kind.TheVariants.{Plain};
ghost use Rattle.bal_sweep.specs.Trials.{IsTrial};

use crate::{keep_marked, objects_are_few, sweep};
use bal_base::Items;
use bal_cards::Cards;
use bal_layout::{CARD_WORDS, Geometry, Header, Kind, Name, Role, write_header};
use bal_table::{Marks, Table};
use std::alloc::Global;
use std::process::Abort;
use std::test::Fail;

// Four regions of 256 words, of which the last is free and each other one is older than the one before. The largest object
// has 32 words.
fn empty_heap(alloc: Global) -> Result<Table, Fail>
    ensures { IfOk result IsTrial }
{
    let mut table = Table::make(alloc, Geometry::new(4, 256)?)?;
    // It is a table: so its shape is one.
    let _ = table.geometry();
    for age in 0..3 {
        table.take_free(Role::Object { age });
    }
    Ok(table)
}

// The header of a plain object without values.
fn plain(refs: u32, name: Name) -> Header
    ensures { result ≡ record { kind = Plain; refs = refs; values = 0; name = name } }
{
    Header {
        kind: Kind::Plain,
        refs,
        values: 0,
        name,
    }
}

// Places an object of so many words in a region, if it has room and the object is not too large.
fn put(table: &mut Table, region: u32, words: u32, thread: u32)
    requires { IsTrial table.old }
    ensures { IsTrial table.new }
{
    let geometry = table.geometry();
    if words < 2 || words > geometry.largest() || thread >= 32 {
        return;
    }
    if region >= geometry.regions() || !table.region(region).fits(words) {
        return;
    }
    let Role::Object { .. } = table.role(region) else {
        return;
    };
    let address = geometry.address(region, table.region(region).used());
    if address >= 1024 {
        return;
    }
    let ordinal = 1024 - address;
    let (first, second) = write_header(&plain(words - 2, Name { thread, ordinal }));
    table.place_new(region, first, second, words);
}

// A heap with these objects, as regions, words and threads.
fn heap_of(alloc: Global, objects: &[(u32, u32, u32)]) -> Result<Table, Fail>
    ensures { IfOk result IsTrial }
{
    let mut table = empty_heap(alloc)?;
    for (region, words, thread) in objects {
        put(&mut table, *region, *words, *thread);
    }
    Ok(table)
}

// The first region takes new objects, if it is eden.
fn open_first(table: &mut Table)
    requires { IsTrial table.old }
    ensures { IsTrial table.new }
{
    // It is a table: so it has a first region.
    let _ = table.geometry();
    if let Role::Object { age: 0 } = table.role(0) {
        table.set_current(Some(0));
    }
}

// These addresses are marked, if they are in the heap.
fn marks_of(alloc: Global, addresses: &[u32]) -> Result<Marks, Fail> {
    let mut marks = Marks::make(alloc, &Geometry::new(4, 256)?)?;
    let mut count = 0u32;
    for address in addresses {
        if count < 512 && *address < 1024 {
            marks.add(*address);
            count += 1;
        }
    }
    Ok(marks)
}

// Whether the heap has a card of this number.
fn is_card(cards: &Cards, card: u32) -> bool
    ensures { result ≡ true → card < cards_of cards.now.shape }
{
    let geometry = cards.geometry();
    card < geometry.regions() * geometry.words() / CARD_WORDS
}

// All cards are dirty.
fn all_dirty(alloc: Global, geometry: Geometry) -> Result<Cards, Fail>
    ensures { IfOk result (λ cards. cards.shape ≡ geometry) }
{
    let mut cards = Cards::make(alloc, geometry)?;
    for card in 0..16 {
        if is_card(&cards, card) {
            cards.dirty(card);
        }
    }
    Ok(cards)
}

// A heap after a sweep, and the names that were told, behind one that was told before.
#[derive(Drop)]
struct Heap {
    table: Table,
    cards: Cards,
    names: Items<Name>,
}

// Sweeps a heap of which these addresses are marked and all cards are dirty.
fn swept(alloc: Global, mut table: Table, marked: &[u32]) -> Result<Heap, Fail>
    requires { IsTrial table }
{
    objects_are_few();
    let geometry = table.geometry();
    let mut cards = all_dirty(alloc, geometry)?;
    let marks = marks_of(alloc, marked)?;
    let words = geometry.regions() * geometry.words();
    let mut names = Items::make(alloc)?;
    names.reserve(words as usize + 1)?;
    names.push(Name {
        thread: 9,
        ordinal: 1,
    });
    sweep(&mut table, &mut cards, &marks, &mut names);
    Ok(Heap {
        table,
        cards,
        names,
    })
}

// These names were told, as threads and ordinals.
fn told(rt: &impl Abort, heap: &Heap, expected: &[(u32, u32)]) {
    assert_eq!(rt; heap.names.len(), expected.len());
    for (name, (thread, ordinal)) in heap.names.as_slice().iter().zip(expected) {
        assert_eq!(rt; name.thread, *thread);
        assert_eq!(rt; name.ordinal, *ordinal);
    }
}

// Objects start just here, and have their names still.
fn start(rt: &impl Abort, heap: &Heap, expected: &[u32]) {
    let geometry = heap.table.geometry();
    for address in 0..1024u32 {
        assert!(rt; address < geometry.regions() * geometry.words());
        let starts = heap.table.holder_at(address) == Some(address);
        assert!(rt; starts == expected.contains(&address));
        if starts {
            assert_eq!(rt; heap.table.header(address).name.ordinal, 1024 - address);
        }
    }
}

// The regions have these roles, so many of their words are in use, and so many of these are alive.
fn regions_are(rt: &impl Abort, heap: &Heap, expected: &[(Role, u32, u32)]) {
    let mut region = 0u32;
    for (role, used, alive) in expected {
        assert!(rt; region < heap.table.geometry().regions());
        let state = heap.table.state(region);
        assert!(rt; state.role == *role);
        assert_eq!(rt; state.used, *used);
        assert_eq!(rt; state.estimate, *alive);
        region = region.saturating_add(1);
    }
}

// The cards of these regions are clean, and those of the others dirty.
fn clean(rt: &impl Abort, heap: &Heap, expected: &[u32]) {
    for card in 0..16u32 {
        let dirty = !expected.contains(&(card / 4));
        assert!(rt; (heap.cards.next_list(card) == Some(card)) == dirty);
        assert!(rt; (heap.cards.next_mark(card) == Some(card)) == dirty);
    }
}

// Objects of the three regions, of which the second has a marked one first, and one between others.
const OBJECTS: [(u32, u32, u32); 7] = [
    (0, 4, 2),
    (0, 8, 1),
    (1, 32, 3),
    (1, 2, 1),
    (1, 5, 2),
    (1, 3, 1),
    (2, 6, 2),
];

#[test]
fn what_is_not_marked_is_told_and_goes(rt: HostRuntime) -> Result<(), Fail> {
    let mut table = heap_of(rt.alloc(), &OBJECTS)?;
    open_first(&mut table);
    let heap = swept(rt.alloc(), table, &[290, 256])?;
    told(
        &rt,
        &heap,
        &[(9, 1), (1, 729), (1, 736), (1, 1020), (2, 512), (2, 1024)],
    );
    start(&rt, &heap, &[256, 290]);
    let eden = Role::Object { age: 0 };
    let older = Role::Object { age: 1 };
    let free = (Role::Free, 0, 0);
    regions_are(&rt, &heap, &[(eden, 12, 0), (older, 42, 37), free, free]);
    clean(&rt, &heap, &[2]);
    Ok(())
}

// No region is the current one.
#[test]
fn all_regions_are_freed_where_nothing_is_marked(rt: HostRuntime) -> Result<(), Fail> {
    let table = heap_of(rt.alloc(), &[(0, 4, 0), (0, 4, 0), (1, 2, 31)])?;
    let heap = swept(rt.alloc(), table, &[])?;
    told(&rt, &heap, &[(9, 1), (0, 1020), (0, 1024), (31, 768)]);
    start(&rt, &heap, &[]);
    regions_are(&rt, &heap, &[(Role::Free, 0, 0); 4]);
    clean(&rt, &heap, &[0, 1, 2]);
    Ok(())
}

// The third region had no object, as the first one, which is the current one.
#[test]
fn what_is_marked_stays_where_it_is(rt: HostRuntime) -> Result<(), Fail> {
    let mut table = heap_of(rt.alloc(), &[(1, 32, 1), (1, 2, 0), (1, 9, 1)])?;
    open_first(&mut table);
    let heap = swept(rt.alloc(), table, &[256, 288, 290])?;
    told(&rt, &heap, &[(9, 1)]);
    start(&rt, &heap, &[256, 288, 290]);
    let eden = Role::Object { age: 0 };
    let older = Role::Object { age: 1 };
    let free = (Role::Free, 0, 0);
    regions_are(&rt, &heap, &[(eden, 0, 0), (older, 43, 43), free, free]);
    clean(&rt, &heap, &[2]);
    Ok(())
}

// A region keeps the object that has a word at this address, if it is one of the region's.
fn keep_only(table: &mut Table, region: u32, address: u32) {
    let geometry = table.geometry();
    let words = geometry.regions() * geometry.words();
    if region >= geometry.regions() || address >= words {
        return;
    }
    let Some(start) = table.holder_at(address) else {
        return;
    };
    if start < words && geometry.region_of(start) == region {
        keep_marked(table, region, &[start]);
    }
}

#[test]
fn a_region_keeps_what_is_marked_in_place(rt: HostRuntime) -> Result<(), Fail> {
    let mut table = heap_of(rt.alloc(), &OBJECTS)?;
    keep_only(&mut table, 1, 294);
    let heap = Heap {
        cards: all_dirty(rt.alloc(), table.geometry())?,
        table,
        names: Items::make(rt.alloc())?,
    };
    start(&rt, &heap, &[0, 4, 290, 512]);
    let of_age = |age| Role::Object { age };
    let free = (Role::Free, 0, 0);
    regions_are(
        &rt,
        &heap,
        &[
            (of_age(0), 12, 12),
            (of_age(1), 42, 5),
            (of_age(2), 6, 6),
            free,
        ],
    );
    Ok(())
}
