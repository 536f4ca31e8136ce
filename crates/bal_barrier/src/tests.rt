ghost use Rattle.std.specs.Prelude.{◌≡◌, ◌<◌, ◌≤◌, ◌+◌, ◌^◌, IfOk, IfSome, IsSome, true, length};
ghost use Rattle.std.proofs.Props.{props};
ghost use Rattle.bal_layout.specs.declared.name.Kind.TheVariants.{Plain};
ghost use Rattle.bal_table.specs.Table.{IsTable, things_of};
ghost use Rattle.bal_barrier.specs.Flush.{LeadToObjects};

use crate::{Note, flush, free_region, store_ref};
use bal_base::Items;
use bal_cards::Cards;
use bal_layout::{Geometry, Header, Kind, NULL, Name, Role, word_of, write_header};
use bal_table::{Slot, Table};
use std::alloc::Global;
use std::process::Abort;
use std::test::Fail;

const EDEN: Role = Role::Object { age: 0 };

// A heap whose references are null or lead to objects.
#[derive(Drop)]
struct Heap {
    table: Table,
    cards: Cards,
    slots: Items<Slot>,
    notes: Items<Note>,
    ghost shape: { cards.shape ≡ table.shape },
    ghost found: { LeadToObjects table } by { Prim.hlevel props },
    ghost scratch: { 64 ≤ slots.spare + length slots.list },
}

// All regions are eden.
fn all_eden(alloc: Global, geometry: Geometry) -> Result<Table, Fail>
    ensures { IfOk result (λ table. (table.shape ≡ geometry) × LeadToObjects table) }
{
    let mut table = Table::make(alloc, geometry)?;
    for _ in 0..geometry.regions() {
        table.take_free(EDEN);
    }
    Ok(table)
}

// So many regions of 256 words, all of them eden, and room for some notes. Each region has 4 cards.
fn make(alloc: Global, regions: u64, room: usize) -> Result<Heap, Fail> {
    let geometry = Geometry::new(regions, 256)?;
    let table = all_eden(alloc, geometry)?;
    let mut slots = Items::make(alloc)?;
    slots.reserve(64)?;
    let mut notes = Items::make(alloc)?;
    notes.reserve(room)?;
    Ok(Heap {
        table,
        cards: Cards::make(alloc, geometry)?,
        slots,
        notes,
    })
}

// The header of a plain object with so many references and no numbers.
fn plain(refs: u32) -> Header
    ensures { result ≡ record { kind = Plain; refs = refs; values = 0; name = record { thread = 0; ordinal = 1 } } }
{
    Header {
        kind: Kind::Plain,
        refs,
        values: 0,
        name: Name {
            thread: 0,
            ordinal: 1,
        },
    }
}

// Places a new object in a region, if it fits, and answers where.
fn put(heap: &mut Heap, region: u32, refs: u32) -> Option<u32> {
    let geometry = heap.table.geometry();
    if refs > 30 || geometry.largest() < 32 || region >= geometry.regions() {
        return None;
    }
    let words = 2 + refs;
    if !heap.table.region(region).fits(words) {
        return None;
    }
    let Role::Object { .. } = heap.table.role(region) else {
        return None;
    };
    let (first, second) = write_header(&plain(refs));
    Some(heap.table.place_new(region, first, second, words))
}

// Whether an object starts there.
fn starts(table: &Table, address: u32) -> bool
    ensures table { IsTable table.now }
    ensures start { result ≡ true → IsSome (things_of table.now address) }
{
    let geometry = table.geometry();
    if address >= geometry.regions() * geometry.words() {
        return false;
    }
    match table.holder_at(address) {
        Some(start) => start == address,
        None => false,
    }
}

// Stores a reference to the object that starts there, or null, in a slot.
fn store(heap: &mut Heap, holder: u32, slot: u32, target: Option<u32>) {
    if !starts(&heap.table, holder) || slot >= heap.table.slots(holder) {
        return;
    }
    match target {
        Some(address) if starts(&heap.table, address) => {
            let word = word_of(address);
            store_ref(&mut heap.table, &mut heap.cards, holder, slot, word);
        }
        _ => store_ref(&mut heap.table, &mut heap.cards, holder, slot, NULL),
    }
}

// Flushes with lists of at most two cards.
fn flushes(heap: &mut Heap) -> bool {
    flush(
        &mut heap.table,
        &mut heap.cards,
        2,
        &mut heap.slots,
        &mut heap.notes,
    )
}

// The dirty cards, as the next flush sees them.
fn dirty(rt: &impl Abort, cards: &Cards, expected: &[u32]) {
    let mut at = 0u32;
    for card in expected {
        assert_eq!(rt; cards.next_list(at), Some(*card));
        at = card.saturating_add(1);
    }
    assert_eq!(rt; cards.next_list(at), None);
}

// What is remembered of a region: these cards, or that they were too many.
fn remembers(rt: &impl Abort, table: &Table, region: u32, expected: Option<&[u32]>) {
    assert!(rt; region < table.geometry().regions());
    let list = &table.state(region).remembered;
    match expected {
        Some(cards) => assert!(rt; list.cards() == cards && !list.is_overflowed()),
        None => assert!(rt; list.is_overflowed()),
    }
}

// What the flush told, which is then forgotten: region, card, holder and slot.
fn told(rt: &impl Abort, heap: &mut Heap, expected: &[(u32, u32, u32, u32)]) {
    assert_eq!(rt; heap.notes.len(), expected.len());
    for (note, (region, card, holder, slot)) in heap.notes.as_slice().iter().zip(expected) {
        assert!(rt; note.region == *region && note.card == *card);
        assert!(rt; note.holder == *holder && note.slot == *slot);
    }
    heap.notes.clear();
}

// Objects of region 0, the last one with slots on the cards 1 and 2, two of region 1, and one that ends with region 3.
fn objects(rt: &impl Abort, heap: &mut Heap) {
    for (region, refs, address) in [
        (0, 30, 0),
        (0, 30, 32),
        (0, 30, 64),
        (0, 20, 96),
        (0, 30, 118),
        (1, 2, 256),
        (1, 1, 260),
        (3, 30, 768),
        (3, 30, 800),
        (3, 30, 832),
        (3, 30, 864),
        (3, 30, 896),
        (3, 30, 928),
        (3, 30, 960),
        (3, 30, 992),
    ] {
        assert_eq!(rt; put(heap, region, refs), Some(address));
    }
}

#[test]
fn references_between_regions_are_noted_once(rt: HostRuntime) -> Result<(), Fail> {
    let mut heap = make(rt.alloc(), 4, 66)?;
    objects(&rt, &mut heap);
    dirty(&rt, &heap.cards, &[]);
    // Null, and a reference inside one region.
    store(&mut heap, 64, 0, None);
    dirty(&rt, &heap.cards, &[]);
    store(&mut heap, 0, 0, Some(32));
    dirty(&rt, &heap.cards, &[0]);
    assert!(&rt; flushes(&mut heap));
    dirty(&rt, &heap.cards, &[]);
    told(&rt, &mut heap, &[]);
    // Two cards of one object, twice on the second.
    store(&mut heap, 118, 9, Some(260));
    store(&mut heap, 118, 8, Some(256));
    store(&mut heap, 118, 0, Some(256));
    dirty(&rt, &heap.cards, &[1, 2]);
    assert!(&rt; flushes(&mut heap));
    told(&rt, &mut heap, &[(1, 1, 118, 0), (1, 2, 118, 8)]);
    remembers(&rt, &heap.table, 1, Some(&[1, 2]));
    // A third card, the last one of the heap, is one too many. Of a fourth nothing is told.
    store(&mut heap, 992, 29, Some(256));
    store(&mut heap, 256, 0, Some(0));
    assert!(&rt; flushes(&mut heap));
    told(&rt, &mut heap, &[(0, 4, 256, 0), (1, 15, 992, 29)]);
    remembers(&rt, &heap.table, 1, None);
    store(&mut heap, 0, 1, Some(260));
    // Another reference in the place of an older one.
    store(&mut heap, 256, 0, Some(992));
    dirty(&rt, &heap.cards, &[0, 4]);
    assert!(&rt; flushes(&mut heap));
    told(&rt, &mut heap, &[(3, 4, 256, 0)]);
    remembers(&rt, &heap.table, 0, Some(&[4]));
    Ok(())
}

// The card 4 is one of region 1.
#[test]
fn a_freed_region_is_forgotten(rt: HostRuntime) -> Result<(), Fail> {
    let mut heap = make(rt.alloc(), 4, 128)?;
    objects(&rt, &mut heap);
    for (holder, slot, target) in [(0, 0, 256), (64, 0, 256), (992, 29, 256), (256, 0, 992)] {
        store(&mut heap, holder, slot, Some(target));
    }
    assert!(&rt; flushes(&mut heap));
    remembers(&rt, &heap.table, 1, None);
    remembers(&rt, &heap.table, 3, Some(&[4]));
    store(&mut heap, 256, 1, Some(0));
    dirty(&rt, &heap.cards, &[4]);
    let Heap {
        mut table,
        mut cards,
        ..
    } = heap;
    if let None = table.current() {
        free_region(&mut table, &mut cards, 1);
    }
    dirty(&rt, &cards, &[]);
    for region in 0..4u32 {
        remembers(&rt, &table, region, Some(&[]));
    }
    Ok(())
}

#[test]
fn a_flush_stops_where_its_notes_have_no_room(rt: HostRuntime) -> Result<(), Fail> {
    let mut heap = make(rt.alloc(), 4, 64)?;
    objects(&rt, &mut heap);
    store(&mut heap, 0, 0, Some(256));
    store(&mut heap, 64, 0, Some(260));
    assert_eq!(&rt; heap.notes.spare(), 64);
    assert!(&rt; !flushes(&mut heap));
    dirty(&rt, &heap.cards, &[1]);
    told(&rt, &mut heap, &[(1, 0, 0, 0)]);
    assert!(&rt; flushes(&mut heap));
    dirty(&rt, &heap.cards, &[]);
    told(&rt, &mut heap, &[(1, 1, 64, 0)]);
    Ok(())
}

// Of the 8,188 cards of the largest number of regions the first is dirty, and a reference in the last region lies on a clean
// one. There is room for the notes of one card: before any other card the flush would stop and answer false.
#[test]
fn a_flush_visits_one_dirty_card_and_no_other(rt: HostRuntime) -> Result<(), Fail> {
    let mut heap = make(rt.alloc(), 2047, 64)?;
    assert_eq!(&rt; put(&mut heap, 0, 1), Some(0));
    assert_eq!(&rt; put(&mut heap, 2046, 1), Some(523_776));
    store(&mut heap, 0, 0, Some(523_776));
    store(&mut heap, 523_776, 0, Some(0));
    dirty(&rt, &heap.cards, &[0, 8184]);
    heap.cards.clean_list(8184);
    dirty(&rt, &heap.cards, &[0]);
    assert!(&rt; flushes(&mut heap));
    told(&rt, &mut heap, &[(2046, 0, 0, 0)]);
    dirty(&rt, &heap.cards, &[]);
    Ok(())
}
