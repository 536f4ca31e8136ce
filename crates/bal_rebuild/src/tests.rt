ghost use Rattle.std.specs.Prelude.{◌≡◌, IfOk, IsSome, true};
ghost use Rattle.std.proofs.Props.{props};
ghost use Rattle.bal_layout.specs.declared.name.Kind.TheVariants.{Plain};
ghost use Rattle.bal_table.specs.Table.{IsTable, things_of};
ghost use Rattle.bal_barrier.specs.Flush.{LeadToObjects};

use crate::{rebuild, rebuild_all};
use bal_barrier::{
    a_new_object_is_covered, a_new_table_is_covered, states_say_nothing_of_references, store_ref,
};
use bal_cards::Cards;
use bal_layout::{Geometry, Header, Kind, Name, Role, word_of, write_header};
use bal_table::Table;
use std::alloc::Global;
use std::process::Abort;
use std::test::Fail;

// A heap whose references are null or lead to objects.
#[derive(Drop)]
struct Heap {
    table: Table,
    cards: Cards,
    ghost shape: { cards.shape ≡ table.shape },
    ghost found: { LeadToObjects table } by { Prim.hlevel props },
}

// All regions are eden.
fn all_eden(alloc: Global, geometry: Geometry) -> Result<Table, Fail>
    ensures { IfOk result (λ table. (table.shape ≡ geometry) × LeadToObjects table) }
{
    a_new_table_is_covered();
    states_say_nothing_of_references();
    let mut table = Table::make(alloc, geometry)?;
    for _ in 0..geometry.regions() {
        table.take_free(Role::Object { age: 0 });
    }
    Ok(table)
}

// Four regions of 256 words, which have four cards each.
fn make(alloc: Global) -> Result<Heap, Fail> {
    let geometry = Geometry::new(4, 256)?;
    Ok(Heap {
        table: all_eden(alloc, geometry)?,
        cards: Cards::make(alloc, geometry)?,
    })
}

// Places an object with 30 slots in a region, if there is room: it takes half a card.
fn put(heap: &mut Heap, region: u32) {
    a_new_object_is_covered();
    let geometry = heap.table.geometry();
    if region >= geometry.regions() || geometry.largest() < 32 {
        return;
    }
    if !heap.table.region(region).fits(32) {
        return;
    }
    let Role::Object { .. } = heap.table.role(region) else {
        return;
    };
    let header = Header {
        kind: Kind::Plain,
        refs: 30,
        values: 0,
        name: Name {
            thread: 0,
            ordinal: 1,
        },
    };
    let (first, second) = write_header(&header);
    heap.table.place_new(region, first, second, 32);
}

// Whether an object starts there.
fn starts(table: &Table, address: u32) -> bool
    ensures table { IsTable table.now }
    ensures start { result ≡ true → IsSome (things_of table.now address) }
{
    let geometry = table.geometry();
    let within = address < geometry.regions() * geometry.words();
    within && table.holder_at(address) == Some(address)
}

// Stores a reference from one object to another one.
fn store(heap: &mut Heap, holder: u32, slot: u32, target: u32) {
    if starts(&heap.table, holder)
        && starts(&heap.table, target)
        && slot < heap.table.slots(holder)
    {
        store_ref(
            &mut heap.table,
            &mut heap.cards,
            holder,
            slot,
            word_of(target),
        );
    }
}

// The next flush does not visit a card.
fn clean(heap: &mut Heap, card: u32) {
    heap.cards.clean_list(card);
}

// A region's list takes a card, if it has not as many yet.
fn note(heap: &mut Heap, region: u32, card: u32, limit: u32) {
    states_say_nothing_of_references();
    if limit > 1024 || region >= heap.table.geometry().regions() {
        return;
    }
    if let Role::Object { .. } = heap.table.role(region) {
        heap.table.note(region, card, limit);
    }
}

// Builds the list of a region anew, or all lists.
fn build(heap: &mut Heap, region: Option<u32>) {
    states_say_nothing_of_references();
    match region {
        Some(region) if region < heap.table.geometry().regions() => {
            rebuild(&mut heap.table, &mut heap.cards, region);
        }
        Some(_) => {}
        None => rebuild_all(&mut heap.table, &mut heap.cards),
    }
}

// The cards that the next flush visits.
fn dirty(rt: &impl Abort, heap: &Heap, expected: &[u32]) {
    let mut at = 0u32;
    for card in expected {
        assert_eq!(rt; heap.cards.next_list(at), Some(*card));
        at = card.saturating_add(1);
    }
    assert_eq!(rt; heap.cards.next_list(at), None);
}

// What is remembered of a region: just these cards.
fn remembers(rt: &impl Abort, heap: &Heap, region: u32, expected: &[u32]) {
    assert!(rt; region < heap.table.geometry().regions());
    let list = &heap.table.state(region).remembered;
    assert!(rt; list.cards() == expected && !list.is_overflowed());
}

// From card 0 references lead into the regions 1 and 2, from 4 into 0, from 8 and from the heap's last one into 1. Card 1 has
// one that stays in region 0.
#[test]
fn cards_are_dirty_from_which_references_lead_into_other_regions(
    rt: HostRuntime,
) -> Result<(), Fail> {
    let mut heap = make(rt.alloc())?;
    for region in [0, 0, 0, 0, 1, 1, 2, 3, 3, 3, 3, 3, 3, 3, 3] {
        put(&mut heap, region);
    }
    for (holder, slot, target) in [
        (0, 0, 256),
        (0, 1, 512),
        (96, 29, 32),
        (256, 0, 0),
        (512, 3, 288),
        (992, 29, 256),
    ] {
        store(&mut heap, holder, slot, target);
    }
    dirty(&rt, &heap, &[0, 1, 4, 8, 15]);
    for card in [0, 4, 8, 15] {
        clean(&mut heap, card);
    }
    note(&mut heap, 0, 4, 1);
    note(&mut heap, 1, 0, 0);
    build(&mut heap, Some(1));
    dirty(&rt, &heap, &[0, 1, 8, 15]);
    remembers(&rt, &heap, 0, &[4]);
    remembers(&rt, &heap, 1, &[]);
    note(&mut heap, 1, 0, 0);
    build(&mut heap, None);
    dirty(&rt, &heap, &[0, 4, 8, 15]);
    for region in 0..4u32 {
        remembers(&rt, &heap, region, &[]);
    }
    Ok(())
}
