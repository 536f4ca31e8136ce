ghost use Rattle.std.specs.Prelude.{◌≡◌, ◌∷◌, [], IsTrue};
ghost use Rattle.bal_layout.specs.declared.name.Kind.TheVariants.{Plain};
ghost use Rattle.bal_gather.specs.Lent.{MayBeChosen};

use crate::{Numbered, Outside, Reference, gather, lend_chosen};
use bal_base::{Items, Steps};
use bal_core::FromGraph;
use bal_layout::{CARD_WORDS, Geometry, Header, Kind, Name, Role, word_of, write_header};
use bal_roots::Roots;
use bal_table::{Occupied, Table};
use std::alloc::Global;
use std::marker::Brand;
use std::process::Abort;
use std::sync::ledger::{Blank, Ledger};
use std::test::Fail;

// The header of a plain object without numbers.
fn plain(refs: u32) -> Header
    ensures { result ≡ record { kind = Plain; refs = refs; values = 0; name = record { thread = 0; ordinal = 1 } } }
{
    Header {
        kind: Kind::Plain,
        refs,
        values: 0,
        name: Name {
            thread: 0,
            ordinal: 1,
        },
    }
}

// Places an object with so many slots in a region, if it has room and the object is not too large.
fn put(table: &mut Table, region: u32, refs: u32) {
    let geometry = table.geometry();
    if refs > 30 || geometry.largest() < 32 || region >= geometry.regions() {
        return;
    }
    if !table.region(region).fits(2 + refs) || !table.role(region).is_object() {
        return;
    }
    let (first, second) = write_header(&plain(refs));
    table.place_new(region, first, second, 2 + refs);
}

// A slot of the object that starts there refers to another address, if there is such a slot.
fn point(table: &mut Table, from: u32, slot: u32, to: u32) {
    let geometry = table.geometry();
    let within = from < geometry.regions() * geometry.words();
    if within && table.holder_at(from) == Some(from) && slot < table.slots(from) {
        let place = table.slot_place(from, slot);
        table.set_word(place, word_of(to));
    }
}

// Four regions of 256 words, of which the first three take objects. In region 0 two objects start, at 0 and 4, in region 1
// three, at 256, 286 and 318, and in region 2 two, at 512 and 516. The last slot of the object at 256 refers to the one at 516.
fn small_heap(alloc: Global) -> Result<Table, Fail> {
    let mut table = Table::make(alloc, Geometry::new(4, 256)?)?;
    for age in 0..3 {
        table.take_free(Role::Object { age });
    }
    for (region, refs) in [(0, 2), (0, 2), (1, 28), (1, 30), (1, 3), (2, 2), (2, 0)] {
        put(&mut table, region, refs);
    }
    point(&mut table, 256, 27, 516);
    Ok(table)
}

// The same heap while its free regions are out.
fn without_free(alloc: Global, table: Table) -> Result<Occupied, Fail> {
    let (occupied, _) = table.split(alloc).map_err(|(_, none)| none)?;
    Ok(occupied)
}

// Whether two regions may be chosen.
fn may_be_chosen(heap: &Occupied, first: u32, second: u32) -> bool
    ensures { IsTrue result → MayBeChosen heap.now.table (first ∷ second ∷ []) }
{
    first < second
        && second < heap.geometry().regions()
        && heap.role(first).is_object()
        && heap.role(second).is_object()
}

#[test]
fn chosen_regions_are_read_by_address(rt: HostRuntime) -> Result<(), Fail> {
    let mut table = small_heap(rt.alloc())?;
    point(&mut table, 4, 1, 256);
    let heap = without_free(rt.alloc(), table)?;
    assert!(&rt; may_be_chosen(&heap, 0, 2));
    let (chosen, _) = lend_chosen(rt.alloc(), &heap, &[0, 2])?;
    assert!(&rt; chosen.geometry().regions() == 4);
    assert!(&rt; chosen.regions() == [0, 2].as_slice());
    assert_eq!(&rt; chosen.region(2).used(), 6);
    for (address, expected) in [
        (0, true),
        (255, true),
        (256, false),
        (511, false),
        (767, true),
        (768, false),
        (1024, false),
        (u32::MAX, false),
    ] {
        assert_eq!(&rt; chosen.holds(address), expected);
    }
    Ok(())
}

#[test]
fn objects_of_chosen_regions_are_numbered(rt: HostRuntime) -> Result<(), Fail> {
    let table = small_heap(rt.alloc())?;
    let heap = without_free(rt.alloc(), table)?;
    assert!(&rt; may_be_chosen(&heap, 0, 2));
    let (chosen, _) = lend_chosen(rt.alloc(), &heap, &[0, 2])?;
    let numbered = Numbered::make(rt.alloc(), chosen)?;
    assert!(&rt; numbered.addresses() == [0, 4, 512, 516].as_slice());
    for (address, expected) in [
        (0, Some(0)),
        (1, None),
        (4, Some(1)),
        (256, None),
        (512, Some(2)),
        (516, Some(3)),
        (768, None),
        (u32::MAX, None),
    ] {
        assert!(&rt; numbered.number_at(address) == expected);
    }
    Ok(())
}

// An object is told so: the age of its region, how many words it has, and what its slots hold.
fn is_told(
    rt: &impl Abort,
    numbered: &Numbered<'_>,
    object: u32,
    expected: (u8, usize, &[Option<u32>]),
) {
    let (age, words, targets) = expected;
    assert!(rt; object < numbered.count());
    assert!(rt; numbered.age(object) == age);
    assert_eq!(rt; numbered.words(object).len(), words);
    assert_eq!(rt; numbered.slots(object) as usize, targets.len());
    for (slot, target) in targets.iter().enumerate() {
        assert!(rt; (slot as u32) < numbered.slots(object));
        assert!(rt; numbered.target(object, slot as u32) == *target);
    }
}

// A reference out of the chosen regions, to an object between them, is told as null is.
#[test]
fn objects_of_chosen_regions_are_told_as_a_graph(rt: HostRuntime) -> Result<(), Fail> {
    let mut table = small_heap(rt.alloc())?;
    for (from, slot, to) in [(0, 1, 4), (4, 0, 516), (4, 1, 256), (512, 0, 0)] {
        point(&mut table, from, slot, to);
    }
    let heap = without_free(rt.alloc(), table)?;
    assert!(&rt; may_be_chosen(&heap, 0, 2));
    let (chosen, _) = lend_chosen(rt.alloc(), &heap, &[0, 2])?;
    let numbered = Numbered::make(rt.alloc(), chosen)?;
    assert!(&rt; numbered.count() == 4);
    is_told(&rt, &numbered, 0, (0, 4, &[None, Some(1)]));
    is_told(&rt, &numbered, 1, (0, 4, &[Some(3), None]));
    is_told(&rt, &numbered, 2, (2, 4, &[Some(0), None]));
    is_told(&rt, &numbered, 3, (2, 2, &[]));
    Ok(())
}

// So many references are read on a card, and these are the first and the last one, by place and word.
fn reads<L: Ledger>(
    rt: &impl Abort,
    alloc: Global,
    heap: &Occupied,
    outside: &mut Outside<'_>,
    steps: &mut Steps<L>,
    card: u32,
    expected: (usize, Option<((u32, u64), (u32, u64))>),
) -> Result<(), Fail>
    requires { outside.old.table ≡ heap.now.table }
    ensures { outside.new ≡ outside.old }
{
    let (count, ends) = expected;
    let geometry = heap.geometry();
    assert!(rt; card < geometry.regions() * geometry.words() / CARD_WORDS);
    let mut references = Items::make(alloc)?;
    references.reserve(64)?;
    outside.card_slots(card, &mut references, steps);
    assert_eq!(rt; references.len(), count);
    if let Some((first, last)) = ends {
        is_read(rt, references.get(0), first);
        is_read(rt, references.pop().as_ref(), last);
    }
    Ok(())
}

// This reference is read.
fn is_read(rt: &impl Abort, reference: Option<&Reference>, expected: (u32, u64)) {
    let (place, word) = expected;
    match reference {
        Some(read) => assert!(rt; read.place == place && read.word == word),
        None => panic!(rt; "no reference"),
    }
}

// The object at 286 has its last slot on the last word but one of its card, and the one at 318 has all on the next card.
fn reads_around<L: Ledger>(
    rt: &impl Abort,
    alloc: Global,
    heap: &Occupied,
    outside: &mut Outside<'_>,
    blank: Blank,
) -> Result<(), Fail>
    requires outside { outside.old.table ≡ heap.now.table }
    requires name { blank.name ≡ L.name }
    requires parts { blank.parts ≡ L.parts }
    requires one { blank.parts ≡ 1 }
{
    let mut steps = Steps::<L>::start(blank);
    for (card, expected) in [
        (0, (0, None)),
        (4, (58, Some(((258, 5), (317, 0))))),
        (5, (3, Some(((320, 0), (322, 517))))),
        (6, (0, None)),
        (8, (0, None)),
        (15, (0, None)),
    ] {
        reads(rt, alloc, heap, outside, &mut steps, card, expected)?;
    }
    Ok(())
}

#[test]
fn references_outside_are_read_by_card(rt: HostRuntime) -> Result<(), Fail> {
    let mut table = small_heap(rt.alloc())?;
    point(&mut table, 256, 0, 4);
    point(&mut table, 318, 2, 516);
    let heap = without_free(rt.alloc(), table)?;
    assert!(&rt; may_be_chosen(&heap, 0, 2));
    let (_, mut outside) = lend_chosen(rt.alloc(), &heap, &[0, 2])?;
    reads_around::<Brand>(&rt, rt.alloc(), &heap, &mut outside, Blank::new(1))
}

// A region lists a card, if it has objects.
fn list(table: &mut Table, region: u32, card: u32) {
    if region < table.geometry().regions() && table.role(region).is_object() {
        table.note(region, card, 64);
    }
}

// From two chosen regions of a heap these objects are held, and references at these places hold some.
fn gathers<L: Ledger>(
    rt: &impl Abort,
    alloc: Global,
    heap: &Occupied,
    roots: &Roots,
    expected: (&[u32], &[u32]),
    blank: Blank,
) -> Result<(), Fail>
    requires name { blank.name ≡ L.name }
    requires parts { blank.parts ≡ L.parts }
    requires one { blank.parts ≡ 1 }
{
    let (held, places) = expected;
    assert!(rt; may_be_chosen(heap, 0, 2));
    let (chosen, mut outside) = lend_chosen(alloc, heap, &[0, 2])?;
    let numbered = Numbered::make(alloc, chosen)?;
    let mut steps = Steps::<L>::start(blank);
    let gathered = gather(alloc, &numbered, &mut outside, roots, &mut steps)?;
    assert!(rt; gathered.held.as_slice() == held);
    assert!(rt; gathered.places.as_slice() == places);
    Ok(())
}

// The small heap with three more references: two from region 1, and one from region 2 into region 0. These cards are listed, each
// by a region.
fn referring_heap(alloc: Global, listed: &[(u32, u32)]) -> Result<Occupied, Fail> {
    let mut table = small_heap(alloc)?;
    for (from, slot, to) in [(318, 0, 4), (318, 1, 286), (512, 0, 0)] {
        point(&mut table, from, slot, to);
    }
    for (region, card) in listed {
        list(&mut table, *region, *card);
    }
    without_free(alloc, table)
}

// Card 4 is listed by both regions, card 6 has no slots, card 8 lies in a chosen region, and card 12 in one that is out.
#[test]
fn what_holds_objects_from_outside_is_gathered(rt: HostRuntime) -> Result<(), Fail> {
    let mut roots = Roots::make(rt.alloc())?;
    for (index, to) in [(3, 512), (40, 256), (41, 0), (1087, 512)] {
        roots.set_root(index, word_of(to));
    }
    let unlisted = referring_heap(rt.alloc(), &[])?;
    let by_roots: (&[u32], &[u32]) = (&[2, 0, 2], &[]);
    gathers::<Brand>(&rt, rt.alloc(), &unlisted, &roots, by_roots, Blank::new(1))?;
    let cards = [(0, 8), (0, 5), (0, 4), (0, 12), (2, 4), (2, 6)];
    let heap = referring_heap(rt.alloc(), &cards)?;
    let expected: (&[u32], &[u32]) = (&[2, 0, 2, 3, 1], &[285, 320]);
    gathers::<Brand>(&rt, rt.alloc(), &heap, &roots, expected, Blank::new(1))
}
