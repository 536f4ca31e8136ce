ghost use Rattle.std.specs.Prelude.{◌≡◌, ◌<◌, ◌≤◌, ◌^◌, IfOk, IfSome, IsSome, IsTrue, true};
ghost use Rattle.bal_layout.specs.Regions.{is_in};
ghost use Rattle.bal_layout.specs.declared.region_state.Role.TheVariants.{Object};
ghost use Rattle.bal_layout.specs.declared.name.Kind.TheVariants.{Plain};
ghost use Rattle.bal_table.specs.Occupied.{IsVacant, MayPutBack};
ghost use Rattle.bal_table.specs.Table.{IsTable, things_of};
ghost use Rattle.bal_table.specs.Trials.{AreOut};

use crate::{Occupied, Slot, Table};
use bal_base::Items;
use bal_layout::{Geometry, Header, Kind, Name, Role, write_header};
use bal_region::Region;
use std::alloc::Global;
use std::process::Abort;
use std::test::Fail;

const EDEN: Role = Role::Object { age: 0 };

// What may be sent to other threads, and be read by several at once.
fn crosses<T: Send + Sync>() {}

#[test]
fn a_table_may_cross_threads() {
    crosses::<Table>();
}

// An answer, or none.
fn answers(rt: &impl Abort, found: Option<u32>, expected: Option<u32>) {
    assert_eq!(rt; found, expected);
}

// A word, or none.
fn reads(rt: &impl Abort, found: Option<u64>, expected: Option<u64>) {
    assert_eq!(rt; found, expected);
}

// How many regions are free and how many eden.
fn counts(rt: &impl Abort, table: &Table, free: u32, eden: u32) {
    assert_eq!(rt; table.free_count(), free);
    assert_eq!(rt; table.eden_count(), eden);
}

// What a region is used for, how many of its words were given out and how many are thought to be alive. Region and state
// tell the same, and the region has its number.
fn has(rt: &impl Abort, table: &Table, region: u32, role: Role, used: u32, estimate: u32) {
    assert!(rt; region < table.geometry().regions());
    assert!(rt; table.role(region) == role);
    let land = table.region(region);
    assert_eq!(rt; land.number(), region);
    assert_eq!(rt; land.used(), used);
    assert_eq!(rt; table.state(region).used, used);
    assert_eq!(rt; table.estimate(region), estimate);
}

// Whether these are the slots, as holders and numbers.
fn are(slots: &[Slot], expected: &[(u32, u32)]) -> bool {
    let same = |(slot, (holder, number)): (&Slot, &(u32, u32))| {
        slot.holder == *holder && slot.number == *number
    };
    slots.len() == expected.len() && slots.iter().zip(expected).all(same)
}

// Whether these slots lie on a card, as holders and numbers.
fn lie_on(alloc: Global, table: &Table, card: u32, expected: &[(u32, u32)]) -> Result<bool, Fail> {
    let geometry = table.geometry();
    if card >= geometry.regions() * geometry.words() / 64 {
        return Ok(false);
    }
    let mut slots = Items::make(alloc)?;
    slots.reserve(64)?;
    table.card_slots(card, &mut slots);
    Ok(are(slots.as_slice(), expected))
}

// Something is so.
fn holds(rt: &impl Abort, so: bool) {
    assert!(rt; so);
}

// The header of a plain object of thread 0.
fn plain(refs: u32, values: u32, ordinal: u32) -> Header
    ensures { result ≡ record { kind = Plain; refs = refs; values = values; name = record { thread = 0; ordinal = ordinal } } }
{
    Header {
        kind: Kind::Plain,
        refs,
        values,
        name: Name { thread: 0, ordinal },
    }
}

// Places a new object in a region, if that has objects and room and the object is not too large, and answers where.
fn put(table: &mut Table, region: u32, refs: u32, values: u32, ordinal: u32) -> Option<u32>
    requires refs { refs < 2 ^ 24 }
    requires values { values < 2 ^ 24 }
    requires first { 1 ≤ ordinal }
{
    let words = 2 + refs + values;
    let geometry = table.geometry();
    if words > geometry.largest() {
        return None;
    }
    if region >= geometry.regions() || !table.region(region).fits(words) {
        return None;
    }
    let Role::Object { .. } = table.role(region) else {
        return None;
    };
    let (first, second) = write_header(&plain(refs, values, ordinal));
    Some(table.place_new(region, first, second, words))
}

// Places an object with few slots. All of these have one name.
fn put_small(table: &mut Table, region: u32, refs: u8, values: u8) -> Option<u32> {
    put(table, region, u32::from(refs), u32::from(values), 1)
}

// Where the object starts that has a word there.
fn holder(table: &Table, address: u32) -> Option<u32>
    ensures table { IsTable table.now }
    ensures start { IfSome result (λ a. IsSome (things_of table.now a)) }
{
    let geometry = table.geometry();
    if address >= geometry.regions() * geometry.words() {
        return None;
    }
    table.holder_at(address)
}

// Whether an object starts there.
fn starts(table: &Table, address: u32) -> bool
    ensures table { IsTable table.now }
    ensures start { result ≡ true → IsSome (things_of table.now address) }
{
    match holder(table, address) {
        Some(start) => start == address,
        None => false,
    }
}

// How many references and numbers the object has that starts there, and which of its thread's objects it is.
fn header(table: &Table, address: u32) -> Option<(u32, u32, u32)> {
    if !starts(table, address) {
        return None;
    }
    let header = table.header(address);
    Some((header.refs, header.values, header.name.ordinal))
}

// What the header says of the object that starts there, or that none does.
fn begins(rt: &impl Abort, table: &Table, address: u32, expected: Option<(u32, u32, u32)>) {
    assert_eq!(rt; header(table, address), expected);
}

// The word at an address.
fn word(table: &Table, address: u32) -> Option<u64> {
    let geometry = table.geometry();
    if address >= geometry.regions() * geometry.words() {
        return None;
    }
    Some(table.word(address))
}

// A reference of the object that starts there.
fn slot(table: &Table, address: u32, slot: u32) -> Option<u64> {
    if !starts(table, address) || slot >= table.slots(address) {
        return None;
    }
    Some(table.word(table.slot_place(address, slot)))
}

// A number of the object that starts there.
fn value(table: &Table, address: u32, slot: u32) -> Option<u64> {
    if !starts(table, address) {
        return None;
    }
    let place = table.find_value(address, slot)?;
    Some(table.word(place))
}

// Writes a reference of the object that starts there.
fn set_slot(table: &mut Table, address: u32, slot: u32, word: u64) {
    if starts(table, address) && slot < table.slots(address) {
        let place = table.slot_place(address, slot);
        table.set_word(place, word);
    }
}

// Writes a number of the object that starts there.
fn set_value(table: &mut Table, address: u32, slot: u32, number: u64) {
    if !starts(table, address) {
        return;
    }
    if let Some(place) = table.find_value(address, slot) {
        table.set_word(place, number);
    }
}

// Takes away the object that starts there.
fn take_away(table: &mut Table, address: u32) {
    if starts(table, address) {
        table.remove(address);
    }
}

// Moves the first object of a region to the region's first word, and answers where it was.
fn slide_first(table: &mut Table, region: u32) -> Option<u32> {
    let geometry = table.geometry();
    if region >= geometry.regions() {
        return None;
    }
    let offset = table.region(region).first_from(0)?;
    if offset >= geometry.words() {
        return None;
    }
    let from = geometry.address(region, offset);
    table.slide(from, geometry.address(region, 0));
    Some(from)
}

// Moves the object that starts there to another region of objects, if that has room, and answers its new address.
fn carry(table: &mut Table, from: u32, region: u32) -> Option<u32> {
    let geometry = table.geometry();
    if !starts(table, from) || region >= geometry.regions() {
        return None;
    }
    let Role::Object { .. } = table.role(region) else {
        return None;
    };
    let source = geometry.region_of(from);
    let size = table.region(source).object(geometry.offset_of(from)).len();
    if source == region || !table.region(region).fits(size as u32) {
        return None;
    }
    Some(table.carry(from, region))
}

// No word of a region is thought to be alive, and it is cut behind its last object.
fn cut(table: &mut Table, region: u32) {
    if region < table.geometry().regions() {
        table.set_estimate(region, 0);
        table.cut(region);
    }
}

// No region is current, and one is made free.
fn give_back(table: &mut Table, region: u32) {
    table.set_current(None);
    if region < table.geometry().regions() {
        table.give_back(region);
    }
}

// No region is current, and one that has objects has another age.
fn set_age(table: &mut Table, region: u32, age: u8) {
    table.set_current(None);
    if region >= table.geometry().regions() || age > 24 {
        return;
    }
    if let Role::Object { .. } = table.role(region) {
        table.set_age(region, age);
    }
}

// So many words of a region are thought to be alive, if it has given out so many.
fn set_estimate(table: &mut Table, region: u32, words: u32) {
    if region < table.geometry().regions() && words <= table.region(region).used() {
        table.set_estimate(region, words);
    }
}

// The lowest free region becomes eden, and the current one.
fn open(table: &mut Table) -> Option<u32> {
    let region = table.take_free(Role::Object { age: 0 })?;
    table.set_current(Some(region));
    Some(region)
}

// Four regions of 256 words, of which the first is eden and the second has objects of age 3.
fn two_in_use(alloc: Global) -> Result<Table, Fail> {
    let mut table = Table::make(alloc, Geometry::new(4, 256)?)?;
    open(&mut table);
    table.take_free(Role::Object { age: 3 });
    Ok(table)
}

// Objects of 7 and 3 words in the first region, and one of 3 words in the second.
fn three_objects(alloc: Global) -> Result<Table, Fail> {
    let mut table = two_in_use(alloc)?;
    put(&mut table, 0, 3, 2, 1);
    put(&mut table, 0, 0, 1, 2);
    put(&mut table, 1, 1, 0, 3);
    Ok(table)
}

#[test]
fn the_lowest_free_region_is_taken(rt: HostRuntime) -> Result<(), Fail> {
    let mut table = Table::make(rt.alloc(), Geometry::new(4, 256)?)?;
    counts(&rt, &table, 4, 0);
    for region in 0..4u32 {
        has(&rt, &table, region, Role::Free, 0, 0);
        answers(&rt, table.lowest_free(), Some(region));
        answers(&rt, open(&mut table), Some(region));
        answers(&rt, table.current(), Some(region));
        has(&rt, &table, region, EDEN, 0, 0);
    }
    counts(&rt, &table, 0, 4);
    answers(&rt, table.lowest_free(), None);
    answers(&rt, table.take_free(EDEN), None);
    for region in [2, 1, 1] {
        give_back(&mut table, region);
    }
    counts(&rt, &table, 2, 2);
    answers(&rt, table.take_free(Role::Object { age: 24 }), Some(1));
    counts(&rt, &table, 1, 2);
    answers(&rt, table.lowest_free(), Some(2));
    answers(&rt, table.take_free(Role::Free), Some(2));
    counts(&rt, &table, 1, 2);
    answers(&rt, table.current(), None);
    Ok(())
}

#[test]
fn a_region_that_is_given_back_is_empty(rt: HostRuntime) -> Result<(), Fail> {
    let mut table = three_objects(rt.alloc())?;
    has(&rt, &table, 0, EDEN, 10, 10);
    set_estimate(&mut table, 0, 7);
    has(&rt, &table, 0, EDEN, 10, 7);
    set_slot(&mut table, 256, 0, 1);
    give_back(&mut table, 0);
    has(&rt, &table, 0, Role::Free, 0, 0);
    answers(&rt, put(&mut table, 0, 1, 1, 4), None);
    for address in [0, 7, 9] {
        answers(&rt, holder(&table, address), None);
    }
    reads(&rt, slot(&table, 256, 0), Some(1));
    answers(&rt, open(&mut table), Some(0));
    answers(&rt, put(&mut table, 0, 2, 1, 4), Some(0));
    reads(&rt, slot(&table, 0, 0), Some(0));
    reads(&rt, value(&table, 0, 0), Some(0));
    Ok(())
}

#[test]
fn ages_and_estimates_are_kept(rt: HostRuntime) -> Result<(), Fail> {
    let mut table = three_objects(rt.alloc())?;
    counts(&rt, &table, 2, 1);
    set_age(&mut table, 0, 1);
    counts(&rt, &table, 2, 0);
    set_age(&mut table, 1, 0);
    set_estimate(&mut table, 1, 2);
    // A free region has no age.
    set_age(&mut table, 2, 5);
    counts(&rt, &table, 2, 1);
    has(&rt, &table, 0, Role::Object { age: 1 }, 10, 10);
    has(&rt, &table, 1, EDEN, 3, 2);
    has(&rt, &table, 2, Role::Free, 0, 0);
    Ok(())
}

#[test]
fn an_object_is_found_by_each_of_its_words(rt: HostRuntime) -> Result<(), Fail> {
    let table = three_objects(rt.alloc())?;
    for (address, start) in [
        (0, Some(0)),
        (6, Some(0)),
        (7, Some(7)),
        (9, Some(7)),
        (10, None),
        (255, None),
        (256, Some(256)),
        (258, Some(256)),
        (259, None),
        (512, None),
        (1023, None),
    ] {
        answers(&rt, holder(&table, address), start);
    }
    begins(&rt, &table, 0, Some((3, 2, 1)));
    begins(&rt, &table, 1, None);
    begins(&rt, &table, 7, Some((0, 1, 2)));
    begins(&rt, &table, 256, Some((1, 0, 3)));
    begins(&rt, &table, 512, None);
    Ok(())
}

// The object at 0 has its references at 2, 3 and 4 and its numbers at 5 and 6.
#[test]
fn slots_are_written_and_read(rt: HostRuntime) -> Result<(), Fail> {
    let mut table = three_objects(rt.alloc())?;
    set_slot(&mut table, 0, 2, 257);
    set_value(&mut table, 0, 0, 50);
    set_value(&mut table, 0, 1, u64::MAX);
    set_value(&mut table, 7, 0, 70);
    set_slot(&mut table, 256, 0, 8);
    for (address, number, expected) in [
        (0, 0, Some(0)),
        (0, 1, Some(0)),
        (0, 2, Some(257)),
        (0, 3, None),
        (256, 0, Some(8)),
    ] {
        reads(&rt, slot(&table, address, number), expected);
    }
    for (address, number, expected) in [
        (0, 0, Some(50)),
        (0, 1, Some(u64::MAX)),
        (7, 0, Some(70)),
        (7, 1, None),
        (256, 0, None),
    ] {
        reads(&rt, value(&table, address, number), expected);
    }
    for (address, number) in [(4, 257), (5, 50), (6, u64::MAX), (9, 70), (258, 8)] {
        reads(&rt, word(&table, address), Some(number));
    }
    begins(&rt, &table, 0, Some((3, 2, 1)));
    Ok(())
}

#[test]
fn an_object_is_taken_away(rt: HostRuntime) -> Result<(), Fail> {
    let mut table = three_objects(rt.alloc())?;
    set_slot(&mut table, 256, 0, 8);
    take_away(&mut table, 0);
    answers(&rt, holder(&table, 0), None);
    answers(&rt, holder(&table, 6), None);
    begins(&rt, &table, 7, Some((0, 1, 2)));
    reads(&rt, slot(&table, 256, 0), Some(8));
    // Its words stay given out.
    has(&rt, &table, 0, EDEN, 10, 10);
    answers(&rt, put(&mut table, 0, 1, 0, 4), Some(10));
    Ok(())
}

// The largest object has 32 words.
#[test]
fn a_region_is_filled_to_its_last_word(rt: HostRuntime) -> Result<(), Fail> {
    let mut table = two_in_use(rt.alloc())?;
    answers(&rt, put(&mut table, 1, 31, 0, 1), None);
    for place in 0..7u32 {
        answers(
            &rt,
            put(&mut table, 1, 30, 0, place + 1),
            Some(256 + 32 * place),
        );
    }
    answers(&rt, put(&mut table, 1, 0, 0, 8), Some(480));
    answers(&rt, put(&mut table, 1, 0, 29, 9), None);
    answers(&rt, put(&mut table, 1, 0, 28, 9), Some(482));
    answers(&rt, put(&mut table, 1, 0, 0, 10), None);
    has(&rt, &table, 1, Role::Object { age: 3 }, 256, 256);
    answers(&rt, put(&mut table, 0, 0, 0, 10), Some(0));
    answers(&rt, holder(&table, 511), Some(482));
    answers(&rt, holder(&table, 512), None);
    answers(&rt, put(&mut table, 2, 0, 0, 11), None);
    answers(&rt, put(&mut table, 4, 0, 0, 11), None);
    Ok(())
}

// A card is 64 words. Two objects begin on one card and end on the next, and the heap's last word is a slot.
#[test]
fn the_slots_on_a_card_are_found(rt: HostRuntime) -> Result<(), Fail> {
    let mut table = two_in_use(rt.alloc())?;
    table.take_free(EDEN);
    table.take_free(EDEN);
    for (region, refs, values, start) in [
        (0, 2, 1, 0),
        (0, 0, 28, 5),
        (0, 0, 23, 35),
        (0, 4, 1, 60),
        (0, 1, 0, 67),
        (0, 0, 30, 70),
        (0, 0, 22, 102),
        (0, 2, 0, 126),
        (3, 0, 30, 768),
        (3, 0, 30, 800),
        (3, 0, 30, 832),
        (3, 0, 30, 864),
        (3, 0, 30, 896),
        (3, 0, 30, 928),
        (3, 0, 30, 960),
        (3, 0, 27, 992),
        (3, 1, 0, 1021),
    ] {
        answers(
            &rt,
            put_small(&mut table, region, refs, values),
            Some(start),
        );
    }
    holds(
        &rt,
        lie_on(rt.alloc(), &table, 0, &[(0, 0), (0, 1), (60, 0), (60, 1)])?,
    );
    holds(
        &rt,
        lie_on(rt.alloc(), &table, 1, &[(60, 2), (60, 3), (67, 0)])?,
    );
    holds(&rt, lie_on(rt.alloc(), &table, 2, &[(126, 0), (126, 1)])?);
    holds(&rt, lie_on(rt.alloc(), &table, 3, &[])?);
    holds(&rt, lie_on(rt.alloc(), &table, 14, &[])?);
    holds(&rt, lie_on(rt.alloc(), &table, 15, &[(1021, 0)])?);
    take_away(&mut table, 60);
    holds(&rt, lie_on(rt.alloc(), &table, 0, &[(0, 0), (0, 1)])?);
    holds(&rt, lie_on(rt.alloc(), &table, 1, &[(67, 0)])?);
    Ok(())
}

#[test]
fn an_object_is_moved_to_another_region(rt: HostRuntime) -> Result<(), Fail> {
    let mut table = three_objects(rt.alloc())?;
    set_slot(&mut table, 0, 1, 8);
    set_value(&mut table, 0, 1, 5);
    answers(&rt, carry(&mut table, 0, 1), Some(259));
    begins(&rt, &table, 0, None);
    begins(&rt, &table, 259, Some((3, 2, 1)));
    reads(&rt, slot(&table, 259, 1), Some(8));
    reads(&rt, value(&table, 259, 1), Some(5));
    has(&rt, &table, 0, EDEN, 10, 10);
    has(&rt, &table, 1, Role::Object { age: 3 }, 10, 10);
    answers(&rt, carry(&mut table, 256, 0), Some(10));
    begins(&rt, &table, 10, Some((1, 0, 3)));
    answers(&rt, carry(&mut table, 7, 2), None);
    Ok(())
}

#[test]
fn a_region_is_packed_and_cut(rt: HostRuntime) -> Result<(), Fail> {
    let mut table = three_objects(rt.alloc())?;
    take_away(&mut table, 7);
    set_slot(&mut table, 256, 0, 9);
    answers(&rt, carry(&mut table, 256, 0), Some(10));
    take_away(&mut table, 0);
    answers(&rt, slide_first(&mut table, 0), Some(10));
    begins(&rt, &table, 0, Some((1, 0, 3)));
    reads(&rt, slot(&table, 0, 0), Some(9));
    cut(&mut table, 0);
    has(&rt, &table, 0, EDEN, 3, 0);
    cut(&mut table, 1);
    has(&rt, &table, 1, Role::Object { age: 3 }, 0, 0);
    Ok(())
}

// A table with its two free regions out, and these, the lower one first: None if more are free, or fewer.
fn split_two(alloc: Global, table: Table) -> Result<Option<(Occupied, Region, Region)>, Fail>
    ensures { IfOk result (λ found. IfSome found (λ split. AreOut split.0 split.1 split.2)) }
{
    // Of a table it is known what its free regions are.
    let _ = table.geometry();
    let (occupied, mut out) = match table.split(alloc) {
        Ok(split) => split,
        Err((_, none)) => return Err(none.into()),
    };
    let Some(high) = out.pop() else {
        return Ok(None);
    };
    let Some(low) = out.pop() else {
        return Ok(None);
    };
    if !out.is_empty() || low.number() == high.number() {
        return Ok(None);
    }
    Ok(Some((occupied, low, high)))
}

// Places an object with so many references in a region that is out, if it fits and is not too large.
fn fill(occupied: &Occupied, region: &mut Region, refs: u8, ordinal: u32)
    requires out { IsTrue (is_in region.old.number occupied.now.out) }
    requires vacant { IsVacant occupied.now.table region.old.number region.old }
    requires first { 1 ≤ ordinal }
    ensures may { MayPutBack occupied.now region.new (Object 1) }
    ensures number { region.new.number ≡ region.old.number }
{
    // Of a region it is known that its objects lie in its words.
    let _ = region.used();
    let refs = u32::from(refs);
    let words = 2 + refs;
    if words > occupied.geometry().largest() || !region.fits(words) {
        return;
    }
    let (first, second) = write_header(&plain(refs, 0, ordinal));
    region.place_new(first, second, words);
}

// What is read of three objects while the free regions are out.
fn reads_without_free(rt: &impl Abort, alloc: Global, occupied: &Occupied) -> Result<(), Fail> {
    let geometry = occupied.geometry();
    assert!(rt; geometry.regions() == 4 && geometry.words() == 256);
    for (region, role) in [(0, EDEN), (1, Role::Object { age: 3 }), (2, Role::Free)] {
        assert!(rt; occupied.role(region) == role);
    }
    reads(rt, Some(occupied.word(257)), Some(3));
    reads(rt, Some(occupied.word(600)), Some(0));
    for (card, slots) in [(0, 3), (4, 1), (8, 0), (15, 0)] {
        let mut found = Items::make(alloc)?;
        found.reserve(64)?;
        occupied.card_slots(card, &mut found);
        assert_eq!(rt; found.len(), slots);
    }
    Ok(())
}

#[test]
fn a_free_region_is_filled_and_put_back(rt: HostRuntime) -> Result<(), Fail> {
    let table = three_objects(rt.alloc())?;
    let Some((mut occupied, mut low, high)) = split_two(rt.alloc(), table)? else {
        panic!(&rt; "two regions are free");
    };
    reads_without_free(&rt, rt.alloc(), &occupied)?;
    fill(&occupied, &mut low, 2, 9);
    occupied.put_back(low, Role::Object { age: 1 });
    occupied.put_back(high, Role::Free);
    let mut table = occupied.whole();
    counts(&rt, &table, 1, 1);
    answers(&rt, table.lowest_free(), Some(3));
    has(&rt, &table, 0, EDEN, 10, 10);
    has(&rt, &table, 2, Role::Object { age: 1 }, 4, 4);
    has(&rt, &table, 3, Role::Free, 0, 0);
    for (address, expected) in [
        (0, Some((3, 2, 1))),
        (7, Some((0, 1, 2))),
        (256, Some((1, 0, 3))),
        (512, Some((2, 0, 9))),
        (768, None),
    ] {
        begins(&rt, &table, address, expected);
    }
    answers(&rt, carry(&mut table, 256, 2), Some(516));
    answers(&rt, open(&mut table), Some(3));
    answers(&rt, put_small(&mut table, 3, 1, 0), Some(768));
    Ok(())
}
