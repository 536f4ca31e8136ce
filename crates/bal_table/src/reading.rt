//! How objects and their slots are read. A table is read, and so is what is left of one while its free regions are out: a
//! region that is out is read as an empty one.
ghost use Rattle.std.specs.Prelude.{◌≡◌, ℕ, ◌<◌, ◌≤◌, ◌+◌, ◌*◌, ◌++◌, IfSome, IsSome, length};
ghost use Rattle.bal_layout.specs.Addresses.{IsAddress, cards_of, region_of};
ghost use Rattle.bal_table.specs.Reading.{IsReadAs};
ghost use Rattle.bal_table.specs.Slots.{slots_between, slots_on};
ghost use Rattle.bal_table.specs.Table.{IsTable, Table, holder_at, land_at, object_from, refs_in, slot_place, things_of, values_in, word_at};

use crate::Slot;
use bal_base::Items;
use bal_layout::{CARD_WORDS, Geometry, Header, read_header};
use bal_region::Region;

/// What is read as a table.
pub(crate) trait Readable {
    /// That table.
    ghost table: { Self → Table };

    /// How many regions there are, and how many words each has.
    fn shape(&self) -> Geometry
        ensures shape { result ≡ (table self.now).shape }
        ensures limits { IsTable (table self.now) };

    /// What stands in the place of a region.
    fn land(&self, region: u32) -> &Region
        requires { region < (table self.now).shape.regions }
        ensures { IsReadAs result.now (land_at (table self.now) region) };
}

/// What the object is that starts there, how many references and numbers it has, and what it is called.
pub(crate) fn header<T: Readable>(table: &T, address: u32) -> Header
    requires { IsSome (things_of (T.table table.now) address) }
    ensures what { IfSome (things_of (T.table table.now) address) (λ x. (x.name ≡ result.name) × (x.kind ≡ result.kind)) }
    ensures refs { result.refs ≡ length (refs_in (things_of (T.table table.now) address)) }
    ensures values { result.values ≡ length (values_in (things_of (T.table table.now) address)) }
{
    let geometry = table.shape();
    let region = table.land(geometry.region_of(address));
    let offset = geometry.offset_of(address);
    let Some(header) = read_header(region.word(offset), region.word(offset + 1)) else {
        unreachable!()
    };
    header
}

/// Where a reference slot of the object lies that starts there.
pub(crate) fn place_of<T: Readable>(table: &T, address: u32, slot: u32) -> u32
    requires { slot < length (refs_in (things_of (T.table table.now) address)) }
    ensures place { result ≡ slot_place (T.table table.now) address slot }
    ensures within { IsAddress (T.table table.now).shape result }
{
    let _ = table.shape();
    address + (2 + slot)
}

/// The word at an address.
pub(crate) fn word<T: Readable>(table: &T, address: u32) -> u64
    requires { IsAddress (T.table table.now).shape address }
    ensures { result ≡ word_at (T.table table.now) address }
{
    let geometry = table.shape();
    let region = table.land(geometry.region_of(address));
    region.word(geometry.offset_of(address))
}

/// Where the object starts that has a word at this address, or None if none has.
pub(crate) fn holder<T: Readable>(table: &T, address: u32) -> Option<u32>
    requires { IsAddress (T.table table.now).shape address }
    ensures holder { result ≡ holder_at (T.table table.now) address }
    ensures start { IfSome result (λ a. IsSome (things_of (T.table table.now) a)) }
{
    let geometry = table.shape();
    let number = geometry.region_of(address);
    let offset = table.land(number).holder_of(geometry.offset_of(address))?;
    Some(geometry.address(number, offset))
}

// Where the object starts that has a word at this address, or else the first one behind it in its region, or None if none is
// behind it.
fn object_from<T: Readable>(table: &T, address: u32) -> Option<u32>
    requires { IsAddress (T.table table.now).shape address }
    ensures object { result ≡ object_from (T.table table.now) address }
    ensures start { IfSome result (λ a. IsSome (things_of (T.table table.now) a)) }
{
    if let Some(holder) = holder(table, address) {
        return Some(holder);
    }
    let geometry = table.shape();
    let number = geometry.region_of(address);
    let start = table.land(number).first_from(geometry.offset_of(address))?;
    Some(geometry.address(number, start))
}

/// Appends the reference slots on a card, by ascending place, into room that was reserved. It looks up the object in which the
/// card begins, and goes from object to object to the card's end.
pub(crate) fn card_slots<T: Readable>(table: &T, card: u32, into: &mut Items<Slot>)
    requires card { card < cards_of (T.table table.now).shape }
    requires room { 64 ≤ into.old.spare }
    ensures slots { into.new.list ≡ into.old.list ++ slots_on (T.table table.now) card }
    ensures room { into.old.spare ≤ into.new.spare + 64 }
    ensures kept { into.new.spare + length into.new.list ≡ into.old.spare + length into.old.list }
{
    let _ = table.shape();
    let mut place = card * CARD_WORDS;
    let end = place + CARD_WORDS;
    while place < end {
        place = object_slots(table, place, end, into);
    }
}

// Appends the slots of the next object from a place on, as far as they lie before an end in that region, and answers where to
// go on: all slots before there were appended.
fn object_slots<T: Readable>(table: &T, place: u32, end: u32, into: &mut Items<Slot>) -> u32
    requires before { place < end }
    requires within { end ≤ (T.table table.now).shape.regions * (T.table table.now).shape.words }
    requires region { (p : ℕ) → place ≤ p → p < end → region_of (T.table table.now).shape p ≡ region_of (T.table table.now).shape place }
    requires room { end ≤ into.old.spare + place }
    ensures onward { place < result }
    ensures end { result ≤ end }
    ensures slots { into.new.list ≡ into.old.list ++ slots_between (T.table table.now) place result }
    ensures room { into.old.spare + place ≤ into.new.spare + result }
    ensures kept { into.new.spare + length into.new.list ≡ into.old.spare + length into.old.list }
{
    let _ = table.shape();
    let Some(holder) = object_from(table, place) else {
        return end;
    };
    let header = header(table, holder);
    let first = holder + 2;
    let behind = first + header.refs;
    for at in place.max(first).min(end)..behind.min(end) {
        into.push(Slot {
            holder,
            number: at - first,
        });
    }
    (behind + header.values).min(end)
}
