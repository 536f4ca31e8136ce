//! The flush: it brings the remembered lists up to date with the references on the dirty cards, and cleans these.
//!
//! 1. The dirty cards are visited in ascending order, and on each the slots of objects by ascending place.
//! 2. A reference into another region puts the card of its slot on that region's list, or overflows the list.
//! 3. The first reference that does so for a region and a card is told by a note.
ghost use Rattle.std.specs.Prelude.{◌≡◌, ◌<◌, ◌≤◌, ◌+◌, ◌++◌, ◌↔◌, IfSome, IsTrue, [], false, length, true};
ghost use Rattle.std.specs.List.{All};
ghost use Rattle.bal_cards.specs.Cards.{without_list};
ghost use Rattle.bal_layout.specs.Addresses.{cards_of};
ghost use Rattle.bal_layout.specs.Regions.{is_object};
ghost use Rattle.bal_table.specs.Slots.{IsSlot, slots_on};
ghost use Rattle.bal_table.specs.Table.{role_at};
ghost use Rattle.bal_barrier.specs.Coverage.{AreRemembered, IsCovered};
ghost use Rattle.bal_barrier.specs.Flush.{IsFlushed, LeadToObjects, note_of, notes_of, place_of, region_into, with_notes, with_states};

use crate::Note;
use bal_base::Items;
use bal_cards::Cards;
use bal_layout::target_of;
use bal_remember::Noted;
use bal_table::{Slot, Table};

/// A card has so many words, and no more slots.
pub const CARD_SLOTS: usize = 64;

/// Flushes the dirty cards in ascending order, as long as there is room for the notes of a whole card, and answers whether
/// all were flushed. The slots are scratch.
pub fn flush(
    table: &mut Table,
    cards: &mut Cards,
    limit: u32,
    slots: &mut Items<Slot>,
    notes: &mut Items<Note>,
) -> bool
    requires shape { cards.old.shape ≡ table.old.shape }
    requires limit { limit ≤ 1024 }
    requires found { LeadToObjects table.old }
    requires scratch { 64 ≤ slots.old.spare + length slots.old.list }
    ensures flushed { IsFlushed limit table.old table.new cards.old cards.new notes.old.list notes.new.list }
    ensures all { IsTrue result ↔ (cards.new.list ≡ []) }
    ensures full { result ≡ false → notes.new.spare < 64 }
    ensures scratch { slots.new.spare + length slots.new.list ≡ slots.old.spare + length slots.old.list }
    ensures room { notes.new.spare + length notes.new.list ≡ notes.old.spare + length notes.old.list }
    ensures covered { IsCovered table.old cards.old → IsCovered table.new cards.new }
    ensures remembered { IsTrue result → IsCovered table.old cards.old → AreRemembered table.new }
{
    // This says that the table is one, which the calls below want to know.
    let _ = table.geometry();
    let mut next = cards.next_list(0);
    while let Some(card) = next {
        if notes.spare() < CARD_SLOTS {
            return false;
        }
        flush_card(table, cards, card, limit, slots, notes);
        next = cards.next_list(card + 1);
    }
    true
}

/// Flushes one card. The slots are scratch.
pub fn flush_card(
    table: &mut Table,
    cards: &mut Cards,
    card: u32,
    limit: u32,
    slots: &mut Items<Slot>,
    notes: &mut Items<Note>,
)
    requires card { card < cards_of table.old.shape }
    requires shape { cards.old.shape ≡ table.old.shape }
    requires limit { limit ≤ 1024 }
    requires found { LeadToObjects table.old }
    requires scratch { 64 ≤ slots.old.spare + length slots.old.list }
    requires room { 64 ≤ notes.old.spare }
    ensures notes { notes.new.list ≡ notes.old.list ++ notes_of limit table.old table.old.regions (slots_on table.old card) }
    ensures table { table.new ≡ with_states table.old
        (with_notes limit table.old.regions (notes_of limit table.old table.old.regions (slots_on table.old card))) }
    ensures cards { cards.new ≡ without_list card cards.old }
    ensures scratch { slots.new.spare + length slots.new.list ≡ slots.old.spare + length slots.old.list }
    ensures room { notes.new.spare + length notes.new.list ≡ notes.old.spare + length notes.old.list }
    ensures covered { IsCovered table.old cards.old → IsCovered table.new cards.new }
{
    // As in `flush`.
    let _ = table.geometry();
    slots.clear();
    table.card_slots(card, slots);
    flush_slots(table, slots.as_slice(), limit, notes);
    cards.clean_list(card);
}

// Flushes these slots in turn.
fn flush_slots(table: &mut Table, slots: &[Slot], limit: u32, notes: &mut Items<Note>)
    requires slots { All (λ s. IsSlot table.old s.holder s.number (place_of table.old s)) slots.now }
    requires limit { limit ≤ 1024 }
    requires found { LeadToObjects table.old }
    requires room { length slots.now ≤ notes.old.spare }
    ensures notes { notes.new.list ≡ notes.old.list ++ notes_of limit table.old table.old.regions slots.now }
    ensures table { table.new ≡ with_states table.old (with_notes limit table.old.regions (notes_of limit table.old table.old.regions slots.now)) }
    ensures room { notes.new.spare + length notes.new.list ≡ notes.old.spare + length notes.old.list }
{
    for slot in slots {
        flush_slot(table, slot, limit, notes);
    }
}

// Notes the reference in a slot, if it leads into another region that does not know its card yet.
fn flush_slot(table: &mut Table, slot: &Slot, limit: u32, notes: &mut Items<Note>)
    requires slot { IsSlot table.old slot.now.holder slot.now.number (place_of table.old slot.now) }
    requires limit { limit ≤ 1024 }
    requires found { LeadToObjects table.old }
    requires room { 1 ≤ notes.old.spare }
    ensures notes { notes.new.list ≡ notes.old.list ++ note_of table.old table.old.regions slot.now }
    ensures table { table.new ≡ with_states table.old (with_notes limit table.old.regions (note_of table.old table.old.regions slot.now)) }
    ensures room { notes.new.spare + length notes.new.list ≡ notes.old.spare + length notes.old.list }
{
    let Some(region) = region_into(table, slot) else {
        return;
    };
    let geometry = table.geometry();
    let card = geometry.card_of(table.slot_place(slot.holder, slot.number));
    match table.note(region, card, limit) {
        Noted::Added | Noted::Overflowed => notes.push(Note {
            region,
            card,
            holder: slot.holder,
            slot: slot.number,
        }),
        Noted::Known | Noted::Silent => {}
    }
}

/// The region into which the reference in a slot leads from another one, if it does. There are objects in it.
pub fn region_into(table: &Table, slot: &Slot) -> Option<u32>
    requires slot { IsSlot table.now slot.now.holder slot.now.number (place_of table.now slot.now) }
    requires found { LeadToObjects table.now }
    ensures into { result ≡ region_into table.now slot.now }
    ensures within { IfSome result (λ q. q < table.now.shape.regions) }
    ensures objects { IfSome result (λ q. is_object (role_at table.now q) ≡ true) }
{
    let geometry = table.geometry();
    let word = table.word(table.slot_place(slot.holder, slot.number));
    let target = target_of(word)?;
    let region = geometry.region_of(target);
    if region == geometry.region_of(slot.holder) {
        return None;
    }
    Some(region)
}
