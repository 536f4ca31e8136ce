//! Remembered lists are built anew, from the references in the heap alone: the list of a region for which too many cards were
//! noted, and all lists once a collection has moved objects, since then no list tells where references lie.
//!
//! 1. The cards become dirty for the next flush on which references lie that the lists would have to remember.
//! 2. The lists become empty, and none of them has overflowed any more.
//! 3. The next flush notes these cards, as it does after stores.
//!
//! So all references between regions are covered at once, and the lists have them after the next flush. Each object is visited
//! once, and each of its references is read once.
#![tactic(auto)]

ghost use Rattle.std.specs.Prelude.{◌≡◌, ℕ, ◌<◌, ◌↔◌, ◌⊎◌, IsSome, IsTrue, [], None, Some};
ghost use Rattle.bal_base.specs.Bits.{is_member};
ghost use Rattle.bal_layout.specs.Addresses.{region_of};
ghost use Rattle.bal_remember.specs.Remembered as lists;
ghost use Rattle.bal_table.specs.Changes.{with_remembered};
ghost use Rattle.bal_table.specs.Slots.{IsSlot};
ghost use Rattle.bal_table.specs.Table.{things_of};
ghost use Rattle.bal_barrier.specs.Coverage.{IsCovered};
ghost use Rattle.bal_barrier.specs.Flush.{LeadToObjects, place_of};
ghost use Rattle.bal_rebuild.specs.Crossings.{HasCrossing, HasCrossingOf};
ghost use Rattle.bal_rebuild.specs.Rebuilt.{AreDirtied, all_flushed, with_empty_lists};

#[cfg(test)]
mod tests;

use bal_barrier::region_into;
use bal_cards::Cards;
use bal_table::{Slot, Table};

/// Builds the list of one region anew: it is empty and has not overflowed, and the cards become dirty for the next flush on
/// which references lie that lead into the region from another one.
pub fn rebuild(table: &mut Table, cards: &mut Cards, region: u32)
    requires within { region < table.old.shape.regions }
    requires shape { cards.old.shape ≡ table.old.shape }
    requires found { LeadToObjects table.old }
    ensures table { table.new ≡ with_remembered table.old region (lists.cards []) }
    ensures rest { cards.new ≡ record cards.old { list = cards.new.list } }
    ensures dirty { (card : ℕ) → IsTrue (is_member cards.new.list card)
        ↔ (IsTrue (is_member cards.old.list card) ⊎ HasCrossing table.old (Some region) card) }
    ensures covered { IsCovered table.old cards.old → IsCovered table.new cards.new }
{
    dirty_crossings(table, cards, Some(region));
    table.empty_list(region);
}

/// Builds all lists anew: they are empty and none has overflowed, and just those cards are dirty for the next flush on which
/// references lie that lead into another region.
pub fn rebuild_all(table: &mut Table, cards: &mut Cards)
    requires shape { cards.old.shape ≡ table.old.shape }
    requires found { LeadToObjects table.old }
    ensures table { table.new ≡ with_empty_lists table.old }
    ensures rest { cards.new ≡ record cards.old { list = cards.new.list } }
    ensures dirty { (card : ℕ) → IsTrue (is_member cards.new.list card) ↔ HasCrossing table.old None card }
    ensures covered { IsCovered table.new cards.new }
{
    clean_all(cards);
    dirty_crossings(table, cards, None);
    empty_lists(table);
}

// The next flush visits no card any more.
fn clean_all(cards: &mut Cards)
    ensures { cards.new ≡ all_flushed cards.old }
{
    let mut from = 0;
    while let Some(card) = cards.next_list(from) {
        cards.clean_list(card);
        from = card;
    }
}

/// Empties all lists: nothing is remembered of any region then.
pub fn empty_lists(table: &mut Table)
    ensures { table.new ≡ with_empty_lists table.old }
{
    for region in 0..table.geometry().regions() {
        table.empty_list(region);
    }
}

// The cards become dirty on which references lie that lead into this region from another one, or from any into another if
// none is given.
fn dirty_crossings(table: &Table, cards: &mut Cards, into: Option<u32>)
    requires shape { cards.old.shape ≡ table.now.shape }
    requires found { LeadToObjects table.now }
    ensures { AreDirtied cards.old cards.new (HasCrossing table.now into) }
{
    for region in 0..table.geometry().regions() {
        dirty_region(table, cards, region, into);
    }
}

// So do those on which slots of the objects in one region lie.
fn dirty_region(table: &Table, cards: &mut Cards, region: u32, into: Option<u32>)
    requires within { region < table.now.shape.regions }
    requires shape { cards.old.shape ≡ table.now.shape }
    requires found { LeadToObjects table.now }
    ensures { AreDirtied cards.old cards.new (HasCrossingOf table.now into (λ holder number. region_of table.now.shape holder ≡ region)) }
{
    let geometry = table.geometry();
    let mut from = 0;
    while let Some(offset) = table.region(region).first_from(from) {
        dirty_object(table, cards, geometry.address(region, offset), into);
        from = offset + 1;
    }
}

// So do those on which slots of one object lie.
fn dirty_object(table: &Table, cards: &mut Cards, address: u32, into: Option<u32>)
    requires object { IsSome (things_of table.now address) }
    requires shape { cards.old.shape ≡ table.now.shape }
    requires found { LeadToObjects table.now }
    ensures { AreDirtied cards.old cards.new (HasCrossingOf table.now into (λ holder number. holder ≡ address)) }
{
    let _ = table.geometry();
    for number in 0..table.slots(address) {
        let slot = Slot {
            holder: address,
            number,
        };
        dirty_slot(table, cards, &slot, into);
    }
}

// So does the card of one slot.
fn dirty_slot(table: &Table, cards: &mut Cards, slot: &Slot, into: Option<u32>)
    requires slot { IsSlot table.now slot.now.holder slot.now.number (place_of table.now slot.now) }
    requires shape { cards.old.shape ≡ table.now.shape }
    requires found { LeadToObjects table.now }
    ensures { AreDirtied cards.old cards.new
        (HasCrossingOf table.now into (λ holder number. (holder ≡ slot.now.holder) × (number ≡ slot.now.number))) }
{
    let geometry = table.geometry();
    let Some(region) = region_into(table, slot) else {
        return;
    };
    if into.unwrap_or(region) == region {
        cards.dirty_list(geometry.card_of(table.slot_place(slot.holder, slot.number)));
    }
}
