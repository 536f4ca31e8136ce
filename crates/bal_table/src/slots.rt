//! The reference slots that lie on a card. A flush visits those on the cards that were written, and a partial collection
//! gathers those on the cards that its regions remember: neither goes over the heap for it. The words of a card are gone
//! over from object to object.
ghost use Rattle.std.specs.Prelude.{◌≡◌, ◌<◌, ◌≤◌, ◌+◌, ◌++◌, length};
ghost use Rattle.bal_layout.specs.Addresses.{cards_of};
ghost use Rattle.bal_table.specs.Slots.{slots_on};

use crate::{Table, reading};
use bal_base::Items;

/// A reference slot: the address at which the object starts that has it, and its number there.
#[derive(Clone, Copy)]
pub struct Slot {
    pub holder: u32,
    pub number: u32,
}

impl Table {
    /// Appends the reference slots on a card, by ascending place, into room that was reserved. It looks up the object in
    /// which the card begins, and goes from object to object to the card's end.
    pub fn card_slots(&self, card: u32, into: &mut Items<Slot>)
        requires card { card < cards_of self.now.shape }
        requires room { 64 ≤ into.old.spare }
        ensures slots { into.new.list ≡ into.old.list ++ slots_on self.now card }
        ensures room { into.old.spare ≤ into.new.spare + 64 }
        ensures kept { into.new.spare + length into.new.list ≡ into.old.spare + length into.old.list }
    {
        reading::card_slots(self, card, into);
    }
}
