//! The heap outside the chosen regions. A collection sees no more of it than the references on single cards.
ghost use Rattle.std.specs.Prelude.{◌≡◌, ◌<◌, ◌≤◌, ◌+◌, ◌++◌, IfOk, length, map};
ghost use Rattle.std.specs.List.{All};
ghost use Rattle.bal_layout.specs.Addresses.{cards_of};
ghost use Rattle.bal_table.specs.Table.{refs_in, things_of};
ghost use Rattle.bal_table.specs.declared.slots.Slot.{Slot};
ghost use Rattle.bal_gather.specs.Gathered.{reference_in, references_on};

use bal_base::{Bits, Items, NoMemory, Steps};
use bal_layout::CARD_WORDS;
use bal_table::{Occupied, Slot};
use std::alloc::Global;
use std::marker::Model;
use std::sync::ledger::Ledger;

/// The reference in a slot: at which address it lies, and its word.
#[derive(Clone, Copy)]
pub struct Reference {
    pub place: u32,
    pub word: u64,
}

/// A view of the regions that were not chosen. Contracts see the heap, and which regions were chosen.
#[derive(Drop)]
pub struct Outside<'a> {
    occupied: &'a Occupied,
    members: Bits,
    // Scratch for the slots of one card.
    slots: Items<Slot>,
}

impl<'a> Model for Outside<'a> {
    ghost use Rattle.bal_gather.specs.Lent.{Lent};

    ghost Value = { Lent };

    ghost use Rattle.bal_gather.specs.Kept.{HasRoom, seen_outside};

    ghost view = { seen_outside };

    ghost invariant = { HasRoom };
}

impl<'a> Outside<'a> {
    // The regions outside those of the set.
    pub(crate) fn make(
        alloc: Global,
        occupied: &'a Occupied,
        members: Bits,
    ) -> Result<Outside<'a>, NoMemory>
        ensures { IfOk result (λ outside. outside ≡ record { table = occupied.now.table; regions = members.members }) }
    {
        let mut slots = Items::make(alloc)?;
        slots.reserve(CARD_WORDS as usize)?;
        Ok(Outside {
            occupied,
            members,
            slots,
        })
    }

    /// Appends the references on a card, by ascending place, into room that was reserved, unless the card lies in a chosen
    /// region: then it has none to tell of. This is one step.
    pub fn card_slots<L: Ledger>(
        &mut self,
        card: u32,
        into: &mut Items<Reference>,
        steps: &mut Steps<L>,
    )
        requires card { card < cards_of self.old.table.shape }
        requires room { 64 ≤ into.old.spare }
        ensures references { into.new.list ≡ into.old.list ++ references_on self.old card }
        ensures kept { into.new.spare + length into.new.list ≡ into.old.spare + length into.old.list }
        ensures steps { steps.new ≡ steps.old + 1 }
        ensures view { self.new ≡ self.old }
    {
        steps.tick();
        let region = self.occupied.geometry().region_of(card * CARD_WORDS);
        if self.members.contains(region) {
            return;
        }
        self.slots.clear();
        self.occupied.card_slots(card, &mut self.slots);
        append_references(self.occupied, self.slots.as_slice(), into);
    }
}

// Appends the references in these slots.
fn append_references(occupied: &Occupied, slots: &[Slot], into: &mut Items<Reference>)
    requires slots { All (λ (s : Slot). s.number < length (refs_in (things_of occupied.now.table s.holder))) slots.now }
    requires room { length slots.now ≤ into.old.spare }
    ensures references { into.new.list ≡ into.old.list ++ map (reference_in occupied.now.table) slots.now }
    ensures kept { into.new.spare + length into.new.list ≡ into.old.spare + length into.old.list }
{
    for slot in slots {
        let place = occupied.slot_place(slot.holder, slot.number);
        into.push(Reference {
            place,
            word: occupied.word(place),
        });
    }
}
