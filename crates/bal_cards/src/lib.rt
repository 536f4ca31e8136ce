//! The card table: which cards of the heap were written. A store of a reference makes the card of its slot dirty. The next
//! flush visits the dirty cards, brings the remembered lists up to date, and cleans them; the mark cycle visits those that
//! were written since its last step.
//!
//! So a card has two bits. With one alone, a flush between two steps of the mark cycle would clean the card of a store whose
//! target the cycle has not seen yet.
#![tactic(auto)]

ghost use Rattle.std.specs.Prelude.{◌≡◌, ℕ, ◌<◌, ◌≤◌, ◌&&◌, not, nat_le, nat_lt, IfOk, IfSome, IsTrue, MatchOption};
ghost use Rattle.std.specs.List.{filter};
ghost use Rattle.bal_base.specs.Bits.{IsAscending, IsNextFrom, is_member};
ghost use Rattle.bal_layout.specs.Addresses.{cards_of};
ghost use Rattle.bal_layout.specs.Shape.{IsShape};
ghost use Rattle.bal_cards.specs.Between.{IsNextBetween, outside};
ghost use Rattle.bal_cards.specs.Cards.{AreCards, all_clean, cards_outside, with_dirty, with_list_dirty, with_mark_dirty, without_list, without_marks, without_region};

#[cfg(test)]
mod tests;

use bal_base::{Bits, NoMemory};
use bal_layout::{CARD_WORDS, Geometry};
use std::alloc::Global;
use std::marker::Model;

/// Which cards of the heap were written: one bit a card for the next flush, and one for the mark cycle. Contracts see the
/// dirty cards of each kind, ascending. Memory is taken by `make` alone.
#[derive(Drop)]
pub struct Cards {
    geometry: Geometry,
    list: Bits,
    mark: Bits,
}

impl Model for Cards {
    ghost use Rattle.bal_cards.specs.Cards as spec;

    ghost Value = { spec.Cards };

    ghost use Rattle.bal_cards.specs.Kept.{cards_in, IsKept};

    ghost view = { cards_in };

    ghost invariant = { IsKept };
}

impl Cards {
    /// No card was written.
    pub fn make(alloc: Global, geometry: Geometry) -> Result<Cards, NoMemory>
        ensures { IfOk result (λ cards. cards ≡ all_clean geometry) }
    {
        let count = card_count(&geometry);
        Ok(Cards {
            geometry,
            list: Bits::make(alloc, count)?,
            mark: Bits::make(alloc, count)?,
        })
    }

    /// The heap's geometry.
    pub fn geometry(&self) -> Geometry
        ensures shape { result ≡ self.now.shape }
        ensures limits { AreCards self.now }
    {
        let _ = &self.list;
        self.geometry
    }

    /// A card was written, for the next flush and for the mark cycle.
    pub fn dirty(&mut self, card: u32)
        requires { card < cards_of self.old.shape }
        ensures { self.new ≡ with_dirty card self.old }
    {
        self.dirty_list(card);
        self.dirty_mark(card);
    }

    /// A card is to be visited by the next flush.
    pub fn dirty_list(&mut self, card: u32)
        requires { card < cards_of self.old.shape }
        ensures { self.new ≡ with_list_dirty card self.old }
    {
        self.list.insert(card);
    }

    /// A card is to be visited by the mark cycle.
    pub fn dirty_mark(&mut self, card: u32)
        requires { card < cards_of self.old.shape }
        ensures { self.new ≡ with_mark_dirty card self.old }
    {
        self.mark.insert(card);
    }

    /// The least card from one on that the next flush visits.
    pub fn next_list(&self, from: u32) -> Option<u32>
        ensures next { IsNextFrom self.now.list from result }
        ensures ascending { IsAscending self.now.list }
        ensures within { IfSome result (λ card. card < cards_of self.now.shape) }
    {
        self.list.next_from(from)
    }

    /// The least card from one on that the mark cycle visits.
    pub fn next_mark(&self, from: u32) -> Option<u32>
        ensures next { IsNextFrom self.now.mark from result }
        ensures ascending { IsAscending self.now.mark }
        ensures within { IfSome result (λ card. card < cards_of self.now.shape) }
    {
        self.mark.next_from(from)
    }

    /// A card was flushed.
    pub fn clean_list(&mut self, card: u32)
        ensures { self.new ≡ without_list card self.old }
    {
        self.list.remove(card);
    }

    /// The mark cycle has seen all cards.
    pub fn clean_marks(&mut self)
        ensures { self.new ≡ without_marks self.old }
    {
        self.mark.clear();
    }

    /// A region was freed: none of its cards is dirty any more. Goes from one dirty card to the next, by whole words of bits.
    pub fn clean_region(&mut self, region: u32)
        requires { region < self.old.shape.regions }
        ensures { self.new ≡ without_region region self.old }
    {
        clean_cards(&self.geometry, region, &mut self.list);
        clean_cards(&self.geometry, region, &mut self.mark);
    }
}

// How many cards the heap has.
fn card_count(geometry: &Geometry) -> u32
    ensures { result ≡ cards_of geometry.now }
{
    geometry.regions() * geometry.words() / CARD_WORDS
}

// Takes the cards of a region out of a set.
fn clean_cards(geometry: &Geometry, region: u32, bits: &mut Bits)
    requires { region < geometry.now.regions }
    ensures members { bits.new.members ≡ cards_outside geometry.now region bits.old.members }
    ensures room { bits.old.room ≤ bits.new.room }
{
    let count = geometry.words() / CARD_WORDS;
    let first = region * count;
    remove_between(bits, first, first + count);
}

// Takes the numbers from one up to another, which stays, out of a set.
fn remove_between(bits: &mut Bits, from: u32, to: u32)
    requires { from ≤ to }
    ensures members { bits.new.members ≡ filter (outside from to) bits.old.members }
    ensures room { bits.old.room ≤ bits.new.room }
{
    let mut at = from;
    while let Some(number) = next_between(bits, at, to) {
        bits.remove(number);
        at = number + 1;
    }
}

// The least member of a set from one number up to another, which is not meant.
fn next_between(bits: &Bits, from: u32, to: u32) -> Option<u32>
    ensures { IsNextBetween bits.now.members from to result }
{
    let number = bits.next_from(from)?;
    if number >= to {
        return None;
    }
    Some(number)
}
