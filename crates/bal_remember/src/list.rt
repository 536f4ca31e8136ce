//! The list: cards in ascending order, or the mark that they were too many.
ghost use Rattle.std.specs.Prelude.{◌≡◌, ◌≤◌, ◌<◌, [], IfOk, length};
ghost use Rattle.bal_base.specs.Bits.{IsAscending};
ghost use Rattle.bal_remember.specs.Remembered.{answer_to, cards, is_overflowed, listed, with_card, without_between};

use bal_base::{Items, NoMemory};
use std::alloc::Global;
use std::marker::Model;

/// A list holds so many cards at most, whatever its limit.
pub const LISTED_CARDS: u32 = 1024;

/// What a list answers when a card is noted.
#[derive(Clone, Copy, PartialEq, Eq)]
pub enum Noted {
    /// The card is listed from now on.
    Added,
    /// It was listed before.
    Known,
    /// The list had as many other cards as it may have: it has overflowed.
    Overflowed,
    /// The list had overflowed before.
    Silent,
}

/// A region's remembered list: the cards, ascending, on which references into the region may lie, or the mark that they
/// were more than the list may hold. Memory is taken by `make` alone.
#[derive(Drop)]
pub struct RememberedList {
    // Ascending, with room for as many as any list holds. An overflowed list has none.
    cards: Items<u32>,
    overflowed: bool,
}

impl Model for RememberedList {
    ghost use Rattle.bal_remember.specs.Remembered.{Remembered, remembered_by, remembered_code};

    ghost Value = { Remembered };

    ghost coded = { remembered_code };

    ghost use Rattle.bal_remember.specs.Kept.{IsKept};

    ghost view = { λ l. remembered_by l.cards.list l.overflowed };

    ghost invariant = { IsKept };
}

impl RememberedList {
    /// A list without cards.
    pub fn make(alloc: Global) -> Result<RememberedList, NoMemory>
        ensures { IfOk result (λ l. l ≡ cards []) }
    {
        let mut cards = Items::make(alloc)?;
        cards.reserve(LISTED_CARDS as usize)?;
        Ok(RememberedList {
            cards,
            overflowed: false,
        })
    }

    /// Whether the cards were more than the list may hold.
    pub fn is_overflowed(&self) -> bool
        ensures { result ≡ is_overflowed self.now }
    {
        self.overflowed
    }

    /// The cards, ascending. A list that has overflowed tells of none.
    pub fn cards(&self) -> &[u32]
        ensures cards { result.now ≡ listed self.now }
        ensures ascending { IsAscending result.now }
        ensures few { length result.now ≤ 1024 }
    {
        self.cards.as_slice()
    }

    /// Notes a card on a list that may hold so many.
    pub fn note(&mut self, card: u32, limit: u32) -> Noted
        requires { limit ≤ 1024 }
        ensures answer { result ≡ answer_to limit card self.old }
        ensures list { self.new ≡ with_card limit card self.old }
    {
        if self.overflowed {
            return Noted::Silent;
        }
        let place = match self.cards.as_slice().binary_search(&card) {
            Ok(_) => return Noted::Known,
            Err(place) => place,
        };
        if self.cards.len() >= limit as usize {
            self.cards.clear();
            self.overflowed = true;
            return Noted::Overflowed;
        }
        self.cards.insert(place, card);
        Noted::Added
    }

    /// No card is left, and the list has not overflowed. Its memory stays.
    pub fn clear(&mut self)
        ensures { self.new ≡ cards [] }
    {
        self.cards.clear();
        self.overflowed = false;
    }

    /// Takes out the cards from one up to another, which stays.
    pub fn remove_between(&mut self, from: u32, to: u32)
        ensures { self.new ≡ without_between from to self.old }
    {
        let cards = self.cards.as_slice();
        let first = cards.partition_point(|card| *card < from);
        let end = cards.partition_point(|card| *card < to);
        if first < end {
            self.cards.remove_range(first, end);
        }
    }
}
