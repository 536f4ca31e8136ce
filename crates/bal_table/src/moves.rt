//! Where moved objects went: a forwarding table beside the heap, so that no object's words are needed for it.
ghost use Rattle.std.specs.Prelude.{◌≡◌, ℕ, ◌*◌, ◌<◌, IfOk, IfSome, None, Some, length};
ghost use Rattle.bal_table.specs.Moves.{Forwarding, moved, no_moves, with_move};

use bal_base::{Items, NoMemory, grow};
use bal_layout::{Geometry, target_of, word_of};
use std::alloc::Global;
use std::marker::Model;

/// Where the object went that started at an address, if it moved. Contracts see a reference for each address of the heap.
/// To forget all moves costs as much as there are moves. Memory is taken by `make` alone.
#[derive(Drop)]
pub struct Moves {
    pub(crate) words: u32,
    // As far as they were written: the rest are null, and take no time before they are needed. A word of the heap's addresses
    // has 32 bits, and half the memory is touched so.
    table: Vec<u32>,
    // The addresses with a reference, with room for all that the heap has.
    moved: Items<u32>,
}

impl Model for Moves {
    ghost use Rattle.bal_table.specs.Moves.{Forwarding};

    ghost Value = { Forwarding };

    ghost use Rattle.bal_table.specs.KeptMoves.{forwarding_of, IsKept};

    ghost view = { forwarding_of };

    ghost invariant = { IsKept };
}

impl Moves {
    /// Nothing has moved.
    pub fn make(alloc: Global, geometry: &Geometry) -> Result<Moves, NoMemory>
        ensures { IfOk result (λ moves. moves ≡ no_moves (geometry.now.regions * geometry.now.words)) }
    {
        let words = geometry.regions() * geometry.words();
        let mut moved = Items::make(alloc)?;
        moved.reserve(words as usize)?;
        Ok(Moves {
            words,
            table: Vec::with_capacity(alloc, words as usize)?,
            moved,
        })
    }

    /// Where the object went that started at an address: None exactly if none is known to have moved from there.
    pub fn to(&self, address: u32) -> Option<u32>
        ensures to { result ≡ moved self.now address }
        ensures within { IfSome result (λ to. to < length self.now.words) }
    {
        let at = address as usize;
        if at >= self.table.len() {
            return None;
        }
        target_of(u64::from(self.table[at]))
    }

    /// The object that started at an address went to another one. What was known of the first is forgotten.
    pub fn set(&mut self, address: u32, to: u32)
        requires address { address < length self.old.words }
        requires to { to < length self.old.words }
        ensures { self.new ≡ with_move self.old address to }
    {
        let at = address as usize;
        grow(&mut self.table, at + 1, 0);
        let known = self.table[at] != 0;
        self.table[at] = word_of(to) as u32;
        if known {
            return;
        }
        self.moved.push(address);
    }

    /// All moves are forgotten.
    pub fn clear(&mut self)
        ensures { self.new ≡ no_moves (length self.old.words) }
    {
        while let Some(address) = self.moved.pop() {
            self.table[address as usize] = 0;
        }
    }
}

/// A move that is set is found, and changes no other.
pub fn a_move_is_the_only_change()
    ensures own { (m : Forwarding) (a to : ℕ) → a < length m.words → moved (with_move m a to) a ≡ Some to }
    ensures others { (m : Forwarding) (a to b : ℕ) → (a ≡ b → ⊥) → moved (with_move m a to) b ≡ moved m b }
    ensures none { (words a : ℕ) → moved (no_moves words) a ≡ None }
{}
