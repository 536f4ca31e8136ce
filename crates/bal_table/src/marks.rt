//! The marked objects: a set, and in it a queue of those whose references were not looked at yet.
ghost use Rattle.std.specs.Prelude.{◌≡◌, ℕ, ◌*◌, ◌/◌, ◌<◌, ◌≤◌, ◌↔◌, ◌⊎◌, ◌++◌, ◌∷◌, List, [], IfOk, IfSome, IsTrue, Some, length, slice_get};
ghost use Rattle.bal_layout.specs.Regions.{is_in};
ghost use Rattle.bal_table.specs.Marks.{IsMarked, IsNext, Marked, no_marks, queue, with_address, with_mark};

use bal_base::{Bits, Items, NoMemory};
use bal_layout::Geometry;
use std::alloc::Global;
use std::marker::Model;

/// The marked objects, by the addresses at which they start. Contracts see them in the order in which they were marked, and
/// how many of the first were taken out of the queue. That none is marked twice is in the type. Memory is taken by `make`
/// alone.
#[derive(Drop)]
pub struct Marks {
    words: u32,
    // The members of `order`: whoever meets a reference asks here.
    pub(crate) bits: Bits,
    // With room for as many as there can be objects.
    pub(crate) order: Items<u32>,
    pub(crate) taken: u32,
}

impl Model for Marks {
    ghost use Rattle.bal_table.specs.Marks.{Marked};

    ghost Value = { Marked };

    ghost use Rattle.bal_table.specs.KeptMarks.{marked_of, AreKept};

    ghost view = { marked_of };

    ghost invariant = { AreKept };
}

impl Marks {
    /// Nothing is marked.
    pub fn make(alloc: Global, geometry: &Geometry) -> Result<Marks, NoMemory>
        ensures { IfOk result (λ marks. marks ≡ no_marks (geometry.now.regions * geometry.now.words)) }
    {
        let words = geometry.regions() * geometry.words();
        let mut order = Items::make(alloc)?;
        order.reserve(words as usize / 2)?;
        Ok(Marks {
            words,
            bits: Bits::make(alloc, words)?,
            order,
            taken: 0,
        })
    }

    /// Whether an address is marked.
    pub fn has(&self, address: u32) -> bool
        ensures { result ≡ is_in address self.now.order }
    {
        self.bits.contains(address)
    }

    /// An address is marked, and waits in the queue, unless it was marked before.
    pub fn add(&mut self, address: u32)
        requires within { address < self.old.words }
        requires room { IsTrue (is_in address self.old.order) ⊎ (length self.old.order < self.old.words / 2) }
        ensures { self.new ≡ with_mark self.old address }
    {
        if self.bits.contains(address) {
            return;
        }
        self.bits.insert(address);
        self.order.push(address);
    }

    /// Takes the address out of the queue that waits longest. It stays marked.
    pub fn next(&mut self) -> Option<u32>
        ensures next { IsNext self.old result self.new }
        ensures left { IfSome result (λ _. self.old.taken < self.old.words) }
        ensures limits { IsMarked self.new }
    {
        let address = *self.order.get(self.taken as usize)?;
        self.taken += 1;
        Some(address)
    }

    /// Nothing is marked any more, and nothing waits.
    pub fn clear(&mut self)
        ensures { self.new ≡ no_marks self.old.words }
    {
        self.bits.clear();
        self.order.clear();
        self.taken = 0;
    }
}

/// An address that is marked comes to those that are marked already, and stands after them. There are no more of them than
/// the heap has words.
pub fn what_is_marked_stays_in_its_place()
    ensures marked { (order : List ℕ) (a b : ℕ) → IsTrue (is_in b (with_address order a)) ↔ ((b ≡ a) ⊎ IsTrue (is_in b order)) }
    ensures after { (order : List ℕ) (a : ℕ) → (more : List ℕ) × (with_address order a ≡ order ++ more) }
    ensures few { (m : Marked) → IsMarked m → length m.order ≤ m.words }
    ensures limits { (m : Marked) (a : ℕ) → IsMarked m → a < m.words → IsMarked (with_mark m a) }
{}

/// What waits in the queue is marked and was not taken yet, and if nothing waits, all was taken.
pub fn the_queue_is_what_was_not_taken()
    ensures first { (m : Marked) (a : ℕ) (others : List ℕ) → queue m ≡ a ∷ others
        → (slice_get m.order m.taken ≡ Some a) × (m.taken < length m.order) × IsTrue (is_in a m.order) }
    ensures none { (m : Marked) → IsMarked m → queue m ≡ [] → m.taken ≡ length m.order }
{}
