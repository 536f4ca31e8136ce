//! Sets of numbers as bits. Words of bits are written only as far as one was set, so that a set that is still empty takes
//! no time however many numbers it has room for.
ghost use Rattle.std.specs.Prelude.{◌≡◌, ◌<◌, ◌≤◌, ◌+◌, ◌*◌, ◌/◌, ◌++◌, ◌∷◌, ◌↔◌, ◌⊎◌, ℕ, [], List, IfOk, IsTrue};
ghost use Rattle.std.specs.Int.{bit_at};
ghost use Rattle.bal_base.specs.Bits.{IsAscending, IsLastTo, IsNextFrom, is_member, with_member, without_member};

use crate::NoMemory;
use crate::filling::grow;
use std::alloc::Global;
use std::marker::Model;

/// A set of numbers. Contracts see its members in ascending order, and for how many numbers from 0 on it has room. Memory
/// is taken by `make` alone.
#[derive(Drop)]
pub struct Bits {
    words: Vec<u64>,
}

impl Model for Bits {
    ghost use Rattle.bal_base.specs.Bits.{Members};

    ghost Value = { Members };

    ghost use Rattle.bal_base.specs.KeptBits.{members_of, AreBits};

    ghost view = { members_of };

    ghost invariant = { AreBits };
}

impl Bits {
    /// No number, and room for all of them below a limit.
    pub fn make(alloc: Global, limit: u32) -> Result<Bits, NoMemory>
        ensures { IfOk result (λ bits. (bits.members ≡ []) × (limit ≤ bits.room)) }
    {
        Ok(Bits {
            words: Vec::with_capacity(alloc, limit as usize / 64 + 1)?,
        })
    }

    /// No number, and room for none. This takes no memory.
    pub fn none(alloc: Global) -> Bits
        ensures { result.members ≡ [] }
    {
        Bits {
            words: Vec::new(alloc),
        }
    }

    /// Whether a number is a member.
    pub fn contains(&self, number: u32) -> bool
        ensures { result ≡ is_member self.now.members number }
    {
        let i = number as usize / 64;
        i < self.words.len() && (self.words[i] >> (number % 64)) % 2 == 1
    }

    /// A number becomes a member, if it was none.
    pub fn insert(&mut self, number: u32)
        requires { number < self.old.room }
        ensures members { self.new.members ≡ with_member number self.old.members }
        ensures room { self.old.room ≤ self.new.room }
    {
        let i = number as usize / 64;
        grow(&mut self.words, i + 1, 0);
        self.words[i] |= 1 << (number % 64);
    }

    /// A number is no member any more, if it was one.
    pub fn remove(&mut self, number: u32)
        ensures members { self.new.members ≡ without_member number self.old.members }
        ensures room { self.old.room ≤ self.new.room }
    {
        let i = number as usize / 64;
        if i < self.words.len() {
            self.words[i] &= !(1 << (number % 64));
        }
    }

    /// No number is left.
    pub fn clear(&mut self)
        ensures members { self.new.members ≡ [] }
        ensures room { self.old.room ≤ self.new.room }
    {
        self.words.clear();
    }

    /// The least member from a number on. Who asks for the first one from 0 on, and then each time for the first one after
    /// that, goes over all members in ascending order.
    pub fn next_from(&self, number: u32) -> Option<u32>
        ensures next { IsNextFrom self.now.members number result }
        ensures ascending { IsAscending self.now.members }
    {
        for i in number as usize / 64..self.words.len() {
            let word = self.words[i] & bits_from(i, number);
            if word != 0 {
                return Some(64 * i as u32 + word.trailing_zeros());
            }
        }
        None
    }

    /// The greatest member up to a number.
    pub fn last_to(&self, number: u32) -> Option<u32>
        ensures { IsLastTo self.now.members number result }
    {
        let end = self.words.len().min(number as usize / 64 + 1);
        for i in (0..end).rev() {
            let word = self.words[i] & bits_to(i, number);
            if word != 0 {
                return Some(64 * i as u32 + 63 - word.leading_zeros());
            }
        }
        None
    }
}

/// A number that was inserted is a member, one that was taken away is none, and all others are what they were. A number
/// above all members stands after them.
pub fn a_set_is_told_by_its_members()
    ensures inserted { (n m : ℕ) (members : List ℕ)
        → IsTrue (is_member (with_member n members) m) ↔ ((n ≡ m) ⊎ IsTrue (is_member members m)) }
    ensures removed { (n m : ℕ) (members : List ℕ)
        → IsTrue (is_member (without_member n members) m) ↔ ((n ≡ m → ⊥) × IsTrue (is_member members m)) }
    ensures last { (n : ℕ) (members : List ℕ) → ((m : ℕ) → IsTrue (is_member members m) → m < n)
        → with_member n members ≡ members ++ n ∷ [] }
{}

// The bits of a word that stand for numbers from one on, which is in this word or before it.
fn bits_from(i: usize, number: u32) -> u64
    requires { number / 64 ≤ i }
    ensures { (k : ℕ) → k < 64 → (bit_at result k ≡ 1) ↔ (number ≤ 64 * i + k) }
{
    if i > number as usize / 64 {
        return u64::MAX;
    }
    u64::MAX << (number % 64)
}

// The bits of a word that stand for numbers up to one, which is in this word or after it.
fn bits_to(i: usize, number: u32) -> u64
    requires { i ≤ number / 64 }
    ensures { (k : ℕ) → k < 64 → (bit_at result k ≡ 1) ↔ (64 * i + k ≤ number) }
{
    if i < number as usize / 64 {
        return u64::MAX;
    }
    u64::MAX >> (63 - number % 64)
}
