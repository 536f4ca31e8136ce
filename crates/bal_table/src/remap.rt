//! The marked objects after some are gone and others have moved.
ghost use Rattle.std.specs.Prelude.{◌≡◌, ℕ, ◌+◌, ◌<◌, ◌≤◌, ◌^◌, ◌↔◌, ◌&&◌, not, List, IsTrue, filter, length, map};
ghost use Rattle.bal_base.specs.Bits.{is_member};
ghost use Rattle.bal_layout.specs.Regions.{is_in};
ghost use Rattle.bal_table.specs.Marks.{IsLeft, IsMarked, Marked, StayApart, queue, remapped, with_remapped};
ghost use Rattle.bal_table.specs.Moves.{Forwarding, IsForwarding, moved_to};

use crate::{Marks, Moves};
use bal_base::{Bits, Items};

impl Marks {
    /// Forgets the objects that are gone, and finds each other one where it is after the moves, all at once. Of these the
    /// same ones wait in the queue, in the same order.
    pub fn remap(&mut self, gone: &[u32], moves: &Moves)
        requires heap { length moves.now.words ≡ self.old.words }
        requires apart { StayApart gone.now moves.now self.old.order }
        ensures { self.new ≡ with_remapped gone.now moves.now self.old }
    {
        let _ = &moves.words;
        remove_all(&mut self.bits, gone);
        self.taken = count_members(&self.bits, &self.order.as_slice()[..self.taken as usize]);
        keep_moved(&mut self.order, &self.bits, moves);
        replace_all(&mut self.bits, self.order.as_slice());
    }
}

// None of these numbers is a member any more.
fn remove_all(bits: &mut Bits, numbers: &[u32])
    ensures members { (n : ℕ) → is_member bits.new.members n ≡ (is_member bits.old.members n && not (is_in n numbers.now)) }
    ensures room { bits.old.room ≤ bits.new.room }
{
    for number in numbers {
        bits.remove(*number);
    }
}

// How many of these numbers are members.
fn count_members(bits: &Bits, numbers: &[u32]) -> u32
    requires { length numbers.now < 2 ^ 32 }
    ensures { result ≡ length (filter (is_member bits.now.members) numbers.now) }
{
    let mut count = 0;
    for number in numbers {
        count += u32::from(bits.contains(*number));
    }
    count
}

// The addresses that are members stay, each where its object is after the moves.
fn keep_moved(order: &mut Items<u32>, bits: &Bits, moves: &Moves)
    ensures list { order.new.list ≡ map (moved_to moves.now) (filter (is_member bits.now.members) order.old.list) }
    ensures room { order.new.spare + length order.new.list ≡ order.old.spare + length order.old.list }
{
    let mut kept = 0;
    for i in 0..order.len() {
        let address = order.as_slice()[i];
        if !bits.contains(address) {
            continue;
        }
        order.set(kept, moves.to(address).unwrap_or(address));
        kept += 1;
    }
    order.remove_range(kept, order.len());
}

// These numbers are the members, and no others are.
fn replace_all(bits: &mut Bits, numbers: &[u32])
    requires { (n : ℕ) → IsTrue (is_in n numbers.now) → n < bits.old.room }
    ensures members { (n : ℕ) → is_member bits.new.members n ≡ is_in n numbers.now }
    ensures room { bits.old.room ≤ bits.new.room }
{
    bits.clear();
    for number in numbers {
        bits.insert(*number);
    }
}

/// Exactly the objects that are left are marked, each where it is after the moves, and of these the same ones wait in the
/// queue, in the same order.
pub fn what_is_left_is_marked_where_it_went()
    ensures marked { (gone order : List ℕ) (moves : Forwarding) (b : ℕ)
        → IsTrue (is_in b (remapped gone moves order)) ↔ ((a : ℕ) × (IsLeft gone order a × (moved_to moves a ≡ b))) }
    ensures queue { (gone : List ℕ) (moves : Forwarding) (m : Marked) → queue (with_remapped gone moves m) ≡ remapped gone moves (queue m) }
    ensures limits { (gone : List ℕ) (moves : Forwarding) (m : Marked) → IsMarked m → length moves.words ≡ m.words → IsForwarding moves
        → StayApart gone moves m.order → IsMarked (with_remapped gone moves m) }
{}
