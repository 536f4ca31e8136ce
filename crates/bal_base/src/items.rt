//! Lists whose room is reserved in advance, so that what must not fail half way takes its memory before it begins.
ghost use Rattle.std.specs.Prelude.{◌≡◌, ◌+◌, ◌-◌, ◌<◌, ◌≤◌, ◌↔◌, [], ◌∷◌, ◌++◌, length, slice_get, slice_set, IfOk, IsTrue, OnOk, OnErr, MatchOption};
ghost use Rattle.std.specs.Borrow.{sem};
ghost use Rattle.std.specs.List.{insert, remove_range};
ghost use Rattle.std.specs.Option.{option_copied};
ghost use Rattle.bal_base.specs.Lends.{lends_list};

use crate::NoMemory;
use std::alloc::Global;
use std::marker::Model;

/// A vector that contracts see as a list, with a number beside it: how many more items fit before memory is taken.
/// A push into spare room can't fail, so whoever must not fail half way reserves first.
#[derive(Drop)]
pub struct Items<T> {
    items: Vec<T>,
}

impl<T> Model for Items<T> {
    ghost use Rattle.std.specs.Prelude.{◌-◌, vec_len, vec_capacity};
    ghost use Rattle.bal_base.specs.Items.{Seq, seq_code};

    ghost Value = { Seq T };

    ghost coded = { seq_code T.code };

    ghost view = { λ it. record { list = it.items.items; spare = vec_capacity it.items - vec_len it.items } };
}

impl<T> Items<T> {
    /// An empty list.
    pub fn make(alloc: Global) -> Result<Items<T>, NoMemory>
        ensures { IfOk result (λ it. it.list ≡ []) }
    {
        Ok(Items {
            items: Vec::new(alloc),
        })
    }

    /// Makes room for `n` more items.
    pub fn reserve(&mut self, n: usize) -> Result<(), NoMemory>
        ensures list { self.new.list ≡ self.old.list }
        ensures ok { OnOk result (n ≤ self.new.spare) }
        ensures grows { self.old.spare ≤ self.new.spare }
        ensures err { OnErr result (self.new ≡ self.old) }
    {
        match self.items.reserve(n) {
            Ok(()) => Ok(()),
            Err(_) => Err(NoMemory),
        }
    }

    /// Appends an item, into room that was reserved.
    pub fn push(&mut self, item: T)
        requires { 1 ≤ self.old.spare }
        ensures list { self.new.list ≡ self.old.list ++ item ∷ [] }
        ensures spare { self.new.spare + 1 ≡ self.old.spare }
    {
        self.items.push_reserved(item);
    }

    /// Takes the last item off.
    pub fn pop(&mut self) -> Option<T>
        ensures last { MatchOption result ((self.old.list ≡ []) × (self.new ≡ self.old))
            (λ item. (self.old.list ≡ self.new.list ++ item ∷ []) × (self.new.spare ≡ self.old.spare + 1)) }
    {
        self.items.pop()
    }

    /// How many items there are.
    pub fn len(&self) -> usize
        ensures { result ≡ length self.now.list }
    {
        self.items.len()
    }

    /// How many more items fit before memory is taken.
    pub fn spare(&self) -> usize
        ensures { result ≡ self.now.spare }
    {
        self.items.capacity() - self.items.len()
    }

    /// Whether there is no item.
    pub fn is_empty(&self) -> bool
        ensures { IsTrue result ↔ (self.now.list ≡ []) }
    {
        self.items.is_empty()
    }

    /// The item at an index, None past the end.
    pub fn get(&self, index: usize) -> Option<&T>
        ensures { option_copied result ≡ slice_get self.now.list index }
    {
        self.items.get(index)
    }

    /// The items, in order.
    pub fn as_slice(&self) -> &[T]
        ensures { result.now ≡ self.now.list }
    {
        self.items.as_slice()
    }

    /// The items, to be written in place: how many there are, and how many more fit, stays.
    pub fn as_mut_slice(&mut self) -> &mut [T]
        ensures* writes_back { sem 𝓛 (lends_list T.row self.entry result) }
        ensures value { result.now ≡ self.old.list }
    {
        self.items.as_mut_slice()
    }
}

impl<T: Copy> Items<T> {
    /// Appends items, into room that was reserved.
    pub fn extend_from_slice(&mut self, more: &[T])
        requires { length more.now ≤ self.old.spare }
        ensures list { self.new.list ≡ self.old.list ++ more.now }
        ensures spare { self.new.spare + length more.now ≡ self.old.spare }
    {
        // Item by item, since std's `extend_from_slice` does not promise that the capacity stays.
        for item in more {
            self.items.push_reserved(*item);
        }
    }

    /// Appends items, and takes memory for them if there is no room.
    pub fn append(&mut self, more: &[T]) -> Result<(), NoMemory>
        ensures ok { OnOk result (self.new.list ≡ self.old.list ++ more.now) }
        ensures err { OnErr result (self.new.list ≡ self.old.list) }
    {
        self.items.extend_from_slice(more)?;
        Ok(())
    }
}

impl<T: Drop> Items<T> {
    /// Takes all items off, and keeps their room.
    pub fn clear(&mut self)
        ensures list { self.new.list ≡ [] }
        ensures spare { self.new.spare ≡ self.old.spare + length self.old.list }
    {
        self.items.clear();
    }

    /// Puts an item before the one at an index, or at the end, into room that was reserved. Those after it move by one.
    pub fn insert(&mut self, index: usize, item: T)
        requires room { 1 ≤ self.old.spare }
        requires within { index ≤ length self.old.list }
        ensures list { self.new.list ≡ insert self.old.list index item }
        ensures spare { self.new.spare + 1 ≡ self.old.spare }
    {
        let Ok(()) = self.items.insert(index, item) else {
            unreachable!()
        };
    }

    /// Takes the items out from one index up to another, which stays. Their room is kept.
    pub fn remove_range(&mut self, from: usize, to: usize)
        requires order { from ≤ to }
        requires within { to ≤ length self.old.list }
        ensures list { self.new.list ≡ remove_range self.old.list from to }
        ensures spare { self.new.spare ≡ self.old.spare + (to - from) }
    {
        self.items.drain(from..to);
    }

    /// Puts an item in the place of another.
    pub fn set(&mut self, index: usize, item: T)
        requires { index < length self.old.list }
        ensures list { self.new.list ≡ slice_set self.old.list index item }
        ensures spare { self.new.spare ≡ self.old.spare }
    {
        self.items[index] = item;
    }
}
