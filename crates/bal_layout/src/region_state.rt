//! What is known of a region beside its words: what it is used for, how full it is, how much of it is thought to be alive,
//! and its remembered list. The table keeps this state for each region, and a journal tells how it changes.
ghost use Rattle.std.specs.Prelude.{◌≡◌, ◌+◌, ◌<◌, ◌^◌, IfOk};
ghost use Rattle.bal_layout.specs.Regions.{emptied, free_region, is_eden, is_free, is_object, region_with_object};

use bal_base::NoMemory;
use bal_remember::RememberedList;
use std::alloc::Global;

/// What a region is used for: nothing, objects of an age from 0 to 24, of which 0 is eden, or slots of one array. Whose
/// slots a leaf has stands with the array: it lists its leaves.
#[derive(Clone, Copy, PartialEq, Eq)]
pub enum Role {
    Free,
    Object { age: u8 },
    Leaf,
}

impl Role {
    /// Whether a region with this role is free.
    pub fn is_free(&self) -> bool
        ensures { result ≡ is_free self.now }
    {
        match *self {
            Role::Free => true,
            Role::Object { .. } | Role::Leaf => false,
        }
    }

    /// Whether a region with this role is eden.
    pub fn is_eden(&self) -> bool
        ensures { result ≡ is_eden self.now }
    {
        match *self {
            Role::Object { age } => age == 0,
            Role::Free | Role::Leaf => false,
        }
    }

    /// Whether a region with this role has objects.
    pub fn is_object(&self) -> bool
        ensures { result ≡ is_object self.now }
    {
        match *self {
            Role::Object { .. } => true,
            Role::Free | Role::Leaf => false,
        }
    }
}

/// What is known of a region beside its words.
#[derive(Drop)]
pub struct RegionState {
    pub role: Role,
    /// The words up to the next free one.
    pub used: u32,
    /// How many of these words are thought to be alive.
    pub estimate: u32,
    pub remembered: RememberedList,
}

impl RegionState {
    /// That of a free region.
    pub fn make(alloc: Global) -> Result<RegionState, NoMemory>
        ensures { IfOk result (λ r. r ≡ free_region) }
    {
        Ok(RegionState {
            role: Role::Free,
            used: 0,
            estimate: 0,
            remembered: RememberedList::make(alloc)?,
        })
    }

    /// One object more, of so many words, that is thought to be alive. A free region becomes eden.
    pub fn add_object(&mut self, words: u32)
        requires used { self.old.used + words < 2 ^ 32 }
        requires estimate { self.old.estimate + words < 2 ^ 32 }
        ensures { self.new ≡ region_with_object words self.old }
    {
        if self.role.is_free() {
            self.role = Role::Object { age: 0 };
        }
        self.used += words;
        self.estimate += words;
    }

    /// Nothing is left in the region, and nothing is remembered of it. What it is used for stays, and so does its memory.
    pub fn empty(&mut self)
        ensures { self.new ≡ emptied self.old }
    {
        self.used = 0;
        self.estimate = 0;
        self.remembered.clear();
    }
}
