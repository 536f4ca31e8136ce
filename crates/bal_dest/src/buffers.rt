//! The regions into which one worker copies survivors.
ghost use Rattle.std.specs.Prelude.{◌≡◌, ℕ, ◌<◌, ◌≤◌, IfOk, IfSome, IsTrue, None, Some, [], false, length};
ghost use Rattle.bal_dest.specs.Buffers.{IsBuffers, Reserves, Takes, no_buffers, open_place, reserved_words, wants_region, with_copy, with_region, withdrawn};
ghost use Rattle.bal_layout.specs.Shape.{largest_of};
ghost use Rattle.bal_region.specs.Land.{IsObject};

use bal_base::NoMemory;
use bal_layout::{Geometry, OLDEST};
use bal_region::Region;
use std::alloc::Global;
use std::collections::VecDeque;
use std::marker::Model;

// How many ages there are.
const AGES: usize = OLDEST as usize + 1;

// A region of survivors, and the age for which it was drawn.
#[derive(Drop)]
struct Destination {
    age: u8,
    region: Region,
}

// Words at the end of a region that are kept for one object: in which of the regions, and how many.
#[derive(Clone, Copy)]
struct Reservation {
    place: u32,
    words: u32,
}

/// The regions into which one worker copies survivors, in the order in which they were added. The last one that was added for
/// an age is its open region, and takes the next object of that age. Contracts see a list of regions with their ages, the words
/// that are reserved, and how many regions may still be added. That each region but the open one of its age has no room for a
/// largest object is in the type. Memory is taken by `make` alone.
#[derive(Drop)]
pub struct Buffers {
    geometry: Geometry,
    regions: VecDeque<Destination>,
    // By age, the last region that was added for it, if one was: how many were added before that one.
    last: [Option<u32>; AGES],
    // How many regions were taken out. An entry of the table that is lower leads to none of those that are left.
    taken: u32,
    reserved: Option<Reservation>,
    // How many regions may still be added.
    room: u32,
}

impl Model for Buffers {
    ghost use Rattle.bal_dest.specs.Buffers as spec;

    ghost Value = { spec.Buffers };

    ghost use Rattle.bal_dest.specs.Kept.{buffers_of, AreKept};

    ghost view = { buffers_of };

    ghost invariant = { AreKept };
}

impl Buffers {
    /// No region yet, and room for `pool` of them.
    pub fn make(alloc: Global, geometry: Geometry, pool: u32) -> Result<Buffers, NoMemory>
        ensures { IfOk result (λ buffers. buffers ≡ no_buffers geometry pool) }
    {
        Ok(Buffers {
            geometry,
            regions: VecDeque::with_capacity(alloc, pool as usize)?,
            last: [None; AGES],
            taken: 0,
            reserved: None,
            room: pool,
        })
    }

    // The place of an age's open region, if it has one.
    fn open_place(&self, age: u8) -> Option<u32>
        requires { age ≤ 24 }
        ensures place { result ≡ open_place self.now age }
        ensures limits { IsBuffers self.now }
    {
        self.last[age as usize]?.checked_sub(self.taken)
    }

    /// Whether an age has no open region with so many words left.
    pub fn wants_region(&self, age: u8, words: u32) -> bool
        requires { age ≤ 24 }
        ensures answer { result ≡ wants_region self.now age words }
        ensures full { IsTrue result → words ≤ largest_of self.now.shape → IsTrue (wants_region self.now age (largest_of self.now.shape)) }
        ensures limits { IsBuffers self.now }
    {
        let Some(place) = self.open_place(age) else {
            return true;
        };
        !self.regions[place as usize].region.fits(words)
    }

    /// Adds a region without objects for an age, from 0 to 24. Its words may be anything. From now on it is the open one of the
    /// age. If the age had one before, that one has no room for a largest object.
    pub fn add_region(&mut self, age: u8, region: Region)
        requires age { age ≤ 24 }
        requires number { region.number < self.old.shape.regions }
        requires words { length region.words ≡ self.old.shape.words }
        requires empty { (region.starts ≡ []) × (region.used ≡ 0) }
        requires room { 1 ≤ self.old.room }
        requires wanted { IsTrue (wants_region self.old age (largest_of self.old.shape)) }
        ensures regions { self.new ≡ with_region self.old age region }
        ensures has_room { (words : ℕ) → words ≤ self.new.shape.words → wants_region self.new age words ≡ false }
    {
        self.last[age as usize] = Some(self.taken + self.regions.len() as u32);
        if self.regions.push_back(Destination { age, region }).is_err() {
            // There is room.
            unreachable!();
        }
        self.room -= 1;
    }
}

impl Buffers {
    /// Reserves words at the end of the open region of an age, where they fit, and answers their address.
    pub fn reserve(&mut self, age: u8, words: u32) -> u32
        requires age { age ≤ 24 }
        requires some { 1 ≤ words }
        requires fits { wants_region self.old age words ≡ false }
        requires idle { self.old.reserved ≡ None }
        ensures { Reserves self.old self.new age words result }
    {
        let Some(place) = self.open_place(age) else {
            unreachable!()
        };
        let region = &self.regions[place as usize].region;
        let address = self.geometry.address(region.number(), region.used());
        self.reserved = Some(Reservation { place, words });
        address
    }

    /// Copies an object into the words that were reserved for it. Nothing is reserved any more.
    pub fn commit(&mut self, words: &[u64])
        requires reserved { reserved_words self.old ≡ Some (length words.now) }
        requires object { IsObject self.old.shape.words words.now }
        ensures { self.new ≡ with_copy self.old words.now }
    {
        let Some(reservation) = self.reserved.take() else {
            unreachable!()
        };
        self.regions[reservation.place as usize].region.place(words);
    }

    /// Nothing is reserved any more, and nothing else has changed.
    pub fn withdraw(&mut self)
        ensures { self.new ≡ withdrawn self.old }
    {
        self.reserved = None;
    }

    /// Takes out the region that was added first, and answers its number, its age and the region: None if none is left.
    pub fn take_region(&mut self) -> Option<(u32, u8, Region)>
        requires { self.old.reserved ≡ None }
        ensures { Takes self.old self.new result }
    {
        let destination = self.regions.pop_front()?;
        self.taken += 1;
        Some((
            destination.region.number(),
            destination.age,
            destination.region,
        ))
    }
}
