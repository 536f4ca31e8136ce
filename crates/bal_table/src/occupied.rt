//! A table while its free regions are out. A collection fills them with copies of objects that are still read from the table,
//! and puts them back. So that no table has to tell whether it is whole, this is a type of its own.
ghost use Rattle.std.specs.Prelude.{◌≡◌, ◌<◌, ◌≤◌, ◌+◌, ◌++◌, ◌^◌, [], IfErr, IfOk, IsSome, length, map, true, vec_capacity};
ghost use Rattle.bal_layout.specs.Addresses.{IsAddress, cards_of};
ghost use Rattle.bal_layout.specs.Regions.{free_regions, is_object, region_at};
ghost use Rattle.bal_table.specs.Occupied.{IsOccupied, MayPutBack, vacated, with_put_back};
ghost use Rattle.bal_table.specs.Taken.{AreTaken, kept_at};
ghost use Rattle.bal_table.specs.Slots.{slots_on};
ghost use Rattle.bal_table.specs.Table.{land_at, refs_in, role_at, slot_place, things_of, word_at};

use crate::reading::Readable;
use crate::table::{lowest_after, recounted};
use crate::{Slot, Table, reading};
use bal_base::{Items, NoMemory};
use bal_layout::{Geometry, RegionState, Role};
use bal_region::Region;
use std::alloc::Global;
use std::marker::Model;
use std::mem::replace;

/// A table without its free regions, which are out, to be filled. What is left is seen as the table was, with each region that
/// is out as an empty one. That a region that is out is free is in the type.
#[derive(Drop)]
pub struct Occupied {
    geometry: Geometry,
    // In the place of one that is out stands a region without words.
    regions: Vec<Region>,
    states: Vec<RegionState>,
    current: Option<u32>,
    // What a table counts of its regions.
    lowest: u32,
    free: u32,
    eden: u32,
}

impl Model for Occupied {
    ghost use Rattle.bal_table.specs.Occupied as spec;

    ghost Value = { spec.Occupied };

    ghost use Rattle.bal_table.specs.KeptOccupied.{occupied_of, IsKept};

    ghost view = { occupied_of };

    ghost invariant = { IsKept };
}

impl Readable for Occupied {
    ghost table = { λ o. o.table };

    fn shape(&self) -> Geometry {
        self.geometry
    }

    fn land(&self, region: u32) -> &Region {
        &self.regions[region as usize]
    }
}

impl Table {
    /// Takes the free regions out, in ascending order. If memory is refused, the table comes back as it was.
    pub fn split(self, alloc: Global) -> Result<(Occupied, Vec<Region>), (Table, NoMemory)>
        ensures occupied { IfOk result (λ split. split.0 ≡ record { table = vacated self; out = free_regions self.regions }) }
        ensures regions { IfOk result (λ split. split.1.items ≡ map (land_at self) (free_regions self.regions)) }
        ensures refused { IfErr result (λ back. back.0 ≡ self) }
    {
        let Ok(mut out) = Vec::with_capacity(alloc, self.free as usize) else {
            return Err((self, NoMemory));
        };
        let mut regions = self.regions;
        take_free(alloc, &mut regions, &self.states, &mut out);
        let occupied = Occupied {
            geometry: self.geometry,
            regions,
            states: self.states,
            current: self.current,
            lowest: self.lowest,
            free: self.free,
            eden: self.eden,
        };
        Ok((occupied, out))
    }
}

// Moves the free regions, in ascending order, into room that was reserved. In the place of each stands one without words.
fn take_free(alloc: Global, regions: &mut [Region], states: &[RegionState], out: &mut Vec<Region>)
    requires states { length regions.old ≡ length states.now }
    requires few { length regions.old < 2 ^ 32 }
    requires none { out.old.items ≡ [] }
    requires room { length (free_regions states.now) ≤ vec_capacity out.old }
    ensures regions { AreTaken regions.old states.now regions.new }
    ensures out { out.new.items ≡ map (kept_at regions.old) (free_regions states.now) }
{
    for number in 0..states.len() {
        if states[number].role.is_free() {
            let hollow = Region::hollow(alloc, number as u32);
            out.push_reserved(replace(&mut regions[number], hollow));
        }
    }
}

impl Occupied {
    /// How many regions there are, and how many words each has.
    pub fn geometry(&self) -> Geometry
        ensures shape { result ≡ self.now.table.shape }
        ensures limits { IsOccupied self.now }
    {
        self.geometry
    }

    /// What a region is used for.
    pub fn role(&self, region: u32) -> Role
        requires { region < self.now.table.shape.regions }
        ensures { result ≡ role_at self.now.table region }
    {
        self.states[region as usize].role
    }

    /// What is known of a region beside its words.
    pub fn state(&self, region: u32) -> &RegionState
        requires { region < self.now.table.shape.regions }
        ensures { result.now ≡ region_at self.now.table.regions region }
    {
        &self.states[region as usize]
    }

    /// The region of objects of this number.
    pub fn region(&self, region: u32) -> &Region
        requires within { region < self.now.table.shape.regions }
        requires objects { is_object (role_at self.now.table region) ≡ true }
        ensures { result.now ≡ land_at self.now.table region }
    {
        &self.regions[region as usize]
    }

    /// How many reference slots the object has that starts there.
    pub fn slots(&self, address: u32) -> u32
        requires { IsSome (things_of self.now.table address) }
        ensures { result ≡ length (refs_in (things_of self.now.table address)) }
    {
        reading::header(self, address).refs
    }

    /// Where a reference slot of the object lies that starts there.
    pub fn slot_place(&self, address: u32, slot: u32) -> u32
        requires { slot < length (refs_in (things_of self.now.table address)) }
        ensures place { result ≡ slot_place self.now.table address slot }
        ensures within { IsAddress self.now.table.shape result }
    {
        reading::place_of(self, address, slot)
    }

    /// The word at an address.
    pub fn word(&self, address: u32) -> u64
        requires { IsAddress self.now.table.shape address }
        ensures { result ≡ word_at self.now.table address }
    {
        reading::word(self, address)
    }

    /// Appends the reference slots on a card, by ascending place, into room that was reserved.
    pub fn card_slots(&self, card: u32, into: &mut Items<Slot>)
        requires card { card < cards_of self.now.table.shape }
        requires room { 64 ≤ into.old.spare }
        ensures slots { into.new.list ≡ into.old.list ++ slots_on self.now.table card }
        ensures room { into.old.spare ≤ into.new.spare + 64 }
        ensures kept { into.new.spare + length into.new.list ≡ into.old.spare + length into.old.list }
    {
        reading::card_slots(self, card, into);
    }
}

impl Occupied {
    /// Puts a region back that is out, and gives it a role. All words that it has given out are thought to be alive.
    pub fn put_back(&mut self, region: Region, role: Role)
        requires { MayPutBack self.old region role }
        ensures { self.new ≡ with_put_back self.old region role }
    {
        let number = region.number();
        let used = region.used();
        let state = &mut self.states[number as usize];
        state.role = role;
        state.used = used;
        state.estimate = used;
        self.free = recounted(self.free, true, role.is_free());
        self.eden = recounted(self.eden, false, role.is_eden());
        self.lowest = lowest_after(&self.states, self.lowest, number);
        self.regions[number as usize] = region;
    }

    /// The table, once all regions are back.
    pub fn whole(self) -> Table
        requires { self.out ≡ [] }
        ensures { result ≡ self.table }
    {
        Table {
            geometry: self.geometry,
            regions: self.regions,
            states: self.states,
            current: self.current,
            lowest: self.lowest,
            free: self.free,
            eden: self.eden,
        }
    }
}
