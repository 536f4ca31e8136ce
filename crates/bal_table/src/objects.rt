//! The objects of all regions by address: where they start, what they are, and where their slots lie.
ghost use Rattle.std.specs.Prelude.{◌≡◌, ℕ, ◌<◌, ◌≤◌, ◌+◌, IfSome, IsSome, Some, length, true};
ghost use Rattle.bal_layout.specs.Addresses.{IsAddress, address_in, region_of};
ghost use Rattle.bal_layout.specs.Regions.{is_object};
ghost use Rattle.bal_table.specs.Changes.{MayBeWritten, with_new, with_word_at, without_object};
ghost use Rattle.bal_table.specs.Table.{IsPiece, holder_at, land_at, refs_in, role_at, slot_place, things_of, value_found, values_in, word_at};

use crate::{Table, reading};
use bal_layout::Header;

impl Table {
    /// What the object is that starts there, how many references and numbers it has, and what it is called.
    pub fn header(&self, address: u32) -> Header
        requires { IsSome (things_of self.now address) }
        ensures what { IfSome (things_of self.now address) (λ x. (x.name ≡ result.name) × (x.kind ≡ result.kind)) }
        ensures refs { result.refs ≡ length (refs_in (things_of self.now address)) }
        ensures values { result.values ≡ length (values_in (things_of self.now address)) }
    {
        reading::header(self, address)
    }

    /// How many reference slots the object has that starts there.
    pub fn slots(&self, address: u32) -> u32
        requires { IsSome (things_of self.now address) }
        ensures { result ≡ length (refs_in (things_of self.now address)) }
    {
        self.header(address).refs
    }

    /// Where a reference slot of the object lies that starts there.
    pub fn slot_place(&self, address: u32, slot: u32) -> u32
        requires { slot < length (refs_in (things_of self.now address)) }
        ensures place { result ≡ slot_place self.now address slot }
        ensures within { IsAddress self.now.shape result }
    {
        reading::place_of(self, address, slot)
    }

    /// Where a number of the object lies that starts there, or None if it has no such slot.
    #[inline(always)]
    pub fn find_value(&self, address: u32, slot: u32) -> Option<u32>
        requires { IsSome (things_of self.now address) }
        ensures place { result ≡ value_found self.now address slot }
        ensures within { IfSome result (IsAddress self.now.shape) }
    {
        let _ = &self.geometry;
        let header = self.header(address);
        if slot >= header.values {
            return None;
        }
        Some(address + (2 + header.refs + slot))
    }

    /// The word at an address.
    pub fn word(&self, address: u32) -> u64
        requires { IsAddress self.now.shape address }
        ensures { result ≡ word_at self.now address }
    {
        reading::word(self, address)
    }

    /// Where the object starts that has a word at this address, or None if none has.
    pub fn holder_at(&self, address: u32) -> Option<u32>
        requires { IsAddress self.now.shape address }
        ensures holder { result ≡ holder_at self.now address }
        ensures start { IfSome result (λ a. IsSome (things_of self.now a)) }
    {
        reading::holder(self, address)
    }

    /// Another word at an address at which no object has its header or its name.
    pub fn set_word(&mut self, address: u32, value: u64)
        requires within { IsAddress self.old.shape address }
        requires behind { MayBeWritten self.old address }
        ensures { self.new ≡ with_word_at self.old address value }
    {
        let number = self.geometry.region_of(address) as usize;
        let offset = self.geometry.offset_of(address);
        self.regions[number].set_word(offset, value);
    }

    /// Appends an object of so many words to a region of objects, and answers its address. Its first two words are these,
    /// and its others zero.
    pub fn place_new(&mut self, region: u32, first: u64, second: u64, words: u32) -> u32
        requires within { region < self.old.shape.regions }
        requires objects { is_object (role_at self.old region) ≡ true }
        requires fits { (land_at self.old region).used + words ≤ self.old.shape.words }
        requires object { IsPiece self.old.shape first second words }
        ensures at { result ≡ address_in self.old.shape region (land_at self.old region).used }
        ensures table { self.new ≡ with_new self.old region first second words }
    {
        let offset = self.regions[region as usize].place_new(first, second, words);
        self.states[region as usize].add_object(words);
        self.geometry.address(region, offset)
    }

    /// Takes away the object that starts there. Its words stay given out.
    pub fn remove(&mut self, address: u32)
        requires { IsSome (things_of self.old address) }
        ensures { self.new ≡ without_object self.old address }
    {
        let number = self.geometry.region_of(address) as usize;
        let offset = self.geometry.offset_of(address);
        self.regions[number].remove(offset);
    }
}
