//! Objects are moved, one at a time: down in their region, or to the end of another. References to a moved object still lead
//! to its old place: whoever moves objects mends them.
ghost use Rattle.std.specs.Prelude.{◌≡◌, ◌<◌, ◌≤◌, ◌+◌, IsTrue, length, slice_index_or, slice_set};
ghost use Rattle.bal_layout.specs.Addresses.{address_in};
ghost use Rattle.bal_region.specs.Changes.{cut_short, empty_land, with_object};
ghost use Rattle.bal_region.specs.Land.{object_in, starts_at};
ghost use Rattle.bal_table.specs.Changes.{MayCarry, MayMoveDown, with_carried, with_cut, with_slid_object};
ghost use Rattle.bal_table.specs.Table.{estimate_at, land_at};

use crate::Table;
use bal_region::Region;

impl Table {
    /// Moves the object that starts at one address to a lower one of its region, or leaves it where it is.
    pub fn slide(&mut self, from: u32, to: u32)
        requires { MayMoveDown self.old from to }
        ensures { self.new ≡ with_slid_object self.old from to }
    {
        let number = self.geometry.region_of(from) as usize;
        let offset = self.geometry.offset_of(from);
        let place = self.geometry.offset_of(to);
        self.regions[number].slide(offset, place);
    }

    /// Moves the object that starts there to the end of another region of objects, and answers its new address.
    pub fn carry(&mut self, from: u32, region: u32) -> u32
        requires { MayCarry self.old from region }
        ensures at { result ≡ address_in self.old.shape region (land_at self.old region).used }
        ensures table { self.new ≡ with_carried self.old from region }
    {
        let number = self.geometry.region_of(from) as usize;
        let offset = self.geometry.offset_of(from);
        let words = self.regions[number].object(offset).len() as u32;
        let place = copy_object(&mut self.regions, number, offset, region as usize);
        self.states[region as usize].add_object(words);
        self.regions[number].remove(offset);
        self.geometry.address(region, place)
    }

    /// Only the words up to the end of a region's last object stay given out, or none where it has no object. No more of
    /// them are thought to be alive.
    pub fn cut(&mut self, region: u32)
        requires within { region < self.old.shape.regions }
        requires alive { estimate_at self.old region ≤ (cut_short (land_at self.old region)).used }
        ensures { self.new ≡ with_cut self.old region }
    {
        self.regions[region as usize].cut();
        self.states[region as usize].used = self.regions[region as usize].used();
    }
}

// Appends the object that starts at an offset of one region to another, and answers at which offset.
fn copy_object(regions: &mut [Region], from: usize, offset: u32, to: usize) -> u32
    requires source { from < length regions.old }
    requires target { to < length regions.old }
    requires other { from ≡ to → ⊥ }
    requires start { IsTrue (starts_at (slice_index_or regions.old from (empty_land 0 0)) offset) }
    requires words { length (slice_index_or regions.old from (empty_land 0 0)).words ≡ length (slice_index_or regions.old to (empty_land 0 0)).words }
    requires fits { (slice_index_or regions.old to (empty_land 0 0)).used
        + length (object_in (slice_index_or regions.old from (empty_land 0 0)).words offset) ≤ length (slice_index_or regions.old to (empty_land 0 0)).words }
    ensures at { result ≡ (slice_index_or regions.old to (empty_land 0 0)).used }
    ensures regions { regions.new ≡ slice_set regions.old to (with_object (slice_index_or regions.old to (empty_land 0 0))
        (object_in (slice_index_or regions.old from (empty_land 0 0)).words offset)) }
{
    if from < to {
        let (low, high) = regions.split_at_mut(to);
        return high[0].place(low[from].object(offset));
    }
    let (low, high) = regions.split_at_mut(from);
    low[to].place(high[0].object(offset))
}
