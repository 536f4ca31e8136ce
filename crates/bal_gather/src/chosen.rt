//! The chosen regions as a collection reads them.
ghost use Rattle.std.specs.Prelude.{◌≡◌, ◌<◌, IfOk, IsSome, IsTrue, Some, length};
ghost use Rattle.bal_base.specs.Bits.{IsAscending};
ghost use Rattle.bal_layout.specs.Regions.{is_in};
ghost use Rattle.bal_table.specs.Table.{IsTable, land_at, objects_of, refs_in, slot_place, things_of, word_at};
ghost use Rattle.bal_gather.specs.Gathered.{listed_by};
ghost use Rattle.bal_gather.specs.Lent.{Lent, MayBeChosen, is_chosen};
ghost use Rattle.bal_gather.specs.Objects.{age_at};

use crate::Outside;
use bal_base::{Bits, NoMemory};
use bal_layout::{Geometry, Role};
use bal_region::Region;
use bal_table::Occupied;
use std::alloc::Global;
use std::marker::Model;

/// A view of the chosen regions. Contracts see the heap, and which regions were chosen; that these may be chosen is in the
/// type.
#[derive(Drop)]
pub struct Chosen<'a> {
    occupied: &'a Occupied,
    regions: &'a [u32],
    members: Bits,
}

impl<'a> Model for Chosen<'a> {
    ghost use Rattle.bal_gather.specs.Lent.{Lent};

    ghost Value = { Lent };

    ghost use Rattle.bal_gather.specs.Kept.{seen_inside, AreLent};

    ghost view = { seen_inside };

    ghost invariant = { AreLent };
}

/// Lends the heap as two views, of these regions and of all others, while its free regions are out. Memory is taken to tell fast which regions were chosen.
pub fn lend_chosen<'a>(
    alloc: Global,
    occupied: &'a Occupied,
    regions: &'a [u32],
) -> Result<(Chosen<'a>, Outside<'a>), NoMemory>
    requires { MayBeChosen occupied.now.table regions.now }
    ensures chosen { IfOk result (λ lent. lent.0 ≡ record { table = occupied.now.table; regions = regions.now }) }
    ensures outside { IfOk result (λ lent. lent.1 ≡ record { table = occupied.now.table; regions = regions.now }) }
{
    let members = set_of(alloc, occupied, regions)?;
    let outside = Outside::make(alloc, occupied, set_of(alloc, occupied, regions)?)?;
    Ok((
        Chosen {
            occupied,
            regions,
            members,
        },
        outside,
    ))
}

// The regions as a set.
fn set_of(alloc: Global, occupied: &Occupied, regions: &[u32]) -> Result<Bits, NoMemory>
    requires { MayBeChosen occupied.now.table regions.now }
    ensures { IfOk result (λ set. set.members ≡ regions.now) }
{
    let mut members = Bits::make(alloc, occupied.geometry().regions())?;
    for region in regions {
        members.insert(*region);
    }
    Ok(members)
}

impl<'a> Chosen<'a> {
    /// How many regions the heap has, and how many words each.
    pub fn geometry(&self) -> Geometry
        ensures shape { result ≡ self.now.table.shape }
        ensures limits { IsTable self.now.table }
        ensures chosen { MayBeChosen self.now.table self.now.regions }
    {
        self.occupied.geometry()
    }

    /// The chosen regions, ascending.
    pub fn regions(&self) -> &[u32]
        ensures regions { result.now ≡ self.now.regions }
        ensures chosen { MayBeChosen self.now.table self.now.regions }
    {
        self.regions
    }

    /// The chosen region of this number.
    pub fn region(&self, region: u32) -> &Region
        requires { IsTrue (is_in region self.now.regions) }
        ensures { result.now ≡ land_at self.now.table region }
    {
        self.occupied.region(region)
    }

    /// The cards that a chosen region remembers, ascending: none if its list has overflowed.
    pub fn listed(&self, region: u32) -> &[u32]
        requires { IsTrue (is_in region self.now.regions) }
        ensures { result.now ≡ listed_by self.now region }
    {
        self.occupied.state(region).remembered.cards()
    }

    /// Whether an address lies in a chosen region. It may be any number.
    pub fn holds(&self, address: u32) -> bool
        ensures { result ≡ is_chosen self.now address }
    {
        let geometry = self.occupied.geometry();
        address < geometry.regions() * geometry.words()
            && self.members.contains(geometry.region_of(address))
    }

    /// The age of the chosen region in which an address lies.
    pub fn age_at(&self, address: u32) -> u8
        requires { IsTrue (is_chosen self.now address) }
        ensures { result ≡ age_at self.now.table address }
    {
        match self
            .occupied
            .role(self.occupied.geometry().region_of(address))
        {
            Role::Object { age } => age,
            Role::Free | Role::Leaf => 0,
        }
    }

    /// The words of the object of a chosen region that starts there, from its header on.
    pub fn object_at(&self, address: u32) -> &[u64]
        requires object { IsSome (things_of self.now.table address) }
        requires chosen { IsTrue (is_chosen self.now address) }
        ensures { objects_of self.now.table address ≡ Some result.now }
    {
        let geometry = self.occupied.geometry();
        let region = self.occupied.region(geometry.region_of(address));
        region.object(geometry.offset_of(address))
    }

    /// How many reference slots the object of a chosen region has that starts there.
    pub fn slots(&self, address: u32) -> u32
        requires object { IsSome (things_of self.now.table address) }
        requires chosen { IsTrue (is_chosen self.now address) }
        ensures { result ≡ length (refs_in (things_of self.now.table address)) }
    {
        self.occupied.slots(address)
    }

    /// The reference word in a slot of the object of a chosen region that starts there.
    pub fn slot_word(&self, address: u32, slot: u32) -> u64
        requires slot { slot < length (refs_in (things_of self.now.table address)) }
        requires chosen { IsTrue (is_chosen self.now address) }
        ensures { result ≡ word_at self.now.table (slot_place self.now.table address slot) }
    {
        self.occupied.word(self.occupied.slot_place(address, slot))
    }
}
