//! The table itself: the regions with their states, and the current one.
ghost use Rattle.std.specs.Prelude.{◌≡◌, ℕ, ◌+◌, ◌<◌, ◌≤◌, ◌^◌, ◌-◌, IfOk, IfSome, MatchOption, IsTrue, [], length, map, replicate, slice_get, true, false};
ghost use Rattle.bal_layout.specs.Regions.{eden_regions, emptied, free_region, free_regions, is_free, is_object, region_at};
ghost use Rattle.bal_layout.specs.declared.region_state.Role.TheVariants.{Object};
ghost use Rattle.bal_remember.specs.Remembered.{answer_to, cards, with_card};
ghost use Rattle.bal_table.specs.Changes.{MayBeCurrent, empty_table, with_current, with_estimate, with_freed, with_remembered, with_role, without_cards_between};
ghost use Rattle.bal_table.specs.Kept.{IsLowest, counted};
ghost use Rattle.bal_table.specs.Table.{IsRole, IsTable, estimate_at, land_at, remembered_at, role_at};

use crate::reading::Readable;
use bal_base::NoMemory;
use bal_layout::{CARD_WORDS, Geometry, RegionState, Role};
use bal_region::Region;
use bal_remember::Noted;
use std::alloc::Global;
use std::marker::Model;

/// The heap's regions by number. Contracts see them as lists. That each region keeps its number and its words, that its
/// objects lie apart, that its state says how full it is, and that the current region is eden, is in the type. Memory is
/// taken by `make` alone.
#[derive(Drop)]
pub struct Table {
    pub(crate) geometry: Geometry,
    pub(crate) regions: Vec<Region>,
    pub(crate) states: Vec<RegionState>,
    pub(crate) current: Option<u32>,
    // The lowest free region, or past the end.
    pub(crate) lowest: u32,
    pub(crate) free: u32,
    pub(crate) eden: u32,
}

impl Model for Table {
    ghost use Rattle.bal_table.specs.Table as spec;

    ghost Value = { spec.Table };

    ghost use Rattle.bal_table.specs.Kept.{table_of, IsKept};

    ghost view = { table_of };

    ghost invariant = { IsKept };
}

impl Readable for Table {
    ghost table = { λ t. t };

    fn shape(&self) -> Geometry {
        self.geometry
    }

    fn land(&self, region: u32) -> &Region {
        &self.regions[region as usize]
    }
}

// So many empty regions, each with its number.
fn empty_regions(alloc: Global, geometry: Geometry) -> Result<Vec<Region>, NoMemory>
    ensures { IfOk result (λ regions. regions.items ≡ (empty_table geometry).lands) }
{
    let mut regions = Vec::with_capacity(alloc, geometry.regions() as usize)?;
    for number in 0..geometry.regions() {
        let mut region = Region::make(alloc, geometry.words())?;
        region.set_number(number);
        regions.push(region)?;
    }
    Ok(regions)
}

// So many free regions.
fn free_states(alloc: Global, geometry: Geometry) -> Result<Vec<RegionState>, NoMemory>
    ensures { IfOk result (λ states. states.items ≡ replicate geometry.regions free_region) }
{
    let mut states = Vec::with_capacity(alloc, geometry.regions() as usize)?;
    for _ in 0..geometry.regions() {
        states.push(RegionState::make(alloc)?)?;
    }
    Ok(states)
}

// The lowest free region from a number on, below which none is free.
fn lowest_free(states: &[RegionState], from: u32) -> u32
    requires few { length states.now < 2 ^ 32 }
    requires within { from ≤ length states.now }
    requires below { (q : ℕ) → q < from → is_free (region_at states.now q).role ≡ false }
    ensures { IsLowest states.now result }
{
    let mut region = from as usize;
    while region < states.len() && !states[region].role.is_free() {
        region += 1;
    }
    region as u32
}

impl Table {
    /// Free regions alone.
    pub fn make(alloc: Global, geometry: Geometry) -> Result<Table, NoMemory>
        ensures { IfOk result (λ table. table ≡ empty_table geometry) }
    {
        let regions = geometry.regions();
        Ok(Table {
            geometry,
            regions: empty_regions(alloc, geometry)?,
            states: free_states(alloc, geometry)?,
            current: None,
            lowest: 0,
            free: regions,
            eden: 0,
        })
    }

    /// How many regions there are, and how many words each has.
    pub fn geometry(&self) -> Geometry
        ensures shape { result ≡ self.now.shape }
        ensures limits { IsTable self.now }
    {
        self.geometry
    }

    /// What a region is used for.
    pub fn role(&self, region: u32) -> Role
        requires { region < self.now.shape.regions }
        ensures { result ≡ role_at self.now region }
    {
        self.states[region as usize].role
    }

    /// The region that takes new objects, if there is one.
    pub fn current(&self) -> Option<u32>
        ensures current { result ≡ self.now.current }
        ensures within { IfSome result (λ q. q < self.now.shape.regions) }
        ensures limits { IsTable self.now }
    {
        self.current
    }

    /// Another region, which is eden, takes new objects, or none does.
    pub fn set_current(&mut self, region: Option<u32>)
        requires { IfSome region (MayBeCurrent self.old) }
        ensures { self.new ≡ with_current self.old region }
    {
        self.current = region;
    }

    /// How many words of a region are thought to be alive.
    pub fn estimate(&self, region: u32) -> u32
        requires { region < self.now.shape.regions }
        ensures { result ≡ estimate_at self.now region }
    {
        self.states[region as usize].estimate
    }

    /// So many words of a region are thought to be alive.
    pub fn set_estimate(&mut self, region: u32, words: u32)
        requires within { region < self.old.shape.regions }
        requires given_out { words ≤ (land_at self.old region).used }
        ensures { self.new ≡ with_estimate self.old region words }
    {
        self.states[region as usize].estimate = words;
    }

    /// What is known of a region beside its words.
    pub fn state(&self, region: u32) -> &RegionState
        requires { region < self.now.shape.regions }
        ensures { result.now ≡ region_at self.now.regions region }
    {
        &self.states[region as usize]
    }

    /// The region of this number.
    pub fn region(&self, region: u32) -> &Region
        requires { region < self.now.shape.regions }
        ensures { result.now ≡ land_at self.now region }
    {
        &self.regions[region as usize]
    }
}

impl Table {
    /// A region's objects have another age. The current region stays eden.
    pub fn set_age(&mut self, region: u32, age: u8)
        requires within { region < self.old.shape.regions }
        requires objects { is_object (role_at self.old region) ≡ true }
        requires age { age ≤ 24 }
        requires current { self.old.current ≡ Some region → age ≡ 0 }
        ensures { self.new ≡ with_role self.old region (Object age) }
    {
        self.set_role(region, Role::Object { age });
    }

    /// How many regions are free.
    pub fn free_count(&self) -> u32
        ensures count { result ≡ length (free_regions self.now.regions) }
        ensures limits { IsTable self.now }
    {
        self.free
    }

    /// How many regions are eden.
    pub fn eden_count(&self) -> u32
        ensures count { result ≡ length (eden_regions self.now.regions) }
        ensures limits { IsTable self.now }
    {
        self.eden
    }

    /// The lowest free region, or None if no region is free.
    pub fn lowest_free(&self) -> Option<u32>
        ensures lowest { result ≡ slice_get (free_regions self.now.regions) 0 }
        ensures within { IfSome result (λ q. q < self.now.shape.regions) }
        ensures free { IfSome result (λ q. is_free (role_at self.now q) ≡ true) }
    {
        if self.lowest as usize >= self.states.len() {
            return None;
        }
        Some(self.lowest)
    }

    /// Gives the lowest free region a role, and answers its number: None exactly if no region is free.
    pub fn take_free(&mut self, role: Role) -> Option<u32>
        requires { IsRole role }
        ensures lowest { result ≡ slice_get (free_regions self.old.regions) 0 }
        ensures table { MatchOption result (self.new ≡ self.old) (λ q. self.new ≡ with_role self.old q role) }
        ensures taken { IfSome result (λ q. (q < self.new.shape.regions) × (role_at self.new q ≡ role)) }
    {
        let _ = &self.geometry;
        let region = self.lowest_free()?;
        self.set_role(region, role);
        Some(region)
    }

    /// Makes a region free and empty: nothing is remembered of it, and its own cards leave all lists. It is not the current
    /// one.
    pub fn give_back(&mut self, region: u32)
        requires within { region < self.old.shape.regions }
        requires current { self.old.current ≡ Some region → ⊥ }
        ensures { self.new ≡ with_freed self.old region }
    {
        let cards = self.geometry.words() / CARD_WORDS;
        self.regions[region as usize].reset();
        self.states[region as usize].empty();
        self.set_role(region, Role::Free);
        forget_cards(&mut self.states, region * cards, (region + 1) * cards);
    }

    /// Notes that references into a region of objects lie on a card. The region's list may hold so many cards, and overflows
    /// at one more.
    pub fn note(&mut self, region: u32, card: u32, limit: u32) -> Noted
        requires within { region < self.old.shape.regions }
        requires objects { is_object (role_at self.old region) ≡ true }
        requires limit { limit ≤ 1024 }
        ensures answer { result ≡ answer_to limit card (remembered_at self.old region) }
        ensures table { self.new ≡ with_remembered self.old region (with_card limit card (remembered_at self.old region)) }
    {
        self.states[region as usize].remembered.note(card, limit)
    }

    /// A region's list has no card any more, and has not overflowed.
    pub fn empty_list(&mut self, region: u32)
        requires { region < self.old.shape.regions }
        ensures { self.new ≡ with_remembered self.old region (cards []) }
    {
        self.states[region as usize].remembered.clear();
    }

    // A region is used for something else. The current one is eden, without objects it is empty, and of a free one nothing
    // is remembered.
    fn set_role(&mut self, region: u32, role: Role)
        requires within { region < self.old.shape.regions }
        requires role { IsRole role }
        requires current { self.old.current ≡ Some region → role ≡ Object 0 }
        requires empty { is_object role ≡ false → (region_at self.old.regions region).used ≡ 0 }
        requires free { is_free role ≡ true → emptied (region_at self.old.regions region) ≡ region_at self.old.regions region }
        ensures { self.new ≡ with_role self.old region role }
    {
        let before = self.states[region as usize].role;
        self.states[region as usize].role = role;
        self.free = recounted(self.free, before.is_free(), role.is_free());
        self.eden = recounted(self.eden, before.is_eden(), role.is_eden());
        self.lowest = lowest_after(&self.states, self.lowest, region);
    }
}

// Takes the cards from one up to another out of all lists.
fn forget_cards(states: &mut Vec<RegionState>, from: u32, to: u32)
    ensures { states.new.items ≡ map (without_cards_between from to) states.old.items }
{
    for state in states.iter_mut() {
        state.remembered.remove_between(from, to);
    }
}

// How many there are of a sort when one of them was counted, or was not, and now is, or is not.
pub(crate) fn recounted(count: u32, before: bool, now: bool) -> u32
    requires less { IsTrue before → 0 < count }
    requires more { IsTrue now → count < 2 ^ 32 - 1 }
    ensures { result + counted before ≡ count + counted now }
{
    match (before, now) {
        (true, false) => count - 1,
        (false, true) => count + 1,
        _ => count,
    }
}

// The lowest free region when one region's role is another, and the lowest one was this before.
pub(crate) fn lowest_after(states: &[RegionState], lowest: u32, region: u32) -> u32
    requires few { length states.now < 2 ^ 32 }
    requires within { lowest ≤ length states.now }
    requires region { region < length states.now }
    requires below { (q : ℕ) → q < lowest → (q ≡ region → ⊥) → is_free (region_at states.now q).role ≡ false }
    requires free { lowest < length states.now → (lowest ≡ region → ⊥) → is_free (region_at states.now lowest).role ≡ true }
    ensures { IsLowest states.now result }
{
    if region >= lowest {
        return lowest_free(states, lowest);
    }
    if states[region as usize].role.is_free() {
        region
    } else {
        lowest
    }
}
