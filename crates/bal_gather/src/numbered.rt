//! The objects of the chosen regions by number.
//!
//! 1. The regions are visited in ascending order, and in each chosen one its objects.
//! 2. Each object gets the next number. It is written where the object starts, and its address is listed.
ghost use Rattle.std.specs.Prelude.{◌≡◌, ℕ, ◌+◌, ◌*◌, ◌<◌, [], IfOk, IsTrue, OnOk, length, map, slice_index_or};
ghost use Rattle.bal_layout.specs.Addresses.{address_in};
ghost use Rattle.bal_layout.specs.References.{word_for};
ghost use Rattle.bal_layout.specs.Regions.{is_in};
ghost use Rattle.bal_gather.specs.Kept.{TellNumbers};
ghost use Rattle.bal_gather.specs.Numbers.{number_of, starts_below, starts_of};

use crate::Chosen;
use bal_base::NoMemory;
use std::alloc::Global;
use std::marker::Model;

/// The objects of the chosen regions, numbered from 0 in the order of their addresses. Contracts see the heap, and which
/// regions were chosen: the numbers follow from these. An object's number is found in two steps, however many there are.
/// Memory is taken by `make` alone.
#[derive(Drop)]
pub struct Numbered<'a> {
    chosen: Chosen<'a>,
    // Where each object starts, by its number.
    addresses: Vec<u32>,
    // By region and offset there, one more than the number of the object that starts there, and 0 if none does. A region
    // that was not chosen has none.
    numbers: Vec<Vec<u32>>,
}

impl<'a> Model for Numbered<'a> {
    ghost use Rattle.bal_gather.specs.Lent.{Lent};

    ghost Value = { Lent };

    ghost use Rattle.bal_gather.specs.Kept.{AreNumbered};

    ghost view = { λ n. n.chosen };

    ghost invariant = { AreNumbered };
}

impl<'a> Numbered<'a> {
    /// Numbers the objects of the chosen regions.
    pub fn make(alloc: Global, chosen: Chosen<'a>) -> Result<Numbered<'a>, NoMemory>
        ensures { IfOk result (λ numbered. numbered ≡ chosen.entry) }
    {
        let regions = chosen.geometry().regions();
        let mut addresses = Vec::new(alloc);
        let numbers = number_all(alloc, &chosen, regions, &mut addresses)?;
        Ok(Numbered {
            chosen,
            addresses,
            numbers,
        })
    }

    /// The chosen regions.
    pub fn chosen(&self) -> &Chosen<'a>
        ensures { result.now ≡ self.now }
    {
        &self.chosen
    }

    /// Where the objects start, by number.
    pub fn addresses(&self) -> &[u32]
        ensures { result.now ≡ starts_of self.now }
    {
        self.addresses.as_slice()
    }

    /// The number of the object that starts there: None exactly if no object of a chosen region does. The address may be any
    /// number.
    pub fn number_at(&self, address: u32) -> Option<u32>
        ensures { result ≡ number_of self.now address }
    {
        let geometry = self.chosen.geometry();
        if address >= geometry.regions() * geometry.words() {
            return None;
        }
        let numbers = &self.numbers[geometry.region_of(address) as usize];
        number_in(numbers, geometry.offset_of(address))
    }
}

// The number that stands at an offset, if one does.
fn number_in(numbers: &[u32], offset: u32) -> Option<u32>
    ensures { word_for result ≡ slice_index_or numbers.now offset 0 }
{
    let number = numbers.get(offset as usize).copied().unwrap_or(0);
    number.checked_sub(1)
}

// Numbers the objects of all regions.
fn number_all(
    alloc: Global,
    chosen: &Chosen<'_>,
    regions: u32,
    addresses: &mut Vec<u32>,
) -> Result<Vec<Vec<u32>>, NoMemory>
    requires regions { regions ≡ chosen.now.table.shape.regions }
    requires none { addresses.old.items ≡ [] }
    ensures addresses { OnOk result (addresses.new.items ≡ starts_of chosen.now) }
    ensures regions { IfOk result (λ numbers. length numbers.items ≡ regions) }
    ensures numbers { IfOk result (λ numbers. TellNumbers chosen.now (map (λ v. v.items) numbers.items) regions) }
{
    let mut numbers = Vec::with_capacity(alloc, regions as usize)?;
    for region in 0..regions {
        numbers.push(number_region(alloc, chosen, region, addresses)?)?;
    }
    Ok(numbers)
}

// Numbers the objects of a region, if it was chosen, when those of all lower ones were numbered.
fn number_region(
    alloc: Global,
    chosen: &Chosen<'_>,
    region: u32,
    addresses: &mut Vec<u32>,
) -> Result<Vec<u32>, NoMemory>
    requires within { region < chosen.now.table.shape.regions }
    requires before { addresses.old.items ≡ starts_below chosen.now (region * chosen.now.table.shape.words) }
    ensures addresses { OnOk result (addresses.new.items ≡ starts_below chosen.now ((region + 1) * chosen.now.table.shape.words)) }
    ensures numbers { IfOk result (λ numbers. (offset : ℕ) → offset < chosen.now.table.shape.words
        → slice_index_or numbers.items offset 0 ≡ word_for (number_of chosen.now (address_in chosen.now.table.shape region offset))) }
{
    let geometry = chosen.geometry();
    if chosen.holds(geometry.address(region, 0)) {
        number_chosen(alloc, chosen, region, addresses)
    } else {
        Ok(Vec::new(alloc))
    }
}

// Numbers the objects of a chosen region.
fn number_chosen(
    alloc: Global,
    chosen: &Chosen<'_>,
    region: u32,
    addresses: &mut Vec<u32>,
) -> Result<Vec<u32>, NoMemory>
    requires chosen { IsTrue (is_in region chosen.now.regions) }
    requires before { addresses.old.items ≡ starts_below chosen.now (region * chosen.now.table.shape.words) }
    ensures addresses { OnOk result (addresses.new.items ≡ starts_below chosen.now ((region + 1) * chosen.now.table.shape.words)) }
    ensures numbers { IfOk result (λ numbers. (offset : ℕ) → offset < chosen.now.table.shape.words
        → slice_index_or numbers.items offset 0 ≡ word_for (number_of chosen.now (address_in chosen.now.table.shape region offset))) }
{
    let geometry = chosen.geometry();
    let mut numbers = vec![in alloc; 0; geometry.words() as usize]?;
    let mut at = 0;
    while let Some(offset) = chosen.region(region).first_from(at) {
        addresses.push(geometry.address(region, offset))?;
        numbers[offset as usize] = addresses.len() as u32;
        at = offset + 1;
    }
    Ok(numbers)
}
