//! How large the heap is, and what an object asks of it.
ghost use Rattle.std.specs.Prelude.{◌≡◌, ℕ, ◌<◌, MatchResult};

use crate::limits::{
    CARD_WORDS, FEWEST_REGIONS, FEWEST_WORDS, HEAP_WORDS, MOST_REGIONS, MOST_WORDS, PARTS, SLOTS,
};
use std::marker::Model;

/// Why two numbers are no geometry.
#[derive(Clone, Copy, Debug, PartialEq, Eq)]
pub enum GeometryFault {
    /// The regions are fewer than 4 or more than 2047.
    RegionsRange,
    /// The words of a region are fewer than 256 or more than 65,536.
    WordsRange,
    /// The words of a region are no power of two.
    WordsPower,
    /// The regions have more than 2^24 words together.
    TooLarge,
}

/// What an object asks of the heap: words in one region, and whole regions beside it, as leaves.
#[derive(Clone, Copy, PartialEq, Eq)]
pub struct Want {
    pub words: u32,
    pub leaves: u32,
}

/// How many regions the heap has, 4 to 2047, and how many words of 8 bytes each, a power of two from 256 to 65,536.
/// Together they are at most 2^24 words.
#[derive(Clone, Copy, PartialEq, Eq)]
pub struct Geometry {
    regions: u32,
    words: u32,
}

impl Model for Geometry {
    ghost use Rattle.bal_layout.specs.Shape.{Shape, IsShape};

    ghost Value = { Shape };

    ghost view = { λ g. record { regions = g.regions; words = g.words } };

    ghost invariant = { λ g. IsShape (record { regions = g.regions; words = g.words }) };

    ghost inverse = { λ s. record { regions = s.regions; words = s.words } };
}

impl Geometry {
    ghost use Rattle.bal_layout.specs.Geometry.{fault_of};
    ghost use Rattle.bal_layout.specs.Shape.{IsShape, largest_of};

    /// The geometry of these numbers, or the first thing that is wrong with them.
    pub fn new(regions: u64, words: u64) -> Result<Geometry, GeometryFault>
        ensures { MatchResult result
            (λ g. (fault_of regions words ≡ None) × (g ≡ record { regions = regions; words = words }))
            (λ fault. fault_of regions words ≡ Some fault) }
    {
        if !(u64::from(FEWEST_REGIONS)..=u64::from(MOST_REGIONS)).contains(&regions) {
            return Err(GeometryFault::RegionsRange);
        }
        if !(u64::from(FEWEST_WORDS)..=u64::from(MOST_WORDS)).contains(&words) {
            return Err(GeometryFault::WordsRange);
        }
        if ![256, 512, 1024, 2048, 4096, 8192, 16384, 32768, 65536].contains(&words) {
            return Err(GeometryFault::WordsPower);
        }
        if regions * words > u64::from(HEAP_WORDS) {
            return Err(GeometryFault::TooLarge);
        }
        Ok(Geometry {
            regions: regions as u32,
            words: words as u32,
        })
    }

    /// How many regions there are.
    pub fn regions(&self) -> u32
        ensures number { result ≡ self.now.regions }
        ensures limits { IsShape self.now }
    {
        self.regions
    }

    /// How many words a region has.
    pub fn words(&self) -> u32
        ensures number { result ≡ self.now.words }
        ensures limits { IsShape self.now }
    {
        self.words
    }

    /// The words of the largest object that lies in one piece: an eighth of a region.
    pub fn largest(&self) -> u32
        ensures { result ≡ largest_of self.now }
    {
        self.words / PARTS
    }
}

impl Geometry {
    ghost use Rattle.bal_layout.specs.Addresses.{IsAddress, address_in, card_of, cards_of, offset_of, region_of};

    /// The address of a word by its region and its place there.
    pub fn address(&self, region: u32, offset: u32) -> u32
        requires region { region < self.now.regions }
        requires offset { offset < self.now.words }
        ensures address { result ≡ address_in self.now region offset }
        ensures within { IsAddress self.now result }
    {
        region * self.words + offset
    }

    /// The region in which an address lies.
    pub fn region_of(&self, address: u32) -> u32
        requires { IsAddress self.now address }
        ensures region { result ≡ region_of self.now address }
        ensures within { result < self.now.regions }
    {
        // The words of a region are a power of two.
        address >> self.words.trailing_zeros()
    }

    /// The place in its region of an address.
    pub fn offset_of(&self, address: u32) -> u32
        requires { IsAddress self.now address }
        ensures offset { result ≡ offset_of self.now address }
        ensures within { result < self.now.words }
    {
        address & (self.words - 1)
    }

    /// The card on which an address lies.
    pub fn card_of(&self, address: u32) -> u32
        requires { IsAddress self.now address }
        ensures card { result ≡ card_of address }
        ensures within { result < cards_of self.now }
    {
        let _ = &self.words;
        address / CARD_WORDS
    }
}

ghost use Rattle.bal_layout.specs.Geometry.{want_of_plain};
ghost use Rattle.bal_layout.specs.Sizes.{charge_of, want_of_array};

/// What a plain object with so many references and values asks for: None exactly if it is too big.
pub fn want_new(geometry: &Geometry, refs: u64, values: u64) -> Option<Want>
    ensures { result ≡ want_of_plain geometry.now refs values }
{
    let largest = u64::from(geometry.largest());
    if refs > largest || values > largest || 2 + refs + values > largest {
        return None;
    }
    Some(Want {
        words: (2 + refs + values) as u32,
        leaves: 0,
    })
}

/// What an array of so many slots asks for: None exactly if its slots are too many, or its spine would be too big.
pub fn want_arr(geometry: &Geometry, len: u64) -> Option<Want>
    ensures { result ≡ want_of_array geometry.now len }
{
    if len >= u64::from(SLOTS) {
        return None;
    }
    let largest = u64::from(geometry.largest());
    if 2 + len <= largest {
        return Some(Want {
            words: (2 + len) as u32,
            leaves: 0,
        });
    }
    let region = u64::from(geometry.words());
    let leaves = (len + region - 1) / region;
    if 2 + leaves > largest {
        return None;
    }
    Some(Want {
        words: (2 + leaves) as u32,
        leaves: leaves as u32,
    })
}

/// How many words an object takes of the heap, its leaves included. Of a want that `want_new` or `want_arr` answered, and
/// of any other, the sum fits.
pub fn charge(geometry: &Geometry, want: &Want) -> u64
    ensures { result ≡ charge_of geometry.now want.now }
{
    u64::from(want.words) + u64::from(geometry.words()) * u64::from(want.leaves)
}
