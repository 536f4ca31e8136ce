//! The region: words, where objects start in them, and how many words were given out.
ghost use Rattle.std.specs.Prelude.{◌≡◌, ◌+◌, ◌<◌, ◌≤◌, ◌↔◌, ◌^◌, ℕ, IfOk, IfSome, IsTrue, Some, length, slice_index, vec_capacity};
ghost use Rattle.bal_base.specs.Filling.{padded};
ghost use Rattle.bal_layout.specs.Header as spec;
ghost use Rattle.bal_region.specs.Changes.{MaySlide, blank_words, cut_short, empty_land, overwrite, with_number, with_object, with_slid, with_word, without};
ghost use Rattle.bal_region.specs.Land.{IsBehindHeaders, IsLand, IsObject, first_from, header_at, holder_of, object_at, size_by, starts_at};

use bal_base::{Bits, NoMemory, grow};
use bal_layout::{Header, Kind, read_header};
use std::alloc::Global;
use std::marker::Model;

/// A region of the heap. Contracts see its words, the offsets of its objects in ascending order, and how many words were
/// given out; that the objects lie in those words, each after the one before, is in the type. Memory is taken by `make`
/// alone.
#[derive(Drop)]
pub struct Region {
    number: u32,
    room: u32,
    // As far as they were written: the rest are zeros, and take no time before they are needed.
    words: Vec<u64>,
    starts: Bits,
    used: u32,
}

impl Model for Region {
    ghost use Rattle.bal_region.specs.Land.{Land};

    ghost Value = { Land };

    ghost use Rattle.bal_region.specs.Region.{land_of, IsRegion};

    ghost view = { land_of };

    ghost invariant = { IsRegion };
}

impl Region {
    /// An empty region of so many words, with the number 0.
    pub fn make(alloc: Global, words: u32) -> Result<Region, NoMemory>
        ensures { IfOk result (λ region. region ≡ empty_land 0 words) }
    {
        Ok(Region {
            number: 0,
            room: words,
            words: Vec::with_capacity(alloc, words as usize)?,
            starts: Bits::make(alloc, words)?,
            used: 0,
        })
    }

    /// A region without words, with a number. This takes no memory: it stands in the place of a region that is elsewhere.
    pub fn hollow(alloc: Global, number: u32) -> Region
        ensures { result ≡ empty_land number 0 }
    {
        Region {
            number,
            room: 0,
            words: Vec::new(alloc),
            starts: Bits::none(alloc),
            used: 0,
        }
    }

    /// Which region it is.
    pub fn number(&self) -> u32
        ensures { result ≡ self.now.number }
    {
        self.number
    }

    /// It has another number.
    pub fn set_number(&mut self, number: u32)
        ensures { self.new ≡ with_number self.old number }
    {
        self.number = number;
    }

    /// How many words it has.
    pub fn words(&self) -> u32
        ensures number { result ≡ length self.now.words }
        ensures limits { IsLand self.now }
    {
        self.room
    }

    /// How many words were given out.
    pub fn used(&self) -> u32
        ensures number { result ≡ self.now.used }
        ensures limits { IsLand self.now }
    {
        self.used
    }

    /// Whether so many words more can be given out.
    pub fn fits(&self, words: u32) -> bool
        ensures { IsTrue result ↔ (self.now.used + words ≤ length self.now.words) }
    {
        words <= self.room - self.used
    }

    /// The word at an offset, or zero past the end.
    pub fn word(&self, offset: u32) -> u64
        ensures { result ≡ slice_index self.now.words offset }
    {
        self.words.get(offset as usize).copied().unwrap_or(0)
    }
}

impl Region {
    /// Appends an object, and answers where.
    pub fn place(&mut self, words: &[u64]) -> u32
        requires fits { self.old.used + length words.now ≤ length self.old.words }
        requires object { IsObject (length self.old.words) words.now }
        ensures at { result ≡ self.old.used }
        ensures land { self.new ≡ with_object self.old words.now }
    {
        let at = self.used;
        grow(&mut self.words, at as usize + words.len(), 0);
        write_at(&mut self.words, at as usize, words);
        self.starts.insert(at);
        self.used = at + words.len() as u32;
        at
    }

    /// Appends an object of so many words, of which all but the first two are zero, and answers where.
    pub fn place_new(&mut self, first: u64, second: u64, words: u32) -> u32
        requires two { 2 ≤ words }
        requires fits { self.old.used + words ≤ length self.old.words }
        requires object { IsObject (length self.old.words) (blank_words first second words) }
        ensures at { result ≡ self.old.used }
        ensures land { self.new ≡ with_object self.old (blank_words first second words) }
    {
        let at = self.used;
        write_blank(&mut self.words, at as usize, first, second, words as usize);
        self.starts.insert(at);
        self.used = at + words;
        at
    }

    /// The words of the object that starts there.
    pub fn object(&self, offset: u32) -> &[u64]
        requires { IsTrue (starts_at self.now offset) }
        ensures words { object_at self.now offset ≡ Some result.now }
        ensures is { IsObject (length self.now.words) result.now }
        ensures within { offset + length result.now ≤ self.now.used }
    {
        let at = offset as usize;
        let size = size_of(&self.words, self.room, at) as usize;
        &self.words[at..at + size]
    }

    /// Another word at an offset at which no object has its header or its name.
    pub fn set_word(&mut self, offset: u32, value: u64)
        requires within { offset < length self.old.words }
        requires behind { IsBehindHeaders self.old offset }
        ensures { self.new ≡ with_word self.old offset value }
    {
        grow(&mut self.words, offset as usize + 1, 0);
        self.words[offset as usize] = value;
    }
}

impl Region {
    /// The least start from an offset on.
    pub fn first_from(&self, offset: u32) -> Option<u32>
        ensures least { result ≡ first_from self.now offset }
        ensures start { IfSome result (λ s. IsTrue (starts_at self.now s)) }
        ensures behind { IfSome result (λ s. offset ≤ s) }
    {
        self.starts.next_from(offset)
    }

    /// Where the object starts that has a word at this offset.
    pub fn holder_of(&self, offset: u32) -> Option<u32>
        ensures holder { result ≡ holder_of self.now offset }
        ensures start { IfSome result (λ s. IsTrue (starts_at self.now s)) }
        ensures before { IfSome result (λ s. s ≤ offset) }
    {
        let start = self.starts.last_to(offset)?;
        if u64::from(offset - start) >= size_of(&self.words, self.room, start as usize) {
            return None;
        }
        Some(start)
    }

    /// Takes away the object that starts there. Its words stay given out.
    pub fn remove(&mut self, offset: u32)
        requires { IsTrue (starts_at self.old offset) }
        ensures { self.new ≡ without self.old offset }
    {
        self.starts.remove(offset);
    }

    /// Moves the object that starts there to a lower offset, or leaves it where it is. The words that it leaves stay as they
    /// were.
    pub fn slide(&mut self, from: u32, to: u32)
        requires { MaySlide self.old from to }
        ensures { self.new ≡ with_slid self.old from to }
    {
        let at = from as usize;
        let size = size_of(&self.words, self.room, at) as usize;
        self.words.copy_within(at..at + size, to as usize);
        self.starts.remove(from);
        self.starts.insert(to);
    }

    /// Only the words up to the end of the last object stay given out, or none where there is no object.
    pub fn cut(&mut self)
        ensures { self.new ≡ cut_short self.old }
    {
        self.used = match self.starts.last_to(self.used) {
            Some(start) => start + size_of(&self.words, self.room, start as usize) as u32,
            None => 0,
        };
    }

    /// No object is left, and each word is zero.
    pub fn reset(&mut self)
        ensures { self.new ≡ empty_land self.old.number (length self.old.words) }
    {
        self.words.clear();
        self.starts.clear();
        self.used = 0;
    }
}

// Words are written from an offset on.
fn write_at(words: &mut [u64], at: usize, others: &[u64])
    requires { at + length others.now ≤ length words.old }
    ensures { words.new ≡ overwrite words.old at others.now }
{
    words[at..at + others.len()].copy_from_slice(others);
}

// The words of a new object are written from an offset on. What `grow` writes is zero already.
fn write_blank(words: &mut Vec<u64>, at: usize, first: u64, second: u64, size: usize)
    requires two { 2 ≤ size }
    requires within { at + size ≤ vec_capacity words.old }
    ensures words { words.new.items ≡ overwrite (padded (at + size) words.old.items) at (blank_words first second size) }
    ensures capacity { vec_capacity words.old ≤ vec_capacity words.new }
{
    let written = words.len();
    grow(words, at + size, 0);
    words[at] = first;
    words[at + 1] = second;
    for i in at + 2..written.min(at + size) {
        words[i] = 0;
    }
}

// How many words the object takes that starts at an offset, in a region of so many words.
fn size_of(words: &[u64], room: u32, at: usize) -> u64
    requires within { at + 1 < length words.now }
    requires held { length words.now ≤ room }
    ensures { result ≡ size_by room (header_at words.now at) }
{
    let Some(header) = read_header(words[at], words[at + 1]) else {
        return 0;
    };
    size_in(u64::from(room), &header)
}

// How many words an object with this header takes, if a region has so many.
fn size_in(room: u64, header: &Header) -> u64
    requires some { 0 < room }
    requires few { room < 2 ^ 32 }
    ensures { result ≡ spec.size_in room header.now }
{
    let refs = u64::from(header.refs);
    match header.kind {
        Kind::Spine => 2 + (refs + room - 1) / room,
        Kind::Plain | Kind::Array => 2 + refs + u64::from(header.values),
    }
}
