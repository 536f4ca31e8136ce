//! The items of lists, read from the front of a text, each word after a space.
//!
//! A list ends where no further item can be read, and what has to stand after it is looked for there. So a list is read
//! in one pass, and an empty one takes no memory. The steps that read an item are inlined, so that it goes straight from
//! the text into its list.
ghost use Rattle.std.specs.Prelude.{◌≡◌, List, ℕ, Option, IfOk, option_map};
ghost use Rattle.bal_text.specs.Grammar.{cause_at, copied_at, how_at, kept_at, packed_at, spaced_at, spaced_name_at};
ghost use Rattle.bal_text.specs.Readings.{has_some, items, items_at, only};

use super::append;
use super::pieces::{behind, number_at, spaced_at, spaced_name_at};
use bal_layout::{MOST_REGIONS, WORKERS};
use bal_model::{Abort, How, Items, Kept, Name, NoMemory, Packed};
use std::alloc::Global;

/// An item of a list.
pub trait Listed: Sized {
    /// How it is read.
    ghost reading: { List ℕ → Option (Self × List ℕ) };

    /// The item at the front of a text.
    fn take_at(text: &[u8]) -> Option<(Self, &[u8])>
        ensures { option_map (λ p. (p.0, p.1.now)) result ≡ reading text.now };
}

/// A region.
impl Listed for u32 {
    ghost reading = { spaced_at 2047 };

    #[inline(always)]
    fn take_at(text: &[u8]) -> Option<(u32, &[u8])> {
        spaced_at(u64::from(MOST_REGIONS), text)
    }
}

impl Listed for Name {
    ghost reading = { spaced_name_at };

    #[inline(always)]
    fn take_at(text: &[u8]) -> Option<(Name, &[u8])> {
        spaced_name_at(text)
    }
}

impl Listed for Kept {
    ghost reading = { kept_at };

    #[inline(always)]
    #[tactic(auto, unfolding(crate::specs::Grammar::kept_at))]
    fn take_at(text: &[u8]) -> Option<(Kept, &[u8])> {
        let (name, rest) = spaced_name_at(text)?;
        let rest = behind(b":", rest)?;
        let (how, worker, rest) = how_at(rest)?;
        Some((Kept { name, how, worker }, rest))
    }
}

impl Listed for Packed {
    ghost reading = { packed_at };

    #[inline(always)]
    #[tactic(auto, unfolding(crate::specs::Grammar::packed_at))]
    fn take_at(text: &[u8]) -> Option<(Packed, &[u8])> {
        let (name, rest) = spaced_name_at(text)?;
        let rest = behind(b">", rest)?;
        let (region, rest) = number_at(u64::from(MOST_REGIONS), rest)?;
        Some((Packed { name, region }, rest))
    }
}

impl Listed for Abort {
    ghost reading = { cause_at };

    #[inline(always)]
    #[tactic(auto, unfolding(crate::specs::Grammar::cause_at))]
    fn take_at(text: &[u8]) -> Option<(Abort, &[u8])> {
        if let Some(rest) = behind(b" drained", text) {
            return Some((Abort::Drained, rest));
        }
        let rest = behind(b" wished", text)?;
        let (worker, rest) = spaced_at(u64::from(WORKERS), rest)?;
        Some((Abort::Wished(worker), rest))
    }
}

/// A worker's copy into a region.
#[inline(always)]
fn copied_at(text: &[u8]) -> Option<(How, u32, &[u8])>
    ensures { option_map (λ p. ((p.0, p.1), p.2.now)) result ≡ copied_at text.now }
{
    let rest = behind(b"c", text)?;
    let (worker, rest) = number_at(u64::from(WORKERS), rest)?;
    let rest = behind(b">", rest)?;
    let (region, rest) = number_at(u64::from(MOST_REGIONS), rest)?;
    Some((How::Copied(region), worker, rest))
}

/// How an evacuation kept an object, and which worker did.
#[inline(always)]
#[tactic(auto, unfolding(crate::specs::Grammar::how_at))]
fn how_at(text: &[u8]) -> Option<(How, u32, &[u8])>
    ensures { option_map (λ p. ((p.0, p.1), p.2.now)) result ≡ how_at text.now }
{
    if let Some(copied) = copied_at(text) {
        return Some(copied);
    }
    let rest = behind(b"m", text)?;
    let (worker, rest) = number_at(u64::from(WORKERS), rest)?;
    Some((How::Marked, worker, rest))
}

/// As many items as stand at the front of a text.
pub fn items_at<W: Listed + Drop>(alloc: Global, text: &[u8]) -> Result<(Items<W>, &[u8]), NoMemory>
    ensures { IfOk result (λ p. (p.0.list, p.1.now) ≡ items_at W.reading text.now) }
{
    let mut items = Items::make(alloc)?;
    let mut rest = text;
    // Each item takes a byte at least, so there are no more than bytes.
    for _ in 0..text.len() {
        let Some((item, after)) = W::take_at(rest) else {
            return Ok((items, rest));
        };
        append(&mut items, item)?;
        rest = after;
    }
    Ok((items, rest))
}

/// The leaves of an arraylet, which has one at least. Few objects are arraylets, so this is kept out of the way of the
/// others.
#[inline(never)]
pub fn some_leaves_at(
    alloc: Global,
    text: &[u8],
) -> Result<Option<(Box<Items<u32>>, &[u8])>, NoMemory>
    ensures { IfOk result (λ found. option_map (λ p. (p.0.value.list, p.1.now)) found ≡ only has_some (items (spaced_at 2047)) text.now) }
{
    let (leaves, rest) = items_at(alloc, text)?;
    if leaves.is_empty() {
        return Ok(None);
    }
    Ok(Some((Box::new(alloc, leaves)?, rest)))
}
