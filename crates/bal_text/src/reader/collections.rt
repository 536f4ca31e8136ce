//! The lines of collections, read from the front of a text: a partial collection, the beginning, a step and the end of a
//! mark cycle, and a global collection.
ghost use Rattle.std.specs.Prelude.{◌≡◌, IfOk, option_map};
ghost use Rattle.bal_model.specs.Entries.{entry_of};
ghost use Rattle.bal_text.specs.Grammar.{aborts_at, begin_at, collection_at, end_at, global_at, mark_at, partial_at, scans_at};

use super::items::items_at;
use super::order::rising_at;
use super::pieces::{behind, spaced_at};
use bal_model::{Abort, Event, Items, NoMemory, PartialCollection};
use std::alloc::Global;

/// Why an evacuation was abandoned, in order, if it was: then there is one cause at least.
#[tactic(auto, unfolding(crate::specs::Grammar::aborts_at))]
fn aborts_at(alloc: Global, text: &[u8]) -> Result<Option<(Items<Abort>, &[u8])>, NoMemory>
    ensures { IfOk result (λ found. option_map (λ p. (p.0.list, p.1.now)) found ≡ aborts_at text.now) }
{
    let Some(rest) = behind(b" abort", text) else {
        return Ok(Some((Items::make(alloc)?, text)));
    };
    let Some((causes, rest)) = rising_at(alloc, rest)? else {
        return Ok(None);
    };
    if causes.is_empty() {
        return Ok(None);
    }
    Ok(Some((causes, rest)))
}

/// How many objects a partial collection scanned, and the word after it.
#[tactic(auto, unfolding(crate::specs::Grammar::scans_at))]
fn scans_at(text: &[u8]) -> Option<(u32, &[u8])>
    ensures { option_map (λ p. (p.0, p.1.now)) result ≡ scans_at text.now }
{
    let rest = behind(b" scans", text)?;
    let (scans, rest) = spaced_at(1 << 32, rest)?;
    let rest = behind(b" kept", rest)?;
    Some((scans, rest))
}

/// A partial collection's line.
#[tactic(auto, unfolding(crate::specs::Grammar::partial_at))]
fn partial_at(alloc: Global, text: &[u8]) -> Result<Option<(Event, &[u8])>, NoMemory>
    ensures { IfOk result (λ found. option_map (λ p. (entry_of p.0, p.1.now)) found ≡ partial_at text.now) }
{
    let Some(rest) = behind(b"partial chosen", text) else {
        return Ok(None);
    };
    let Some((chosen, rest)) = rising_at(alloc, rest)? else {
        return Ok(None);
    };
    let Some((scans, rest)) = scans_at(rest) else {
        return Ok(None);
    };
    let Some((kept, rest)) = rising_at(alloc, rest)? else {
        return Ok(None);
    };
    let Some((aborts, rest)) = aborts_at(alloc, rest)? else {
        return Ok(None);
    };
    let Some(rest) = behind(b"\n", rest) else {
        return Ok(None);
    };
    let did = PartialCollection {
        chosen,
        scans,
        kept,
        aborts,
    };
    Ok(Some((Event::Partial(Box::new(alloc, did)?), rest)))
}

/// The line of a mark cycle's beginning.
#[tactic(auto, unfolding(crate::specs::Grammar::begin_at))]
fn begin_at(text: &[u8]) -> Option<(Event, &[u8])>
    ensures { option_map (λ p. (entry_of p.0, p.1.now)) result ≡ begin_at text.now }
{
    let rest = behind(b"begin\n", text)?;
    Some((Event::Begin, rest))
}

/// The line of a step of a mark cycle: its names stand in any order.
#[tactic(auto, unfolding(crate::specs::Grammar::mark_at))]
fn mark_at(alloc: Global, text: &[u8]) -> Result<Option<(Event, &[u8])>, NoMemory>
    ensures { IfOk result (λ found. option_map (λ p. (entry_of p.0, p.1.now)) found ≡ mark_at text.now) }
{
    let Some(rest) = behind(b"mark", text) else {
        return Ok(None);
    };
    let (names, rest) = items_at(alloc, rest)?;
    let Some(rest) = behind(b"\n", rest) else {
        return Ok(None);
    };
    Ok(Some((Event::Mark { names }, rest)))
}

/// The line of a mark cycle's end.
#[tactic(auto, unfolding(crate::specs::Grammar::end_at))]
fn end_at(alloc: Global, text: &[u8]) -> Result<Option<(Event, &[u8])>, NoMemory>
    ensures { IfOk result (λ found. option_map (λ p. (entry_of p.0, p.1.now)) found ≡ end_at text.now) }
{
    let Some(rest) = behind(b"end dead", text) else {
        return Ok(None);
    };
    let Some((dead, rest)) = rising_at(alloc, rest)? else {
        return Ok(None);
    };
    let Some(rest) = behind(b"\n", rest) else {
        return Ok(None);
    };
    Ok(Some((Event::End { dead }, rest)))
}

/// A global collection's line: what was packed stands in any order.
#[tactic(auto, unfolding(crate::specs::Grammar::global_at))]
fn global_at(alloc: Global, text: &[u8]) -> Result<Option<(Event, &[u8])>, NoMemory>
    ensures { IfOk result (λ found. option_map (λ p. (entry_of p.0, p.1.now)) found ≡ global_at text.now) }
{
    let Some(rest) = behind(b"global dead", text) else {
        return Ok(None);
    };
    let Some((dead, rest)) = rising_at(alloc, rest)? else {
        return Ok(None);
    };
    let Some(rest) = behind(b" packed", rest) else {
        return Ok(None);
    };
    let (packed, rest) = items_at(alloc, rest)?;
    let Some(rest) = behind(b"\n", rest) else {
        return Ok(None);
    };
    Ok(Some((Event::Global { dead, packed }, rest)))
}

/// A text's first line, if it is a collection's. There are few of these, so what reads them is kept out of the way of the
/// others.
#[inline(never)]
#[tactic(auto, unfolding(crate::specs::Grammar::collection_at))]
pub fn collection_at(alloc: Global, text: &[u8]) -> Result<Option<(Event, &[u8])>, NoMemory>
    ensures { IfOk result (λ first. option_map (λ p. (entry_of p.0, p.1.now)) first ≡ collection_at text.now) }
{
    if let Some(partial) = partial_at(alloc, text)? {
        return Ok(Some(partial));
    }
    if let Some(begin) = begin_at(text) {
        return Ok(Some(begin));
    }
    if let Some(mark) = mark_at(alloc, text)? {
        return Ok(Some(mark));
    }
    if let Some(end) = end_at(alloc, text)? {
        return Ok(Some(end));
    }
    global_at(alloc, text)
}
