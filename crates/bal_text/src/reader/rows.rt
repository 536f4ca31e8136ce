//! Rows and notes, which are most lines of a journal, read from the front of a text.
ghost use Rattle.std.specs.Prelude.{◌≡◌, ◌<◌, ◌∷◌, [], IfOk, nat_lt, option_map};
ghost use Rattle.bal_model.specs.Entries.{entry_of};
ghost use Rattle.bal_model.specs.Spelling.{op_of};
ghost use Rattle.bal_text.specs.Grammar.{front_at, note_at, op_at, op_from, row_at, spaced_at, third_limit, word_at};

use super::answers::answer_at;
use super::pieces::{behind, spaced_at, spaced_name_at, value_at};
use bal_layout::{CARDS, MOST_REGIONS};
use bal_model::{Event, NoMemory, Op, Word};
use std::alloc::Global;

/// The word of an operation, after a space.
#[inline(always)]
#[tactic(auto, unfolding(crate::specs::Grammar::word_at))]
fn word_at(text: &[u8]) -> Option<(Word, &[u8])>
    ensures { option_map (λ p. (p.0, p.1.now)) result ≡ word_at text.now }
{
    if let Some(rest) = behind(b" load", text) {
        return Some((Word::Load, rest));
    }
    if let Some(rest) = behind(b" store", text) {
        return Some((Word::Store, rest));
    }
    if let Some(rest) = behind(b" new", text) {
        return Some((Word::New, rest));
    }
    if let Some(rest) = behind(b" drop", text) {
        return Some((Word::Drop, rest));
    }
    if let Some(rest) = behind(b" arr", text) {
        return Some((Word::Arr, rest));
    }
    if let Some(rest) = behind(b" get", text) {
        return Some((Word::Get, rest));
    }
    if let Some(rest) = behind(b" put", text) {
        return Some((Word::Put, rest));
    }
    if let Some(rest) = behind(b" gload", text) {
        return Some((Word::GLoad, rest));
    }
    if let Some(rest) = behind(b" gstore", text) {
        return Some((Word::GStore, rest));
    }
    let rest = behind(b" gc", text)?;
    Some((Word::Gc, rest))
}

/// The operation of a word with two numbers.
#[inline(always)]
fn with_two(word: Word, first: u32, second: u32) -> Option<Op>
    ensures { result ≡ op_of word (first ∷ second ∷ []) }
{
    match word {
        Word::Arr => Some(Op::Arr {
            register: first,
            len: second,
        }),
        Word::Get => Some(Op::Get {
            holder: first,
            slot: second,
        }),
        Word::GStore => Some(Op::GStore {
            global: first,
            register: second,
        }),
        Word::GLoad => Some(Op::GLoad {
            into: first,
            global: second,
        }),
        _ => None,
    }
}

/// Whether a third number is below its limit: the value of a put may have 64 bits, and any other has 32.
#[inline(always)]
fn fits_third(word: Word, third: u64) -> bool
    ensures { result ≡ nat_lt third (third_limit word) }
{
    matches!(word, Word::Put) || third < 1 << 32
}

/// A third number, after a space.
#[inline(always)]
fn third_at(word: Word, text: &[u8]) -> Option<(u64, &[u8])>
    ensures { option_map (λ p. (p.0, p.1.now)) result ≡ spaced_at (third_limit word) text.now }
{
    let rest = behind(b" ", text)?;
    let (third, rest) = value_at(rest)?;
    if !fits_third(word, third) {
        return None;
    }
    Some((third, rest))
}

/// The operation of a word with three numbers.
#[inline(always)]
fn with_three(word: Word, first: u32, second: u32, third: u64) -> Option<Op>
    requires { third < third_limit word }
    ensures { result ≡ op_of word (first ∷ second ∷ third ∷ []) }
{
    match word {
        Word::New => Some(Op::New {
            register: first,
            refs: second,
            values: third as u32,
        }),
        Word::Store => Some(Op::Store {
            holder: first,
            slot: second,
            value: third as u32,
        }),
        Word::Load => Some(Op::Load {
            into: first,
            holder: second,
            slot: third as u32,
        }),
        Word::Put => Some(Op::Put {
            holder: first,
            slot: second,
            number: third,
        }),
        _ => None,
    }
}

/// The operation of a word, with the numbers after it. The word says how many there are, and each of them is read in one
/// place for all words: so there is little code, and all of it stays inlined.
#[inline(always)]
fn op_from(word: Word, text: &[u8]) -> Option<(Op, &[u8])>
    ensures { option_map (λ p. (p.0, p.1.now)) result ≡ op_from word text.now }
{
    if let Word::Gc = word {
        return Some((Op::Gc, text));
    }
    let (first, rest) = spaced_at(1 << 32, text)?;
    if let Word::Drop = word {
        return Some((Op::Drop { register: first }, rest));
    }
    let (second, rest) = spaced_at(1 << 32, rest)?;
    if let Some(op) = with_two(word, first, second) {
        return Some((op, rest));
    }
    let (third, rest) = third_at(word, rest)?;
    let op = with_three(word, first, second, third)?;
    Some((op, rest))
}

/// What a row does, after a space.
#[inline(always)]
#[tactic(auto, unfolding(crate::specs::Grammar::op_at))]
fn op_at(text: &[u8]) -> Option<(Op, &[u8])>
    ensures { option_map (λ p. (p.0, p.1.now)) result ≡ op_at text.now }
{
    let (word, rest) = word_at(text)?;
    op_from(word, rest)
}

/// A row up to its answer: its thread and number, and what it does.
#[inline(always)]
#[tactic(auto, unfolding(crate::specs::Grammar::front_at))]
fn front_at(text: &[u8]) -> Option<(u32, u32, Op, &[u8])>
    ensures { option_map (λ p. ((p.0, (p.1, p.2)), p.3.now)) result ≡ front_at text.now }
{
    let rest = behind(b"row", text)?;
    let (thread, rest) = spaced_at(1 << 32, rest)?;
    let (number, rest) = spaced_at(1 << 32, rest)?;
    let (op, rest) = op_at(rest)?;
    let rest = behind(b" = ", rest)?;
    Some((thread, number, op, rest))
}

/// A row's line.
#[inline(always)]
#[tactic(auto, unfolding(crate::specs::Grammar::row_at))]
pub fn row_at(alloc: Global, text: &[u8]) -> Result<Option<(Event, &[u8])>, NoMemory>
    ensures { IfOk result (λ row. option_map (λ p. (entry_of p.0, p.1.now)) row ≡ row_at text.now) }
{
    let Some((thread, number, op, rest)) = front_at(text) else {
        return Ok(None);
    };
    let Some((answer, rest)) = answer_at(alloc, &op, rest)? else {
        return Ok(None);
    };
    let Some(rest) = behind(b"\n", rest) else {
        return Ok(None);
    };
    Ok(Some((
        Event::Row {
            thread,
            number,
            op,
            answer,
        },
        rest,
    )))
}

/// A note's line.
#[tactic(auto, unfolding(crate::specs::Grammar::note_at))]
pub fn note_at(text: &[u8]) -> Option<(Event, &[u8])>
    ensures { option_map (λ p. (entry_of p.0, p.1.now)) result ≡ note_at text.now }
{
    let rest = behind(b"note", text)?;
    let (region, rest) = spaced_at(u64::from(MOST_REGIONS), rest)?;
    let (card, rest) = spaced_at(u64::from(CARDS), rest)?;
    let (holder, rest) = spaced_name_at(rest)?;
    let (slot, rest) = spaced_at(1 << 32, rest)?;
    let rest = behind(b"\n", rest)?;
    Some((
        Event::Note {
            region,
            card,
            holder,
            slot,
        },
        rest,
    ))
}
