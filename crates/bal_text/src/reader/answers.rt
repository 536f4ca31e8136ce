//! What a row answered, read from the front of a text: its reply, and where its object was placed, if it made one.
//!
//! A name is taken apart and put together again, and no reply is given on before it is part of an answer: so numbers and
//! names stay in registers, and do not share a place in memory.
ghost use Rattle.std.specs.Prelude.{◌≡◌, IfOk, option_map};
ghost use Rattle.bal_model.specs.Entries.{reply_of, spot_of};
ghost use Rattle.bal_layout.specs.declared.name.Name as names;
ghost use Rattle.bal_model.specs.declared.row.Reply.TheVariants as replies;
ghost use Rattle.bal_text.specs.Lines.{is_placed};
ghost use Rattle.bal_text.specs.Grammar.{answer_at, numbered_answer_at, placed_at, word_answer_at};

use super::items::some_leaves_at;
use super::pieces::{behind, name_from, spaced_at, value_at};
use bal_layout::MOST_REGIONS;
use bal_model::{Answer, Name, NoMemory, Op, Reply};
use std::alloc::Global;

/// What a row answered that made an object of this name: where it was placed.
#[inline(always)]
#[tactic(auto, unfolding(crate::specs::Grammar::spot_at, crate::specs::Grammar::leaves_at))]
fn placed_at(alloc: Global, name: Name, text: &[u8]) -> Result<Option<(Answer, &[u8])>, NoMemory>
    ensures { IfOk result (λ found. option_map (λ p. ((reply_of p.0, spot_of p.0), p.1.now)) found ≡ placed_at name text.now) }
{
    let Some(rest) = behind(b" in", text) else {
        return Ok(None);
    };
    let Some((region, rest)) = spaced_at(u64::from(MOST_REGIONS), rest) else {
        return Ok(None);
    };
    let Some(rest) = behind(b" leaves", rest) else {
        return Ok(Some((Answer::Placed { name, region }, rest)));
    };
    let Some((leaves, rest)) = some_leaves_at(alloc, rest)? else {
        return Ok(None);
    };
    let answer = Answer::Arraylet {
        name,
        region,
        leaves,
    };
    Ok(Some((answer, rest)))
}

/// Whether a row makes an object that is placed, if it replies a name.
#[inline(always)]
fn makes_object(op: &Op) -> bool
    ensures { (name : names.Name) → result ≡ is_placed op.now (replies.Name name) }
{
    matches!(op, Op::New { .. } | Op::Arr { .. })
}

/// What a row answered that replied a word.
#[inline(always)]
#[tactic(auto, unfolding(crate::specs::Grammar::word_answer_at, crate::specs::Grammar::word_reply_at))]
fn word_answer_at(text: &[u8]) -> Option<(Answer, &[u8])>
    ensures { option_map (λ p. ((reply_of p.0, spot_of p.0), p.1.now)) result ≡ word_answer_at text.now }
{
    if let Some(rest) = behind(b"ok", text) {
        return Some((Answer::Replied(Reply::Ok), rest));
    }
    if let Some(rest) = behind(b"null", text) {
        return Some((Answer::Replied(Reply::Null), rest));
    }
    if let Some(rest) = behind(b"nil", text) {
        return Some((Answer::Replied(Reply::Nil), rest));
    }
    if let Some(rest) = behind(b"slot", text) {
        return Some((Answer::Replied(Reply::Slot), rest));
    }
    let rest = behind(b"full", text)?;
    Some((Answer::Replied(Reply::Full), rest))
}

/// What a row answered that replied a number or a name.
#[inline(always)]
#[tactic(auto, unfolding(crate::specs::Grammar::numbered_answer_at))]
fn numbered_answer_at<'a>(
    alloc: Global,
    op: &Op,
    text: &'a [u8],
) -> Result<Option<(Answer, &'a [u8])>, NoMemory>
    ensures { IfOk result (λ found. option_map (λ p. ((reply_of p.0, spot_of p.0), p.1.now)) found ≡ numbered_answer_at op.now text.now) }
{
    let Some((number, rest)) = value_at(text) else {
        return Ok(None);
    };
    let Some((Name { thread, ordinal }, behind)) = name_from(number, rest) else {
        return Ok(Some((Answer::Replied(Reply::Number(number)), rest)));
    };
    let name = Name { thread, ordinal };
    if makes_object(op) {
        return placed_at(alloc, name, behind);
    }
    Ok(Some((Answer::Replied(Reply::Name(name)), behind)))
}

/// What a row answered.
#[inline(always)]
#[tactic(auto, unfolding(crate::specs::Grammar::answer_at))]
pub fn answer_at<'a>(
    alloc: Global,
    op: &Op,
    text: &'a [u8],
) -> Result<Option<(Answer, &'a [u8])>, NoMemory>
    ensures { IfOk result (λ found. option_map (λ p. ((reply_of p.0, spot_of p.0), p.1.now)) found ≡ answer_at op.now text.now) }
{
    if let Some((answer, rest)) = word_answer_at(text) {
        return Ok(Some((answer, rest)));
    }
    numbered_answer_at(alloc, op, text)
}
