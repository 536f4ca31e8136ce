//! Rows read directly, from a text in which each is a plain line.
//!
//! What a record is, csv decides: fields may stand in quotes, lines may end with carriage returns, empty lines may
//! stand between. csv minds all of that at each byte, and takes about fifty instructions for it. But most traces are
//! plain lines: a word, numbers after commas, a line feed. So there are two ways. This one takes only plain
//! lines whose rows break no limit. If it meets any other, csv reads the bytes again from their start, and finds the
//! rows, or what is wrong and where. The steps that give several values are inlined, since the way through memory would
//! cost as much as the digits.
ghost use Rattle.std.specs.Prelude.{◌≡◌, ◌∷◌, ◌++◌, [], ℕ, ⊤, IfOk, IfSome, MatchOption, if◌then◌else◌, map, take};
ghost use Rattle.std.specs.Fmt.{decimal};
ghost use Rattle.bal_model.specs.Built.{IsTraceRow};
ghost use Rattle.bal_rows.specs.Plain.{BeginsWithLine, EndsLine, behind_commas};
ghost use Rattle.bal_rows.specs.Trace.{IsTrace};
ghost use Rattle.bal_model.specs.Spelling.{spelling};
ghost use Rattle.bal_rows.specs.Words.{count_of};

use crate::row::{number_count, row_in_limits};
use bal_base::{Items, NoMemory, leading_number};
use bal_layout::Geometry;
use bal_model::{Row, Word};
use std::alloc::Global;

/// The most rows that a trace has.
pub(crate) const MOST_ROWS: u32 = 1 << 20;

/// How many bytes a row has at least, but maybe the last one: those of `gc,0` and a line end.
const FEWEST_BYTES: usize = 5;

/// No rows, and room for as many as so many bytes can have: a row then takes no memory of its own.
pub(crate) fn room_for_rows(alloc: Global, bytes: usize) -> Result<Items<Row>, NoMemory>
    ensures { IfOk result (λ rows. rows.list ≡ []) }
{
    let mut rows = Items::make(alloc)?;
    rows.reserve((bytes / FEWEST_BYTES + 1).min(MOST_ROWS as usize))?;
    Ok(rows)
}

/// The word at the front of a text, and what stands after it.
#[inline(always)]
fn word_at(text: &[u8]) -> Option<(Word, &[u8])>
    ensures { MatchOption result ⊤ (λ p. text.now ≡ spelling p.0 ++ p.1.now) }
{
    match text {
        [b'n', b'e', b'w', rest @ ..] => Some((Word::New, rest)),
        [b'a', b'r', b'r', rest @ ..] => Some((Word::Arr, rest)),
        [b's', b't', b'o', b'r', b'e', rest @ ..] => Some((Word::Store, rest)),
        [b'l', b'o', b'a', b'd', rest @ ..] => Some((Word::Load, rest)),
        [b'p', b'u', b't', rest @ ..] => Some((Word::Put, rest)),
        [b'g', b'e', b't', rest @ ..] => Some((Word::Get, rest)),
        [b'g', b's', b't', b'o', b'r', b'e', rest @ ..] => Some((Word::GStore, rest)),
        [b'g', b'l', b'o', b'a', b'd', rest @ ..] => Some((Word::GLoad, rest)),
        [b'd', b'r', b'o', b'p', rest @ ..] => Some((Word::Drop, rest)),
        [b'g', b'c', rest @ ..] => Some((Word::Gc, rest)),
        _ => None,
    }
}

/// A number after a comma, if one is wanted, otherwise 0.
#[inline(always)]
fn number_at(wanted: bool, text: &[u8]) -> Option<(u64, &[u8])>
    ensures { MatchOption result ⊤ (λ p. text.now ≡ behind_commas (map decimal (if wanted then p.0 ∷ [] else [])) ++ p.1.now) }
{
    if !wanted {
        return Some((0, text));
    }
    let [b',', rest @ ..] = text else {
        return None;
    };
    leading_number(rest)
}

/// The numbers of a word, the thread first, with 0 for each that it does not have.
#[inline(always)]
fn numbers_at(word: Word, text: &[u8]) -> Option<(u64, u64, u64, u64, &[u8])>
    ensures { MatchOption result ⊤ (λ p. text.now
        ≡ behind_commas (map decimal (take (count_of word) (p.0 ∷ p.1 ∷ p.2 ∷ p.3 ∷ []))) ++ p.4.now) }
{
    let count = number_count(word);
    let (thread, rest) = number_at(true, text)?;
    let (first, rest) = number_at(count > 1, rest)?;
    let (second, rest) = number_at(count > 2, rest)?;
    let (third, rest) = number_at(count > 3, rest)?;
    Some((thread, first, second, third, rest))
}

/// What stands after the end of a line.
#[inline(always)]
fn behind_end(text: &[u8]) -> Option<&[u8]>
    ensures { MatchOption result ⊤ (λ rest. EndsLine text.now rest.now) }
{
    match text {
        [b'\n', rest @ ..] => Some(rest),
        [] => Some(text),
        _ => None,
    }
}

/// The row of the plain line at the front of a text, if it breaks no limit, and what stands after the line.
fn row_at<'a>(text: &'a [u8], geometry: &Geometry) -> Option<(Row, &'a [u8])>
    ensures { MatchOption result ⊤ (λ p. IsTraceRow geometry.now p.0 × BeginsWithLine text.now p.0 p.1.now) }
{
    let (word, rest) = word_at(text)?;
    let (thread, first, second, third, rest) = numbers_at(word, rest)?;
    let rest = behind_end(rest)?;
    let Ok(row) = row_in_limits(word, thread, first, second, third, geometry) else {
        return None;
    };
    Some((row, rest))
}

/// The rows of a trace in which each row is a plain line. None says nothing of the bytes.
pub fn plain_rows(
    alloc: Global,
    bytes: &[u8],
    geometry: &Geometry,
) -> Result<Option<Items<Row>>, NoMemory>
    ensures { IfOk result (λ found. IfSome found (λ rows. IsTrace geometry.now bytes.now rows.list)) }
{
    // A byte order mark may begin here, which csv passes over.
    if !bytes.is_empty() && bytes[0] == 0xEF {
        return Ok(None);
    }
    let mut rows = room_for_rows(alloc, bytes.len())?;
    let mut rest = bytes;
    while !rest.is_empty() {
        if rows.len() >= MOST_ROWS as usize {
            return Ok(None);
        }
        let Some((row, behind)) = row_at(rest, geometry) else {
            return Ok(None);
        };
        rows.reserve(1)?;
        rows.push(row);
        rest = behind;
    }
    Ok(Some(rows))
}
