//! The row that a record spells: a word, then a thread, then the numbers of the word. What is looked at first is the
//! cause of a record that spells none: the word, how many fields there are, each number, the thread, the registers,
//! the global, the slot, the size.
ghost use Rattle.std.specs.Prelude.{◌≡◌, ◌+◌, ◌<◌, ◌≤◌, ◌^◌, ◌||◌, ℕ, List, All, Any, MatchOption, MatchResult, Some, drop, length, map, nat_le, take};
ghost use Rattle.std.specs.List.{list_any};
ghost use Rattle.std.specs.Fmt.{decimal};
ghost use Rattle.bal_layout.specs.Shape.{Shape, largest_of};
ghost use Rattle.bal_model.specs.Spelling.{IsOp, fields, spelling};
ghost use Rattle.bal_model.specs.Built.{IsTraceRow};
ghost use Rattle.bal_rows.specs.Causes.{HasCause, IsNoNumber, breaks, broken_by, broken_by_op, globals_of, registers_of, slots_of};
ghost use Rattle.bal_rows.specs.declared.cause.RowCause.TheVariants as cause;
ghost use Rattle.bal_rows.specs.Words.{count_of, op_from, row_from};
ghost use Rattle.bal_model.specs.declared.row.Word.{Word};
ghost use Rattle.csv.specs.Records.{fields_of};

use crate::RowCause;
use bal_base::read_number;
use bal_layout::{GLOBALS, Geometry, REGISTERS, SLOTS, THREADS};
use bal_model::{Op, Row, Word};
use csv::ByteRecord;

/// The most numbers that a record has after its word.
const MOST_NUMBERS: usize = 4;

/// The word that a field spells.
fn word_of(field: &[u8]) -> Option<Word>
    ensures { MatchOption result ((w : Word) → field.now ≡ spelling w → ⊥) (λ w. field.now ≡ spelling w) }
{
    match field {
        b"new" => Some(Word::New),
        b"arr" => Some(Word::Arr),
        b"store" => Some(Word::Store),
        b"load" => Some(Word::Load),
        b"put" => Some(Word::Put),
        b"get" => Some(Word::Get),
        b"gstore" => Some(Word::GStore),
        b"gload" => Some(Word::GLoad),
        b"drop" => Some(Word::Drop),
        b"gc" => Some(Word::Gc),
        _ => None,
    }
}

/// How many numbers follow a word, the thread among them.
pub(crate) fn number_count(word: Word) -> usize
    ensures { result ≡ count_of word }
{
    match word {
        Word::New | Word::Store | Word::Load | Word::Put => 4,
        Word::Arr | Word::Get | Word::GStore | Word::GLoad => 3,
        Word::Drop => 2,
        Word::Gc => 1,
    }
}

/// What the numbers after a word name: one or two registers, a global and a slot, with 0 if the word has none.
#[derive(Clone, Copy)]
struct Places {
    one: u64,
    other: u64,
    global: u64,
    slot: u64,
}

/// The places that a word names with these numbers.
fn places_of(word: Word, first: u64, second: u64, third: u64) -> Places
    ensures registers { list_any (nat_le 32) (registers_of (op_from word first second third))
        ≡ (nat_le 32 result.one || nat_le 32 result.other) }
    ensures global { list_any (nat_le 64) (globals_of (op_from word first second third)) ≡ nat_le 64 result.global }
    ensures slot { list_any (nat_le (2 ^ 24)) (slots_of (op_from word first second third)) ≡ nat_le (2 ^ 24) result.slot }
{
    let (one, other, global, slot) = match word {
        Word::New | Word::Arr | Word::Drop => (first, 0, 0, 0),
        Word::Store => (first, third, 0, second),
        Word::Load => (first, second, 0, third),
        Word::Put | Word::Get => (first, 0, 0, second),
        Word::GStore => (second, 0, first, 0),
        Word::GLoad => (first, 0, second, 0),
        Word::Gc => (0, 0, 0, 0),
    };
    Places {
        one,
        other,
        global,
        slot,
    }
}

/// Whether a word with these numbers asks for an object larger than the largest.
fn is_too_large(word: Word, second: u64, third: u64, largest: u32) -> bool
    ensures { (s : Shape) (first : ℕ) → largest_of s ≡ largest
        → result ≡ breaks s (op_from word first second third) cause.TooBig }
{
    match word {
        // Before the references and values come a header and a name.
        Word::New => second.saturating_add(third).saturating_add(2) > u64::from(largest),
        // An array has leaves if it does not lie in one piece, which is not built yet.
        Word::Arr => second >= u64::from(SLOTS) || second + 2 > u64::from(largest),
        _ => false,
    }
}

/// The first limit that a word with these numbers breaks.
fn limit_broken(word: Word, first: u64, second: u64, third: u64, largest: u32) -> Option<RowCause>
    ensures { (s : Shape) → largest_of s ≡ largest → result ≡ broken_by_op s (op_from word first second third) }
{
    let places = places_of(word, first, second, third);
    if places.one >= u64::from(REGISTERS) || places.other >= u64::from(REGISTERS) {
        return Some(RowCause::Register);
    }
    if places.global >= u64::from(GLOBALS) {
        return Some(RowCause::Global);
    }
    if places.slot >= u64::from(SLOTS) {
        return Some(RowCause::Slot);
    }
    if is_too_large(word, second, third, largest) {
        return Some(RowCause::TooBig);
    }
    None
}

/// The operation of a word with these numbers, which are in their limits.
fn op_of(word: Word, first: u64, second: u64, third: u64) -> Op
    requires { (s : Shape) × (largest_of s < 2 ^ 32) × IsOp s (op_from word first second third) }
    ensures { result ≡ op_from word first second third }
{
    match word {
        Word::New => Op::New {
            register: first as u32,
            refs: second as u32,
            values: third as u32,
        },
        Word::Arr => Op::Arr {
            register: first as u32,
            len: second as u32,
        },
        Word::Store => Op::Store {
            holder: first as u32,
            slot: second as u32,
            value: third as u32,
        },
        Word::Load => Op::Load {
            into: first as u32,
            holder: second as u32,
            slot: third as u32,
        },
        Word::Put => Op::Put {
            holder: first as u32,
            slot: second as u32,
            number: third,
        },
        Word::Get => Op::Get {
            holder: first as u32,
            slot: second as u32,
        },
        Word::GStore => Op::GStore {
            global: first as u32,
            register: second as u32,
        },
        Word::GLoad => Op::GLoad {
            into: first as u32,
            global: second as u32,
        },
        Word::Drop => Op::Drop {
            register: first as u32,
        },
        Word::Gc => Op::Gc,
    }
}

/// The row of a word with these numbers, or the first limit that it breaks.
pub(crate) fn row_in_limits(
    word: Word,
    thread: u64,
    first: u64,
    second: u64,
    third: u64,
    geometry: &Geometry,
) -> Result<Row, RowCause>
    ensures { MatchResult result
        (λ r. IsTraceRow geometry.now r × (r ≡ row_from word thread first second third))
        (λ limit. broken_by geometry.now (row_from word thread first second third) ≡ Some limit) }
{
    if thread >= u64::from(THREADS) {
        return Err(RowCause::Thread);
    }
    if let Some(limit) = limit_broken(word, first, second, third, geometry.largest()) {
        return Err(limit);
    }
    Ok(Row {
        thread: thread as u32,
        op: op_of(word, first, second, third),
    })
}

/// The numbers after a record's word, `count` of them, and zeros after these.
fn numbers_of(raw: &ByteRecord, count: usize) -> Option<[u64; MOST_NUMBERS]>
    requires few { count ≤ 4 }
    requires fields { length (fields_of raw.now) ≡ count + 1 }
    ensures { MatchOption result
        (Any IsNoNumber (drop 1 (fields_of raw.now)))
        (λ numbers. (length numbers ≡ 4) × All (λ n. n < 2 ^ 64) numbers
        × (drop 1 (fields_of raw.now) ≡ map decimal (take count numbers))) }
{
    let mut numbers = [0; MOST_NUMBERS];
    for i in 0..count {
        numbers[i] = read_number(raw.get(i + 1)?)?;
    }
    Some(numbers)
}

/// The row that a record spells, or the first cause why it spells none.
pub fn row_of(raw: &ByteRecord, geometry: &Geometry) -> Result<Row, RowCause>
    ensures { MatchResult result
        (λ r. IsTraceRow geometry.now r × (fields_of raw.now ≡ fields r))
        (HasCause geometry.now (fields_of raw.now)) }
{
    let Some(field) = raw.get(0) else {
        return Err(RowCause::Word);
    };
    let Some(word) = word_of(field) else {
        return Err(RowCause::Word);
    };
    let count = number_count(word);
    if raw.len() != count + 1 {
        return Err(RowCause::Fields);
    }
    let Some(numbers) = numbers_of(raw, count) else {
        return Err(RowCause::Number);
    };
    let [thread, first, second, third] = numbers;
    row_in_limits(word, thread, first, second, third, geometry)
}
