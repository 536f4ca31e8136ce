//! Numbers as texts spell them: decimal digits alone, with no sign and no leading zero, so that each number has one
//! spelling.
ghost use Rattle.std.specs.Prelude.{◌≡◌, ℕ, ◌≤◌, ◌^◌, ◌++◌, ◌↔◌, IsTrue, MatchOption, OnErr, OnOk, get_or};
ghost use Rattle.std.specs.Str.Parse.{digits_value};
ghost use Rattle.std.specs.Char.{is_ascii_digit};
ghost use Rattle.std.specs.Fmt.{decimal};
ghost use Rattle.bal_base.specs.Number.{SpellsNumber, leading_digits};

use crate::{Items, NoMemory};
use itoa::Buffer;

/// So many digits fit 64 bits, whatever they are.
const SURE_DIGITS: usize = 19;

/// Whether a text begins with a digit.
#[inline(always)]
fn begins_with_digit(text: &[u8]) -> bool
    ensures { result ≡ is_ascii_digit (get_or text.now 0 0) }
{
    matches!(text, [b'0'..=b'9', ..])
}

/// Whether the digits at the front of a text are worth more than 64 bits hold.
fn overflows(text: &[u8]) -> bool
    ensures { IsTrue result ↔ (2 ^ 64 ≤ digits_value 10 (leading_digits text.now)) }
{
    let mut number: u64 = 0;
    let mut at = 0;
    while at < text.len() && text[at].is_ascii_digit() {
        let digit = u64::from(text[at] - b'0');
        let Some(tenfold) = number.checked_mul(10) else {
            return true;
        };
        let Some(sum) = tenfold.checked_add(digit) else {
            return true;
        };
        number = sum;
        at += 1;
    }
    false
}

/// The number that the digits at the front of a text spell, with no leading zero and up to 2^64 - 1, and what stands after
/// these digits. No digit is tested for overflow: `SURE_DIGITS` always fit, and whether more do is asked once, after the
/// loop.
#[inline(always)]
pub fn leading_number(text: &[u8]) -> Option<(u64, &[u8])>
    ensures { MatchOption result ((n : ℕ) → SpellsNumber (leading_digits text.now) n → ⊥)
        (λ p. SpellsNumber (leading_digits text.now) p.0 × (text.now ≡ decimal p.0 ++ p.1.now)) }
{
    let [first, behind @ ..] = text else {
        return None;
    };
    if !first.is_ascii_digit() || (begins_with_digit(behind) && *first == b'0') {
        return None;
    }
    let mut number = u64::from(*first - b'0');
    let mut rest = behind;
    while let [digit, behind @ ..] = rest {
        if !digit.is_ascii_digit() {
            break;
        }
        number = number
            .wrapping_mul(10)
            .wrapping_add(u64::from(*digit - b'0'));
        rest = behind;
    }
    if text.len() - rest.len() > SURE_DIGITS && overflows(text) {
        return None;
    }
    Some((number, rest))
}

/// The number that a word spells in decimal digits, with no sign and no leading zero, up to 2^64 - 1.
pub fn read_number(word: &[u8]) -> Option<u64>
    ensures { MatchOption result ((n : ℕ) → SpellsNumber word.now n → ⊥) (SpellsNumber word.now) }
{
    let (number, rest) = leading_number(word)?;
    if !rest.is_empty() {
        return None;
    }
    Some(number)
}

/// Appends a number's decimal digits to a text.
pub fn push_number(text: &mut Items<u8>, number: u64) -> Result<(), NoMemory>
    ensures ok { OnOk result (text.new.list ≡ text.old.list ++ decimal number) }
    ensures err { OnErr result (text.new.list ≡ text.old.list) }
{
    // Most numbers of a journal have one digit.
    if number < 10 {
        return text.append(&[b'0' + number as u8]);
    }
    let mut buffer = Buffer::new();
    text.append(buffer.format(number).as_bytes())
}
