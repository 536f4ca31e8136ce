//! What a line is put together from, read from the front of a text: numbers and names. Each function gives what
//! stands there and what stands after it. The steps are inlined, since the way of several values through memory would
//! cost as much as the digits.
ghost use Rattle.std.specs.Prelude.{◌≡◌, ◌≤◌, ◌^◌, option_map};
ghost use Rattle.bal_text.specs.Grammar.{name_at, name_from, number_at, spaced_at, spaced_name_at, value_at};
ghost use Rattle.bal_text.specs.Readings.{behind};

use bal_base::leading_number;
use bal_model::Name;

/// What stands after these bytes, if a text begins with them. They are known where this is called, so the loop is unrolled
/// there: `strip_prefix` would compare through a slice.
#[inline(always)]
pub fn behind<'a>(bytes: &[u8], text: &'a [u8]) -> Option<&'a [u8]>
    ensures { option_map (λ rest. rest.now) result ≡ behind bytes.now text.now }
{
    if text.len() < bytes.len() {
        return None;
    }
    for at in 0..bytes.len() {
        if text[at] != bytes[at] {
            return None;
        }
    }
    Some(&text[bytes.len()..])
}

/// A number of 64 bits.
#[inline(always)]
pub fn value_at(text: &[u8]) -> Option<(u64, &[u8])>
    ensures { option_map (λ p. (p.0, p.1.now)) result ≡ value_at text.now }
{
    leading_number(text)
}

/// A number below the limit.
#[inline(always)]
pub fn number_at(limit: u64, text: &[u8]) -> Option<(u32, &[u8])>
    requires { limit ≤ 2 ^ 32 }
    ensures { option_map (λ p. (p.0, p.1.now)) result ≡ number_at limit text.now }
{
    let (number, rest) = value_at(text)?;
    if number >= limit {
        return None;
    }
    Some((number as u32, rest))
}

/// A number below the limit, after a space.
#[inline(always)]
pub fn spaced_at(limit: u64, text: &[u8]) -> Option<(u32, &[u8])>
    requires { limit ≤ 2 ^ 32 }
    ensures { option_map (λ p. (p.0, p.1.now)) result ≡ spaced_at limit text.now }
{
    let rest = behind(b" ", text)?;
    number_at(limit, rest)
}

/// The name that a thread's number and what stands after it are.
#[inline(always)]
pub fn name_from(thread: u64, text: &[u8]) -> Option<(Name, &[u8])>
    ensures { option_map (λ p. (p.0, p.1.now)) result ≡ name_from thread text.now }
{
    if thread >= 1 << 32 {
        return None;
    }
    let rest = behind(b".", text)?;
    let (ordinal, rest) = number_at(1 << 32, rest)?;
    let thread = thread as u32;
    Some((Name { thread, ordinal }, rest))
}

/// A name.
#[inline(always)]
#[tactic(auto, unfolding(crate::specs::Grammar::name_at))]
fn name_at(text: &[u8]) -> Option<(Name, &[u8])>
    ensures { option_map (λ p. (p.0, p.1.now)) result ≡ name_at text.now }
{
    let (thread, rest) = value_at(text)?;
    name_from(thread, rest)
}

/// A name, after a space.
#[inline(always)]
#[tactic(auto, unfolding(crate::specs::Grammar::spaced_name_at))]
pub fn spaced_name_at(text: &[u8]) -> Option<(Name, &[u8])>
    ensures { option_map (λ p. (p.0, p.1.now)) result ≡ spaced_name_at text.now }
{
    let rest = behind(b" ", text)?;
    name_at(rest)
}
