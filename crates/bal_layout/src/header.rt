//! The two words that every object in the heap begins with: what it is, how large it is, and what it is called.
ghost use Rattle.std.specs.Prelude.{◌≡◌, ℕ, MatchOption};
ghost use Rattle.bal_layout.specs.declared.header.Header.{Header};
ghost use Rattle.bal_layout.specs.Header.{IsHeader, IsHeaderOf, first_word, header_of, second_word};

use crate::{Kind, Name, SLOTS, THREADS};

/// What an object's first two words say. A plain object has references and values, an array and a spine references alone.
#[derive(Clone, Copy, PartialEq, Eq)]
pub struct Header {
    pub kind: Kind,
    pub refs: u32,
    pub values: u32,
    pub name: Name,
}

/// The numbers of references and of values are below this.
const COUNTS: u64 = SLOTS as u64;

/// The header of which these are the words: None exactly if they are no header's.
#[tactic(auto, unfolding(crate::specs::Header::header_of))]
pub fn read_header(first: u64, second: u64) -> Option<Header>
    ensures just { MatchOption result ((h : Header) → IsHeaderOf h first second → ⊥) (λ h. IsHeaderOf h first second) }
    ensures value { result ≡ header_of first second }
{
    let kind = match first % 256 {
        1 => Kind::Plain,
        2 => Kind::Array,
        3 => Kind::Spine,
        _ => return None,
    };
    let values = first / (1 << 32);
    let most_values = if kind == Kind::Plain { COUNTS } else { 1 };
    if values >= most_values {
        return None;
    }
    let thread = second / (1 << 32);
    let ordinal = second % (1 << 32);
    if thread >= u64::from(THREADS) || ordinal == 0 {
        return None;
    }
    Some(Header {
        kind,
        refs: (first / 256 % COUNTS) as u32,
        values: values as u32,
        name: Name {
            thread: thread as u32,
            ordinal: ordinal as u32,
        },
    })
}

/// The two words of a header.
pub fn write_header(header: &Header) -> (u64, u64)
    requires { IsHeader header.now }
    ensures first { result.0 ≡ first_word header.now }
    ensures second { result.1 ≡ second_word header.now }
{
    let kind = match header.kind {
        Kind::Plain => 1,
        Kind::Array => 2,
        Kind::Spine => 3,
    };
    (
        kind + 256 * u64::from(header.refs) + (u64::from(header.values) << 32),
        (u64::from(header.name.thread) << 32) + u64::from(header.name.ordinal),
    )
}

/// A header has one spelling: no other header has its two words, and the words of a header are read as that header and as
/// no other. So whoever compares an object's first words compares what it is and what it is called.
pub fn a_header_has_one_spelling()
    ensures once { (h g : Header) → IsHeader h → IsHeader g
        → first_word h ≡ first_word g → second_word h ≡ second_word g → h ≡ g }
    ensures of_words { (h : Header) → IsHeader h → header_of (first_word h) (second_word h) ≡ Some h }
    ensures only { (h : Header) (first second : ℕ) → header_of first second ≡ Some h → IsHeaderOf h first second }
{}
