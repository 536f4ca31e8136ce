//! A piece of a text, which grows at its front. A number's last digit is found first: so a line is put together quickest
//! from its end, in bytes that stay where they are.
ghost use Rattle.std.specs.Prelude.{◌≡◌, ◌+◌, ◌≤◌, ◌++◌, [], length, IfOk};
ghost use Rattle.std.specs.Fmt.{decimal};
ghost use Rattle.bal_base.specs.Line.{most_bytes, number_bytes};

use crate::NoMemory;
use itoa::write_digits;
use std::alloc::Global;
use std::marker::Model;

/// How many bytes a line has at most: more than any line of an event that has no list.
const MOST_BYTES: usize = 512;

/// The end of a line. Contracts see its bytes, and how many more fit in front of them.
#[derive(Drop)]
pub struct Line {
    bytes: Vec<u8>,
    start: usize,
}

impl Model for Line {
    ghost use Rattle.std.specs.Prelude.{◌≡◌, ◌≤◌, ℕ, drop, vec_len};
    ghost use Rattle.bal_base.specs.Items.{Seq};
    ghost use Rattle.bal_base.specs.Line.{most_bytes};

    ghost Value = { Seq ℕ };

    ghost view = { λ l. record { list = drop l.start l.bytes.items; spare = l.start } };

    ghost invariant = { λ l. (l.start ≤ vec_len l.bytes) × (vec_len l.bytes ≡ most_bytes) };
}

impl Line {
    /// A line with nothing in it yet.
    pub fn make(alloc: Global) -> Result<Line, NoMemory>
        ensures empty { IfOk result (λ l. l.list ≡ []) }
        ensures room { IfOk result (λ l. l.spare ≡ most_bytes) }
    {
        Ok(Line {
            bytes: vec![in alloc; 0; MOST_BYTES]?,
            start: MOST_BYTES,
        })
    }

    /// The line's bytes.
    pub fn as_slice(&self) -> &[u8]
        ensures { result.now ≡ self.now.list }
    {
        &self.bytes[self.start..]
    }

    /// Begins anew.
    pub fn clear(&mut self)
        ensures empty { self.new.list ≡ [] }
        ensures room { self.new.spare ≡ most_bytes }
    {
        self.start = self.bytes.len();
    }

    /// Puts a word in front.
    #[inline(always)]
    pub fn put(&mut self, word: &[u8])
        requires { length word.now ≤ self.old.spare }
        ensures list { self.new.list ≡ word.now ++ self.old.list }
        ensures room { self.new.spare + length word.now ≡ self.old.spare }
    {
        let end = self.start;
        self.start = end - word.len();
        self.bytes[self.start..end].copy_from_slice(word);
    }

    /// Puts a number's decimal digits in front.
    pub fn put_number(&mut self, number: u64)
        requires { number_bytes ≤ self.old.spare }
        ensures list { self.new.list ≡ decimal number ++ self.old.list }
        ensures room { self.old.spare ≤ self.new.spare + number_bytes }
    {
        self.start = write_digits(number, &mut self.bytes, self.start);
    }
}
