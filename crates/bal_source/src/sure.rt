//! A source and a sink without faults. Over them no answer of a fault can come, by the count alone.
ghost use Rattle.std.specs.Prelude.{◌≡◌, ◌++◌, ◌≤◌, length, take, drop, Some, None};
ghost use Rattle.std.specs.Io.KnownBytes.{ReadConsumes};
ghost use Rattle.bal_source.specs.Memory.{portion, after_giving};

use crate::{Failed, Sink, Source};
use bal_base::Items;
use std::marker::Model;

/// A source in memory whose reads never fail.
#[derive(Drop)]
pub struct SureSource {
    bytes: Items<u8>,
    at: usize,
    piece: u32,
    given: u64,
}

impl Model for SureSource {
    ghost use Rattle.std.specs.Prelude.{◌≤◌, length, drop};
    ghost use Rattle.bal_source.specs.Memory.{Supply};

    ghost Value = { Supply };

    ghost view = { λ s. record { left = drop s.at s.bytes.list; piece = s.piece; given = s.given } };

    ghost invariant = { λ s. (s.at ≤ length s.bytes.list) × (1 ≤ s.piece) };
}

impl SureSource {
    /// A source of these bytes that gives at most `piece` of them in one read.
    pub fn make(bytes: Items<u8>, piece: u32) -> SureSource
        requires { 1 ≤ piece }
        ensures { result ≡ record { left = bytes.list; piece = piece; given = 0 } }
    {
        SureSource {
            bytes,
            at: 0,
            piece,
            given: 0,
        }
    }
}

impl Source for SureSource {
    ghost left = { λ s. Some s.left };

    ghost given = { λ s. s.given };

    ghost faults = { λ _. 0 };

    fn read(&mut self, into: &mut [u8]) -> Result<usize, Failed>
        ensures bytes { ReadConsumes (Some self.old.left) (Some self.new.left) result into.new }
        ensures answer { result ≡ Ok (portion self.old (length into.old)) }
        ensures after { let n = portion self.old (length into.old) in
            (self.new ≡ after_giving self.old n) × (into.new ≡ take n self.old.left ++ drop n into.old) }
    {
        let rest = &self.bytes.as_slice()[self.at..];
        let count = rest.len().min(self.piece as usize).min(into.len());
        copy_to_front(&rest[..count], into);
        self.at += count;
        self.given = self.given.saturating_add(count as u64);
        Ok(count)
    }
}

/// Copies all of `from` to the front of `into`.
fn copy_to_front(from: &[u8], into: &mut [u8])
    requires { length from.now ≤ length into.old }
    ensures { into.new ≡ from.now ++ drop (length from.now) into.old }
{
    into[..from.len()].copy_from_slice(from);
}

/// A sink that takes every piece whole, keeps no bytes and never fails.
#[derive(Drop)]
pub struct SureSink(());

impl SureSink {
    /// A sink in which no call has failed.
    pub fn make() -> SureSink
        ensures { ⟦<SureSink as Sink>⟧.faults result ≡ 0 }
    {
        SureSink(())
    }
}

impl Sink for SureSink {
    ghost held = { λ _. None };

    ghost faults = { λ _. 0 };

    fn write(&mut self, from: &[u8]) -> Result<usize, Failed>
        ensures answer { result ≡ Ok (length from.now) }
    {
        Ok(from.len())
    }
}
