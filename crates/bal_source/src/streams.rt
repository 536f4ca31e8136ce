//! Adapters over the streams of std: a reader as a source, a writer as a sink. They tell the bytes that the stream itself
//! tells. A stream of the system tells none, since what it gives and keeps is not proved; over one in memory an error that
//! was swallowed would be a byte too few or an end that came too soon.
ghost use Rattle.std.specs.Prelude.{◌≡◌, length};
ghost use Rattle.std.specs.Io.{ReadsAtMost, WritesAtMost};
ghost use Rattle.std.specs.Io.KnownBytes.{ReadConsumes, WriteAppends};
ghost use Rattle.bal_source.specs.Causes.{CountsFault};
ghost use Rattle.bal_source.specs.Streams.{CountsGiven};

use crate::{Failed, Sink, Source};
use std::io::{Read, Write};

/// A reader of std as a source, such as standard input.
#[derive(Drop)]
pub struct InSource<I> {
    input: I,
    given: u64,
    faults: u64,
}

impl<I: Read> InSource<I> {
    /// Nothing was given yet, and no read has failed.
    pub fn make(input: I) -> InSource<I>
        ensures { result ≡ record { input = input; given = 0; faults = 0 } }
    {
        InSource {
            input,
            given: 0,
            faults: 0,
        }
    }
}

impl<I: Read> Source for InSource<I> {
    ghost left = { λ s. I.remaining s.input };

    ghost given = { λ s. s.given };

    ghost faults = { λ s. s.faults };

    fn read(&mut self, into: &mut [u8]) -> Result<usize, Failed>
        ensures bound { ReadsAtMost result into.new }
        ensures bytes { ReadConsumes (I.remaining self.old.input) (I.remaining self.new.input) result into.new }
        ensures given { CountsGiven self.old.given self.new.given result }
        ensures faults { CountsFault self.old.faults self.new.faults result }
    {
        let Ok(count) = self.input.read(into) else {
            self.faults = self.faults.saturating_add(1);
            return Err(Failed);
        };
        self.given = self.given.saturating_add(count as u64);
        Ok(count)
    }
}

/// A writer of std as a sink, such as standard output.
#[derive(Drop)]
pub struct OutSink<O> {
    output: O,
    faults: u64,
}

impl<O: Write> OutSink<O> {
    /// No write has failed yet.
    pub fn make(output: O) -> OutSink<O>
        ensures { result ≡ record { output = output; faults = 0 } }
    {
        OutSink { output, faults: 0 }
    }
}

impl<O: Write> Sink for OutSink<O> {
    ghost held = { λ s. O.contents s.output };

    ghost faults = { λ s. s.faults };

    fn write(&mut self, from: &[u8]) -> Result<usize, Failed>
        ensures bound { WritesAtMost result from.now }
        ensures bytes { WriteAppends (O.contents self.old.output) (O.contents self.new.output) result from.now }
        ensures progress { result ≡ Ok 0 → length from.now ≡ 0 }
        ensures faults { CountsFault self.old.faults self.new.faults result }
    {
        match self.output.write(from) {
            // A writer that takes nothing of some bytes has failed.
            Ok(count) if count > 0 || from.is_empty() => Ok(count),
            _ => {
                self.faults = self.faults.saturating_add(1);
                Err(Failed)
            }
        }
    }
}
