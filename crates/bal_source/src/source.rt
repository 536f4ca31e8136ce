//! Where bytes come from: the bytes left, if they are told, how many were given, and a count of faults.
ghost use Rattle.std.specs.Prelude.{List, Option, ℕ};
ghost use Rattle.std.specs.Io.{ReadsAtMost};
ghost use Rattle.std.specs.Io.KnownBytes.{ReadConsumes};
ghost use Rattle.bal_source.specs.Causes.{HasCause};
ghost use Rattle.bal_source.specs.Streams.{CountsGiven};

/// A read or a write failed. The count of faults of the source or the sink has risen.
#[derive(Clone, Copy, Debug, PartialEq, Eq)]
pub struct Failed;

/// Where bytes come from.
pub trait Source {
    /// The bytes left, if the source tells them.
    ghost left: { Self → Option (List ℕ) };

    /// How many bytes were given.
    ghost given: { Self → ℕ };

    /// How many calls failed.
    ghost faults: { Self → ℕ };

    /// Moves bytes to the front of `into`, and answers how many. An answer of 0 is the end of input, unless `into`
    /// is empty. After a failure nothing was taken.
    fn read(&mut self, into: &mut [u8]) -> Result<usize, Failed>
        ensures bound { ReadsAtMost result into.new }
        ensures bytes { ReadConsumes (left self.old) (left self.new) result into.new }
        ensures given { CountsGiven (given self.old) (given self.new) result }
        ensures cause { HasCause (faults self.old) (faults self.new) result };
}
