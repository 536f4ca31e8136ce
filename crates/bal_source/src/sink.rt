//! Where bytes go: the bytes held, if they are told, and a count of faults.
ghost use Rattle.std.specs.Prelude.{◌≡◌, List, Option, ℕ, length};
ghost use Rattle.std.specs.Io.{WritesAtMost};
ghost use Rattle.std.specs.Io.KnownBytes.{WriteAppends};
ghost use Rattle.bal_source.specs.Causes.{HasCause};

use crate::Failed;

/// Where bytes go.
pub trait Sink {
    /// The bytes held, if the sink tells them.
    ghost held: { Self → Option (List ℕ) };

    /// How many calls failed.
    ghost faults: { Self → ℕ };

    /// Appends bytes from the front of `from`, and answers how many: at least one, unless `from` is empty. After a
    /// failure nothing was appended.
    fn write(&mut self, from: &[u8]) -> Result<usize, Failed>
        ensures bound { WritesAtMost result from.now }
        ensures bytes { WriteAppends (held self.old) (held self.new) result from.now }
        ensures progress { result ≡ Ok 0 → length from.now ≡ 0 }
        ensures cause { HasCause (faults self.old) (faults self.new) result };
}
