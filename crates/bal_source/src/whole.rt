//! Reading all bytes of a source, and writing all bytes to a sink.
ghost use Rattle.std.specs.Prelude.{◌≡◌, ◌+◌, ◌^◌, ◌<◌, ◌≤◌, ◌↔◌, ◌++◌, length, IfOk, OnOk, OnErr, IsErrOf, vec_len};
ghost use Rattle.std.specs.Io.KnownBytes.{Appends};
ghost use Rattle.bal_source.specs.Causes.{Rose, HasCause};
ghost use Rattle.bal_source.specs.Streams.{TakesAll, TakesFront, AppendsFront};

use crate::{Failed, Sink, Source};
use bal_base::{Items, NoMemory};
use std::alloc::Global;

/// The most bytes that `read_all` answers.
pub const MOST_BYTES: usize = 1 << 26;

/// How many bytes one read asks for.
const BUFFER_BYTES: usize = 1 << 16;

/// Why reading ended before the end of input.
#[derive(Clone, Copy, Debug, PartialEq, Eq)]
pub enum ReadEnd {
    ReadFault,
    TooLong,
    NoMemory,
}

impl From<NoMemory> for ReadEnd {
    ghost use Rattle.bal_source.specs.declared.whole.ReadEnd.TheVariants.{NoMemory};

    ghost from_gives = { λ _ end. end ≡ NoMemory };

    fn from(_: NoMemory) -> Self {
        ReadEnd::NoMemory
    }
}

/// Reads all bytes up to the end of input. It stops if they are more than `MOST_BYTES`.
pub fn read_all<S: Source>(alloc: Global, source: &mut S) -> Result<Items<u8>, ReadEnd>
    requires { S.given source.old ≤ 2 ^ 62 }

    ensures all { IfOk result (λ bytes. TakesAll (S.left source.old) (S.left source.new) bytes.list) }
    ensures number { IfOk result (λ bytes. S.given source.new ≡ S.given source.old + length bytes.list) }
    ensures most { IfOk result (λ bytes. length bytes.list ≤ 2 ^ 26) }

    ensures read_fault { IsErrOf result ReadEnd.ReadFault → Rose (S.faults source.old) (S.faults source.new) }
    // Whether the input is too long is tested before memory is taken for it, so the answer is exact.
    ensures too_long { IsErrOf result ReadEnd.TooLong ↔ (S.given source.old + 2 ^ 26 < S.given source.new) }

    // Whatever the answer.
    ensures front { TakesFront (S.left source.old) (S.left source.new) (S.given source.old) (S.given source.new) }
    ensures faults { S.faults source.old ≤ S.faults source.new }
{
    let mut buffer = make_buffer(alloc)?;
    let mut bytes = Items::make(alloc)?;
    // Each turn but the last takes a byte or more, so this many are enough.
    for _ in 0..MOST_BYTES + 2 {
        let Ok(count) = source.read(&mut buffer) else {
            return Err(ReadEnd::ReadFault);
        };
        if count == 0 {
            return Ok(bytes);
        }
        if count > MOST_BYTES - bytes.len() {
            return Err(ReadEnd::TooLong);
        }
        bytes.append(&buffer[..count])?;
    }
    unreachable!()
}

/// Where one read puts its bytes.
fn make_buffer(alloc: Global) -> Result<Vec<u8>, NoMemory>
    ensures { IfOk result (λ buffer. vec_len buffer ≡ BUFFER_BYTES) }
{
    Ok(vec![in alloc; 0; BUFFER_BYTES]?)
}

/// Writes all bytes. After a failure some front of them was written.
pub fn write_all_bytes<K: Sink>(sink: &mut K, bytes: &[u8]) -> Result<(), Failed>
    ensures all { OnOk result (Appends (K.held sink.old) (K.held sink.new) bytes.now) }
    ensures front { AppendsFront (K.held sink.old) (K.held sink.new) bytes.now }
    ensures cause { HasCause (K.faults sink.old) (K.faults sink.new) result }
{
    let mut written = 0;
    while written < bytes.len() {
        written += sink.write(&bytes[written..])?;
    }
    Ok(())
}
