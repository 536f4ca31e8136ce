//! How a run of the program ends, and what it says of that on standard error.
ghost use Rattle.std.specs.Prelude.{◌≡◌, IfOk, OnOk, OnErr};
ghost use Rattle.bal_replay.specs.Outcome.{Tells, writing_of};
ghost use Rattle.bal_replay.specs.Statuses.{number_of, fixed_line_of, line_of};
ghost use Rattle.bal_replay.specs.declared.status.Status.TheVariants.{BadRow};

use bal_base::{Items, NoMemory, push_number};
use bal_rows::RowCause;
use bal_source::{Sink, write_all_bytes};
use std::alloc::Global;

/// How a run of the program ends. Its number is the exit status of the process.
#[derive(Clone, Copy)]
pub enum Status {
    /// The input was read to its end, every row was executed, and the text was written.
    Ok,
    /// The words of the command line are not in the grammar.
    Usage,
    /// The source failed.
    ReadFault,
    /// The source gave more than 2^26 bytes.
    TooLong,
    /// This record of the input is the first that is no row, for this cause.
    BadRow { row: u32, cause: RowCause },
    /// The output failed.
    WriteFault,
    NoMemory,
}

impl Status {
    /// The exit status.
    pub fn number(self) -> u8
        ensures { result ≡ number_of self }
    {
        match self {
            Status::Ok => 0,
            Status::Usage => 2,
            Status::ReadFault => 3,
            Status::TooLong => 4,
            Status::BadRow { .. } => 5,
            Status::WriteFault => 6,
            Status::NoMemory => 7,
        }
    }

    // The line for standard error of a status that has always the same: of `BadRow`, its front.
    fn fixed_line(self) -> &'static [u8]
        ensures { result.now ≡ fixed_line_of self }
    {
        match self {
            Status::Ok => b"",
            Status::Usage => b"balanced: usage: balanced <command> [--option number]...\n",
            Status::ReadFault => b"balanced: reading failed\n",
            Status::TooLong => b"balanced: input longer than 67108864 bytes\n",
            Status::BadRow { .. } => b"balanced: row ",
            Status::WriteFault => b"balanced: writing failed\n",
            Status::NoMemory => b"balanced: out of memory\n",
        }
    }
}

// The line of a bad row.
fn bad_row_line(alloc: Global, row: u32, cause: RowCause) -> Result<Items<u8>, NoMemory>
    ensures { IfOk result (λ line. line.list ≡ line_of (BadRow row cause)) }
{
    let mut line = Items::make(alloc)?;
    line.append(b"balanced: row ")?;
    push_number(&mut line, u64::from(row))?;
    line.append(b": ")?;
    line.append(cause.text().as_bytes())?;
    line.append(b"\n")?;
    Ok(line)
}

/// Writes the line of a status that has always the same: nothing for `Ok`.
pub fn tell<E: Sink>(status: Status, err: &mut E)
    ensures { Tells (writing_of E.held E.faults err.old) (writing_of E.held E.faults err.new) (fixed_line_of status) }
{
    let _ = write_all_bytes(err, status.fixed_line());
}

/// Writes the line of a bad row. If memory is refused for it, nothing was written.
pub fn tell_bad_row<E: Sink>(
    alloc: Global,
    row: u32,
    cause: RowCause,
    err: &mut E,
) -> Result<(), NoMemory>
    ensures ok { OnOk result (Tells (writing_of E.held E.faults err.old) (writing_of E.held E.faults err.new)
        (line_of (BadRow row cause))) }
    ensures err { OnErr result (err.new ≡ err.old) }
{
    let line = bad_row_line(alloc, row, cause)?;
    let _ = write_all_bytes(err, line.as_slice());
    Ok(())
}
