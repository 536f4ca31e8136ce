//! What no clause says: that a run succeeds, and what it leaves if a source, an output or memory fails. Whole runs stand as
//! files in checks/runs.
use crate::run_process;
use bal_base::{Items, NoMemory};
use bal_source::{MemorySink, MemorySource};
use std::alloc::Global;
use std::env::Args;
use std::io;
use std::process::Abort;
use std::test::Fail;

// A trace of two rows in 25 bytes, and its text in 55.
const TWO_ROWS: &[u8] = b"new,0,0,1,0\nload,0,1,0,0\n";

const TWO_LINES: &[u8] = b"row 0 1 new 0 1 0 = 0.1 in 0\nrow 0 2 load 1 0 0 = null\n";

const READING_FAILED: &[u8] = b"balanced: reading failed\n";

const WRITING_FAILED: &[u8] = b"balanced: writing failed\n";

fn same_number(rt: &impl Abort, left: u64, right: u64) {
    assert_eq!(rt; left, right);
}

fn same_bytes(rt: &impl Abort, left: &[u8], right: &[u8]) {
    assert_eq!(rt; left, right);
}

// A list of these items.
fn items<T: Copy>(alloc: Global, all: &[T]) -> Result<Items<T>, NoMemory> {
    let mut items = Items::make(alloc)?;
    items.append(all)?;
    Ok(items)
}

// What the system gives for these words: the program's name and then the words.
fn arguments(alloc: Global, words: &[&str]) -> Result<Args, NoMemory> {
    let mut given = Vec::new(alloc);
    given.push(String::from_str(alloc, "balanced")?)?;
    for word in words {
        given.push(String::from_str(alloc, word)?)?;
    }
    Ok(given.into_iter())
}

// A sink that holds nothing, and has room for what a test writes to it.
fn sink(alloc: Global, piece: u32, fails: u64) -> Result<MemorySink, NoMemory> {
    let mut held = Items::make(alloc)?;
    held.reserve(4096)?;
    Ok(MemorySink::make(held, piece, items(alloc, &[fails])?))
}

// Which read, which write and which write of a message fails, counted from 1, and how many bytes a write takes.
#[derive(Clone, Copy)]
struct Faults {
    read: u64,
    write: u64,
    message: u64,
    piece: u32,
}

const NO_FAULTS: Faults = Faults {
    read: 0,
    write: 0,
    message: 0,
    piece: 1,
};

// How a run ended, and what its outputs hold.
#[derive(Drop)]
struct Ended {
    status: u8,
    out: MemorySink,
    err: MemorySink,
}

// A replay of the two rows, byte by byte.
fn run(alloc: Global, given: io::Result<Args>, faults: Faults) -> Result<Ended, NoMemory> {
    let mut source = MemorySource::make(items(alloc, TWO_ROWS)?, 1, items(alloc, &[faults.read])?);
    let mut out = sink(alloc, faults.piece, faults.write)?;
    let mut err = sink(alloc, 1, faults.message)?;
    let outcome = run_process(alloc, given, &mut source, &mut out, &mut err);
    let status = outcome.status.number();
    Ok(Ended { status, out, err })
}

fn replay(alloc: Global, faults: Faults) -> Result<Ended, NoMemory> {
    let given = arguments(alloc, &["replay", "--regions", "4", "--words=256"])?;
    run(alloc, Ok(given), faults)
}

// A run ended with this status, and left exactly this.
fn ends(rt: &impl Abort, ended: &Ended, status: u64, out: &[u8], err: &[u8]) {
    same_number(rt, u64::from(ended.status), status);
    same_bytes(rt, ended.out.bytes(), out);
    same_bytes(rt, ended.err.bytes(), err);
}

// There is one call for each of the 25 bytes, and one at the end.
#[test]
fn a_source_that_fails_at_any_call_is_a_read_fault(rt: HostRuntime) -> Result<(), Fail> {
    for read in 1..=26 {
        let ended = replay(rt.alloc(), Faults { read, ..NO_FAULTS })?;
        ends(&rt, &ended, 3, b"", READING_FAILED);
    }
    let ended = replay(
        rt.alloc(),
        Faults {
            read: 27,
            ..NO_FAULTS
        },
    )?;
    ends(&rt, &ended, 0, TWO_LINES, b"");
    Ok(())
}

#[test]
fn an_output_that_fails_keeps_a_front(rt: HostRuntime) -> Result<(), Fail> {
    for taken in 0..55usize {
        let write = taken as u64 + 1;
        let ended = replay(rt.alloc(), Faults { write, ..NO_FAULTS })?;
        ends(&rt, &ended, 6, &TWO_LINES[..taken], WRITING_FAILED);
    }
    let ended = replay(
        rt.alloc(),
        Faults {
            write: 56,
            ..NO_FAULTS
        },
    )?;
    ends(&rt, &ended, 0, TWO_LINES, b"");
    let ended = replay(
        rt.alloc(),
        Faults {
            piece: 0,
            ..NO_FAULTS
        },
    )?;
    ends(&rt, &ended, 6, b"", WRITING_FAILED);
    Ok(())
}

#[test]
fn a_message_that_fails_changes_no_status(rt: HostRuntime) -> Result<(), Fail> {
    for (read, write, message, status, line) in [
        (0, 0, 1, 0, b"".as_slice()),
        (3, 0, 1, 3, b"".as_slice()),
        (3, 0, 11, 3, b"balanced: ".as_slice()),
        (0, 1, 1, 6, b"".as_slice()),
    ] {
        let faults = Faults {
            read,
            write,
            message,
            piece: 1,
        };
        let ended = replay(rt.alloc(), faults)?;
        same_number(&rt, u64::from(ended.status), status);
        same_bytes(&rt, ended.err.bytes(), line);
    }
    Ok(())
}

#[test]
fn a_run_without_words_ends_by_its_cause(rt: HostRuntime) -> Result<(), Fail> {
    let refused = io::Error::from(io::ErrorKind::OutOfMemory);
    let ended = run(rt.alloc(), Err(refused), NO_FAULTS)?;
    ends(&rt, &ended, 7, b"", b"balanced: out of memory\n");
    let no_text = io::Error::from(io::ErrorKind::InvalidData);
    let ended = run(rt.alloc(), Err(no_text), NO_FAULTS)?;
    ends(
        &rt,
        &ended,
        2,
        b"",
        b"balanced: usage: balanced <command> [--option number]...\n",
    );
    Ok(())
}

// Whichever allocation is refused, a run ends with that status and no text, or with its whole text. The lists of the test
// itself may be refused as well.
#[test]
fn refused_memory_leaves_no_text(rt: HostRuntime) -> Result<(), Fail> {
    let Ok(ended) = replay(rt.alloc(), NO_FAULTS) else {
        return Ok(());
    };
    if ended.status == 7 {
        ends(&rt, &ended, 7, b"", b"balanced: out of memory\n");
    } else {
        ends(&rt, &ended, 0, TWO_LINES, b"");
    }
    Ok(())
}
