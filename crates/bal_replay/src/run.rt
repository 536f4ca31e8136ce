//! A run over words, a source and two outputs: all that the program does. The words of the command line are looked at
//! first; then all input is read, split into rows and executed in the order of the file; and only a whole journal is
//! written. What a run leaves on the outputs is thus decided before the first byte goes out.
ghost use Rattle.std.specs.Prelude.{◌≡◌, ◌≢◌, ◌≤◌, ◌^◌, None, IsSomeAnd, OnOk, map, string_bytes};
ghost use Rattle.std.specs.Io.KnownBytes.{Appends};
ghost use Rattle.bal_source.specs.Causes.{HasCause, Rose};
ghost use Rattle.bal_source.specs.Streams.{AppendsFront};
ghost use Rattle.bal_model.specs.Configs.{IsWithinLimits};
ghost use Rattle.bal_model.specs.Entries.{entries_of};
ghost use Rattle.bal_model.specs.Text.{journal_text};
ghost use Rattle.bal_replay.specs.Outcome.{Decides, Reads, Replays, Spares, Tells, reading_of, writing_of};
ghost use Rattle.bal_replay.specs.Statuses.{line_of};

use crate::execute;
use crate::status::{Status, tell, tell_bad_row};
use bal_base::{Line, NoMemory};
use bal_heap::Heap;
use bal_model::{Config, Journal};
use bal_options::read_words;
use bal_rows::{TraceFault, parse_trace};
use bal_source::{Buffer, Buffered, Failed, ReadEnd, Sink, Source, read_all};
use bal_text::write_text;
use std::alloc::Global;

/// How a run of the program ended, and the heap that it left: on `Ok` and `WriteFault` alone there is one, and its
/// journal is what was written, or was to be written.
#[derive(Drop)]
pub struct Outcome {
    pub status: Status,
    pub heap: Option<Heap>,
}

impl Outcome {
    /// A run that ended before there was a heap to show.
    pub(crate) fn refused(status: Status) -> Outcome
        ensures status { result.status ≡ status }
        ensures heap { result.heap ≡ None }
    {
        Outcome { status, heap: None }
    }
}

// Reads a trace to its end and executes it.
fn replay_source<S: Source>(alloc: Global, config: Config, source: &mut S) -> Result<Heap, Status>
    requires limits { IsWithinLimits config }
    requires given { S.given source.old ≤ 2 ^ 62 }
    ensures { Reads config (reading_of S.left S.given S.faults source.old)
        (reading_of S.left S.given S.faults source.new) result }
{
    let bytes = match read_all(alloc, source) {
        Ok(bytes) => bytes,
        Err(ReadEnd::ReadFault) => return Err(Status::ReadFault),
        Err(ReadEnd::TooLong) => return Err(Status::TooLong),
        Err(ReadEnd::NoMemory) => return Err(Status::NoMemory),
    };
    let trace = match parse_trace(alloc, bytes.as_slice(), &config.geometry) {
        Ok(trace) => trace,
        Err(TraceFault::Bad { row, cause }) => return Err(Status::BadRow { row, cause }),
        Err(TraceFault::NoMemory) => return Err(Status::NoMemory),
    };
    match execute(alloc, config, trace) {
        Ok(heap) => Ok(heap),
        Err(_) => Err(Status::NoMemory),
    }
}

// Writes a journal's text, line by line. At a fault some front of it was written.
fn write_through<K: Sink>(
    journal: &Journal,
    line: &mut Line,
    buffer: &mut Buffer,
    out: &mut K,
) -> Result<(), Failed>
    ensures all { OnOk result (Appends (K.held out.old) (K.held out.new) (journal_text (entries_of journal.now))) }
    ensures front { AppendsFront (K.held out.old) (K.held out.new) (journal_text (entries_of journal.now)) }
    ensures cause { HasCause (K.faults out.old) (K.faults out.new) result }
{
    let mut text = Buffered::make(out, buffer);
    write_text(journal, line, &mut text);
    text.finish()
}

// What writing a journal needs. Writing itself has no answer for refused memory.
fn make_line_and_buffer(alloc: Global) -> Result<(Line, Buffer), NoMemory> {
    Ok((Line::make(alloc)?, Buffer::make(alloc)?))
}

// Writes what a heap has told.
fn write_journal<K: Sink>(alloc: Global, heap: Heap, out: &mut K) -> Outcome
    ensures ok { result.status ≡ Status.Ok → IsSomeAnd result.heap (λ told. (told ≡ heap)
        × Appends (K.held out.old) (K.held out.new) (journal_text told.entries)) }
    ensures cut_short { result.status ≡ Status.WriteFault → IsSomeAnd result.heap (λ told. (told ≡ heap)
        × AppendsFront (K.held out.old) (K.held out.new) (journal_text told.entries)) }
    ensures write_fault { result.status ≡ Status.WriteFault → Rose (K.faults out.old) (K.faults out.new) }
    ensures no_other { result.status ≢ Status.Ok → result.status ≢ Status.WriteFault → result.status ≡ Status.NoMemory }
    ensures nothing { result.status ≢ Status.Ok → result.status ≢ Status.WriteFault → out.new ≡ out.old }
    ensures no_heap { result.status ≢ Status.Ok → result.status ≢ Status.WriteFault → result.heap ≡ None }
{
    let Ok((mut line, mut buffer)) = make_line_and_buffer(alloc) else {
        return Outcome::refused(Status::NoMemory);
    };
    let status = match write_through(heap.journal(), &mut line, &mut buffer, out) {
        Ok(()) => Status::Ok,
        Err(_) => Status::WriteFault,
    };
    Outcome {
        status,
        heap: Some(heap),
    }
}

// All of a run but what goes to standard error.
fn replay<S: Source, K: Sink>(
    alloc: Global,
    words: &[String],
    source: &mut S,
    out: &mut K,
) -> Outcome
    requires { S.given source.old ≤ 2 ^ 62 }
    ensures run { Replays (map string_bytes words.now)
        (reading_of S.left S.given S.faults source.old) (reading_of S.left S.given S.faults source.new)
        (writing_of K.held K.faults out.old) (writing_of K.held K.faults out.new) result.status result.heap }
    ensures spares { Spares source.old source.new out.old out.new result.status result.heap }
{
    let Some(config) = read_words(words) else {
        return Outcome::refused(Status::Usage);
    };
    match replay_source(alloc, config, source) {
        Ok(heap) => write_journal(alloc, heap, out),
        Err(status) => Outcome::refused(status),
    }
}

/// Reads the words of the command line and a trace from the source, replays it and writes the journal to `out`. A status
/// other than `Ok` has a line, which goes to `err`.
pub fn run_still<S: Source, K: Sink, E: Sink>(
    alloc: Global,
    words: &[String],
    source: &mut S,
    out: &mut K,
    err: &mut E,
) -> Outcome
    requires { S.given source.old ≤ 2 ^ 62 }
    // Each status with its cause.
    ensures run { Replays (map string_bytes words.now)
        (reading_of S.left S.given S.faults source.old) (reading_of S.left S.given S.faults source.new)
        (writing_of K.held K.faults out.old) (writing_of K.held K.faults out.new) result.status result.heap }
    // And each cause with its status, unless memory was refused.
    ensures decided { Decides (map string_bytes words.now)
        (reading_of S.left S.given S.faults source.old) (reading_of S.left S.given S.faults source.new)
        (writing_of K.held K.faults out.old) (writing_of K.held K.faults out.new) result.status }
    ensures spares { Spares source.old source.new out.old out.new result.status result.heap }
    ensures line { Tells (writing_of E.held E.faults err.old) (writing_of E.held E.faults err.new)
        (line_of result.status) }
{
    let outcome = replay(alloc, words, source, out);
    let Status::BadRow { row, cause } = outcome.status else {
        tell(outcome.status, err);
        return outcome;
    };
    match tell_bad_row(alloc, row, cause, err) {
        Ok(()) => outcome,
        Err(_) => {
            tell(Status::NoMemory, err);
            Outcome::refused(Status::NoMemory)
        }
    }
}
