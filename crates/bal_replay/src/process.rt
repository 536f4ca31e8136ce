//! The top call: a run of the process, from what the system answers for the words of its command line.
ghost use Rattle.std.specs.Prelude.{◌≡◌, ◌≤◌, ◌^◌, ◌⊎◌, drop, map, string_bytes, IfErr, IfOk, MatchResult};
ghost use Rattle.std.specs.Vec.Iter.{into_iter_items};
ghost use Rattle.std.specs.IoError.{error_kind};
ghost use Rattle.bal_replay.specs.Outcome.{Decides, Replays, Spares, Tells, reading_of, writing_of};
ghost use Rattle.bal_replay.specs.Statuses.{line_of, status_without_words};

use crate::run::{Outcome, run_still};
use crate::status::{Status, tell};
use bal_source::{Sink, Source};
use std::alloc::Global;
use std::env::Args;
use std::io;

/// All that the program does. `arguments` are the program's name and then the words of the command line, or why the
/// system gave none. The rest is as in `run_still`.
pub fn run_process<S: Source, K: Sink, E: Sink>(
    alloc: Global,
    arguments: io::Result<Args>,
    source: &mut S,
    out: &mut K,
    err: &mut E,
) -> Outcome
    requires { S.given source.old ≤ 2 ^ 62 }

    // With words a run is that of its words, unless memory for them was refused.
    ensures run { IfOk arguments (λ given. Replays (map string_bytes (drop 1 (into_iter_items given)))
        (reading_of S.left S.given S.faults source.old) (reading_of S.left S.given S.faults source.new)
        (writing_of K.held K.faults out.old) (writing_of K.held K.faults out.new) result.status result.heap
        ⊎ ((result.status ≡ Status.NoMemory) × (source.new ≡ source.old))) }
    ensures decided { IfOk arguments (λ given. Decides (map string_bytes (drop 1 (into_iter_items given)))
        (reading_of S.left S.given S.faults source.old) (reading_of S.left S.given S.faults source.new)
        (writing_of K.held K.faults out.old) (writing_of K.held K.faults out.new) result.status) }

    // Without words memory was refused, or a word is no text, and no command line has such a word.
    ensures no_words { IfErr arguments (λ why. (result.status ≡ status_without_words (error_kind why))
        × (source.new ≡ source.old)) }

    ensures spares { Spares source.old source.new out.old out.new result.status result.heap }
    ensures line { Tells (writing_of E.held E.faults err.old) (writing_of E.held E.faults err.new)
        (line_of result.status) }
{
    match words_of(alloc, arguments) {
        Ok(words) => run_still(alloc, words.as_slice(), source, out, err),
        Err(status) => {
            tell(status, err);
            Outcome::refused(status)
        }
    }
}

// The words of the command line, or how a run ends that has none.
fn words_of(alloc: Global, arguments: io::Result<Args>) -> Result<Vec<String>, Status>
    ensures given { IfOk arguments (λ given. MatchResult result
        (λ words. words.items ≡ drop 1 (into_iter_items given)) (λ status. status ≡ Status.NoMemory)) }
    ensures refused { IfErr arguments (λ why. result ≡ Err (status_without_words (error_kind why))) }
{
    match arguments {
        Ok(given) => match given.skip(1).collect(alloc) {
            Ok(words) => Ok(words),
            Err(_) => Err(Status::NoMemory),
        },
        Err(why) => Err(status_without(why.kind())),
    }
}

// How a run ends for which the system gave no words.
fn status_without(kind: io::ErrorKind) -> Status
    ensures { result ≡ status_without_words kind }
{
    match kind {
        io::ErrorKind::OutOfMemory => Status::NoMemory,
        _ => Status::Usage,
    }
}
