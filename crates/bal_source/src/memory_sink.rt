//! A sink in memory with faults at chosen calls.
ghost use Rattle.std.specs.Prelude.{◌≡◌, ◌<◌, ◌++◌, length, take, min, Some, IsTrue, IfOk, OnErr, IsErr};
ghost use Rattle.bal_source.specs.Memory.{fails_next, after_call, after_fault};

use crate::schedule::Schedule;
use crate::{Failed, Sink};
use bal_base::Items;
use std::marker::Model;

/// A sink in memory. Its writes fail at calls chosen before, if `piece` is 0, and if memory is refused. All of these
/// are faults of the sink.
#[derive(Drop)]
pub struct MemorySink {
    held: Items<u8>,
    piece: u32,
    schedule: Schedule,
}

impl Model for MemorySink {
    ghost use Rattle.bal_source.specs.Memory.{FailingStore};

    ghost Value = { FailingStore };

    ghost view = { λ s. record { held = s.held.list; piece = s.piece; schedule = s.schedule } };
}

impl MemorySink {
    /// A sink that holds these bytes, and takes at most `piece` more in one write. The writes whose numbers stand in
    /// `fails` fail, counted from 1.
    pub fn make(held: Items<u8>, piece: u32, fails: Items<u64>) -> MemorySink
        ensures held { result.held ≡ held.list }
        ensures piece { result.piece ≡ piece }
        ensures schedule { result.schedule ≡ record { calls = 0; fails = fails.list; faults = 0 } }
    {
        MemorySink {
            held,
            piece,
            schedule: Schedule::make(fails),
        }
    }

    /// The bytes held.
    pub fn bytes(&self) -> &[u8]
        ensures { result.now ≡ self.now.held }
    {
        self.held.as_slice()
    }
}

impl Sink for MemorySink {
    ghost held = { λ s. Some s.held };

    ghost faults = { λ s. s.schedule.faults };

    fn write(&mut self, from: &[u8]) -> Result<usize, Failed>
        ensures chosen { IsTrue (fails_next self.old.schedule) → IsErr result }
        ensures no_piece { self.old.piece ≡ 0 → 0 < length from.now → IsErr result }
        ensures ok { IfOk result (λ n. (n ≡ min self.old.piece (length from.now))
            × (self.new.held ≡ self.old.held ++ take n from.now)
            × (self.new.schedule ≡ after_call self.old.schedule)) }
        ensures err { OnErr result ((self.new.held ≡ self.old.held)
            × (self.new.schedule ≡ after_fault self.old.schedule)) }
        ensures piece { self.new.piece ≡ self.old.piece }
    {
        let fails = self.schedule.call_fails();
        let count = from.len().min(self.piece as usize);
        let refuses = count == 0 && !from.is_empty();
        if fails || refuses || self.held.append(&from[..count]).is_err() {
            self.schedule.count_fault();
            return Err(Failed);
        }
        Ok(count)
    }
}
