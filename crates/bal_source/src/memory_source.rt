//! A source in memory with faults at chosen calls.
ghost use Rattle.std.specs.Prelude.{◌≡◌, ◌++◌, ◌≤◌, length, take, drop, Some, ◌↔◌, IsTrue, IsErr, IfOk, OnErr};
ghost use Rattle.std.specs.Io.KnownBytes.{ReadConsumes};
ghost use Rattle.bal_source.specs.Memory.{portion, after_giving, fails_next, after_call, after_fault};

use crate::schedule::Schedule;
use crate::{Failed, Source, SureSource};
use bal_base::Items;
use std::marker::Model;

/// A source in memory whose reads fail at calls chosen before, and at no others.
#[derive(Drop)]
pub struct MemorySource {
    supply: SureSource,
    schedule: Schedule,
}

impl Model for MemorySource {
    ghost use Rattle.bal_source.specs.Memory.{FailingSupply};

    ghost Value = { FailingSupply };

    ghost view = { λ s. record { supply = s.supply; schedule = s.schedule } };
}

impl MemorySource {
    /// A source of these bytes that gives at most `piece` of them in one read. The reads whose numbers stand in
    /// `fails` fail, counted from 1.
    pub fn make(bytes: Items<u8>, piece: u32, fails: Items<u64>) -> MemorySource
        requires { 1 ≤ piece }
        ensures supply { result.supply ≡ record { left = bytes.list; piece = piece; given = 0 } }
        ensures schedule { result.schedule ≡ record { calls = 0; fails = fails.list; faults = 0 } }
    {
        MemorySource {
            supply: SureSource::make(bytes, piece),
            schedule: Schedule::make(fails),
        }
    }
}

impl Source for MemorySource {
    ghost left = { λ s. Some s.supply.left };

    ghost given = { λ s. s.supply.given };

    ghost faults = { λ s. s.schedule.faults };

    fn read(&mut self, into: &mut [u8]) -> Result<usize, Failed>
        ensures bytes { ReadConsumes (Some self.old.supply.left) (Some self.new.supply.left) result into.new }
        ensures fails { IsErr result ↔ IsTrue (fails_next self.old.schedule) }
        ensures ok { IfOk result (λ n. (n ≡ portion self.old.supply (length into.old))
            × (self.new.supply ≡ after_giving self.old.supply n)
            × (self.new.schedule ≡ after_call self.old.schedule)
            × (into.new ≡ take n self.old.supply.left ++ drop n into.old)) }
        ensures err { OnErr result ((self.new.supply ≡ self.old.supply)
            × (self.new.schedule ≡ after_fault self.old.schedule) × (into.new ≡ into.old)) }
    {
        if self.schedule.call_fails() {
            self.schedule.count_fault();
            return Err(Failed);
        }
        self.supply.read(into)
    }
}
