//! Faults at calls that are chosen before, for the source and the sink in memory.
ghost use Rattle.std.specs.Prelude.{◌≡◌};
ghost use Rattle.bal_source.specs.Causes.{raised};

use bal_base::Items;
use std::marker::Model;

/// Which calls fail. Calls are numbered from 1, and the number stays at the type's end once it is there.
#[derive(Drop)]
pub struct Schedule {
    calls: u64,
    fails: Items<u64>,
    faults: u64,
}

impl Model for Schedule {
    ghost use Rattle.bal_source.specs.Memory.{Schedule as Calls};

    ghost Value = { Calls };

    ghost view = { λ s. record { calls = s.calls; fails = s.fails.list; faults = s.faults } };
}

impl Schedule {
    ghost use Rattle.bal_source.specs.Memory.{fails_next, after_call};

    /// Before the first call.
    pub fn make(fails: Items<u64>) -> Schedule
        ensures { result ≡ record { calls = 0; fails = fails.list; faults = 0 } }
    {
        Schedule {
            calls: 0,
            fails,
            faults: 0,
        }
    }

    /// Numbers the next call, and answers whether it fails.
    pub fn call_fails(&mut self) -> bool
        ensures answer { result ≡ fails_next self.old }
        ensures called { self.new ≡ after_call self.old }
    {
        self.calls = self.calls.saturating_add(1);
        self.fails.as_slice().contains(&self.calls)
    }

    /// Counts the fault of a call that was numbered.
    pub fn count_fault(&mut self)
        ensures { self.new ≡ record self.old { faults = raised self.old.faults } }
    {
        self.faults = self.faults.saturating_add(1);
    }
}
