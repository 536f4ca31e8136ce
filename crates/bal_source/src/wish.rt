//! When a worker of a partial collection is asked to stop copying. It then marks what it decides.
ghost use Rattle.std.specs.Prelude.{◌≡◌, ◌↔◌, ℕ, Option, Some, IsTrue, IfSome};
ghost use Rattle.bal_source.specs.Wishes.{IsReached, CountsAnswer};

/// Whether a worker of a partial collection is to stop copying.
pub trait Wish {
    /// How often the answer was yes.
    ghost yes: { Self → ℕ };

    /// How often the answer was no.
    ghost no: { Self → ℕ };

    /// The number of copied objects from which on the answer is yes, or none, if the wish tells that.
    ghost limit: { Self → Option (Option ℕ) };

    /// Asks, before another copy, with the number of objects that the worker copied.
    fn wish(&mut self, copied: u64) -> bool
        ensures limit { limit self.new ≡ limit self.old }
        ensures answer { IfSome (limit self.old) (λ limit. IsTrue result ↔ IsReached limit copied) }
        ensures counts { CountsAnswer result (yes self.old) (yes self.new) (no self.old) (no self.new) };
}

/// The wish of the program: to stop after so many copies of one worker, or never. The counts begin with 0.
#[derive(Clone, Copy)]
pub struct After {
    pub limit: Option<u64>,
    pub yes: u64,
    pub no: u64,
}

impl Wish for After {
    ghost yes = { λ w. w.yes };

    ghost no = { λ w. w.no };

    ghost limit = { λ w. Some w.limit };

    fn wish(&mut self, copied: u64) -> bool {
        let wished = self.limit.is_some_and(|limit| limit <= copied);
        if wished {
            self.yes = self.yes.saturating_add(1);
        } else {
            self.no = self.no.saturating_add(1);
        }
        wished
    }
}
