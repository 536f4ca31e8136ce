//! What takes a text piece by piece. Its faults stick, so whoever writes a text asks once, at the end, whether all of it
//! arrived.
ghost use Rattle.std.specs.Prelude.{◌≡◌, ℕ, List, [], ◌++◌, IfOk, MatchResult, false, true};
ghost use Rattle.bal_base.specs.Text.{Writes};

use crate::{Items, NoMemory};
use std::alloc::Global;
use std::marker::Model;

/// What takes a text piece by piece.
pub trait Text {
    /// Since the first state, and up to the other one, this text was appended, or as much of it as arrived before a fault.
    ghost tells: { Self → Self → List ℕ → Type 0 };

    /// Appends a piece.
    fn append(&mut self, piece: &[u8])
        ensures { Writes tells self.old self.new piece.now };
}

/// A text in memory, which grows as it is written. Running out of memory is its fault.
#[derive(Drop)]
pub struct Growing {
    text: Items<u8>,
    refused: bool,
}

impl Model for Growing {
    ghost use Rattle.bal_base.specs.Text.{Grown};

    ghost Value = { Grown };

    ghost view = { λ g. record { text = g.text.list; refused = g.refused } };
}

impl Growing {
    /// An empty text.
    pub fn make(alloc: Global) -> Result<Growing, NoMemory>
        ensures { IfOk result (λ g. g ≡ record { text = []; refused = false }) }
    {
        Ok(Growing {
            text: Items::make(alloc)?,
            refused: false,
        })
    }

    /// The text, if no piece of it was refused. Memory may be refused for any piece.
    pub fn finish(self) -> Result<Items<u8>, NoMemory>
        ensures { MatchResult result
            (λ text. (self.refused ≡ false) × (text.list ≡ self.text))
            (λ _. self.refused ≡ true) }
    {
        if self.refused {
            return Err(NoMemory);
        }
        Ok(self.text)
    }
}

impl Text for Growing {
    ghost use Rattle.bal_base.specs.Text.{grows_by};

    ghost tells = { grows_by };

    fn append(&mut self, piece: &[u8]) {
        if self.refused {
            return;
        }
        if self.text.append(piece).is_err() {
            self.refused = true;
        }
    }
}
