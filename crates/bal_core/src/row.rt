//! What one worker did.
ghost use Rattle.std.specs.Prelude.{◌≡◌, ◌++◌, ◌∷◌, [], IfOk, OnErr, OnOk};
ghost use Rattle.bal_core.specs.World.{blank};
ghost use Rattle.bal_core.specs.Steps.{knowing, raising, winning};

use crate::Decision;
use bal_base::{Items, NoMemory};
use std::alloc::Global;
use std::marker::Model;

/// An object, and what was decided of it.
#[derive(Clone, Copy)]
pub struct Told {
    pub object: u32,
    pub decision: Decision,
}

/// A region that was drawn: its place in the pool, its number, and the age of the copies that go there.
#[derive(Clone, Copy)]
pub struct Drawn {
    pub ordinal: u64,
    pub region: u32,
    pub age: u8,
}

/// What a worker knows, won and drew, whether its last draw gave none, and what it knows of the abort.
#[derive(Drop)]
pub(crate) struct CoreRow {
    pub(crate) known: Items<Told>,
    pub(crate) won: Items<Told>,
    pub(crate) drawn: Items<Drawn>,
    pub(crate) dry: bool,
    pub(crate) raised: bool,
    pub(crate) saw: bool,
}

impl Model for CoreRow {
    ghost use Rattle.bal_core.specs.World.{Row};

    ghost Value = { Row };

    ghost view = { λ r. record {
      known = r.known.list;
      won = r.won.list;
      drawn = r.drawn.list;
      dry = r.dry;
      raised = r.raised;
      saw = r.saw;
    } };
}

impl CoreRow {
    /// A worker that did nothing yet.
    pub(crate) fn make(alloc: Global) -> Result<CoreRow, NoMemory>
        ensures { IfOk result (λ r. r ≡ blank) }
    {
        Ok(CoreRow {
            known: Items::make(alloc)?,
            won: Items::make(alloc)?,
            drawn: Items::make(alloc)?,
            dry: false,
            raised: false,
            saw: false,
        })
    }

    /// It is told of a decision.
    pub(crate) fn know(&mut self, object: u32, decision: Decision) -> Result<(), NoMemory>
        ensures ok { OnOk result (self.new ≡ knowing object decision self.old) }
        ensures err { OnErr result (self.new ≡ self.old) }
    {
        self.known.reserve(1)?;
        self.known.push(Told { object, decision });
        Ok(())
    }

    /// It wins an object.
    pub(crate) fn win(&mut self, object: u32, decision: Decision) -> Result<(), NoMemory>
        ensures ok { OnOk result (self.new ≡ winning object decision self.old) }
        ensures err { OnErr result (self.new ≡ self.old) }
    {
        self.known.reserve(1)?;
        self.won.reserve(1)?;
        self.known.push(Told { object, decision });
        self.won.push(Told { object, decision });
        Ok(())
    }

    /// It draws a region.
    pub(crate) fn draw(&mut self, drawn: Drawn) -> Result<(), NoMemory>
        ensures ok { OnOk result (self.new ≡ record self.old { drawn = self.old.drawn ++ drawn ∷ [] }) }
        ensures err { OnErr result (self.new ≡ self.old) }
    {
        self.drawn.reserve(1)?;
        self.drawn.push(drawn);
        Ok(())
    }

    /// It raises the abort.
    pub(crate) fn raise(&mut self)
        ensures { self.new ≡ raising self.old }
    {
        self.raised = true;
        self.saw = true;
    }
}
