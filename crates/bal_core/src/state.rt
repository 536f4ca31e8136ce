//! The whole state.
ghost use Rattle.std.specs.Prelude.{◌≡◌};
ghost use Rattle.bal_core.specs.Core.{IsCore};

use crate::Decision;
use crate::row::CoreRow;
use bal_layout::{Geometry, Name};
use std::marker::Model;

/// The words of the objects, the pool, the abort and the workers' rows, with the graph that they race over: with nothing said of
/// what holds between them.
#[derive(Drop)]
pub(crate) struct Race {
    pub(crate) geometry: Geometry,
    pub(crate) ages: Vec<u8>,
    pub(crate) sizes: Vec<u32>,
    pub(crate) names: Vec<Name>,
    pub(crate) targets: Vec<Vec<Option<u32>>>,
    pub(crate) roots: Vec<u32>,
    pub(crate) pool: Vec<u32>,
    pub(crate) words: Vec<Option<Decision>>,
    pub(crate) counter: u64,
    pub(crate) wished: Vec<bool>,
    pub(crate) drained: bool,
    pub(crate) crew: Vec<CoreRow>,
}

impl Model for Race {
    ghost use Rattle.std.specs.Prelude.{map};
    ghost use Rattle.bal_core.specs.World.{State};

    ghost Value = { State };

    ghost view = { λ s. record {
      world = record {
        shape = s.geometry;
        ages = s.ages.items;
        sizes = s.sizes.items;
        names = s.names.items;
        targets = map (λ slots. slots.items) s.targets.items;
        roots = s.roots.items;
        pool = s.pool.items;
      };
      words = s.words.items;
      counter = s.counter;
      wished = s.wished.items;
      drained = s.drained;
      crew = s.crew.items;
    } };
}

/// The state of an evacuation, in which the invariant of all orders holds: each word is decided once, each worker knows only what
/// it came to, each region is drawn once, copies are packed, and an abort has a cause.
#[derive(Drop)]
pub struct CoreState {
    pub(crate) race: Race,
}

impl Model for CoreState {
    ghost use Rattle.bal_core.specs.World.{State};
    ghost use Rattle.bal_core.specs.Core.{IsCore};

    ghost Value = { State };

    ghost view = { λ s. s.race };

    ghost invariant = { λ s. IsCore s.race };
}

impl CoreState {
    /// The invariant, as a fact.
    pub fn holds(&self)
        ensures { IsCore self.now }
    {
        let _ = &self.race;
    }
}
