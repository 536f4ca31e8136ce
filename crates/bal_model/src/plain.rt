ghost use Rattle.std.specs.Prelude.{◌≡◌, ◌-◌, ◌<◌, option_map, option_copied, slice_get};
ghost use Rattle.bal_model.specs.Plain.{register, global, made_by, object};

mod change;
mod make;
mod marks;
mod reach;

use bal_base::Items;
use bal_layout::{Kind, Name};
pub use make::start_plain;
pub use reach::{kept_plain, reach_plain};
use std::alloc::Global;
use std::marker::Model;

/// An object of the plain graph: what it is, its references, and its numbers.
#[derive(Drop)]
pub struct Node {
    pub kind: Kind,
    pub refs: Items<Option<Name>>,
    pub values: Items<u64>,
}

/// The registers of a program thread, and the objects that it made: the one with ordinal o stands at o - 1.
#[derive(Drop)]
pub struct Mutator {
    pub registers: Items<Option<Name>>,
    pub made: Vec<Node>,
}

/// The plain graph, without addresses: 32 threads with 32 registers each, 64 globals, and every object that was ever
/// made.
#[derive(Drop)]
pub struct Plain {
    alloc: Global,
    mutators: Vec<Mutator>,
    globals: Items<Option<Name>>,
}

impl Model for Plain {
    ghost use Rattle.bal_model.specs.Plain.{State};

    ghost Value = { State };

    ghost use Rattle.bal_model.specs.Graph.{graph_of, IsGraph};

    ghost view = { graph_of };

    ghost invariant = { IsGraph };
}

// The node with that ordinal among those that a thread made.
fn node_at(made: &[Node], ordinal: u32) -> Option<&Node>
    requires { 0 < ordinal }
    ensures { option_copied result ≡ slice_get made.now (ordinal - 1) }
{
    made.get(ordinal as usize - 1)
}

impl Plain {
    ghost use Rattle.bal_model.specs.Graph.{object_of};

    /// The object of that name, or None exactly if there is none.
    pub fn node(&self, name: Name) -> Option<&Node>
        ensures { option_map object_of (option_copied result) ≡ object self.now name }
    {
        let thread = name.thread as usize;
        if thread >= self.mutators.len() || name.ordinal == 0 {
            return None;
        }
        let mutator = &self.mutators[thread];
        node_at(&mutator.made, name.ordinal)
    }

    /// What a thread's register holds.
    pub fn register(&self, thread: u32, number: u32) -> Option<Name>
        requires thread { thread < 32 }
        requires number { number < 32 }
        ensures { result ≡ register self.now thread number }
    {
        let mutator = &self.mutators[thread as usize];
        mutator.registers.as_slice()[number as usize]
    }

    /// What a global holds.
    pub fn global(&self, number: u32) -> Option<Name>
        requires { number < 64 }
        ensures { result ≡ global self.now number }
    {
        self.globals.as_slice()[number as usize]
    }

    /// How many objects a thread has made.
    pub fn made(&self, thread: u32) -> u32
        requires { thread < 32 }
        ensures { result ≡ made_by self.now thread }
    {
        self.mutators[thread as usize].made.len() as u32
    }
}
