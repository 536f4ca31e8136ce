//! How nodes, mutators and the empty graph are made.
ghost use Rattle.std.specs.Prelude.{◌≡◌, IfOk, None};
ghost use Rattle.bal_model.specs.Plain.{start, idle, new_object, new_array};
ghost use Rattle.bal_model.specs.Graph.{object_of, mutator_of};

use crate::{Mutator, Node, Plain};
use bal_base::{NoMemory, filled};
use bal_layout::{GLOBALS, Kind, Name, REGISTERS, THREADS};
use std::alloc::Global;

// A mutator that has done nothing yet.
fn idle_mutator(alloc: Global) -> Result<Mutator, NoMemory>
    ensures { IfOk result (λ m. mutator_of m ≡ idle) }
{
    Ok(Mutator {
        registers: filled(alloc, None, REGISTERS as usize)?,
        made: Vec::new(alloc),
    })
}

/// The empty graph.
pub fn start_plain(alloc: Global) -> Result<Plain, NoMemory>
    ensures { IfOk result (λ state. state ≡ start) }
{
    let mut mutators = Vec::with_capacity(alloc, THREADS as usize)?;
    for _ in 0..THREADS {
        mutators.push(idle_mutator(alloc)?)?;
    }
    Ok(Plain {
        alloc,
        mutators,
        globals: filled(alloc, None, GLOBALS as usize)?,
    })
}

// A new node, with null references and zero values.
pub(crate) fn new_node(alloc: Global, refs: u32, values: u32) -> Result<Node, NoMemory>
    ensures { IfOk result (λ n. object_of n ≡ new_object refs values) }
{
    Ok(Node {
        kind: Kind::Plain,
        refs: filled(alloc, None, refs as usize)?,
        values: filled(alloc, 0, values as usize)?,
    })
}

// A new array, with null references.
pub(crate) fn new_array_node(alloc: Global, len: u32) -> Result<Node, NoMemory>
    ensures { IfOk result (λ n. object_of n ≡ new_array len) }
{
    Ok(Node {
        kind: Kind::Array,
        refs: filled(alloc, None, len as usize)?,
        values: filled(alloc, 0, 0)?,
    })
}
