//! Whose turn it is. Each thread executes its own rows in their order; which thread goes next is the caller's choice.
ghost use Rattle.std.specs.Prelude.{◌≡◌, ◌+◌, ◌<◌, ◌≤◌, ◌^◌, [], All, IfOk, IsSome, length, vec_len};
ghost use Rattle.bal_rules.specs.Run.{rows_of};
ghost use Rattle.bal_model.specs.declared.row.Row as model;
ghost use Rattle.bal_heap.specs.Turns.{untouched, done_of, next_of, advanced};

use bal_layout::THREADS;
use bal_model::{Items, NoMemory, Row, Trace};
use std::alloc::Global;
use std::marker::Model;

// The rows of one thread: their places in the trace, ascending, and how many of them were executed.
#[derive(Drop)]
pub(crate) struct Queue {
    pub(crate) places: Items<u32>,
    pub(crate) done: u32,
}

/// The rows of a trace, and how far each thread has come in its own.
#[derive(Drop)]
pub(crate) struct Turns {
    trace: Trace,
    queues: Vec<Queue>,
}

impl Model for Turns {
    ghost use Rattle.bal_heap.specs.Turns.{Progress};

    ghost Value = { Progress };

    ghost use Rattle.bal_heap.specs.Queues.{progress_of, HasQueues};

    ghost view = { progress_of };

    ghost invariant = { HasQueues };
}

// For each thread a queue with no rows in it.
fn empty_queues(alloc: Global) -> Result<Vec<Queue>, NoMemory>
    ensures len { IfOk result (λ queues. vec_len queues ≡ 32) }
    ensures empty { IfOk result (λ queues. All (λ (q : Queue). (q.places.list ≡ []) × (q.done ≡ 0)) queues.items) }
{
    let mut queues = Vec::with_capacity(alloc, THREADS as usize)?;
    for _ in 0..THREADS {
        queues.push(Queue {
            places: Items::make(alloc)?,
            done: 0,
        })?;
    }
    Ok(queues)
}

impl Turns {
    /// No row was executed yet.
    pub(crate) fn make(alloc: Global, trace: Trace) -> Result<Turns, NoMemory>
        requires few { length trace.rows.list ≤ 2 ^ 20 }
        requires threads { All (λ (r : Row). r.thread < 32) trace.rows.list }
        ensures { IfOk result (λ turns. turns ≡ untouched trace.rows.list) }
    {
        let mut queues = empty_queues(alloc)?;
        for (place, row) in trace.rows.as_slice().iter().enumerate() {
            let queue = &mut queues[row.thread as usize];
            queue.places.reserve(1)?;
            queue.places.push(place as u32);
        }
        Ok(Turns { trace, queues })
    }

    /// The rows, in the order of the file.
    pub(crate) fn rows(&self) -> &[Row]
        ensures { result.now ≡ self.now.rows }
    {
        self.trace.rows.as_slice()
    }

    /// The next row of a thread, if it has one left.
    pub(crate) fn next(&self, thread: u32) -> Option<Row>
        requires { thread < 32 }
        ensures { result ≡ next_of self.now thread }
    {
        let queue = &self.queues[thread as usize];
        let Some(place) = queue.places.get(queue.done as usize) else {
            return None;
        };
        self.trace.rows.get(*place as usize).copied()
    }

    /// How many rows of a thread were executed.
    pub(crate) fn done(&self, thread: u32) -> u32
        requires { thread < 32 }
        ensures number { result ≡ done_of self.now thread }
        ensures most { result ≤ 2 ^ 20 }
    {
        self.queues[thread as usize].done
    }

    /// How many rows of a thread are left.
    pub(crate) fn left(&self, thread: u32) -> u32
        requires { thread < 32 }
        ensures { result + done_of self.now thread ≡ length (rows_of thread self.now.rows) }
    {
        let queue = &self.queues[thread as usize];
        queue.places.len() as u32 - queue.done
    }

    /// The next row of a thread was executed.
    pub(crate) fn advance(&mut self, thread: u32)
        requires thread { thread < 32 }
        requires next { IsSome (next_of self.old thread) }
        ensures { self.new ≡ advanced self.old thread }
    {
        let queue = &mut self.queues[thread as usize];
        queue.done += 1;
    }
}
