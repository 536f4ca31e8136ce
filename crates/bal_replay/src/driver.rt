//! Executes a trace in the order of its file: the next row of the file is always the next one of its thread.
ghost use Rattle.std.specs.Prelude.{◌≤◌, ◌^◌, IfOk, length};
ghost use Rattle.std.specs.List.{AllByRecursion};
ghost use Rattle.bal_model.specs.Built.{IsTraceRow};
ghost use Rattle.bal_model.specs.Configs.{IsWithinLimits};
ghost use Rattle.bal_replay.specs.Outcome.{IsWholeReplay};

use bal_heap::{Heap, StepFault};
use bal_model::{Config, NoMemory, Trace};
use std::alloc::Global;

/// A heap that has executed every row of a trace, in the order of the file.
pub fn execute(alloc: Global, config: Config, trace: Trace) -> Result<Heap, NoMemory>
    requires limits { IsWithinLimits config }
    requires few { length trace.rows.list ≤ 2 ^ 20 }
    requires each_row { AllByRecursion (IsTraceRow config.geometry) trace.rows.list }
    ensures { IfOk result (IsWholeReplay config trace.rows.list) }
{
    let Ok(mut heap) = Heap::make(alloc, config, trace) else {
        return Err(NoMemory);
    };
    for place in 0..heap.rows().len() {
        let thread = heap.rows()[place].thread;
        match heap.step(thread) {
            Ok(_) => {}
            Err(StepFault::NoMemory) => return Err(NoMemory),
            Err(StepFault::Ended) => unreachable!(),
        }
    }
    Ok(heap)
}
