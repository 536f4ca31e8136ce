//! The program: it hands the words and the standard streams to the top call, and ends with its status.
#![tactic(auto)]

use bal_replay::run_process;
use bal_source::{InSource, OutSink};
use std::env;
use std::mem::forget;
use std::process::ExitCode;

fn main(rt: HostRuntime) -> ExitCode {
    let outcome = run_process(
        rt.alloc(),
        env::args(&rt),
        &mut InSource::make(rt.stdin()),
        &mut OutSink::make(rt.stdout()),
        &mut OutSink::make(rt.stderr()),
    );
    let status = outcome.status.number();
    // The process ends here, and all its memory with it: to take the heap and its journal apart before that, event by
    // event, would be time spent for nothing.
    forget(outcome);
    ExitCode::from(status)
}
