//! The whole way of a replay: the words of the command line and the bytes of a trace in, the text of its journal out.
//! `run_process` is the top call: the process hands it what the system gives, and ends with its status.
#![tactic(auto)]

mod driver;
mod process;
mod run;
mod status;
#[cfg(test)]
mod stepping;
#[cfg(test)]
mod tests;

pub use bal_base::NoMemory;
pub use driver::execute;
pub use process::run_process;
pub use run::{Outcome, run_still};
pub use status::Status;
