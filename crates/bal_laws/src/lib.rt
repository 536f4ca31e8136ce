//! Why the definitions of a legal run are the right ones: journals that were worked out by hand are runs, journals with
//! one thing wrong are none, and laws over all runs. Each stands on a function that does nothing, so that it is proved
//! with the crate. Nothing else stands on this crate.
//!
//! - `worked`: traces with their journals, from a load to a mark cycle.
//! - `refused`: the same journals with one thing wrong.
//! - `reachable`: what is in the heap after every run.
//! - `regions`: how old regions are, and what their lists may speak of.
//! - `order`: how runs are cut into paths, and what is left open.
//! - `texts`: every run has a text.
#![tactic(auto)]

pub mod order;
pub mod reachable;
pub mod refused;
pub mod regions;
pub mod texts;
pub mod worked;
