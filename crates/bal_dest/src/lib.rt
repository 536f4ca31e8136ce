//! Where one worker of an evacuation copies survivors: regions, each for one age, which are filled one after the other. The
//! worker reserves words for an object, tries to win the object, and then copies it there or withdraws.
//!
//! - `buffers`: the regions of one worker.
//! - `laws`: what a commit does to their objects.
#![tactic(auto)]

mod buffers;
mod laws;
#[cfg(test)]
mod tests;

pub use buffers::Buffers;
pub use laws::a_copy_is_the_only_change;
