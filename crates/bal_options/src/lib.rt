//! The words of the command line: the command, and the options after it with their numbers.
#![tactic(auto)]

mod laws;
mod numbers;
mod setting;
#[cfg(test)]
mod tests;
mod words;

pub use laws::{replay_alone_has_the_defaults, words_give_one_configuration};
pub use words::read_words;
