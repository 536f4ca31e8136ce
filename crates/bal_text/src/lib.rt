//! The text of a journal, written and read: a line for each event.
#![tactic(auto)]

mod laws;
mod reader;
mod writer;

pub use laws::{a_text_is_one_journal, no_journal_has_a_bad_line, the_first_bad_line_is_one};
pub use reader::{JournalFault, read_journal};
pub use writer::{render, write_text};
