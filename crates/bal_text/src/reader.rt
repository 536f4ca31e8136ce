//! The journal that a text is of, line by line.
//!
//! Each line is read from the front of the text that is left, in one pass: `pieces` reads numbers and names, `answers` what
//! rows answered, `rows` the lines of rows and notes, which are most, `items` the items of lists, `order` lists that ascend,
//! and `collections` the lines that have lists. Each function gives what stands at the front of a text and what stands after
//! it, and none exactly if no such thing stands there.
ghost use Rattle.std.specs.Prelude.{◌≡◌, ◌<◌, ◌^◌, OnOk, IfOk, MatchResult, ◌++◌, ◌∷◌, [], length, option_map};
ghost use Rattle.bal_model.specs.Entries.{entries_of, entry_of};
ghost use Rattle.bal_text.specs.Grammar.{first_of};
ghost use Rattle.bal_text.specs.Texts.{IsFault, IsJournal};

mod answers;
mod collections;
mod items;
mod order;
mod pieces;
mod rows;

use bal_model::{Event, Items, Journal, NoMemory};
use collections::collection_at;
use rows::{note_at, row_at};
use std::alloc::Global;

/// Why a text has no journal: the first line that is no event's, counted from 1, or out of memory.
#[derive(Clone, Copy)]
pub enum JournalFault {
    Line(u32),
    NoMemory,
}

impl From<NoMemory> for JournalFault {
    ghost use Rattle.bal_text.specs.declared.reader.JournalFault.TheVariants as fault;

    ghost from_gives = { λ _ given. given ≡ fault.NoMemory };

    fn from(_: NoMemory) -> JournalFault {
        JournalFault::NoMemory
    }
}

/// Appends an item.
fn append<T: Drop>(items: &mut Items<T>, item: T) -> Result<(), NoMemory>
    ensures ok { OnOk result (items.new.list ≡ items.old.list ++ item ∷ []) }
{
    items.reserve(1)?;
    items.push(item);
    Ok(())
}

/// The event of a text's first line, and what stands after the line. Most lines are rows: what reads these is inlined here,
/// so that an event goes straight to the journal. What is read elsewhere is taken apart once more: given on as a whole, it
/// would share a place in memory with the rows, which would then be kept there instead of in registers.
#[inline(always)]
#[tactic(auto, unfolding(crate::specs::Grammar::first_of))]
fn read_first(alloc: Global, text: &[u8]) -> Result<Option<(Event, &[u8])>, NoMemory>
    ensures { IfOk result (λ first. option_map (λ p. (entry_of p.0, p.1.now)) first ≡ first_of text.now) }
{
    if let Some((row, rest)) = row_at(alloc, text)? {
        return Ok(Some((row, rest)));
    }
    if let Some((note, rest)) = note_at(text) {
        return Ok(Some((note, rest)));
    }
    let Some((collection, rest)) = collection_at(alloc, text)? else {
        return Ok(None);
    };
    Ok(Some((collection, rest)))
}

/// The journal that a text is of. A text that is of none has a first line that is no event's: one in no permitted
/// form, or one without a line feed.
pub fn read_journal(alloc: Global, bytes: &[u8]) -> Result<Journal, JournalFault>
    requires { length bytes.now < 2 ^ 32 }
    ensures { MatchResult result (λ journal. IsJournal bytes.now (entries_of journal)) (IsFault bytes.now) }
{
    let mut events = Items::make(alloc)?;
    let mut rest = bytes;
    while !rest.is_empty() {
        let number = events.len() as u32 + 1;
        let Some((event, behind)) = read_first(alloc, rest)? else {
            return Err(JournalFault::Line(number));
        };
        append(&mut events, event)?;
        rest = behind;
    }
    Ok(Journal { events })
}

#[cfg(test)]
mod tests;
