//! The text of a journal: one line for each event, of words with one space between them.
//!
//! A line is put together from its end, since the last digit of a number is found first: its line feed, its last word,
//! and so on up to its first word, each in front of the others. What begins a line has no space before it, and every
//! other word brings its own: so no space stands before a line feed, and no two together. A line without a list is one
//! piece of the text. A list may be of any length: its items are pieces of their own, and so is what stands before it and
//! after it.
ghost use Rattle.std.specs.Prelude.{◌≡◌, ◌++◌, IfOk, codes, flat_map};
ghost use Rattle.bal_base.specs.Text.{Writes};
ghost use Rattle.bal_model.specs.Entries.{entry_of, entries_of, reply_of, spot_of, row, note, partial, global};
ghost use Rattle.bal_model.specs.Text.{abort_words, journal_text, line as line_of, name_words, spaced};
ghost use Rattle.bal_text.specs.Writing.{placed_leaves};

pub mod words;

use bal_base::{Growing, Line, Text};
use bal_model::{
    Abort, Answer, Event, Items, Journal, Kept, Name, NoMemory, Op, Packed, PartialCollection,
};
use std::alloc::Global;
use words::{Words, put_note, put_one, put_row};

/// The text of a journal: a line for each event.
pub fn render(alloc: Global, journal: &Journal) -> Result<Items<u8>, NoMemory>
    ensures { IfOk result (λ text. text.list ≡ journal_text (entries_of journal.now)) }
{
    let mut line = Line::make(alloc)?;
    let mut text = Growing::make(alloc)?;
    write_text(journal, &mut line, &mut text);
    text.finish()
}

/// Writes a journal's text, a line for each event. What is put together before it is written goes through `line`, so there
/// is no answer for refused memory here.
pub fn write_text<T: Text>(journal: &Journal, line: &mut Line, text: &mut T)
    ensures { Writes T.tells text.old text.new (journal_text (entries_of journal.now)) }
{
    for event in journal.events.as_slice() {
        push_event(line, text, event);
    }
}

// An event's line.
#[tactic(auto, unfolding(bal_model::specs::Text::line))]
fn push_event<T: Text>(line: &mut Line, text: &mut T, event: &Event)
    ensures { Writes T.tells text.old text.new (line_of (entry_of event.now)) }
{
    match event {
        Event::Row {
            thread,
            number,
            op,
            answer,
        } => push_row(line, text, *thread, *number, op, answer),
        Event::Note {
            region,
            card,
            holder,
            slot,
        } => push_note(line, text, *region, *card, holder, *slot),
        Event::Partial(did) => push_partial(line, text, did),
        Event::Begin => text.append(b"begin\n"),
        Event::Mark { names } => push_named(line, text, b"mark", names.as_slice()),
        Event::End { dead } => push_named(line, text, b"end dead", dead.as_slice()),
        Event::Global { dead, packed } => push_global(line, text, dead, packed),
    }
}

// A row's line. The leaves of an arraylet are a list; any other row is one piece.
fn push_row<T: Text>(
    line: &mut Line,
    text: &mut T,
    thread: u32,
    number: u32,
    op: &Op,
    answer: &Answer,
)
    ensures { Writes T.tells text.old text.new
        (line_of (row thread number op.now (reply_of answer.now) (spot_of answer.now))) }
{
    let leaves = leaves_of(answer);
    line.clear();
    if leaves.is_empty() {
        line.put(b"\n");
        put_row(line, thread, number, op, answer);
        text.append(line.as_slice());
        return;
    }
    line.put(b" leaves");
    put_row(line, thread, number, op, answer);
    text.append(line.as_slice());
    push_items(line, text, leaves);
    text.append(b"\n");
}

// The leaf regions of an arraylet; another object has none.
fn leaves_of(answer: &Answer) -> &[u32]
    ensures { result.now ≡ placed_leaves (spot_of answer.now) }
{
    match answer {
        Answer::Arraylet { leaves, .. } => leaves.as_slice(),
        Answer::Replied(_) | Answer::Placed { .. } => &[],
    }
}

// A card that was noted for a region, and the reference that it was noted for.
#[tactic(auto, unfolding(bal_model::specs::Text::line))]
fn push_note<T: Text>(
    line: &mut Line,
    text: &mut T,
    region: u32,
    card: u32,
    holder: &Name,
    slot: u32,
)
    ensures { Writes T.tells text.old text.new (line_of (note region card holder.now slot)) }
{
    line.clear();
    line.put(b"\n");
    put_note(line, region, card, holder, slot);
    text.append(line.as_slice());
}

// A partial collection.
fn push_partial<T: Text>(line: &mut Line, text: &mut T, did: &PartialCollection)
    ensures { Writes T.tells text.old text.new
        (line_of (partial did.now.chosen.list did.now.scans did.now.kept.list did.now.aborts.list)) }
{
    text.append(b"partial chosen");
    push_items(line, text, did.chosen.as_slice());
    line.clear();
    line.put(b" kept");
    put_one(line, b" scans", did.scans);
    text.append(line.as_slice());
    push_items(line, text, did.kept.as_slice());
    push_aborts(line, text, did.aborts.as_slice());
    text.append(b"\n");
}

// Why an evacuation was abandoned, if it was.
fn push_aborts<T: Text>(line: &mut Line, text: &mut T, aborts: &[Abort])
    ensures { Writes T.tells text.old text.new (spaced (abort_words aborts.now)) }
{
    if aborts.is_empty() {
        return;
    }
    text.append(b" abort");
    push_items(line, text, aborts);
}

// A line of names, after what begins it.
fn push_named<T: Text>(line: &mut Line, text: &mut T, begins: &[u8], names: &[Name])
    ensures { Writes T.tells text.old text.new (begins.now ++ spaced (name_words names.now) ++ codes "\n") }
{
    text.append(begins);
    push_items(line, text, names);
    text.append(b"\n");
}

// A global collection.
fn push_global<T: Text>(line: &mut Line, text: &mut T, dead: &Items<Name>, packed: &Items<Packed>)
    ensures { Writes T.tells text.old text.new (line_of (global dead.now.list packed.now.list)) }
{
    text.append(b"global dead");
    push_items(line, text, dead.as_slice());
    text.append(b" packed");
    push_items(line, text, packed.as_slice());
    text.append(b"\n");
}

// The words of each item, in order.
fn push_items<W: Words, T: Text>(line: &mut Line, text: &mut T, items: &[W])
    ensures { Writes T.tells text.old text.new (spaced (flat_map W.words items.now)) }
{
    for item in items {
        line.clear();
        item.put(line);
        text.append(line.as_slice());
    }
}

#[cfg(test)]
mod tests;
