//! Marking at one go: the objects that registers and globals reach are marked, and no others. A global collection begins with
//! it, and then sweeps what is not marked.
//!
//! 1. All marks are cleared, and what the roots hold is marked.
//! 2. The marked objects leave the queue in the order in which they were marked, and what each refers to is marked.
//!
//! The marks are Cheney's list: those before his scan pointer were taken out of the queue, and those behind it wait. No memory
//! is taken, as the marks have room for all objects: these have two words at least.
#![tactic(auto)]

ghost use Rattle.std.specs.Prelude.{◌≡◌, ℕ, ◌*◌, ◌≤◌, ◌^◌, ◌↔◌, All, IfSome, IsSome, IsTrue, length};
ghost use Rattle.bal_layout.specs.References.{target_of};
ghost use Rattle.bal_layout.specs.Regions.{is_in};
ghost use Rattle.bal_mark.specs.Found.{AreFound};
ghost use Rattle.bal_mark.specs.Marking.{AreMarksOf, MayBeMarked, with_all_led, with_led};
ghost use Rattle.bal_table.specs.Marks.{no_marks};
ghost use Rattle.bal_table.specs.Table.{IsTable, refs_in, things_of};
ghost use Rattle.bal_words.specs.Paths.{EndsPath};
ghost use Rattle.bal_words.specs.Shown.{Finds};

#[cfg(test)]
mod tests;

use bal_layout::target_of;
use bal_roots::Roots;
use bal_table::{Marks, Table};

/// Marks the objects that can be reached from the roots. What was marked before is forgotten, and nothing waits in the queue
/// at the end.
pub fn close_marks(table: &Table, roots: &Roots, marks: &mut Marks)
    requires found { AreFound (things_of table.now) roots.now }
    requires words { marks.old.words ≡ table.now.shape.regions * table.now.shape.words }
    ensures reached { (a : ℕ) → IsTrue (is_in a marks.new.order) ↔ EndsPath (things_of table.now) roots.now a }
    ensures queue { marks.new.taken ≡ length marks.new.order }
    ensures words { marks.new.words ≡ marks.old.words }
{
    // It is a table: so its objects lie apart.
    let _ = table.geometry();
    mark_roots(table, roots, marks);
    while let Some(address) = marks.next() {
        mark_slots(table, address, marks);
    }
}

// Marks what the roots hold, and nothing else.
fn mark_roots(table: &Table, roots: &Roots, marks: &mut Marks)
    requires table { IsTable table.now }
    requires words { marks.old.words ≡ table.now.shape.regions * table.now.shape.words }
    requires found { All (Finds (things_of table.now)) roots.now }
    ensures { marks.new ≡ with_all_led (no_marks marks.old.words) roots.now }
{
    // The table says that there is room.
    let _ = table;
    marks.clear();
    for index in 0..roots.root_count() {
        mark_word(roots.root(index), marks);
    }
}

// Marks what the slots of the object refer to that starts there.
fn mark_slots(table: &Table, address: u32, marks: &mut Marks)
    requires marks { AreMarksOf table.now marks.old }
    requires object { IsSome (things_of table.now address) }
    requires found { All (Finds (things_of table.now)) (refs_in (things_of table.now address)) }
    ensures { marks.new ≡ with_all_led marks.old (refs_in (things_of table.now address)) }
{
    for slot in 0..table.slots(address) {
        mark_word(table.word(table.slot_place(address, slot)), marks);
    }
}

// Marks what a word leads to.
fn mark_word(word: u64, marks: &mut Marks)
    requires word { word ≤ 2 ^ 32 }
    requires room { IfSome (target_of word) (MayBeMarked marks.old) }
    ensures { marks.new ≡ with_led marks.old word }
{
    if let Some(address) = target_of(word) {
        marks.add(address);
    }
}
