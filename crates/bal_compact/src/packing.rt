//! Objects are moved to where a plan has them, and the regions are what their objects make them.
ghost use Rattle.std.specs.Prelude.{◌≡◌, ℕ, ◌+◌, ◌*◌, ◌<◌};
ghost use Rattle.bal_compact.specs.Compacted.{IsPacked, last_target};
ghost use Rattle.bal_compact.specs.Packing.{IsMovedTo, MayBePacked};
ghost use Rattle.bal_plan.specs.Plan.{words_into};
ghost use Rattle.bal_table.specs.Moves.{moved_to};
ghost use Rattle.bal_table.specs.Table.{Table};

use crate::moving::move_object;
use bal_barrier::free_region;
use bal_cards::Cards;
use bal_table::{Moves, Table};

/// Moves all objects by a plan, of which the last one goes to this region. The regions that have objects then take no others
/// but the last one, which is eden.
pub fn pack(table: &mut Table, cards: &mut Cards, moves: &Moves, last: Option<u32>)
    requires shape { cards.old.shape ≡ table.old.shape }
    requires may { MayBePacked table.old (moved_to moves.now) }
    requires last { last ≡ last_target table.old (moved_to moves.now) }
    ensures packed { IsPacked table.old table.new (moved_to moves.now) }
    ensures cards { cards.new.shape ≡ cards.old.shape }
{
    table.set_current(None);
    for region in 0..table.geometry().regions() {
        let words = move_region(table, region, moves);
        leave_region(table, cards, region, words);
    }
    open_last(table, last);
}

// Moves the objects of a region, and answers how many words those take that stay in it.
fn move_region(table: &mut Table, region: u32, moves: &Moves) -> u32
    requires within { region < table.old.shape.regions }
    requires moving { (before : Table) × IsMovedTo before table.old (moved_to moves.now) region (region * table.old.shape.words) }
    ensures moving { (before : Table) → IsMovedTo before table.old (moved_to moves.now) region (region * table.old.shape.words)
        → IsMovedTo before table.new (moved_to moves.now) region ((region + 1) * table.old.shape.words) }
    ensures words { (before : Table) → IsMovedTo before table.old (moved_to moves.now) region (region * table.old.shape.words)
        → result ≡ words_into before (moved_to moves.now) ((region + 1) * table.old.shape.words) region }
{
    let geometry = table.geometry();
    let mut words = 0;
    let mut at = 0;
    while let Some(offset) = table.region(region).first_from(at) {
        words += move_object(table, region, offset, moves);
        at = offset + 1;
    }
    words
}

// What becomes of a region once its objects were moved: if so many words of objects are in it, it has no others, and without
// any it is free.
fn leave_region(table: &mut Table, cards: &mut Cards, region: u32, words: u32)
    requires within { region < table.old.shape.regions }
    requires shape { cards.old.shape ≡ table.old.shape }
    requires moved { (before : Table) × (to : ℕ → ℕ) × IsMovedTo before table.old to region ((region + 1) * table.old.shape.words)
        × (words ≡ words_into before to ((region + 1) * table.old.shape.words) region) }
    ensures left { (before : Table) (to : ℕ → ℕ) → IsMovedTo before table.old to region ((region + 1) * table.old.shape.words)
        → words ≡ words_into before to ((region + 1) * table.old.shape.words) region
        → IsMovedTo before table.new to (region + 1) ((region + 1) * table.old.shape.words) }
    ensures cards { cards.new.shape ≡ cards.old.shape }
{
    if words > 0 {
        table.set_estimate(region, words);
        table.cut(region);
        // It is a table still.
        let _ = table.geometry();
        return;
    }
    if table.role(region).is_object() {
        free_region(table, cards, region);
    }
}

// The region to which the last object went takes new ones, and is eden.
fn open_last(table: &mut Table, last: Option<u32>)
    requires moved { (before : Table) × (to : ℕ → ℕ) × IsMovedTo before table.old to table.old.shape.regions (table.old.shape.regions * table.old.shape.words)
        × (last ≡ last_target before to) }
    ensures { (before : Table) (to : ℕ → ℕ) → IsMovedTo before table.old to table.old.shape.regions (table.old.shape.regions * table.old.shape.words)
        → last ≡ last_target before to → IsPacked before table.new to }
{
    if let Some(region) = last {
        table.set_age(region, 0);
        table.set_current(Some(region));
    }
}
