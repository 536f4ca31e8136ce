//! Compaction: the objects that are left are packed together, from the lowest region on, so that whole regions are free behind
//! them. A global collection compacts once it has swept.
//!
//! 1. It is planned where each object goes, with no object moved.
//! 2. Region by region the objects are moved, in the order of their addresses: down in their region, or to the end of a lower
//!    one. A region that has objects then is as old as the oldest region from which one came, and one without is free.
//! 3. The region that was packed last takes new objects, and is eden.
//! 4. References and roots are mended.
//!
//! Each object is moved once, by one copy of its words, and each reference is mended once. No memory is taken.
#![tactic(auto)]

ghost use Rattle.std.specs.Prelude.{◌≡◌, ℕ, ◌*◌, ◌≤◌, [], All, length, map};
ghost use Rattle.bal_compact.specs.Compacted.{IsCompacted};
ghost use Rattle.bal_layout.specs.Graph.{Graph};
ghost use Rattle.bal_layout.specs.Regions.{region_at};
ghost use Rattle.bal_plan.specs.Plan.{IsPlan, starts_of, told_by_plan};
ghost use Rattle.bal_remember.specs.Remembered as lists;
ghost use Rattle.bal_rules.specs.GlobalEvents.{last_packed};
ghost use Rattle.bal_table.specs.Moves.{moved_to};
ghost use Rattle.bal_table.specs.Table.{things_of};
ghost use Rattle.bal_words.specs.Moved.{word_to};
ghost use Rattle.bal_words.specs.Shown.{Finds, Shows};

mod moving;
mod packing;
#[cfg(test)]
mod tests;

use bal_base::Items;
use bal_cards::Cards;
use bal_fixup::{fix_objects, fix_roots, what_led_to_objects_may_be_mended};
use bal_model::Packed;
use bal_plan::plan;
use bal_roots::Roots;
use bal_table::{Moves, Table};
pub use packing::pack;

/// Packs all objects together, and leads each root and each reference to where its target went. No list may remember a card:
/// none would tell where references lie then.
pub fn compact(
    table: &mut Table,
    cards: &mut Cards,
    roots: &mut Roots,
    moves: &mut Moves,
    packed: &mut Items<Packed>,
)
    requires shape { cards.old.shape ≡ table.old.shape }
    requires heap { length moves.old.words ≡ table.old.shape.regions * table.old.shape.words }
    requires graph { (g : Graph) × Shows (things_of table.old) g }
    requires held { All (Finds (things_of table.old)) roots.old }
    requires lists { (q : ℕ) → (region_at table.old.regions q).remembered ≡ lists.cards [] }
    requires empty { packed.old.list ≡ [] }
    requires room { length (starts_of table.old) ≤ packed.old.spare }
    ensures plan { IsPlan table.old (moved_to moves.new) }
    ensures packed { packed.new.list ≡ told_by_plan table.old (moved_to moves.new) }
    ensures compacted { IsCompacted table.old table.new (moved_to moves.new) }
    ensures roots { roots.new ≡ map (word_to (moved_to moves.new)) roots.old }
    ensures cards { cards.new.shape ≡ cards.old.shape }
    ensures heap { length moves.new.words ≡ length moves.old.words }
{
    // It is a table: so each object has a size.
    let _ = table.geometry();
    plan(table, moves, packed);
    what_led_to_objects_may_be_mended();
    pack(table, cards, moves, last_region(packed.as_slice()));
    fix_objects(table, moves);
    fix_roots(roots, moves);
}

// The region to which the last of the objects goes.
fn last_region(packed: &[Packed]) -> Option<u32>
    ensures { result ≡ last_packed packed.now }
{
    Some(packed.last()?.region)
}
