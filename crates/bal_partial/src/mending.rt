//! What comes after the evacuation: the chosen regions are settled, and references are led to the copies.
//!
//! 1. The chosen regions are freed, or keep just their marked objects.
//! 2. References are mended at the gathered places, which lie outside, and in the regions of survivors; and then the roots.
ghost use Rattle.std.specs.Prelude.{◌≡◌, map};
ghost use Rattle.bal_partial.specs.Collection.{Collection};
ghost use Rattle.bal_partial.specs.Mended.{IsMended};
ghost use Rattle.bal_partial.specs.Mending.{MayMend};
ghost use Rattle.bal_table.specs.Moves.{moved_to};
ghost use Rattle.bal_words.specs.Moved.{word_to};

use crate::laws::what_it_mends_may_be_mended;
use bal_cards::Cards;
use bal_fixup::{fix_places, fix_regions, fix_roots};
use bal_roots::Roots;
use bal_settle::settle;
use bal_table::{Moves, Table};

/// Settles the chosen regions of a heap into which the copies were put, and mends all references. The lists are those of the
/// collection: where the marked objects lie, the gathered places, and the regions of survivors.
pub(crate) fn mend(
    table: &mut Table,
    cards: &mut Cards,
    roots: &mut Roots,
    moves: &Moves,
    chosen: &[u32],
    marked: &[u32],
    places: &[u32],
    regions: &[u32],
)
    requires shape { cards.old.shape ≡ table.old.shape }
    requires can { (x : Collection) × MayMend x table.old roots.old moves.now chosen.now marked.now places.now regions.now }
    ensures mended { (x : Collection) → MayMend x table.old roots.old moves.now chosen.now marked.now places.now regions.now
        → IsMended x moves.now regions.now cards.old cards.new table.new }
    ensures roots { roots.new ≡ map (word_to (moved_to moves.now)) roots.old }
    ensures shape { cards.new.shape ≡ cards.old.shape }
{
    what_it_mends_may_be_mended();
    settle(table, cards, chosen, marked);
    fix_places(table, cards, places, moves);
    fix_regions(table, cards, regions, moves);
    fix_roots(roots, moves);
    // It is a table still.
    let _ = table.geometry();
}
