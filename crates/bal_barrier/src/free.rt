//! Freeing a region.
ghost use Rattle.std.specs.Prelude.{◌≡◌, ◌<◌, ◌∷◌, [], Some};
ghost use Rattle.bal_cards.specs.Cards.{without_region};
ghost use Rattle.bal_layout.specs.Regions.{freed};
ghost use Rattle.bal_table.specs.Changes.{with_freed};
ghost use Rattle.bal_barrier.specs.Coverage.{IsCovered, IsUnreferenced};

use bal_cards::Cards;
use bal_table::Table;

/// Makes a region free and empty, and takes its cards out of all lists and the card table. It is the one way in which a
/// region is freed. It is not the current one.
pub fn free_region(table: &mut Table, cards: &mut Cards, region: u32)
    requires within { region < table.old.shape.regions }
    requires current { table.old.current ≡ Some region → ⊥ }
    requires shape { cards.old.shape ≡ table.old.shape }
    ensures table { table.new ≡ with_freed table.old region }
    ensures regions { table.new.regions ≡ freed table.old.shape (region ∷ []) table.old.regions }
    ensures cards { cards.new ≡ without_region region cards.old }
    ensures covered { IsUnreferenced table.old region → IsCovered table.old cards.old → IsCovered table.new cards.new }
{
    // This says that the table is one, as what is covered depends on it.
    let _ = table.geometry();
    table.give_back(region);
    cards.clean_region(region);
}
