//! The store of a reference, with the mark that it leaves on its card.
ghost use Rattle.std.specs.Prelude.{◌≡◌, ◌<◌, length};
ghost use Rattle.bal_layout.specs.Addresses.{card_of};
ghost use Rattle.bal_table.specs.Changes.{with_word_at};
ghost use Rattle.bal_table.specs.Table.{refs_in, slot_place, things_of};
ghost use Rattle.bal_words.specs.Shown.{Finds};
ghost use Rattle.bal_barrier.specs.Coverage.{IsCovered, after_store};
ghost use Rattle.bal_barrier.specs.Flush.{LeadToObjects};

use bal_cards::Cards;
use bal_layout::NULL;
use bal_table::Table;

/// Stores a reference word in a slot of the object that starts there. Its card is dirty then, unless the word is null.
pub fn store_ref(table: &mut Table, cards: &mut Cards, holder: u32, slot: u32, word: u64)
    requires slot { slot < length (refs_in (things_of table.old holder)) }
    requires shape { cards.old.shape ≡ table.old.shape }
    ensures table { table.new ≡ with_word_at table.old (slot_place table.old holder slot) word }
    ensures cards { cards.new ≡ after_store word (card_of (slot_place table.old holder slot)) cards.old }
    ensures found { Finds (things_of table.old) word → LeadToObjects table.old → LeadToObjects table.new }
    ensures covered { IsCovered table.old cards.old → IsCovered table.new cards.new }
{
    let geometry = table.geometry();
    let place = table.slot_place(holder, slot);
    table.set_word(place, word);
    if word != NULL {
        cards.dirty(geometry.card_of(place));
    }
}
