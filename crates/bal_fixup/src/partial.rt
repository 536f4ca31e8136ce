//! Mending after a partial collection. Objects went only from the chosen regions into free ones, so the references that have
//! to be mended are few:
//!
//! - those in the objects that were copied or marked: of each of their regions all objects are mended;
//! - those that lead into the chosen regions from outside: they were gathered, and are mended place by place.
//!
//! A card is dirty afterwards on which such a reference lies: the regions in which survivors lie now have no lists that know
//! of it.
ghost use Rattle.std.specs.Prelude.{◌≡◌, ℕ, ◌<◌, All, IsSome, IsTrue, List, length};
ghost use Rattle.bal_base.specs.Bits.{IsAscending};
ghost use Rattle.bal_fixup.specs.Dirtied.{BecameDirty, HasReference, HasReferenceIn, with_dirty_places};
ghost use Rattle.bal_fixup.specs.Mended.{HasSameStarts, IsReference};
ghost use Rattle.bal_fixup.specs.Mending.{MendedWhere, lies_in};
ghost use Rattle.bal_fixup.specs.Placed.{ArePlacesOutside, AreSlots, lies_among, with_mended, with_mended_at};
ghost use Rattle.bal_layout.specs.Addresses.{card_of, region_of};
ghost use Rattle.bal_layout.specs.Regions.{is_in};
ghost use Rattle.bal_table.specs.Moves.{moved_to};
ghost use Rattle.bal_table.specs.Slots.{IsSlot};
ghost use Rattle.bal_table.specs.Table.{IsTable, Table, refs_in, things_of, word_at};
ghost use Rattle.bal_words.specs.Moved.{Fixed};
ghost use Rattle.bal_words.specs.Paths.{words_in};
ghost use Rattle.bal_cards.specs.Cards.{with_dirty};

use crate::{fix_object, mended};
use bal_cards::Cards;
use bal_layout::NULL;
use bal_table::{Moves, Table};

/// Leads each reference of each object in these regions to where its target went. Each card on which such a reference lies
/// that is not null becomes dirty.
pub fn fix_regions(table: &mut Table, cards: &mut Cards, regions: &[u32], moves: &Moves)
    requires shape { cards.old.shape ≡ table.old.shape }
    requires ascending { IsAscending regions.now }
    requires within { (q : ℕ) → IsTrue (is_in q regions.now) → q < table.old.shape.regions }
    requires references { (a : ℕ) → IsTrue (lies_among table.old.shape regions.now a) → All IsReference (words_in (things_of table.old a)) }
    ensures mended { MendedWhere (things_of table.old) (things_of table.new) (lies_among table.old.shape regions.now) (moved_to moves.now) }
    ensures same { HasSameStarts table.old table.new }
    ensures dirty { BecameDirty cards.old cards.new (HasReferenceIn table.old regions.now) }
{
    // It is a table: so its slots have words of their own.
    let _ = table.geometry();
    for region in regions {
        fix_survivors(table, cards, *region, moves);
    }
}

// Mends the references of the objects of a region, and makes their cards dirty.
fn fix_survivors(table: &mut Table, cards: &mut Cards, region: u32, moves: &Moves)
    requires shape { cards.old.shape ≡ table.old.shape }
    requires within { region < table.old.shape.regions }
    requires references { (a : ℕ) → region_of table.old.shape a ≡ region → All IsReference (words_in (things_of table.old a)) }
    ensures mended { MendedWhere (things_of table.old) (things_of table.new) (lies_in table.old.shape region) (moved_to moves.now) }
    ensures same { HasSameStarts table.old table.new }
    ensures dirty { BecameDirty cards.old cards.new (HasReference table.old (λ holder number. region_of table.old.shape holder ≡ region)) }
    ensures limits { IsTable table.old }
{
    let geometry = table.geometry();
    let mut at = 0;
    while let Some(offset) = table.region(region).first_from(at) {
        let address = geometry.address(region, offset);
        dirty_object(table, cards, address);
        fix_object(table, address, moves);
        at = offset + 1;
    }
}

// Makes the cards dirty on which references of one object lie.
fn dirty_object(table: &Table, cards: &mut Cards, address: u32)
    requires object { IsSome (things_of table.now address) }
    requires shape { cards.old.shape ≡ table.now.shape }
    ensures dirty { BecameDirty cards.old cards.new (HasReference table.now (λ holder number. holder ≡ address)) }
    ensures limits { IsTable table.now }
{
    let _ = table.geometry();
    for number in 0..table.slots(address) {
        dirty_slot(table, cards, address, number);
    }
}

// Makes the card of one slot dirty, if the reference in it is not null.
fn dirty_slot(table: &Table, cards: &mut Cards, address: u32, number: u32)
    requires slot { number < length (refs_in (things_of table.now address)) }
    requires shape { cards.old.shape ≡ table.now.shape }
    ensures { BecameDirty cards.old cards.new (HasReference table.now (λ holder slot. (holder ≡ address) × (slot ≡ number))) }
{
    let geometry = table.geometry();
    let place = table.slot_place(address, number);
    if table.word(place) != NULL {
        cards.dirty(geometry.card_of(place));
    }
}

/// Leads the references at these places to where their targets went, and makes their cards dirty.
pub fn fix_places(table: &mut Table, cards: &mut Cards, places: &[u32], moves: &Moves)
    requires shape { cards.old.shape ≡ table.old.shape }
    requires slots { AreSlots table.old places.now }
    requires ascending { IsAscending places.now }
    requires references { (p : ℕ) → IsTrue (is_in p places.now) → IsReference (word_at table.old p) }
    ensures mended { table.new ≡ with_mended (moved_to moves.now) places.now table.old }
    ensures dirty { cards.new ≡ with_dirty_places places.now cards.old }
{
    // It is a table: so each place is a slot until it is mended.
    let _ = table.geometry();
    for place in places {
        fix_place(table, cards, *place, moves);
    }
}

// Leads one reference there, and makes its card dirty.
fn fix_place(table: &mut Table, cards: &mut Cards, place: u32, moves: &Moves)
    requires shape { cards.old.shape ≡ table.old.shape }
    requires slot { (a : ℕ) × (i : ℕ) × IsSlot table.old a i place }
    requires reference { IsReference (word_at table.old place) }
    ensures mended { table.new ≡ with_mended_at (moved_to moves.now) table.old place }
    ensures dirty { cards.new ≡ with_dirty (card_of place) cards.old }
{
    let geometry = table.geometry();
    if let Some(word) = mended(table.word(place), moves) {
        table.set_word(place, word);
    }
    cards.dirty(geometry.card_of(place));
}

/// When the places outside of the regions are mended and then the regions are, each reference leads to where its target went.
pub fn regions_and_places_are_all_that_is_mended()
    ensures { (t u v : Table) (regions places : List ℕ) (to : ℕ → ℕ) → IsTable t → ArePlacesOutside t regions places to
        → u ≡ with_mended to places t → MendedWhere (things_of u) (things_of v) (lies_among t.shape regions) to → Fixed (things_of t) (things_of v) to }
{}
