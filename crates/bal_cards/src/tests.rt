ghost use Rattle.std.specs.Prelude.{◌≡◌, ◌<◌, true};
ghost use Rattle.bal_layout.specs.Addresses.{cards_of};

use crate::Cards;
use bal_layout::{CARD_WORDS, Geometry};
use std::process::Abort;
use std::test::Fail;

// What may be sent to other threads, and be read by several at once.
fn crosses<T: Send + Sync>() {}

#[test]
fn a_card_table_may_cross_threads() {
    crosses::<Cards>();
}

// Whether the heap has a card of this number.
fn is_card(cards: &Cards, card: u32) -> bool
    ensures { result ≡ true → card < cards_of cards.now.shape }
{
    let geometry = cards.geometry();
    card < geometry.regions() * geometry.words() / CARD_WORDS
}

// Which cards are to be flushed, and which are to be marked.
fn has(rt: &impl Abort, cards: &Cards, list: &[u32], mark: &[u32]) {
    let mut at = 0u32;
    for card in list {
        assert_eq!(rt; cards.next_list(at), Some(*card));
        at = card.saturating_add(1);
    }
    assert_eq!(rt; cards.next_list(at), None);
    at = 0;
    for card in mark {
        assert_eq!(rt; cards.next_mark(at), Some(*card));
        at = card.saturating_add(1);
    }
    assert_eq!(rt; cards.next_mark(at), None);
}

// A region has 64 cards, as many as a word has bits.
#[test]
fn cards_are_dirty_until_they_are_cleaned(rt: HostRuntime) -> Result<(), Fail> {
    let mut cards = Cards::make(rt.alloc(), Geometry::new(4, 4096)?)?;
    has(&rt, &cards, &[], &[]);
    for card in [255, 64, 63, 128, 127, 0, 64] {
        if is_card(&cards, card) {
            cards.dirty(card);
        }
    }
    let all = [0, 63, 64, 127, 128, 255];
    has(&rt, &cards, &all, &all);
    cards.clean_list(64);
    cards.clean_list(65);
    has(&rt, &cards, &[0, 63, 127, 128, 255], &all);
    for region in [1, 3] {
        if region < cards.geometry().regions() {
            cards.clean_region(region);
        }
    }
    has(&rt, &cards, &[0, 63, 128], &[0, 63, 128]);
    cards.clean_marks();
    if is_card(&cards, 129) {
        cards.dirty_mark(129);
        cards.dirty_list(128);
    }
    has(&rt, &cards, &[0, 63, 128], &[129]);
    Ok(())
}
