use crate::{Noted, RememberedList};
use std::process::Abort;
use std::test::Fail;

// What a note of a card answers on a list of at most one card.
fn answers(rt: &impl Abort, list: &mut RememberedList, card: u32, answer: Noted) {
    assert!(rt; list.note(card, 1) == answer);
}

// What may be sent to other threads, and be read by several at once.
fn crosses<T: Send + Sync>() {}

#[test]
fn a_list_may_cross_threads() {
    crosses::<RememberedList>();
}

#[test]
fn a_list_of_one_card_overflows_at_the_second(rt: HostRuntime) -> Result<(), Fail> {
    let mut list = RememberedList::make(rt.alloc())?;
    for (card, answer) in [
        (4, Noted::Added),
        (4, Noted::Known),
        (5, Noted::Overflowed),
        (4, Noted::Silent),
    ] {
        answers(&rt, &mut list, card, answer);
    }
    list.clear();
    answers(&rt, &mut list, 5, Noted::Added);
    Ok(())
}
