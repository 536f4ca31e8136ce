ghost use Rattle.std.specs.Prelude.{◌≡◌};

use crate::{Bits, Items, Steps, push_number, read_number};
use std::marker::Brand;
use std::process::Abort;
use std::sync::ledger::{Blank, Ledger};
use std::test::Fail;

// A number, or none.
fn finds(rt: &impl Abort, found: Option<u32>, expected: Option<u32>) {
    assert_eq!(rt; found, expected);
}

// A word's number, or none.
fn reads(rt: &impl Abort, found: Option<u64>, expected: Option<u64>) {
    assert_eq!(rt; found, expected);
}

// Bytes of a text.
fn says(rt: &impl Abort, found: &[u8], expected: &[u8]) {
    assert!(rt; found == expected);
}

// What may be sent to other threads, and be read by several at once.
fn crosses<T: Send + Sync>() {}

#[test]
fn lists_and_sets_may_cross_threads() {
    crosses::<Items<u64>>();
    crosses::<Bits>();
}

#[test]
fn members_are_found_from_both_sides(rt: HostRuntime) -> Result<(), Fail> {
    let mut bits = Bits::make(rt.alloc(), 1000)?;
    bits.insert(200);
    bits.insert(5);
    bits.insert(63);
    bits.insert(64);
    bits.insert(999);
    bits.insert(64);
    for (number, next, last) in [
        (0, Some(5), None),
        (5, Some(5), Some(5)),
        (6, Some(63), Some(5)),
        (63, Some(63), Some(63)),
        (64, Some(64), Some(64)),
        (65, Some(200), Some(64)),
        (201, Some(999), Some(200)),
        (999, Some(999), Some(999)),
        (1000, None, Some(999)),
        (u32::MAX, None, Some(999)),
    ] {
        finds(&rt, bits.next_from(number), next);
        finds(&rt, bits.last_to(number), last);
    }
    bits.remove(64);
    bits.remove(65);
    bits.remove(u32::MAX);
    finds(&rt, bits.next_from(64), Some(200));
    finds(&rt, bits.last_to(199), Some(63));
    for (number, is) in [
        (5, true),
        (64, false),
        (65, false),
        (999, true),
        (1000, false),
    ] {
        assert!(rt; bits.contains(number) == is);
    }
    bits.clear();
    finds(&rt, bits.next_from(0), None);
    finds(&rt, bits.last_to(u32::MAX), None);
    Ok(())
}

#[test]
fn a_number_has_one_spelling(rt: HostRuntime) {
    for (word, number) in [
        ("0", Some(0)),
        ("7", Some(7)),
        ("18446744073709551615", Some(u64::MAX)),
        ("18446744073709551616", None),
        ("123456789012345678901", None),
        ("00", None),
        ("01", None),
        ("", None),
        ("+1", None),
        ("1a", None),
        (" ", None),
    ] {
        reads(&rt, read_number(word.as_bytes()), number);
    }
}

#[test]
fn a_number_is_written_in_decimal(rt: HostRuntime) -> Result<(), Fail> {
    let mut text = Items::make(rt.alloc())?;
    for (number, word) in [
        (0, "0"),
        (9, "9"),
        (10, "10"),
        (u64::MAX, "18446744073709551615"),
    ] {
        text.clear();
        push_number(&mut text, number)?;
        says(&rt, text.as_slice(), word.as_bytes());
    }
    push_number(&mut text, 7)?;
    says(&rt, text.as_slice(), "184467440737095516157".as_bytes());
    Ok(())
}

#[test]
fn items_stay_in_order(rt: HostRuntime) -> Result<(), Fail> {
    let mut items = Items::<u32>::make(rt.alloc())?;
    assert!(rt; items.is_empty());
    items.reserve(3)?;
    items.push(1);
    items.extend_from_slice(&[2, 3]);
    items.set(0, 7);
    items.as_mut_slice()[2] = 9;
    assert!(rt; items.as_slice() == [7, 2, 9].as_slice());
    finds(&rt, items.get(1).copied(), Some(2));
    finds(&rt, items.pop(), Some(9));
    assert!(rt; items.len() == 2);
    items.clear();
    assert!(rt; items.is_empty());
    Ok(())
}

// Takes two steps, which no code counts.
fn two_steps<L: Ledger>(blank: Blank)
    requires name { blank.name ≡ L.name }
    requires parts { blank.parts ≡ L.parts }
    requires one { blank.parts ≡ 1 }
{
    let mut steps = Steps::<L>::start(blank);
    steps.tick();
    steps.tick();
}

#[test]
fn steps_are_counted_by_whoever_has_a_ledger(rt: HostRuntime) {
    two_steps::<Brand>(Blank::new(1));
    assert!(rt; size_of::<Steps<Brand>>() == 0);
}
