use crate::{Marks, Moves};
use bal_layout::Geometry;
use std::process::Abort;
use std::test::Fail;

// What may be sent to other threads, and be read by several at once.
fn crosses<T: Send + Sync>() {}

#[test]
fn marks_and_moves_may_cross_threads() {
    crosses::<Marks>();
    crosses::<Moves>();
}

// These addresses wait, one after the other, and no other does.
fn wait(rt: &impl Abort, marks: &mut Marks, expected: &[u32]) {
    for address in expected {
        assert!(rt; marks.next() == Some(*address));
    }
    assert!(rt; marks.next().is_none());
}

// Something is so.
fn holds(rt: &impl Abort, so: bool) {
    assert!(rt; so);
}

#[test]
fn marked_objects_wait_in_turn(rt: HostRuntime) -> Result<(), Fail> {
    let mut marks = Marks::make(rt.alloc(), &Geometry::new(4, 256)?)?;
    marks.add(700);
    marks.add(3);
    marks.add(700);
    wait(&rt, &mut marks, &[700, 3]);
    holds(&rt, marks.has(700));
    holds(&rt, !marks.has(4));
    marks.clear();
    holds(&rt, !marks.has(700));
    wait(&rt, &mut marks, &[]);
    Ok(())
}

// Where the object went that started at an address, or that it did not move.
fn leads(rt: &impl Abort, moves: &Moves, address: u32, expected: Option<u32>) {
    assert!(rt; moves.to(address) == expected);
}

#[test]
fn the_last_move_of_an_address_is_found(rt: HostRuntime) -> Result<(), Fail> {
    let mut moves = Moves::make(rt.alloc(), &Geometry::new(4, 256)?)?;
    moves.set(10, 20);
    moves.set(1023, 0);
    moves.set(10, 30);
    for (address, to) in [
        (10, Some(30)),
        (1023, Some(0)),
        (20, None),
        (u32::MAX, None),
    ] {
        leads(&rt, &moves, address, to);
    }
    moves.clear();
    leads(&rt, &moves, 10, None);
    leads(&rt, &moves, 1023, None);
    Ok(())
}

#[test]
fn objects_change_places_at_once(rt: HostRuntime) -> Result<(), Fail> {
    let geometry = Geometry::new(4, 256)?;
    let mut moves = Moves::make(rt.alloc(), &geometry)?;
    moves.set(1, 3);
    moves.set(3, 1);
    let mut marks = Marks::make(rt.alloc(), &geometry)?;
    marks.add(1);
    marks.add(2);
    marks.add(3);
    let first = marks.next();
    marks.remap(&[2], &moves);
    holds(&rt, first == Some(1));
    holds(&rt, marks.has(3) && !marks.has(2));
    wait(&rt, &mut marks, &[1]);
    Ok(())
}
