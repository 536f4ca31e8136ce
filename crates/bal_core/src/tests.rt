//! Steps worked out by hand, each refusal with the state as it was, and two workers in all orders.
mod holds;
mod trial;

use crate::{CoreAnswer, CoreEvent, CoreFault, CoreState, Decision, apply, run_core};
use bal_layout::Abort as Cause;
use holds::holds;
use std::alloc::Global;
use std::process::Abort;
use std::test::Fail;
use trial::{numbers_of, with_one_object, with_one_region, with_two_regions};

// A step is answered so.
fn answers(rt: &impl Abort, state: &mut CoreState, event: CoreEvent, expected: CoreAnswer) {
    assert!(rt; apply(state, &event) == Ok(expected));
}

// A step is refused so, and nothing changes.
fn refuses(
    rt: &impl Abort,
    alloc: Global,
    state: &mut CoreState,
    event: CoreEvent,
    expected: CoreFault,
) -> Result<(), Fail> {
    let before = numbers_of(alloc, &state.race)?;
    assert!(rt; apply(state, &event) == Err(expected));
    let after = numbers_of(alloc, &state.race)?;
    assert!(rt; before.as_slice() == after.as_slice());
    Ok(())
}

fn look(worker: u32, object: u32) -> CoreEvent {
    CoreEvent::Look { worker, object }
}

fn copy(worker: u32, object: u32, address: u32) -> CoreEvent {
    CoreEvent::Copy {
        worker,
        object,
        address,
    }
}

fn mark(worker: u32, object: u32) -> CoreEvent {
    CoreEvent::Mark { worker, object }
}

fn draw(worker: u32, age: u8) -> CoreEvent {
    CoreEvent::Draw { worker, age }
}

fn wish(worker: u32, wishing: u32) -> CoreEvent {
    CoreEvent::Raise {
        worker,
        cause: Cause::Wished(wishing),
    }
}

fn drained(worker: u32) -> CoreEvent {
    CoreEvent::Raise {
        worker,
        cause: Cause::Drained,
    }
}

fn raised(worker: u32) -> CoreEvent {
    CoreEvent::Raised { worker }
}

#[test]
fn what_two_workers_may_not_do_at_first(rt: HostRuntime) -> Result<(), Fail> {
    let mut state = with_one_object(rt.alloc())?;
    for (event, fault) in [
        (look(2, 0), CoreFault::Worker),
        (draw(2, 1), CoreFault::Worker),
        (raised(2), CoreFault::Worker),
        (wish(0, 1), CoreFault::Worker),
        (wish(2, 2), CoreFault::Worker),
        (look(0, 1), CoreFault::Object),
        (copy(1, 1, 1280), CoreFault::Object),
        (mark(1, u32::MAX), CoreFault::Object),
        (draw(0, 25), CoreFault::Place),
        (copy(0, 0, 1280), CoreFault::Place),
        (mark(0, 0), CoreFault::NotRaised),
        (drained(0), CoreFault::NotDrained),
    ] {
        refuses(&rt, rt.alloc(), &mut state, event, fault)?;
    }
    answers(&rt, &mut state, raised(1), CoreAnswer::Flag(false));
    answers(&rt, &mut state, look(0, 0), CoreAnswer::Seen(None));
    Ok(())
}

#[test]
fn two_workers_race_for_an_object(rt: HostRuntime) -> Result<(), Fail> {
    let mut state = with_one_object(rt.alloc())?;
    let alloc = rt.alloc();
    answers(&rt, &mut state, draw(0, 1), CoreAnswer::Drawn(Some(5)));
    answers(&rt, &mut state, draw(1, 1), CoreAnswer::Drawn(None));
    refuses(&rt, alloc, &mut state, mark(1, 0), CoreFault::NotRaised)?;
    refuses(&rt, alloc, &mut state, drained(0), CoreFault::NotDrained)?;
    answers(&rt, &mut state, drained(1), CoreAnswer::Done);
    answers(&rt, &mut state, copy(0, 0, 1280), CoreAnswer::Won);
    let lost = CoreAnswer::Lost(Decision::Copied(1280));
    answers(&rt, &mut state, mark(1, 0), lost);
    refuses(&rt, alloc, &mut state, copy(0, 1, 1284), CoreFault::Object)?;
    answers(&rt, &mut state, raised(0), CoreAnswer::Flag(true));
    assert!(&rt; holds(&state.race));
    Ok(())
}

#[test]
fn only_what_is_held_may_be_asked_for(rt: HostRuntime) -> Result<(), Fail> {
    let mut state = with_one_region(rt.alloc())?;
    let alloc = rt.alloc();
    // An open word tells nothing, so that its target is not reached yet.
    answers(&rt, &mut state, look(0, 0), CoreAnswer::Seen(None));
    for event in [look(0, 1), copy(0, 1, 1280), mark(0, 1), look(0, 2)] {
        refuses(&rt, alloc, &mut state, event, CoreFault::Unreached)?;
    }
    answers(&rt, &mut state, draw(0, 1), CoreAnswer::Drawn(Some(5)));
    answers(&rt, &mut state, copy(0, 0, 1280), CoreAnswer::Won);
    answers(&rt, &mut state, look(0, 1), CoreAnswer::Seen(None));
    // The other worker knows nothing of it, until it has asked.
    refuses(&rt, alloc, &mut state, look(1, 1), CoreFault::Unreached)?;
    answers(&rt, &mut state, wish(1, 1), CoreAnswer::Done);
    let lost = CoreAnswer::Lost(Decision::Copied(1280));
    answers(&rt, &mut state, mark(1, 0), lost);
    answers(&rt, &mut state, mark(1, 1), CoreAnswer::Won);
    let marked = CoreAnswer::Lost(Decision::Marked);
    answers(&rt, &mut state, copy(0, 1, 1284), marked);
    refuses(&rt, alloc, &mut state, look(1, 2), CoreFault::Unreached)?;
    assert!(&rt; holds(&state.race));
    Ok(())
}

#[test]
fn a_copy_goes_where_the_next_one_belongs(rt: HostRuntime) -> Result<(), Fail> {
    let mut state = with_two_regions(rt.alloc())?;
    let alloc = rt.alloc();
    answers(&rt, &mut state, draw(0, 2), CoreAnswer::Drawn(Some(5)));
    // The region has another age.
    refuses(&rt, alloc, &mut state, copy(0, 0, 1280), CoreFault::Place)?;
    answers(&rt, &mut state, draw(0, 1), CoreAnswer::Drawn(Some(3)));
    for address in [0, 764, 767, 769, 772, 1020, 1021, 1024, 1280, u32::MAX] {
        refuses(
            &rt,
            alloc,
            &mut state,
            copy(0, 0, address),
            CoreFault::Place,
        )?;
    }
    // Another worker's region.
    refuses(&rt, alloc, &mut state, copy(1, 0, 768), CoreFault::Place)?;
    answers(&rt, &mut state, copy(0, 0, 768), CoreAnswer::Won);
    refuses(&rt, alloc, &mut state, copy(0, 1, 768), CoreFault::Place)?;
    refuses(&rt, alloc, &mut state, copy(0, 1, 773), CoreFault::Place)?;
    answers(&rt, &mut state, copy(0, 1, 772), CoreAnswer::Won);
    refuses(
        &rt,
        alloc,
        &mut state,
        copy(0, 2, 776),
        CoreFault::Unreached,
    )?;
    let seen = CoreAnswer::Seen(Some(Decision::Copied(768)));
    answers(&rt, &mut state, look(1, 0), seen);
    assert!(&rt; holds(&state.race));
    Ok(())
}

#[test]
fn refused_steps_of_a_list_are_passed_over(rt: HostRuntime) -> Result<(), Fail> {
    let mut state = with_two_regions(rt.alloc())?;
    let events = [
        mark(0, 0),
        draw(1, 1),
        copy(1, 0, 1280),
        copy(1, 2, 1284),
        copy(1, 1, 1284),
        wish(0, 1),
    ];
    run_core(&mut state, &events)?;
    let words = [
        Some(Decision::Copied(1280)),
        Some(Decision::Copied(1284)),
        None,
    ];
    assert!(&rt; state.race.words.as_slice() == words.as_slice());
    assert!(&rt; state.race.counter == 1);
    Ok(())
}

// Where the worker's next copy belongs, in the region that it drew last.
fn next_place(state: &CoreState, worker: u32) -> u32 {
    let words = state.race.geometry.words();
    let Some(row) = state.race.crew.get(worker as usize) else {
        return 0;
    };
    let filled = 4 * row.won.len().min(3) as u32;
    match row.drawn.as_slice().last() {
        Some(drawn) => drawn.region.saturating_mul(words).saturating_add(filled),
        None => filled,
    }
}

// The four steps of each worker. The first one copies both objects and calls the pool drained. The second one copies an object,
// wishes to abort, and marks the other.
fn step_of(state: &CoreState, worker: u32, place: u32) -> CoreEvent {
    match (worker, place) {
        (_, 0) => draw(worker, 1),
        (_, 1) => copy(worker, 0, next_place(state, worker)),
        (0, 2) => copy(worker, 1, next_place(state, worker)),
        (0, _) => drained(worker),
        (_, 2) => wish(worker, worker),
        (_, _) => mark(worker, 1),
    }
}

// The bits of an order say whose turn it is.
fn in_order(rt: &impl Abort, state: &mut CoreState, order: u32) {
    let mut second: u32 = 0;
    for turn in 0..8u32 {
        let worker = (order >> turn) % 2;
        let first: u32 = turn.saturating_sub(second);
        let place = if worker == 0 { first } else { second };
        let event = step_of(state, worker, place);
        let _ = apply(state, &event);
        assert!(rt; holds(&state.race), "{order} {turn}");
        second = second.saturating_add(worker);
    }
}

// Each order in which each worker has four turns, with a second free region or without.
fn in_all_orders(rt: &impl Abort, alloc: Global, second: bool) -> Result<(), Fail> {
    let mut orders: u32 = 0;
    for order in 0..256u32 {
        if order.count_ones() == 4 {
            let mut state = if second {
                with_two_regions(alloc)?
            } else {
                with_one_region(alloc)?
            };
            in_order(rt, &mut state, order);
            orders = orders.saturating_add(1);
        }
    }
    assert!(rt; orders == 70);
    Ok(())
}

#[test]
fn the_invariant_holds_in_all_orders(rt: HostRuntime) -> Result<(), Fail> {
    in_all_orders(&rt, rt.alloc(), false)?;
    in_all_orders(&rt, rt.alloc(), true)
}
