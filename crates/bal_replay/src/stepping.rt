//! A heap by itself, in other orders than the file's.
ghost use Rattle.std.specs.Prelude.{◌≤◌};

use bal_heap::{Heap, StepFault};
use bal_layout::{Name, THREADS};
use bal_model::{Config, Event, Reply};
use bal_rows::parse_trace;
use bal_text::render;
use std::alloc::Global;
use std::process::Abort;
use std::test::Fail;

// A heap with so many eden regions that has executed no row of this trace.
fn heap_of(alloc: Global, trace: &[u8], eden: u32) -> Result<Heap, Fail>
    requires least { 1 ≤ eden }
    requires most { eden ≤ 32 }
{
    let mut config = Config::without_options();
    config.eden = eden;
    let trace = parse_trace(alloc, trace, &config.geometry)?;
    Ok(Heap::make(alloc, config, trace)?)
}

// The thread's next row replies so; or, if no reply is expected, the thread has ended.
fn replies(rt: &impl Abort, heap: &mut Heap, thread: u32, expected: Option<Reply>) {
    if thread >= THREADS {
        return;
    }
    match (heap.step(thread), expected) {
        (Ok(found), Some(reply)) => assert!(rt; found == reply, "{thread}"),
        (Err(StepFault::Ended), None) => {}
        _ => panic!(rt; "thread {thread}"),
    }
}

// So many rows of two threads are left, and so many events were told.
fn stands(rt: &impl Abort, heap: &Heap, first: u32, second: u32, events: usize) {
    assert!(rt;
        heap.left(0) == first && heap.left(1) == second,
        "{first} {second}"
    );
    assert!(rt; heap.journal().events.len() == events, "{events}");
}

fn name(thread: u32, ordinal: u32) -> Option<Reply> {
    Some(Reply::Name(Name { thread, ordinal }))
}

const TWO_THREADS: &[u8] = b"new,0,0,1,0\nnew,1,3,0,2\nload,0,1,0,0\ndrop,1,3\n";

#[test]
fn threads_step_in_any_order_to_their_ends(rt: HostRuntime) -> Result<(), Fail> {
    let mut heap = heap_of(rt.alloc(), TWO_THREADS, 8)?;
    stands(&rt, &heap, 2, 2, 0);
    replies(&rt, &mut heap, 31, None);
    stands(&rt, &heap, 2, 2, 0);
    replies(&rt, &mut heap, 1, name(1, 1));
    stands(&rt, &heap, 2, 1, 1);
    replies(&rt, &mut heap, 1, Some(Reply::Ok));
    replies(&rt, &mut heap, 1, None);
    stands(&rt, &heap, 2, 0, 2);
    replies(&rt, &mut heap, 0, name(0, 1));
    replies(&rt, &mut heap, 0, Some(Reply::Null));
    stands(&rt, &heap, 0, 0, 4);
    let text = render(rt.alloc(), heap.journal())?;
    let lines: &[u8] =
        b"row 1 1 new 3 0 2 = 1.1 in 0\nrow 1 2 drop 3 = ok\nrow 0 1 new 0 1 0 = 0.1 in 0\nrow 0 2 load 1 0 0 = null\n";
    assert!(rt; text.as_slice() == lines);
    Ok(())
}

// The thread's next row is executed, however often a step of it is refused memory: each begins it anew. A step that is
// refused after a note says which event was told last.
fn executes(rt: &(impl Abort + Print), heap: &mut Heap, thread: u32) -> Result<(), Fail> {
    for _ in 0..100 {
        if thread >= THREADS || heap.step(thread).is_ok() {
            return Ok(());
        }
        let told = heap.journal().events.as_slice();
        if let Some(Event::Note { holder, slot, .. }) = told.last() {
            println!(rt;
                "refused after event {}, the note of slot {slot} of 0.{}",
                told.len(),
                holder.ordinal
            )?;
        }
    }
    panic!(rt; "thread {thread}");
}

// The references of an array of 126 slots to the first objects of nine regions, once on its first card and once on its second.
const STORES: &[u8] =
    b"store,0,9,0,0\nstore,0,9,1,1\nstore,0,9,2,2\nstore,0,9,3,3\nstore,0,9,4,4\nstore,0,9,5,5\nstore,0,9,6,6\nstore,0,9,7,7\nstore,0,9,8,8\nstore,0,9,62,0\nstore,0,9,63,1\nstore,0,9,64,2\nstore,0,9,65,3\nstore,0,9,66,4\nstore,0,9,67,5\nstore,0,9,68,6\nstore,0,9,69,7\nstore,0,9,70,8\n";

// Rows that fill nine regions with objects of 128 words, then put five arrays into the tenth and fill it, then ask for one
// object more, for which there is no soft room; and after these 171 rows, 150 more.
fn rows_with_a_flush(alloc: Global) -> Result<Vec<u8>, Fail> {
    let mut rows = Vec::new(alloc);
    for register in b'0'..=b'8' {
        rows.extend_from_slice(b"new,0,")?;
        rows.push(register)?;
        rows.extend_from_slice(b",0,126\n")?;
        rows.extend_from_slice(
            b"new,0,30,0,126\nnew,0,30,0,126\nnew,0,30,0,126\nnew,0,30,0,126\n",
        )?;
        rows.extend_from_slice(b"new,0,30,0,126\nnew,0,30,0,126\nnew,0,30,0,126\n")?;
    }
    for _ in 0..5 {
        rows.extend_from_slice(b"arr,0,9,126\n")?;
        rows.extend_from_slice(STORES)?;
    }
    rows.extend_from_slice(b"new,0,30,0,126\nnew,0,30,0,126\nnew,0,30,0,126\nnew,0,30,0,126\n")?;
    for _ in 0..150 {
        rows.extend_from_slice(b"drop,0,31\n")?;
    }
    Ok(rows)
}

// The flush makes ninety notes, nine on each card, in two turns: after eight cards there is no room for the notes of another.
// The journal has room for the first turn, and must grow for the second. If memory is refused there, 72 notes stay told, and
// the next step tells the others. Then the heap is collected, and the object is placed.
#[test]
fn a_flush_that_was_broken_off_goes_on(rt: HostRuntime) -> Result<(), Fail> {
    let rows = rows_with_a_flush(rt.alloc())?;
    let mut heap = heap_of(rt.alloc(), rows.as_slice(), 10)?;
    for _ in 0..321 {
        executes(&rt, &mut heap, 0)?;
    }
    stands(&rt, &heap, 0, 0, 412);
    // Each card from 144 on has nine notes. The array 0.73 begins on the first of them, and each next one two cards further.
    notes(&rt, &heap, 170, 0, 144, 73, 0);
    notes(&rt, &heap, 171, 1, 144, 73, 1);
    notes(&rt, &heap, 241, 8, 151, 76, 70);
    notes(&rt, &heap, 242, 0, 152, 77, 0);
    notes(&rt, &heap, 259, 8, 153, 77, 70);
    assert!(rt; matches!(heap.journal().events.get(260), Some(Event::Partial(_))));
    Ok(())
}

// The event at a place is this note.
fn notes(rt: &impl Abort, heap: &Heap, place: usize, to: u32, on: u32, object: u32, number: u32) {
    match heap.journal().events.get(place) {
        Some(
            Event::Note {
                region,
                card,
                holder,
                slot,
            },
        ) => assert!(rt;
            *region == to && *card == on && holder.ordinal == object && *slot == number,
            "event {place}"
        ),
        _ => panic!(rt; "event {place} is no note"),
    }
}
