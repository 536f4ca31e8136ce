use super::{render, write_text};
use bal_base::{Growing, Line};
use bal_model::{
    Abort, Answer, Event, How, Items, Journal, Kept, Name, NoMemory, Op, Packed, PartialCollection,
    Reply,
};
use std::alloc::Global;
use std::str::from_utf8;
use std::test::Fail;

// A list of these items.
fn items<T: Copy>(alloc: Global, all: &[T]) -> Result<Items<T>, NoMemory> {
    let mut items = Items::make(alloc)?;
    items.reserve(all.len())?;
    items.extend_from_slice(all);
    Ok(items)
}

fn name(thread: u32, ordinal: u32) -> Name {
    Name { thread, ordinal }
}

// A row that placed no object.
fn row(thread: u32, number: u32, op: Op, reply: Reply) -> Event {
    Event::Row {
        thread,
        number,
        op,
        answer: Answer::Replied(reply),
    }
}

// The first row of thread 0 makes an object in region 0.
fn placed(op: Op) -> Event {
    Event::Row {
        thread: 0,
        number: 1,
        op,
        answer: Answer::Placed {
            name: name(0, 1),
            region: 0,
        },
    }
}

// The first row of thread 0 makes an arraylet with its spine in region 0.
fn arraylet(alloc: Global, op: Op, leaves: &[u32]) -> Result<Event, NoMemory> {
    Ok(Event::Row {
        thread: 0,
        number: 1,
        op,
        answer: Answer::Arraylet {
            name: name(0, 1),
            region: 0,
            leaves: Box::new(alloc, items(alloc, leaves)?)?,
        },
    })
}

fn new(register: u32, refs: u32, values: u32) -> Op {
    Op::New {
        register,
        refs,
        values,
    }
}

fn store(holder: u32, slot: u32, value: u32) -> Op {
    Op::Store {
        holder,
        slot,
        value,
    }
}

fn load(into: u32, holder: u32, slot: u32) -> Op {
    Op::Load { into, holder, slot }
}

fn arr(register: u32, len: u32) -> Op {
    Op::Arr { register, len }
}

fn put(holder: u32, slot: u32, number: u64) -> Op {
    Op::Put {
        holder,
        slot,
        number,
    }
}

fn get(holder: u32, slot: u32) -> Op {
    Op::Get { holder, slot }
}

fn gstore(global: u32, register: u32) -> Op {
    Op::GStore { global, register }
}

fn gload(into: u32, global: u32) -> Op {
    Op::GLoad { into, global }
}

fn note(region: u32, card: u32, holder: Name, slot: u32) -> Event {
    Event::Note {
        region,
        card,
        holder,
        slot,
    }
}

// An object of thread 0 that an evacuation kept.
fn kept(ordinal: u32, how: How, worker: u32) -> Kept {
    Kept {
        name: name(0, ordinal),
        how,
        worker,
    }
}

// An object of thread 0 that a compaction packed.
fn packed(ordinal: u32, region: u32) -> Packed {
    Packed {
        name: name(0, ordinal),
        region,
    }
}

fn partial(
    alloc: Global,
    chosen: &[u32],
    scans: u32,
    kept: &[Kept],
    aborts: &[Abort],
) -> Result<Event, NoMemory> {
    let did = PartialCollection {
        chosen: items(alloc, chosen)?,
        scans,
        kept: items(alloc, kept)?,
        aborts: items(alloc, aborts)?,
    };
    Ok(Event::Partial(Box::new(alloc, did)?))
}

fn global(alloc: Global, dead: &[Name], packed: &[Packed]) -> Result<Event, NoMemory> {
    Ok(Event::Global {
        dead: items(alloc, dead)?,
        packed: items(alloc, packed)?,
    })
}

fn mark(alloc: Global, names: &[Name]) -> Result<Event, NoMemory> {
    Ok(Event::Mark {
        names: items(alloc, names)?,
    })
}

fn end(alloc: Global, dead: &[Name]) -> Result<Event, NoMemory> {
    Ok(Event::End {
        dead: items(alloc, dead)?,
    })
}

// The text of a journal with one event.
fn text_of(alloc: Global, event: Event) -> Result<Items<u8>, NoMemory> {
    let mut events = Items::make(alloc)?;
    events.reserve(1)?;
    events.push(event);
    render(alloc, &Journal { events })
}

fn same_text(rt: &impl std::process::Abort, written: &[u8], text: &str) -> Result<(), Fail> {
    assert_eq!(rt; from_utf8(written)?, text);
    Ok(())
}

#[test]
fn a_row_or_a_note_is_a_line(rt: HostRuntime) -> Result<(), Fail> {
    let alloc = rt.alloc();
    for (event, line) in [
        (placed(new(0, 1, 0)), "row 0 1 new 0 1 0 = 0.1 in 0\n"),
        (
            arraylet(alloc, arr(0, 62), &[1, 2])?,
            "row 0 1 arr 0 62 = 0.1 in 0 leaves 1 2\n",
        ),
        (
            row(0, 2, load(1, 0, 0), Reply::Null),
            "row 0 2 load 1 0 0 = null\n",
        ),
        (
            row(0, 1, Op::Drop { register: 0 }, Reply::Ok),
            "row 0 1 drop 0 = ok\n",
        ),
        (
            row(3, 7, store(1, 2, 3), Reply::Nil),
            "row 3 7 store 1 2 3 = nil\n",
        ),
        (
            row(3, 7, store(1, 2, 3), Reply::Slot),
            "row 3 7 store 1 2 3 = slot\n",
        ),
        (
            row(0, 1, new(0, 0, 30), Reply::Full),
            "row 0 1 new 0 0 30 = full\n",
        ),
        // A load that answers a name has no place.
        (
            row(0, 1, load(0, 1, 0), Reply::Name(name(3, 7))),
            "row 0 1 load 0 1 0 = 3.7\n",
        ),
        (note(0, 4, name(0, 1), 0), "note 0 4 0.1 0\n"),
    ] {
        same_text(&rt, text_of(alloc, event)?.as_slice(), line)?;
    }
    Ok(())
}

#[test]
fn each_operation_is_a_line(rt: HostRuntime) -> Result<(), Fail> {
    let alloc = rt.alloc();
    let name = Reply::Name(name(0, 1));
    for (event, line) in [
        (
            arraylet(alloc, arr(0, 31), &[1])?,
            "row 0 1 arr 0 31 = 0.1 in 0 leaves 1\n",
        ),
        (
            row(0, 1, put(0, 0, 7), Reply::Ok),
            "row 0 1 put 0 0 7 = ok\n",
        ),
        (
            row(0, 1, put(1, 2, u64::MAX), Reply::Ok),
            "row 0 1 put 1 2 18446744073709551615 = ok\n",
        ),
        (
            row(0, 1, get(0, 0), Reply::Number(7)),
            "row 0 1 get 0 0 = 7\n",
        ),
        (
            row(0, 1, gstore(0, 1), Reply::Ok),
            "row 0 1 gstore 0 1 = ok\n",
        ),
        (row(0, 1, gload(1, 0), name), "row 0 1 gload 1 0 = 0.1\n"),
        (row(0, 1, Op::Gc, Reply::Ok), "row 0 1 gc = ok\n"),
    ] {
        same_text(&rt, text_of(alloc, event)?.as_slice(), line)?;
    }
    Ok(())
}

#[test]
fn a_partial_collection_is_a_line(rt: HostRuntime) -> Result<(), Fail> {
    let alloc = rt.alloc();
    for (event, line) in [
        (
            partial(
                alloc,
                &[0],
                2,
                &[kept(1, How::Copied(1), 0), kept(8, How::Marked, 0)],
                &[Abort::Wished(0)],
            )?,
            "partial chosen 0 scans 2 kept 0.1:c0>1 0.8:m0 abort wished 0\n",
        ),
        (
            partial(alloc, &[], 0, &[], &[])?,
            "partial chosen scans 0 kept\n",
        ),
        (
            partial(
                alloc,
                &[0, 2],
                1,
                &[kept(1, How::Copied(5), 3)],
                &[Abort::Wished(1), Abort::Wished(2), Abort::Drained],
            )?,
            "partial chosen 0 2 scans 1 kept 0.1:c3>5 abort wished 1 wished 2 drained\n",
        ),
    ] {
        same_text(&rt, text_of(alloc, event)?.as_slice(), line)?;
    }
    Ok(())
}

#[test]
fn a_step_of_a_mark_cycle_is_a_line(rt: HostRuntime) -> Result<(), Fail> {
    let alloc = rt.alloc();
    for (event, line) in [
        (Event::Begin, "begin\n"),
        (mark(alloc, &[name(0, 1), name(0, 2)])?, "mark 0.1 0.2\n"),
        (mark(alloc, &[])?, "mark\n"),
        (end(alloc, &[])?, "end dead\n"),
        (end(alloc, &[name(0, 3)])?, "end dead 0.3\n"),
    ] {
        same_text(&rt, text_of(alloc, event)?.as_slice(), line)?;
    }
    Ok(())
}

#[test]
fn a_global_collection_is_a_line(rt: HostRuntime) -> Result<(), Fail> {
    let alloc = rt.alloc();
    for (event, line) in [
        (global(alloc, &[], &[])?, "global dead packed\n"),
        (
            global(
                alloc,
                &[name(0, 1), name(0, 8)],
                &[packed(17, 0), packed(2, 1)],
            )?,
            "global dead 0.1 0.8 packed 0.17>0 0.2>1\n",
        ),
    ] {
        same_text(&rt, text_of(alloc, event)?.as_slice(), line)?;
    }
    Ok(())
}

#[test]
fn lines_follow_each_other(rt: HostRuntime) -> Result<(), Fail> {
    let alloc = rt.alloc();
    let mut journal = Journal {
        events: Items::make(alloc)?,
    };
    assert!(rt; render(alloc, &journal)?.is_empty());
    journal.events.reserve(3)?;
    journal.events.push(Event::Begin);
    journal.events.push(mark(alloc, &[name(0, 1), name(0, 2)])?);
    journal.events.push(end(alloc, &[name(0, 3)])?);
    let text = render(alloc, &journal)?;
    same_text(&rt, text.as_slice(), "begin\nmark 0.1 0.2\nend dead 0.3\n")
}

// A line that was lent serves again, and what stands in a text stays.
#[test]
fn a_journal_is_written_behind_another(rt: HostRuntime) -> Result<(), Fail> {
    let alloc = rt.alloc();
    let mut events = Items::make(alloc)?;
    events.reserve(2)?;
    events.push(mark(alloc, &[name(0, 1), name(0, 2)])?);
    events.push(note(0, 4, name(0, 1), 0));
    let journal = Journal { events };
    let mut line = Line::make(alloc)?;
    let mut text = Growing::make(alloc)?;
    write_text(&journal, &mut line, &mut text);
    write_text(&journal, &mut line, &mut text);
    same_text(
        &rt,
        text.finish()?.as_slice(),
        "mark 0.1 0.2\nnote 0 4 0.1 0\nmark 0.1 0.2\nnote 0 4 0.1 0\n",
    )
}
