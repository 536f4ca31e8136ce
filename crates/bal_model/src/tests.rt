//! Short traces with their replies, as they were worked out by hand, and the graph at their ends.
ghost use Rattle.std.specs.Prelude.{◌≡◌, All, IsSome, true};
ghost use Rattle.bal_model.specs.Graph.{IsInRange};
ghost use Rattle.bal_model.specs.Plain.{object};

use crate::{
    Config, Kind, Name, Op, Plain, Reply, kept_plain, reach_plain, start_plain, step_plain,
};
use std::alloc::Global;
use std::process::Abort;
use std::test::Fail;

fn new(register: u32, refs: u32, values: u32) -> Op {
    Op::New {
        register,
        refs,
        values,
    }
}

fn store(holder: u32, slot: u32, value: u32) -> Op {
    Op::Store {
        holder,
        slot,
        value,
    }
}

fn load(into: u32, holder: u32, slot: u32) -> Op {
    Op::Load { into, holder, slot }
}

fn arr(register: u32, len: u32) -> Op {
    Op::Arr { register, len }
}

fn put(holder: u32, slot: u32, number: u64) -> Op {
    Op::Put {
        holder,
        slot,
        number,
    }
}

fn get(holder: u32, slot: u32) -> Op {
    Op::Get { holder, slot }
}

fn gstore(global: u32, register: u32) -> Op {
    Op::GStore { global, register }
}

fn gload(into: u32, global: u32) -> Op {
    Op::GLoad { into, global }
}

fn name(thread: u32, ordinal: u32) -> Name {
    Name { thread, ordinal }
}

fn is_in_range(op: &Op) -> bool
    ensures { result ≡ true → IsInRange op.now }
{
    match *op {
        Op::New {
            register,
            refs,
            values,
        } => register < 32 && refs < 1 << 24 && values < 1 << 24,
        Op::Arr { register, len } => register < 32 && len < 1 << 24,
        Op::Store { holder, value, .. } => holder < 32 && value < 32,
        Op::Load { into, holder, .. } => into < 32 && holder < 32,
        Op::Put { holder, .. } => holder < 32,
        Op::Get { holder, .. } => holder < 32,
        Op::GStore { global, register } => global < 64 && register < 32,
        Op::GLoad { into, global } => into < 32 && global < 64,
        Op::Drop { register } => register < 32,
        Op::Gc => true,
    }
}

fn are_objects(state: &Plain, names: &[Name]) -> bool
    ensures { result ≡ true → All (λ x. IsSome (object state.now x)) names.now }
{
    for index in 0..names.len() {
        if state.node(names[index]).is_none() {
            return false;
        }
    }
    true
}

fn same(rt: &impl Abort, left: u64, right: u64) {
    assert_eq!(rt; left, right);
}

fn same_numbers(rt: &impl Abort, left: &[u64], right: &[u64]) {
    assert_eq!(rt; left, right);
}

fn same_reference(rt: &impl Abort, left: Option<Name>, right: Option<Name>) {
    assert!(rt; left == right);
}

fn same_references(rt: &impl Abort, left: &[Option<Name>], right: &[Option<Name>]) {
    assert!(rt; left == right);
}

fn same_kind(rt: &impl Abort, left: Kind, right: Kind) {
    assert!(rt; left == right);
}

fn same_reply(rt: &impl Abort, left: Reply, right: Reply, row: usize) {
    assert!(rt; left == right, "row {row}");
}

fn same_names(rt: &impl Abort, left: &[Name], right: &[Name], case: &str) {
    assert!(rt; left == right, "{case}");
}

// The graph after a trace, each row of which stands beside its thread and its reply.
fn replayed(rt: &impl Abort, alloc: Global, rows: &[(u32, Op, Reply)]) -> Result<Plain, Fail> {
    let mut state = start_plain(alloc)?;
    for (row, (thread, op, reply)) in rows.iter().enumerate() {
        assert!(rt; *thread < 32 && is_in_range(op));
        assert!(rt; state.made(*thread) < u32::MAX);
        same_reply(rt, step_plain(&mut state, *thread, op)?, *reply, row);
    }
    Ok(state)
}

#[test]
fn a_new_object_refers_to_nothing(rt: HostRuntime) -> Result<(), Fail> {
    let state = replayed(
        &rt,
        rt.alloc(),
        &[
            (0, new(0, 1, 0), Reply::Name(name(0, 1))),
            (0, load(1, 0, 0), Reply::Null),
        ],
    )?;
    same_reference(&rt, state.register(0, 0), Some(name(0, 1)));
    same_reference(&rt, state.register(0, 1), None);
    same_reference(&rt, state.global(0), None);
    Ok(())
}

#[test]
fn a_row_replies_what_its_holder_lacks(rt: HostRuntime) -> Result<(), Fail> {
    let state = replayed(
        &rt,
        rt.alloc(),
        &[
            (0, load(1, 0, 0), Reply::Nil),
            (0, new(0, 1, 0), Reply::Name(name(0, 1))),
            (0, load(1, 0, 1), Reply::Slot),
            (0, store(0, 1, 0), Reply::Slot),
            (0, Op::Drop { register: 0 }, Reply::Ok),
            (0, load(1, 0, 0), Reply::Nil),
            (0, store(0, 0, 1), Reply::Nil),
        ],
    )?;
    same_reference(&rt, state.register(0, 0), None);
    same(&rt, u64::from(state.made(0)), 1);
    Ok(())
}

// Register 2 reads each slot back.
#[test]
fn a_store_writes_one_slot(rt: HostRuntime) -> Result<(), Fail> {
    let state = replayed(
        &rt,
        rt.alloc(),
        &[
            (0, new(0, 2, 3), Reply::Name(name(0, 1))),
            (0, new(1, 0, 0), Reply::Name(name(0, 2))),
            (0, store(0, 1, 1), Reply::Ok),
            (0, load(2, 0, 0), Reply::Null),
            (0, load(2, 0, 1), Reply::Name(name(0, 2))),
            (0, store(0, 0, 0), Reply::Ok),
            (0, store(0, 1, 3), Reply::Ok),
            (0, load(2, 0, 1), Reply::Null),
            (0, load(2, 0, 0), Reply::Name(name(0, 1))),
            (1, load(2, 0, 0), Reply::Nil),
            (1, new(0, 0, 0), Reply::Name(name(1, 1))),
        ],
    )?;
    let node = state.node(name(0, 1)).ok_or("lost")?;
    same_kind(&rt, node.kind, Kind::Plain);
    same_references(&rt, node.refs.as_slice(), &[Some(name(0, 1)), None]);
    same_numbers(&rt, node.values.as_slice(), &[0, 0, 0]);
    assert!(rt; state.node(name(1, 1)).is_some());
    for absent in [name(0, 0), name(0, 3), name(2, 1), name(32, 1)] {
        assert!(rt;
            state.node(absent).is_none(),
            "{} {}",
            absent.thread,
            absent.ordinal
        );
    }
    same(&rt, u64::from(state.made(0)), 2);
    same(&rt, u64::from(state.made(1)), 1);
    Ok(())
}

#[test]
fn an_array_has_references_alone(rt: HostRuntime) -> Result<(), Fail> {
    let state = replayed(
        &rt,
        rt.alloc(),
        &[
            (0, arr(0, 2), Reply::Name(name(0, 1))),
            (0, store(0, 1, 0), Reply::Ok),
            (0, load(1, 0, 0), Reply::Null),
            (0, load(1, 0, 1), Reply::Name(name(0, 1))),
            (0, load(1, 0, 2), Reply::Slot),
            (0, get(0, 0), Reply::Slot),
            (0, put(0, 0, 5), Reply::Slot),
            (0, arr(2, 0), Reply::Name(name(0, 2))),
            (0, load(1, 2, 0), Reply::Slot),
        ],
    )?;
    let node = state.node(name(0, 1)).ok_or("lost")?;
    same_kind(&rt, node.kind, Kind::Array);
    same_references(&rt, node.refs.as_slice(), &[None, Some(name(0, 1))]);
    same_numbers(&rt, node.values.as_slice(), &[]);
    Ok(())
}

#[test]
fn a_put_writes_one_value(rt: HostRuntime) -> Result<(), Fail> {
    let state = replayed(
        &rt,
        rt.alloc(),
        &[
            (0, put(0, 0, 1), Reply::Nil),
            (0, get(0, 0), Reply::Nil),
            (0, new(0, 1, 3), Reply::Name(name(0, 1))),
            (0, put(0, 1, u64::MAX), Reply::Ok),
            (0, put(0, 2, 7), Reply::Ok),
            (0, put(0, 3, 9), Reply::Slot),
            (0, get(0, 0), Reply::Number(0)),
            (0, get(0, 1), Reply::Number(u64::MAX)),
            (0, get(0, 2), Reply::Number(7)),
            (0, get(0, 3), Reply::Slot),
            (0, load(1, 0, 0), Reply::Null),
            (1, get(0, 1), Reply::Nil),
        ],
    )?;
    let node = state.node(name(0, 1)).ok_or("lost")?;
    same_numbers(&rt, node.values.as_slice(), &[0, u64::MAX, 7]);
    Ok(())
}

#[test]
fn a_global_is_seen_by_all_threads(rt: HostRuntime) -> Result<(), Fail> {
    let state = replayed(
        &rt,
        rt.alloc(),
        &[
            (0, new(0, 0, 0), Reply::Name(name(0, 1))),
            (0, gstore(63, 0), Reply::Ok),
            (0, Op::Drop { register: 0 }, Reply::Ok),
            (7, gload(31, 63), Reply::Name(name(0, 1))),
            (7, gload(30, 62), Reply::Null),
            (7, gstore(0, 31), Reply::Ok),
            (7, gstore(63, 0), Reply::Ok),
            (0, gload(1, 63), Reply::Null),
            (0, gload(2, 0), Reply::Name(name(0, 1))),
            (0, Op::Gc, Reply::Ok),
        ],
    )?;
    same_reference(&rt, state.global(63), None);
    same_reference(&rt, state.global(0), Some(name(0, 1)));
    same_reference(&rt, state.register(0, 0), None);
    same_reference(&rt, state.register(0, 2), Some(name(0, 1)));
    same_reference(&rt, state.register(7, 31), Some(name(0, 1)));
    same(&rt, u64::from(state.made(0)), 1);
    Ok(())
}

// The graph after rows that each can be executed, whatever they reply.
fn executed(rt: &impl Abort, alloc: Global, rows: &[Op]) -> Result<Plain, Fail> {
    let mut state = start_plain(alloc)?;
    for op in rows {
        assert!(rt; is_in_range(op));
        assert!(rt; state.made(0) < u32::MAX);
        step_plain(&mut state, 0, op)?;
    }
    Ok(state)
}

// The names of thread 0 with these ordinals.
fn of_thread_0(alloc: Global, ordinals: &[u32]) -> Result<Vec<Name>, Fail> {
    let mut names = Vec::new(alloc);
    for ordinal in ordinals {
        names.push(name(0, *ordinal))?;
    }
    Ok(names)
}

#[test]
fn what_is_reached_ends_a_walk(rt: HostRuntime) -> Result<(), Fail> {
    let ring = [
        new(0, 1, 0),
        store(0, 0, 0),
        new(1, 1, 0),
        new(2, 1, 0),
        store(1, 0, 2),
        store(2, 0, 1),
        Op::Drop { register: 2 },
        Op::Drop { register: 1 },
        gstore(63, 0),
        Op::Drop { register: 0 },
        gstore(63, 0),
    ];
    let cases: [(&str, usize, &[u32]); 6] = [
        ("nothing was made", 0, &[]),
        ("an object that refers to itself", 2, &[1]),
        ("a ring that is held", 7, &[1, 2, 3]),
        ("a ring that was dropped", 8, &[1]),
        ("a global holds what no register holds", 10, &[1]),
        ("a global was overwritten", 11, &[]),
    ];
    for (case, rows, ordinals) in &cases {
        let state = executed(&rt, rt.alloc(), &ring[..*rows])?;
        let expected = of_thread_0(rt.alloc(), ordinals)?;
        same_names(&rt, reach_plain(&state)?.as_slice(), &expected, case);
    }
    Ok(())
}
// The names of thread 0 that are kept of the chosen ones, by ordinals.
fn same_kept(
    rt: &impl Abort,
    alloc: Global,
    state: &Plain,
    (present, chosen, kept): (&[u32], &[u32], &[u32]),
    case: &str,
) -> Result<(), Fail> {
    let present = of_thread_0(alloc, present)?;
    let chosen = of_thread_0(alloc, chosen)?;
    assert!(rt; are_objects(state, &chosen));
    let found = kept_plain(state, &present, &chosen)?;
    same_names(rt, found.as_slice(), &of_thread_0(alloc, kept)?, case);
    Ok(())
}

// 0.1 leads to 0.2, which a register holds besides, and that leads to 0.3.
#[test]
fn what_is_kept_ends_a_walk_inside(rt: HostRuntime) -> Result<(), Fail> {
    let chain = [
        new(0, 1, 0),
        new(31, 1, 0),
        new(2, 0, 0),
        store(0, 0, 31),
        store(31, 0, 2),
        Op::Drop { register: 2 },
        gstore(63, 0),
        Op::Drop { register: 0 },
    ];
    let state = executed(&rt, rt.alloc(), &chain)?;
    let expected = of_thread_0(rt.alloc(), &[1, 2, 3])?;
    same_names(&rt, reach_plain(&state)?.as_slice(), &expected, "all");
    let cases: [(&str, (&[u32], &[u32], &[u32])); 6] = [
        ("all are chosen", (&[1, 2, 3], &[1, 2, 3], &[1, 2, 3])),
        ("none is chosen", (&[1, 2, 3], &[], &[])),
        ("held by a global", (&[1, 2, 3], &[1], &[1])),
        ("held by a register", (&[2, 3], &[2, 3], &[2, 3])),
        ("held from outside", (&[1, 2, 3], &[3], &[3])),
        (
            "what holds it is neither chosen nor present",
            (&[1, 3], &[1, 3], &[1]),
        ),
    ];
    for (case, names) in &cases {
        same_kept(&rt, rt.alloc(), &state, *names, case)?;
    }
    Ok(())
}

// 0.1 is garbage that refers to 0.10, and a register holds 0.16.
#[test]
fn garbage_outside_holds_what_it_refers_to(rt: HostRuntime) -> Result<(), Fail> {
    let filler = new(9, 0, 30);
    let rows = [
        new(0, 1, 0),
        filler,
        filler,
        filler,
        filler,
        filler,
        filler,
        filler,
        filler,
        new(1, 0, 1),
        store(0, 0, 1),
        Op::Drop { register: 1 },
        Op::Drop { register: 0 },
        filler,
        filler,
        filler,
        filler,
        filler,
        filler,
    ];
    let state = executed(&rt, rt.alloc(), &rows)?;
    let present = [1, 8, 9, 10, 11, 12, 13, 14, 15, 16];
    let chosen = [9, 10, 11, 12, 13, 14, 15, 16];
    same_kept(
        &rt,
        rt.alloc(),
        &state,
        (&present, &chosen, &[10, 16]),
        "held by garbage",
    )?;
    same_kept(
        &rt,
        rt.alloc(),
        &state,
        (&present[1..], &chosen, &[16]),
        "without it",
    )?;
    Ok(())
}

#[test]
fn a_heap_without_options_has_64_regions(rt: HostRuntime) {
    let config = Config::without_options();
    let numbers = [
        config.geometry.regions(),
        config.geometry.words(),
        config.eden,
        config.older,
        config.cards,
        config.workers,
        config.mark_every,
        config.mark_step,
    ];
    assert_eq!(rt; numbers, [64, 1024, 8, 2, 64, 4, 4, 256]);
    assert!(rt; config.abort_after.is_none());
}
