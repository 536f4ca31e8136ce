use crate::plain::plain_rows;
use crate::{RowCause, TraceFault, parse_trace};
use bal_layout::Geometry;
use bal_model::{Op, Row, Trace};
use std::process::Abort;
use std::test::Fail;

fn same(rt: &impl Abort, found: u64, number: u64, text: &str) {
    assert_eq!(rt; found, number, "{text}");
}

fn same_text(rt: &impl Abort, found: &str, text: &str) {
    assert_eq!(rt; found, text);
}

// The text has a bad record with this number, and this is its cause.
fn is_bad(
    rt: &impl Abort,
    read: Result<Trace, TraceFault>,
    record: u32,
    cause: RowCause,
    text: &str,
) {
    let Err(TraceFault::Bad { row, cause: found }) = read else {
        return assert!(rt; false, "{text}");
    };
    assert_eq!(rt; (row, found.text()), (record, cause.text()), "{text}");
}

// What an operation does, and its numbers.
fn numbers_of(op: &Op) -> (&'static str, [u64; 3]) {
    match *op {
        Op::New {
            register,
            refs,
            values,
        } => (
            "new",
            [u64::from(register), u64::from(refs), u64::from(values)],
        ),
        Op::Arr { register, len } => ("arr", [u64::from(register), u64::from(len), 0]),
        Op::Store {
            holder,
            slot,
            value,
        } => (
            "store",
            [u64::from(holder), u64::from(slot), u64::from(value)],
        ),
        Op::Load { into, holder, slot } => (
            "load",
            [u64::from(into), u64::from(holder), u64::from(slot)],
        ),
        Op::Put {
            holder,
            slot,
            number,
        } => ("put", [u64::from(holder), u64::from(slot), number]),
        Op::Get { holder, slot } => ("get", [u64::from(holder), u64::from(slot), 0]),
        Op::GStore { global, register } => ("gstore", [u64::from(global), u64::from(register), 0]),
        Op::GLoad { into, global } => ("gload", [u64::from(into), u64::from(global), 0]),
        Op::Drop { register } => ("drop", [u64::from(register), 0, 0]),
        Op::Gc => ("gc", [0, 0, 0]),
    }
}

fn same_row(rt: &impl Abort, found: &Row, row: &Row) {
    assert_eq!(rt;
        (found.thread, numbers_of(&found.op)),
        (row.thread, numbers_of(&row.op))
    );
}

fn same_rows(rt: &impl Abort, found: &[Row], rows: &[Row]) {
    assert_eq!(rt; found.len(), rows.len());
    for i in 0..rows.len().min(found.len()) {
        same_row(rt, &found[i], &rows[i]);
    }
}

// A region of 256 words has pieces of up to 32, of which the header and the name take two.
#[test]
fn a_trace_has_a_row_a_record(rt: HostRuntime) -> Result<(), Fail> {
    let geometry = Geometry::new(64, 256)?;
    for (text, rows) in [
        ("", 0),
        ("\n\r\n\n", 0),
        ("\u{feff}", 0),
        ("drop,0,0", 1),
        ("drop,0,0\n", 1),
        ("\u{feff}drop,0,0\n", 1),
        ("\"drop\",0,\"0\"\n", 1),
        ("\n\ndrop,0,0\r\n\r\ndrop,31,31\r\n", 2),
        ("drop,0,0\rdrop,0,0", 2),
        ("new,31,31,0,30", 1),
        ("new,0,0,30,0", 1),
        ("new,0,0,15,15", 1),
        ("arr,0,0,0", 1),
        ("arr,31,31,30", 1),
        ("store,31,31,16777215,31", 1),
        ("load,31,31,31,16777215", 1),
        ("put,0,0,0,18446744073709551615", 1),
        ("put,31,31,16777215,0", 1),
        ("get,31,31,16777215", 1),
        ("gstore,31,63,31", 1),
        ("gload,31,31,63", 1),
        ("gc,0", 1),
        ("gc,31\r\n\"gc\",0\n", 2),
    ] {
        let trace = parse_trace(rt.alloc(), text.as_bytes(), &geometry)?;
        same(&rt, trace.rows.len() as u64, rows, text);
    }
    Ok(())
}

// Texts of one record each, which has no word, or not as many numbers after it as the word wants, and the first cause
// of the record. Some have later causes too.
const OUT_OF_FORM: [(&str, RowCause); 46] = [
    ("neu,0,0", RowCause::Word),
    ("ne", RowCause::Word),
    ("gcc,0", RowCause::Word),
    ("DROP,0,0", RowCause::Word),
    (" drop,0,0", RowCause::Word),
    ("drop ,0,0", RowCause::Word),
    (",0,0", RowCause::Word),
    ("\"\",0,0", RowCause::Word),
    ("\"drop,0,0\"", RowCause::Word),
    ("neu", RowCause::Word),
    ("neu,0,01", RowCause::Word),
    ("neu,32,32", RowCause::Word),
    ("\u{feff}\u{feff}drop,0,0", RowCause::Word),
    ("new,0,0", RowCause::Fields),
    ("drop", RowCause::Fields),
    ("gc", RowCause::Fields),
    ("gc,0,0", RowCause::Fields),
    ("drop,0,0,0", RowCause::Fields),
    ("drop,0,0,", RowCause::Fields),
    ("new,0,0,0", RowCause::Fields),
    ("new,0,0,0,0,0", RowCause::Fields),
    ("arr,0,0", RowCause::Fields),
    ("store,0,0,0", RowCause::Fields),
    ("load,0,0,0", RowCause::Fields),
    ("put,0,0,0", RowCause::Fields),
    ("get,0,0", RowCause::Fields),
    ("gstore,0,0", RowCause::Fields),
    ("gload,0,0,0,0", RowCause::Fields),
    ("drop,x", RowCause::Fields),
    ("drop,32", RowCause::Fields),
    ("drop,0,01", RowCause::Number),
    ("drop,00,0", RowCause::Number),
    ("drop,+0,0", RowCause::Number),
    ("drop,-1,0", RowCause::Number),
    ("drop, 0,0", RowCause::Number),
    ("drop,0,0 ", RowCause::Number),
    ("drop,,0", RowCause::Number),
    ("drop,0,", RowCause::Number),
    ("drop,0,1_0", RowCause::Number),
    ("drop,0,1e1", RowCause::Number),
    ("drop,0,\"0\"\"\"", RowCause::Number),
    ("put,0,0,0,18446744073709551616", RowCause::Number),
    ("put,0,0,0,99999999999999999999", RowCause::Number),
    ("put,0,0,0,100000000000000000000", RowCause::Number),
    ("drop,32,x", RowCause::Number),
    ("new,32,32,31,x", RowCause::Number),
];

#[test]
fn a_record_out_of_form_has_its_first_cause(rt: HostRuntime) -> Result<(), Fail> {
    let geometry = Geometry::new(64, 256)?;
    for (text, cause) in OUT_OF_FORM {
        let read = parse_trace(rt.alloc(), text.as_bytes(), &geometry);
        is_bad(&rt, read, 1, cause, text);
    }
    Ok(())
}

// Texts of one record each, which has a number that is too large for what it stands for, and the first cause of the
// record. Some have later causes too.
const OUT_OF_RANGE: [(&str, RowCause); 36] = [
    ("drop,32,0", RowCause::Thread),
    ("drop,32,32", RowCause::Thread),
    ("drop,4294967296,0", RowCause::Thread),
    ("put,18446744073709551615,0,0,0", RowCause::Thread),
    ("gload,32,0,64", RowCause::Thread),
    ("new,32,0,0,31", RowCause::Thread),
    ("drop,0,32", RowCause::Register),
    ("drop,0,4294967296", RowCause::Register),
    ("new,0,32,0,0", RowCause::Register),
    ("new,0,32,0,31", RowCause::Register),
    ("arr,0,32,31", RowCause::Register),
    ("store,0,32,0,0", RowCause::Register),
    ("store,0,0,0,32", RowCause::Register),
    ("store,0,0,16777216,32", RowCause::Register),
    ("load,0,32,0,0", RowCause::Register),
    ("load,0,0,32,0", RowCause::Register),
    ("put,0,32,0,0", RowCause::Register),
    ("get,0,32,16777216", RowCause::Register),
    ("gstore,0,0,32", RowCause::Register),
    ("gstore,0,64,32", RowCause::Register),
    ("gload,0,32,64", RowCause::Register),
    ("gload,0,0,64", RowCause::Global),
    ("gstore,0,64,0", RowCause::Global),
    ("load,0,0,0,16777216", RowCause::Slot),
    ("store,0,0,16777216,0", RowCause::Slot),
    ("put,0,0,16777216,0", RowCause::Slot),
    ("get,0,0,16777216", RowCause::Slot),
    ("get,0,0,4294967296", RowCause::Slot),
    ("new,0,0,0,31", RowCause::TooBig),
    ("new,0,0,31,0", RowCause::TooBig),
    ("new,0,0,15,16", RowCause::TooBig),
    (
        "new,0,0,18446744073709551615,18446744073709551615",
        RowCause::TooBig,
    ),
    ("arr,0,0,31", RowCause::TooBig),
    ("arr,0,0,16777216", RowCause::TooBig),
    ("arr,0,0,18446744073709551615", RowCause::TooBig),
    ("\u{feff}drop,0,32\n", RowCause::Register),
];

#[test]
fn a_record_out_of_range_has_its_first_cause(rt: HostRuntime) -> Result<(), Fail> {
    let geometry = Geometry::new(64, 256)?;
    for (text, cause) in OUT_OF_RANGE {
        let read = parse_trace(rt.alloc(), text.as_bytes(), &geometry);
        is_bad(&rt, read, 1, cause, text);
    }
    Ok(())
}

// Texts with rows before the first bad record, and some with bad records after it or empty lines between them: the
// number of that record, and its cause.
const AMONG_OTHERS: [(&str, u32, RowCause); 7] = [
    ("drop,0,0\n\u{feff}drop,0,0", 2, RowCause::Word),
    ("drop,0,0\ndrop,0,32\ndrop,32,0\n", 2, RowCause::Register),
    ("\n\ndrop,0,0\r\n\r\nneu\r\n", 2, RowCause::Word),
    ("drop,0,0\rdrop,0\r", 2, RowCause::Fields),
    ("drop,0,0\n\"\n\",0,0", 2, RowCause::Word),
    ("drop,0,0\n\n,\n", 2, RowCause::Word),
    (
        "drop,31,31\nget,31,31,16777215\nput,0,0,0,18446744073709551615\nput,0,0,0,18446744073709551616",
        4,
        RowCause::Number,
    ),
];

#[test]
fn the_first_bad_record_is_told(rt: HostRuntime) -> Result<(), Fail> {
    let geometry = Geometry::new(64, 256)?;
    for (text, row, cause) in AMONG_OTHERS {
        let read = parse_trace(rt.alloc(), text.as_bytes(), &geometry);
        is_bad(&rt, read, row, cause, text);
    }
    Ok(())
}

// A trace with a row of each word. No two of its numbers are the same.
const EACH_WORD: &[u8] =
    b"new,1,2,3,4\narr,5,6,7\nstore,8,9,10,11\nload,12,13,14,15\nput,16,17,18,19\nget,20,21,22\ngstore,23,24,25\ngload,26,27,28\ndrop,29,30\n";

// The rows of that trace.
const ROWS_OF_EACH_WORD: [Row; 9] = [
    Row {
        thread: 1,
        op: Op::New {
            register: 2,
            refs: 3,
            values: 4,
        },
    },
    Row {
        thread: 5,
        op: Op::Arr {
            register: 6,
            len: 7,
        },
    },
    Row {
        thread: 8,
        op: Op::Store {
            holder: 9,
            slot: 10,
            value: 11,
        },
    },
    Row {
        thread: 12,
        op: Op::Load {
            into: 13,
            holder: 14,
            slot: 15,
        },
    },
    Row {
        thread: 16,
        op: Op::Put {
            holder: 17,
            slot: 18,
            number: 19,
        },
    },
    Row {
        thread: 20,
        op: Op::Get {
            holder: 21,
            slot: 22,
        },
    },
    Row {
        thread: 23,
        op: Op::GStore {
            global: 24,
            register: 25,
        },
    },
    Row {
        thread: 26,
        op: Op::GLoad {
            into: 27,
            global: 28,
        },
    },
    Row {
        thread: 29,
        op: Op::Drop { register: 30 },
    },
];

#[test]
fn each_word_takes_its_numbers_in_order(rt: HostRuntime) -> Result<(), Fail> {
    let geometry = Geometry::new(64, 256)?;
    let trace = parse_trace(rt.alloc(), EACH_WORD, &geometry)?;
    same_rows(&rt, trace.rows.as_slice(), &ROWS_OF_EACH_WORD);
    Ok(())
}

// The rows of each of the texts below.
const THREE_ROWS: [Row; 3] = [
    Row {
        thread: 0,
        op: Op::New {
            register: 1,
            refs: 2,
            values: 3,
        },
    },
    Row {
        thread: 31,
        op: Op::Put {
            holder: 1,
            slot: 2,
            number: 18446744073709551615,
        },
    },
    Row {
        thread: 4,
        op: Op::Drop { register: 10 },
    },
];

// Texts of the same three rows, and whether they are plain lines. The first two are, and are read directly; csv reads the
// others.
const TEXTS_OF_THREE_ROWS: [(&str, bool); 6] = [
    (
        "new,0,1,2,3\nput,31,1,2,18446744073709551615\ndrop,4,10\n",
        true,
    ),
    (
        "new,0,1,2,3\nput,31,1,2,18446744073709551615\ndrop,4,10",
        true,
    ),
    (
        "new,0,1,2,3\r\nput,31,1,2,18446744073709551615\r\ndrop,4,10\r\n",
        false,
    ),
    (
        "\"new\",0,1,2,3\nput,31,\"1\",2,18446744073709551615\ndrop,4,\"10\"\n",
        false,
    ),
    (
        "new,0,1,2,3\n\nput,31,1,2,18446744073709551615\ndrop,4,10\n\n",
        false,
    ),
    (
        "\u{feff}new,0,1,2,3\nput,31,1,2,18446744073709551615\ndrop,4,10\n",
        false,
    ),
];

#[test]
fn rows_are_the_same_in_plain_lines_and_others(rt: HostRuntime) -> Result<(), Fail> {
    let geometry = Geometry::new(64, 256)?;
    for (text, plain) in TEXTS_OF_THREE_ROWS {
        let trace = parse_trace(rt.alloc(), text.as_bytes(), &geometry)?;
        same_rows(&rt, trace.rows.as_slice(), &THREE_ROWS);
        let direct = plain_rows(rt.alloc(), text.as_bytes(), &geometry)?;
        assert!(rt; direct.is_some() == plain, "{text}");
    }
    Ok(())
}

#[test]
fn a_trace_has_2_to_the_20_rows_at_most(rt: HostRuntime) -> Result<(), Fail> {
    let geometry = Geometry::new(64, 256)?;
    let mut text = Vec::new(rt.alloc());
    for _ in 0..1 << 20 {
        text.extend_from_slice(b"drop,0,0\n")?;
    }
    let trace = parse_trace(rt.alloc(), text.as_slice(), &geometry)?;
    same(&rt, trace.rows.len() as u64, 1 << 20, "drop,0,0");
    // That there is a record too many comes before what else is wrong with it.
    text.extend_from_slice(b"neu\n")?;
    let more = parse_trace(rt.alloc(), text.as_slice(), &geometry);
    is_bad(&rt, more, 1_048_577, RowCause::TooManyRows, "neu");
    Ok(())
}

#[test]
fn each_cause_has_its_text(rt: HostRuntime) {
    for (cause, text) in [
        (RowCause::TooManyRows, "too many rows"),
        (RowCause::Word, "bad word"),
        (RowCause::Fields, "bad number of fields"),
        (RowCause::Number, "bad number"),
        (RowCause::Thread, "bad thread"),
        (RowCause::Register, "bad register"),
        (RowCause::Global, "bad global"),
        (RowCause::Slot, "bad slot"),
        (RowCause::TooBig, "too big"),
    ] {
        same_text(&rt, cause.text(), text);
    }
}
