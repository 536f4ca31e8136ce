//! Lines that are read and written again, and texts that no journal has.
use super::{JournalFault, read_journal};
use crate::render;
use bal_model::{Items, NoMemory};
use std::alloc::Global;
use std::process::Abort;
use std::str::from_utf8;
use std::test::Fail;

// The text that is written of the journal that was read.
fn again(alloc: Global, text: &str) -> Result<Items<u8>, JournalFault> {
    if text.len() >= 1 << 32 {
        return Err(JournalFault::NoMemory);
    }
    let journal = read_journal(alloc, text.as_bytes())?;
    Ok(render(alloc, &journal)?)
}

// The first line that is no event's, counted from 1, or 0 if there is none.
fn bad_line(alloc: Global, text: &str) -> Result<u32, NoMemory> {
    match again(alloc, text) {
        Ok(_) => Ok(0),
        Err(JournalFault::Line(number)) => Ok(number),
        Err(JournalFault::NoMemory) => Err(NoMemory),
    }
}

// Texts of one journal each, apart by bars.
const LINES: &str = "row 0 1 new 0 1 0 = 0.1 in 0\n|\
     row 31 4294967295 new 0 0 30 = full\n|\
     row 40 1 drop 0 = ok\n|\
     row 4294967295 0 load 0 0 0 = 4294967295.0\n|\
     row 0 1 arr 0 31 = 0.1 in 0 leaves 1\n|\
     row 0 1 arr 0 62 = 0.1 in 2046 leaves 2 1\n|\
     row 0 1 arr 0 4294967295 = full\n|\
     row 0 1 store 0 16777215 1 = slot\n|\
     row 0 1 load 0 1 0 = 31.4294967295\n|\
     row 0 1 load 0 1 0 = null\n|\
     row 0 1 put 0 0 18446744073709551615 = ok\n|\
     row 0 1 get 0 0 = 18446744073709551615\n|\
     row 0 1 gstore 63 0 = ok\n|\
     row 0 1 gload 1 0 = 0.1\n|\
     row 0 1 drop 0 = nil\n|\
     row 0 0 gc = ok\n|\
     note 2046 262143 0.1 4294967295\n|\
     partial chosen scans 0 kept\n|\
     partial chosen 0 2046 scans 2 kept 0.1:c31>2046 1.1:m0\n|\
     partial chosen 0 scans 1 kept 0.1:m0 abort wished 0 wished 31 drained\n|\
     partial chosen scans 0 kept abort drained\n|\
     begin\n|\
     mark\n|\
     mark 0.2 0.1 0.1\n|\
     mark 0.0\n|\
     mark 32.1 4294967295.4294967295\n|\
     end dead\n|\
     end dead 0.0 0.2 0.10 1.1 32.0\n|\
     global dead packed\n|\
     global dead 0.1 packed 0.3>1 0.2>0\n|\
     begin\nmark 0.1\nend dead\n";

// Spaces and ends of lines that no journal has.
const WRONG_ENDS: &str = "\n| begin\n|\
     begin \n|\
     begin|\
     begin\r\n|\
     begin\0\n|\
     mark  0.1\n|\
     mark 0.1 \n|\
     mark\t0.1\n|\
     row 0 1 drop 0  = ok\n|\
     row 0 1 drop 0 = ok";

// Words.
const WRONG_WORDS: &str = "Begin\n|\
     beginn\n|\
     begin begin\n|\
     end\n|\
     end 0.1\n|\
     global dead\n|\
     global packed\n|\
     partial\n|\
     partial chosen 0\n|\
     partial chosen scans 0\n|\
     partial scans 0 kept\n|\
     row\n|\
     row 0 1\n|\
     row 0 1 = ok\n|\
     row 0 1 gc = fine\n|\
     row 0 1 gc ok\n|\
     row 0 1 gc = ok ok\n|\
     row 0 1 drop = ok\n|\
     row 0 1 drop 0 0 = ok\n|\
     row 0 1 move 0 0 = ok\n|\
     note 0 4 0.1\n|\
     note 0 4 0.1 0 0\n";

// Numbers.
const WRONG_NUMBERS: &str = "row 00 1 gc = ok\n|\
     row 0 01 gc = ok\n|\
     row 0 +1 gc = ok\n|\
     row 0 -1 gc = ok\n|\
     row 0 0x1 gc = ok\n|\
     row 0 4294967296 gc = ok\n|\
     row 4294967296 1 gc = ok\n|\
     row 0 1 get 0 0 = 18446744073709551616\n|\
     row 0 1 get 0 0 = 100000000000000000000\n|\
     row 0 1 get 0 0 = 184467440737095516150\n|\
     row 0 1 put 0 0 18446744073709551616 = ok\n|\
     row 0 1 put 4294967296 0 0 = ok\n|\
     partial chosen scans 4294967296 kept\n";

// Names.
const WRONG_NAMES: &str = "mark 0.01\n|\
     mark 00.1\n|\
     mark 0\n|\
     mark .1\n|\
     mark 0.\n|\
     mark 0.1.1\n|\
     mark 4294967296.1\n|\
     mark 0.4294967296\n";

// Regions, workers and cards.
const WRONG_RANGES: &str = "row 0 1 new 0 0 0 = 0.1 in 2047\n|\
     row 0 1 arr 0 31 = 0.1 in 0 leaves 2047\n|\
     note 2047 4 0.1 0\n|\
     note 0 262144 0.1 0\n|\
     partial chosen 2047 scans 0 kept\n|\
     partial chosen 0 scans 1 kept 0.1:c0>2047\n|\
     partial chosen 0 scans 1 kept 0.1:c32>1\n|\
     partial chosen 0 scans 1 kept 0.1:m32\n|\
     partial chosen 0 scans 1 kept 0.1:m0 abort wished 32\n|\
     global dead packed 0.1>2047\n";

// Kept and packed objects.
const WRONG_OBJECTS: &str = "partial chosen 0 scans 1 kept 0.1\n|\
     partial chosen 0 scans 1 kept 0.1:\n|\
     partial chosen 0 scans 1 kept 0.1:c0\n|\
     partial chosen 0 scans 1 kept 0.1:m0>1\n|\
     partial chosen 0 scans 1 kept 0.1:x0>1\n|\
     global dead packed 0.1\n|\
     global dead packed 0.1:0\n";

// Lists that do not ascend.
const WRONG_ORDERS: &str = "partial chosen 1 0 scans 0 kept\n|\
     partial chosen 0 0 scans 0 kept\n|\
     partial chosen 0 scans 2 kept 0.2:m0 0.1:m0\n|\
     partial chosen 0 scans 2 kept 0.1:m0 0.1:m0\n|\
     end dead 0.2 0.1\n|\
     end dead 1.1 0.2\n|\
     global dead 0.1 0.1 packed\n";

// Causes.
const WRONG_CAUSES: &str = "partial chosen 0 scans 0 kept abort\n|\
     partial chosen 0 scans 0 kept abort wished\n|\
     partial chosen 0 scans 0 kept abort 0\n|\
     partial chosen 0 scans 0 kept abort drained wished 0\n|\
     partial chosen 0 scans 0 kept abort drained drained\n|\
     partial chosen 0 scans 0 kept abort wished 1 wished 0\n|\
     partial chosen 0 scans 0 kept wished 0\n";

// Places.
const WRONG_PLACES: &str = "row 0 1 new 0 0 0 = 0.1\n|\
     row 0 1 new 0 0 0 = full in 0\n|\
     row 0 1 load 0 1 0 = 0.1 in 0\n|\
     row 0 1 gc = ok in 0\n|\
     row 0 1 new 0 0 0 = 0.1 in\n|\
     row 0 1 new 0 0 0 = 0.1 0\n|\
     row 0 1 arr 0 31 = 0.1 in 0 leaves\n|\
     row 0 1 arr 0 31 = 0.1 in 0 1\n";

// The first of these texts, apart by bars, that has a journal.
fn accepted<'a>(alloc: Global, texts: &'a str) -> Result<Option<&'a str>, NoMemory> {
    for text in texts.split('|') {
        if bad_line(alloc, text)? != 1 {
            return Ok(Some(text));
        }
    }
    Ok(None)
}

fn same_text(rt: &impl Abort, written: &[u8], text: &str) -> Result<(), Fail> {
    assert_eq!(rt; from_utf8(written)?, text);
    Ok(())
}

fn same_line(rt: &impl Abort, found: u32, line: u32, text: &str) {
    assert_eq!(rt; found, line, "{text}");
}

#[test]
fn each_line_is_read_and_written_again(rt: HostRuntime) -> Result<(), Fail> {
    let alloc = rt.alloc();
    for text in LINES.split('|') {
        let Ok(written) = again(alloc, text) else {
            return Err(Fail::from(text));
        };
        same_text(&rt, written.as_slice(), text)?;
    }
    Ok(())
}

#[test]
fn a_line_in_another_form_is_refused(rt: HostRuntime) -> Result<(), Fail> {
    for texts in [
        WRONG_ENDS,
        WRONG_WORDS,
        WRONG_NUMBERS,
        WRONG_NAMES,
        WRONG_RANGES,
        WRONG_OBJECTS,
        WRONG_ORDERS,
        WRONG_CAUSES,
        WRONG_PLACES,
    ] {
        if let Some(text) = accepted(rt.alloc(), texts)? {
            return Err(Fail::from(text));
        }
    }
    Ok(())
}

#[test]
fn the_first_bad_line_is_told(rt: HostRuntime) -> Result<(), Fail> {
    let alloc = rt.alloc();
    for (text, number) in [
        ("begin\nmark 0.1\nmark 0.\n", 3),
        ("begin\nmark 0.1\n\nbegin\n", 3),
        ("begin\nmark 0.1\nbegin", 3),
        ("begin\nmark 0.\nmark 0.\n", 2),
        ("begin\n \n", 2),
        ("begin\nmark 0.1\nbegin\n", 0),
        ("", 0),
    ] {
        same_line(&rt, bad_line(alloc, text)?, number, text);
    }
    Ok(())
}
