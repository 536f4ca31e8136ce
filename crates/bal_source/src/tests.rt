//! What no clause says: that calls succeed, and what the streams of std do; and callers whose own contracts follow from
//! those of the crate.
ghost use Rattle.std.specs.Prelude.{◌≡◌, ◌^◌, ◌≤◌, ◌<◌, ◌++◌, None, IfOk, OnOk, IsErrOf, length};

use crate::{
    After, Buffer, Buffered, Failed, Gate, InSource, MOST_BYTES, MemorySink, MemorySource,
    OpenGate, OutSink, ReadEnd, Sink, Source, SureSink, SureSource, Wish, read_all,
    write_all_bytes,
};
use bal_base::{Items, NoMemory, Text};
use std::alloc::Global;
use std::io;
use std::io::{Cursor, Read, Write};
use std::process::Abort;
use std::test::Fail;

fn is(rt: &impl Abort, fact: bool) {
    assert!(rt; fact);
}

fn same(rt: &impl Abort, left: usize, right: usize) {
    assert_eq!(rt; left, right);
}

fn same_bytes(rt: &impl Abort, left: &[u8], right: &[u8]) {
    assert_eq!(rt; left, right);
}

fn items<T: Copy>(alloc: Global, from: &[T]) -> Result<Items<T>, NoMemory>
    ensures { IfOk result (λ list. list.list ≡ from.now) }
{
    let mut list = Items::make(alloc)?;
    list.reserve(from.len())?;
    list.extend_from_slice(from);
    Ok(list)
}

// If the bytes are told, reading to the end gives exactly them, and no input of so few bytes is too long.
fn read_known(alloc: Global, source: &mut MemorySource) -> Result<Items<u8>, ReadEnd>
    requires { source.old.supply.given ≡ 0 }
    ensures bytes { IfOk result (λ bytes. bytes.list ≡ source.old.supply.left) }
    ensures short { length source.old.supply.left ≤ 2 ^ 26 → IsErrOf result ReadEnd.TooLong → ⊥ }
{
    read_all(alloc, source)
}

// A source without faults gives no occasion for that answer.
fn read_sure(alloc: Global, source: &mut SureSource) -> Result<Items<u8>, ReadEnd>
    requires { source.old.given ≡ 0 }
    ensures { IsErrOf result ReadEnd.ReadFault → ⊥ }
{
    read_all(alloc, source)
}

// A reader of std that tells its bytes is read to its end.
fn read_slice(alloc: Global, bytes: &[u8]) -> Result<Items<u8>, ReadEnd>
    ensures { IfOk result (λ read. read.list ≡ bytes.now) }
{
    read_all(alloc, &mut InSource::make(bytes))
}

fn asks<W: Wish + Send>(wish: &mut W, copied: u64) -> bool {
    wish.wish(copied)
}

fn passes<G: Gate + Sync>(gate: &G) {
    gate.before(0);
}

// Whether reading ends for this cause, or by itself if there is none.
fn ends_by(read: &Result<Items<u8>, ReadEnd>, cause: Option<ReadEnd>) -> bool {
    match read {
        Ok(_) => cause.is_none(),
        Err(end) => cause == Some(*end),
    }
}

#[test]
fn a_source_fails_at_its_call_and_goes_on(rt: HostRuntime) -> Result<(), Fail> {
    let alloc = rt.alloc();
    // Four bytes one by one, and the end at the fifth call.
    for (call, next, count) in [(1, b'a', 1), (2, b'b', 1), (4, b'd', 1), (5, 0, 0)] {
        let mut source = MemorySource::make(items(alloc, b"abcd")?, 1, items(alloc, &[call])?);
        let read = read_known(alloc, &mut source);
        is(&rt, ends_by(&read, Some(ReadEnd::ReadFault)));
        let mut into = [0];
        is(&rt, source.read(&mut into) == Ok(count));
        same_bytes(&rt, &into, &[next]);
    }
    let mut source = MemorySource::make(items(alloc, b"abcd")?, 1, items(alloc, &[6])?);
    let read = read_known(alloc, &mut source)?;
    same_bytes(&rt, read.as_slice(), b"abcd");
    is(&rt, source.read(&mut [0]).is_err());
    Ok(())
}

#[test]
fn a_sink_takes_some_bytes_and_fails(rt: HostRuntime) -> Result<(), Fail> {
    let alloc = rt.alloc();
    for call in 1..=5usize {
        let fails = items(alloc, &[call as u64])?;
        let mut sink = MemorySink::make(items(alloc, b"")?, 1, fails);
        let written = write_all_bytes(&mut sink, b"abcd");
        is(&rt, written.is_ok() == (call == 5));
        same_bytes(&rt, sink.bytes(), &b"abcd"[..call - 1]);
    }
    Ok(())
}

#[test]
fn a_sink_without_pieces_refuses_all_but_the_empty_piece(rt: HostRuntime) -> Result<(), Fail> {
    let alloc = rt.alloc();
    let mut sink = MemorySink::make(items(alloc, b"")?, 0, items(alloc, &[])?);
    is(&rt, sink.write(b"a").is_err());
    is(&rt, sink.write(b"").is_ok());
    is(&rt, write_all_bytes(&mut sink, b"a").is_err());
    is(&rt, write_all_bytes(&mut sink, b"").is_ok());
    Ok(())
}

#[test]
fn the_sure_ones_never_fail(rt: HostRuntime) -> Result<(), Fail> {
    let alloc = rt.alloc();
    let mut source = SureSource::make(items(alloc, b"abcdefgh")?, 3);
    let read = read_sure(alloc, &mut source)?;
    same_bytes(&rt, read.as_slice(), b"abcdefgh");
    is(&rt, write_all_bytes(&mut SureSink::make(), b"abc").is_ok());
    Ok(())
}

// A source of so many bytes, whatever they are.
#[derive(Drop)]
struct Many {
    left: usize,
    given: u64,
}

impl Source for Many {
    ghost left = { λ _. None };

    ghost given = { λ many. many.given };

    ghost faults = { λ _. 0 };

    fn read(&mut self, into: &mut [u8]) -> Result<usize, Failed> {
        let count = into.len().min(self.left);
        self.left -= count;
        self.given = self.given.saturating_add(count as u64);
        Ok(count)
    }
}

#[test]
fn an_input_too_long_by_one_byte_is_refused(rt: HostRuntime) -> Result<(), Fail> {
    let alloc = rt.alloc();
    for (left, cause) in [(MOST_BYTES, None), (MOST_BYTES + 1, Some(ReadEnd::TooLong))] {
        let mut source = Many { left, given: 0 };
        is(&rt, ends_by(&read_all(alloc, &mut source), cause));
    }
    Ok(())
}

// What is given piece by piece stands in the sink as one text.
fn write_both(
    buffer: &mut Buffer,
    sink: &mut MemorySink,
    first: &[u8],
    second: &[u8],
) -> Result<(), Failed>
    ensures { OnOk result (sink.new.held ≡ sink.old.held ++ (first.now ++ second.now)) }
{
    let mut text = Buffered::make(sink, buffer);
    text.append(first);
    text.append(second);
    text.finish()
}

// Writes bytes in pieces of one size, and answers whether all arrived.
fn write_pieces(buffer: &mut Buffer, sink: &mut MemorySink, bytes: &[u8], size: usize) -> bool
    requires { 0 < size }
{
    let mut text = Buffered::make(sink, buffer);
    for piece in bytes.chunks(size) {
        text.append(piece);
    }
    text.finish().is_ok()
}

// So many bytes, of which no two neighbours are the same.
fn varied(alloc: Global, count: usize) -> Result<Items<u8>, NoMemory> {
    let mut bytes = Items::make(alloc)?;
    for at in 0..count {
        bytes.append(&[(at % 251) as u8])?;
    }
    Ok(bytes)
}

#[test]
fn pieces_of_any_size_arrive_in_their_order(rt: HostRuntime) -> Result<(), Fail> {
    let alloc = rt.alloc();
    let bytes = varied(alloc, 150_000)?;
    let mut buffer = Buffer::make(alloc)?;
    // Smaller than the buffer, as large, one byte larger, and all in one piece; by large writes and by small ones.
    for size in [1, 1_000, 40_000, 65_536, 65_537, 150_000] {
        for taken in [u32::MAX, 7_000] {
            let mut sink = MemorySink::make(items(alloc, b"")?, taken, items(alloc, &[])?);
            is(
                &rt,
                write_pieces(&mut buffer, &mut sink, bytes.as_slice(), size),
            );
            same_bytes(&rt, sink.bytes(), bytes.as_slice());
        }
    }
    let mut sink = MemorySink::make(items(alloc, b">")?, 2, items(alloc, &[])?);
    is(
        &rt,
        write_both(&mut buffer, &mut sink, b"abc", b"de").is_ok(),
    );
    same_bytes(&rt, sink.bytes(), b">abcde");
    Ok(())
}

#[test]
fn what_waits_is_written_when_it_must(rt: HostRuntime) -> Result<(), Fail> {
    let alloc = rt.alloc();
    let bytes = varied(alloc, 40_000)?;
    let mut buffer = Buffer::make(alloc)?;
    for (pieces, want) in [(0, 0), (1, 0), (2, 40_000), (3, 80_000)] {
        let mut sink = MemorySink::make(items(alloc, b"")?, u32::MAX, items(alloc, &[])?);
        let mut text = Buffered::make(&mut sink, &mut buffer);
        for _ in 0..pieces {
            text.append(bytes.as_slice());
        }
        same(&rt, sink.bytes().len(), want);
    }
    Ok(())
}

#[test]
fn nothing_is_written_after_a_fault(rt: HostRuntime) -> Result<(), Fail> {
    let alloc = rt.alloc();
    let bytes = varied(alloc, 150_000)?;
    let mut buffer = Buffer::make(alloc)?;
    // Three pieces are written when the next one does not fit after them, and the last at the end. The sink takes each
    // in two calls. It would take more after its fault.
    for (call, want) in [
        (1, 0),
        (2, 30_000),
        (3, 40_000),
        (4, 70_000),
        (5, 80_000),
        (6, 110_000),
        (7, 120_000),
        (8, 150_000),
    ] {
        let mut sink = MemorySink::make(items(alloc, b"")?, 30_000, items(alloc, &[call])?);
        let whole = write_pieces(&mut buffer, &mut sink, bytes.as_slice(), 40_000);
        is(&rt, whole == (call == 8));
        same(&rt, sink.bytes().len(), want);
        is(&rt, bytes.as_slice().starts_with(sink.bytes()));
    }
    // A piece that is larger than the buffer goes out by itself.
    let mut sink = MemorySink::make(items(alloc, b"")?, u32::MAX, items(alloc, &[2])?);
    is(
        &rt,
        !write_pieces(&mut buffer, &mut sink, bytes.as_slice(), 70_000),
    );
    same(&rt, sink.bytes().len(), 70_000);
    Ok(())
}

#[derive(Drop)]
struct Broken;

impl Read for Broken {
    fn read(&mut self, _: &mut [u8]) -> io::Result<usize> {
        Err(io::Error::from(io::ErrorKind::Other))
    }
}

impl Write for Broken {
    fn write(&mut self, _: &[u8]) -> io::Result<usize> {
        Err(io::Error::from(io::ErrorKind::BrokenPipe))
    }

    fn flush(&mut self) -> io::Result<()> {
        Ok(())
    }
}

#[test]
fn a_reader_of_std_is_a_source(rt: HostRuntime) -> Result<(), Fail> {
    let alloc = rt.alloc();
    same_bytes(&rt, read_slice(alloc, b"abc")?.as_slice(), b"abc");
    let mut source = InSource::make(Cursor::new(b"abc".as_slice()));
    same_bytes(&rt, read_all(alloc, &mut source)?.as_slice(), b"abc");
    // It fails after the bytes before the fault were taken.
    let mut source = InSource::make(b"abc".as_slice().chain(Broken));
    let mut front = [0; 8];
    is(&rt, source.read(&mut front) == Ok(3));
    let read = read_all(alloc, &mut source);
    is(&rt, ends_by(&read, Some(ReadEnd::ReadFault)));
    Ok(())
}

#[test]
fn a_writer_of_std_is_a_sink(rt: HostRuntime) -> Result<(), Fail> {
    let alloc = rt.alloc();
    let mut held = Vec::new(alloc);
    is(
        &rt,
        write_all_bytes(&mut OutSink::make(&mut held), b"abc").is_ok(),
    );
    same_bytes(&rt, held.as_slice(), b"abc");
    // A full writer takes 0 bytes, which is a fault.
    let mut room = [0; 2];
    let mut sink = OutSink::make(room.as_mut_slice());
    is(&rt, write_all_bytes(&mut sink, b"abc").is_err());
    same_bytes(&rt, &room, b"ab");
    is(&rt, OutSink::make(Broken).write(b"abc").is_err());
    Ok(())
}

#[test]
fn a_wish_comes_at_its_limit(rt: HostRuntime) {
    let mut wish = After {
        limit: Some(3),
        yes: 0,
        no: u64::MAX,
    };
    for (copied, want) in [(0, false), (2, false), (3, true), (u64::MAX, true)] {
        is(&rt, asks(&mut wish, copied) == want);
    }
    is(&rt, wish.yes == 2 && wish.no == u64::MAX);
    let mut never = After {
        limit: None,
        yes: 0,
        no: 0,
    };
    is(&rt, !asks(&mut never, u64::MAX));
    is(&rt, never.no == 1);
    passes(&OpenGate);
}
