//! A sink with a buffer before it, for a text that comes in many small pieces.
ghost use Rattle.std.specs.Prelude.{◌≡◌, ◌++◌, ℕ, List, [], true, false, OnOk, OnErr};
ghost use Rattle.std.specs.Io.KnownBytes.{Appends};
ghost use Rattle.bal_source.specs.Causes.{HasCause};
ghost use Rattle.bal_source.specs.Streams.{AppendsFront};

use crate::{Failed, Sink, write_all_bytes};
use bal_base::{NoMemory, Text};
use std::alloc::Global;
use std::marker::Model;

/// How many bytes wait at most.
const BUFFER_BYTES: usize = 1 << 16;

/// Bytes that wait to be written. Contracts see them, and how many more fit after them.
#[derive(Drop)]
pub struct Buffer {
    bytes: Vec<u8>,
    used: usize,
}

impl Model for Buffer {
    ghost use Rattle.std.specs.Prelude.{◌≡◌, ◌-◌, ◌≤◌, ℕ, take, vec_len};
    ghost use Rattle.bal_base.specs.Items.{Seq};
    ghost use Rattle.bal_source.specs.Waiting.{buffer_bytes};

    ghost Value = { Seq ℕ };

    ghost view = { λ r. record { list = take r.used r.bytes.items; spare = buffer_bytes - r.used } };

    ghost invariant = { λ r. (r.used ≤ buffer_bytes) × (vec_len r.bytes ≡ buffer_bytes) };
}

impl Buffer {
    ghost use Rattle.std.specs.Prelude.{◌≡◌, ◌+◌, ◌≤◌, ◌++◌, [], length, IfOk, IsTrue, ◌↔◌};
    ghost use Rattle.bal_source.specs.Waiting.{buffer_bytes};

    /// A buffer for 65536 bytes.
    pub fn make(alloc: Global) -> Result<Buffer, NoMemory>
        ensures empty { IfOk result (λ r. r.list ≡ []) }
        ensures room { IfOk result (λ r. r.spare ≡ buffer_bytes) }
    {
        Ok(Buffer {
            bytes: vec![in alloc; 0; BUFFER_BYTES]?,
            used: 0,
        })
    }

    fn as_slice(&self) -> &[u8]
        ensures { result.now ≡ self.now.list }
    {
        &self.bytes[..self.used]
    }

    fn clear(&mut self)
        ensures empty { self.new.list ≡ [] }
        ensures room { self.new.spare ≡ buffer_bytes }
    {
        self.used = 0;
    }

    // Whether a piece fits after the bytes that wait.
    #[inline(always)]
    fn fits(&self, piece: &[u8]) -> bool
        ensures { IsTrue result ↔ (length piece.now ≤ self.now.spare) }
    {
        piece.len() <= self.bytes.len() - self.used
    }

    // Puts a piece after the bytes that wait.
    #[inline(always)]
    fn put(&mut self, piece: &[u8])
        requires { length piece.now ≤ self.old.spare }
        ensures list { self.new.list ≡ self.old.list ++ piece.now }
        ensures room { self.new.spare + length piece.now ≡ self.old.spare }
    {
        let end = self.used;
        self.used = end + piece.len();
        self.bytes[end..self.used].copy_from_slice(piece);
    }
}

/// A sink with a buffer before it. A fault sticks: what arrived before it stays a front of the text, and `finish` tells of
/// it. Whoever is done calls `finish`, which writes what still waits.
#[derive(Drop)]
pub struct Buffered<'a, K> {
    sink: &'a mut K,
    waiting: &'a mut Buffer,
    failed: bool,
}

impl<'a, K: Sink> Buffered<'a, K> {
    ghost use Rattle.bal_source.specs.Buffer.{Moment, Passes, Delivers, IsOnItsWay, moment};

    /// Nothing waits at first, whatever the buffer was used for before.
    pub fn make(sink: &'a mut K, buffer: &'a mut Buffer) -> Buffered<'a, K>
        ensures same_sink { result.sink.ghost_name ≡ sink.entry.ghost_name }
        ensures fresh { moment K.held K.faults result
            ≡ record { held = K.held sink.old; faults = K.faults sink.old; waiting = []; failed = false } }
    {
        buffer.clear();
        Buffered {
            sink,
            waiting: buffer,
            failed: false,
        }
    }

    /// Writes what waits. `Ok` says that all bytes arrived that were given to it since any earlier moment; an error, that
    /// a write has failed since then, and that a front of them arrived.
    pub fn finish(self) -> Result<(), Failed>
        ensures { (from : Moment) (text : List ℕ) → Passes from (moment K.held K.faults self.entry) text
            → Delivers from (K.held self.exit.0.now) (K.faults self.exit.0.now) text result }
    {
        let Buffered {
            sink,
            waiting,
            failed,
        } = self;
        if failed {
            return Err(Failed);
        }
        write_all_bytes(sink, waiting.as_slice())
    }

    // Writes what waits, and then takes a piece that did not fit after it.
    #[cold]
    fn pass_on(&mut self, piece: &[u8]) -> Result<(), Failed>
        ensures same_sink { self.new.sink.ghost_name ≡ self.old.sink.ghost_name }
        ensures all { OnOk result (IsOnItsWay (K.held self.old.sink.now) (K.held self.new.sink.now)
            (self.old.waiting.now.list ++ piece.now) self.new.waiting.now.list) }
        ensures front { OnErr result (AppendsFront (K.held self.old.sink.now) (K.held self.new.sink.now)
            (self.old.waiting.now.list ++ piece.now)) }
        ensures cause { HasCause (K.faults self.old.sink.now) (K.faults self.new.sink.now) result }
        ensures failed { self.new.failed ≡ self.old.failed }
    {
        write_all_bytes(self.sink, self.waiting.as_slice())?;
        self.waiting.clear();
        if self.waiting.fits(piece) {
            self.waiting.put(piece);
            return Ok(());
        }
        // It is larger than the whole buffer.
        write_all_bytes(self.sink, piece)
    }
}

impl<K: Sink> Text for Buffered<'_, K> {
    ghost use Rattle.bal_source.specs.Buffer.{Passes, moment};

    ghost tells = { λ from now text. (now.sink.ghost_name ≡ from.sink.ghost_name)
        × Passes (moment K.held K.faults from) (moment K.held K.faults now) text };

    #[inline]
    fn append(&mut self, piece: &[u8]) {
        if self.failed {
            return;
        }
        if self.waiting.fits(piece) {
            self.waiting.put(piece);
        } else {
            self.failed = self.pass_on(piece).is_err();
        }
    }
}
