//! The heap that a trace is replayed on: its objects in words, and the journal of what was done. It executes one row of a
//! thread at a time.
//!
//! 1. A row that asks for no room is executed at once, but a `gc` has a global collection first.
//! 2. An allocation looks for soft room, and is placed if there is any. Without it the dirty cards are flushed in turns, and
//!    each new pair of a region and a card is told as a note. Before each turn there is room for all its notes.
//! 3. Then eden and a few older regions are collected, and the object is placed if there is soft room after it.
//! 4. Otherwise the whole heap is collected. There is room for the names of all objects before anything changes.
//! 5. Then the object is placed if there is hard room for it, and otherwise the reply is that the heap is full.
//!
//! Each change comes after all memory that it needs. So a row that runs out of memory was told as far as it went, the words
//! are those of the board that this leaves, and a later step begins the row anew.
ghost use Rattle.std.specs.Prelude.{◌≡◌, ◌≤◌, ◌<◌, ◌^◌, ◌+◌, ◌↔◌, [], ◌∷◌, ◌++◌, Some, None, IsSome, IfOk, IfSome, IfNone, OnOk, OnSome, OnErr, IsErrOf, IsTrue, false, length};
ghost use Rattle.std.specs.List.{AllByRecursion};
ghost use Rattle.bal_model.specs.Entries.{entries_of};
ghost use Rattle.bal_rules.specs.Interim.{today};
ghost use Rattle.bal_rules.specs.RowEvents.{want_of};
ghost use Rattle.bal_rules.specs.Path.{full_event, lacks_room};
ghost use Rattle.bal_rules.specs.Run.{IsRun, board_of, done_by, rows_of};
ghost use Rattle.bal_heap.specs.Heap.{Begins, Breaks, Collects, Evacuates, Executes, IsNext, IsReady, LacksRoom, MayCompact, MayEndBy, MeetsBoard, Tells, Told, allocation_event, plain_event, turn_of};
ghost use Rattle.bal_heap.specs.Flush.{FlushedFirst, Flushes, HasFlushed};
ghost use Rattle.bal_model.specs.Built.{IsTraceRow};
ghost use Rattle.bal_model.specs.Configs.{IsWithinLimits};
ghost use Rattle.bal_heap.specs.Request.{request_of};
ghost use Rattle.bal_heap.specs.Turns.{advanced, done_of, next_of};
ghost use Rattle.bal_model.specs.declared.event.Event.TheVariants as event;
ghost use Rattle.bal_heap.specs.declared.heap.StepFault.TheVariants.{NoMemory as no_memory};

use crate::objects::Objects;
use crate::request::{Request, asked};
use crate::turns::Turns;
use bal_barrier::{CARD_SLOTS, Note};
use bal_eden::Room;
use bal_model::{
    Answer, Config, Event, Items, Journal, NoMemory, Op, PartialCollection, Reply, Row, Trace,
};
use bal_table::{Marks, Moves, Slot};
use std::alloc::Global;
use std::marker::Model;

/// Why a step executed no row.
#[derive(Clone, Copy, PartialEq, Eq)]
pub enum StepFault {
    /// The thread has no row left.
    Ended,
    NoMemory,
}

/// A heap that replays a trace. Contracts see it as its configuration, the rows of its trace, its journal and its objects in
/// words; that the journal is a run, and that the words are those of the board that it leaves, is in the type.
#[derive(Drop)]
pub struct Heap {
    config: Config,
    turns: Turns,
    objects: Objects,
    journal: Journal,
    // Scratch of a flush: the slots on a card, and the notes that are not told yet.
    slots: Items<Slot>,
    notes: Items<Note>,
    // Of a collection: what is marked, and where objects went.
    marks: Marks,
    moves: Moves,
    // For the names that a collection tells.
    alloc: Global,
}

/// A turn of a flush has room for so many notes: those of two cards at least.
const NOTES: usize = 2 * CARD_SLOTS;

impl Model for Heap {
    ghost use Rattle.bal_heap.specs.Heap.{Told};

    ghost Value = { Told };

    ghost use Rattle.bal_heap.specs.Meets.{told_by, Meets};

    ghost view = { told_by };

    ghost invariant = { Meets };
}

impl Heap {
    /// A heap with nothing in it, for the rows of a trace.
    pub fn make(alloc: Global, config: Config, trace: Trace) -> Result<Heap, NoMemory>
        requires limits { IsWithinLimits config }
        requires few { length trace.rows.list ≤ 2 ^ 20 }
        requires each_row { AllByRecursion (IsTraceRow config.geometry) trace.rows.list }
        ensures { IfOk result (Begins config trace.rows.list) }
    {
        let journal = empty_journal(alloc, trace.rows.len())?;
        Ok(Heap {
            config,
            turns: Turns::make(alloc, trace)?,
            objects: Objects::make(alloc, config.geometry)?,
            journal,
            slots: Items::make(alloc)?,
            notes: Items::make(alloc)?,
            marks: Marks::make(alloc, &config.geometry)?,
            moves: Moves::make(alloc, &config.geometry)?,
            alloc,
        })
    }

    /// What happened so far: a run of the trace.
    pub fn journal(&self) -> &Journal
        ensures entries { entries_of result.now ≡ self.now.entries }
        ensures run { IsRun today self.now.config self.now.rows self.now.entries }
        ensures meets { MeetsBoard self.now }
    {
        &self.journal
    }

    /// The rows of the trace, in the order of the file.
    pub fn rows(&self) -> &[Row]
        ensures { result.now ≡ self.now.rows }
    {
        self.turns.rows()
    }

    /// How many rows of a thread are not executed yet.
    pub fn left(&self, thread: u32) -> u32
        requires { thread < 32 }
        ensures { result + done_by thread self.now.entries ≡ length (rows_of thread self.now.rows) }
    {
        self.turns.left(thread)
    }

    /// Executes the thread's next row, and answers its reply. If the thread has no row left, the heap stays as it was. If the
    /// row runs out of memory, the journal may have grown by a broken path of it, and a later step begins the row anew. The
    /// notes of the row are true of the words before it: the slot lies on the card, and refers into the region from another.
    /// An allocation without soft room begins with those of a flush, after which no card is dirty.
    pub fn step(&mut self, thread: u32) -> Result<Reply, StepFault>
        requires { thread < 32 }
        ensures ok { IfOk result (Executes self.old self.new thread) }
        ensures flushed { IfOk result (λ _. HasFlushed self.old self.new thread) }
        ensures ended { IsErrOf result StepFault.Ended
            ↔ (length (rows_of thread self.old.rows) ≤ done_by thread self.old.entries) }
        ensures same { IsErrOf result StepFault.Ended → self.new ≡ self.old }
        ensures broken { IsErrOf result StepFault.NoMemory → Breaks self.old self.new thread }
    {
        let Some(row) = self.next_row(thread) else {
            return Err(StepFault::Ended);
        };
        match asked(&row.op, &self.config.geometry) {
            Some(request) => Ok(self.allocate(row, &request)?),
            None => Ok(self.execute(row)?),
        }
    }

    // The thread's next row, if it has one left.
    fn next_row(&self, thread: u32) -> Option<Row>
        requires { thread < 32 }
        ensures ended { IfNone result (length (rows_of thread self.now.rows) ≤ done_by thread self.now.entries) }
        ensures left { OnSome result (done_by thread self.now.entries < length (rows_of thread self.now.rows)) }
        ensures own { IfSome result (λ row. row.thread ≡ thread) }
        ensures next { IfSome result (IsNext self.now) }
    {
        self.turns.next(thread)
    }

    // Executes a row that allocates. Without soft room there are collections first.
    fn allocate(&mut self, row: Row, request: &Request) -> Result<Reply, NoMemory>
        requires next { IsNext self.old row }
        requires asks { request_of self.old.config.geometry row.op ≡ Some request.now }
        ensures ok { IfOk result (Executes self.old self.new row.thread) }
        ensures err { OnErr result (Breaks self.old self.new row.thread) }
        ensures flushed { IfOk result (λ _. LacksRoom self.old row → FlushedFirst self.old self.new row) }
    {
        // The heap meets its journal before the row, as its type says.
        let _ = &self.config;
        if self.lacks_room(&row, request) {
            self.make_room(&row, request)?;
        }
        self.place(row, request)
    }

    // Makes room for a row that lacks it: all dirty cards are flushed, some regions are collected, and the whole heap is if there
    // is no soft room then.
    fn make_room(&mut self, row: &Row, request: &Request) -> Result<(), NoMemory>
        requires next { IsNext self.old row.now }
        requires asks { request_of self.old.config.geometry row.now.op ≡ Some request.now }
        requires lacks { LacksRoom self.old row.now }
        ensures ok { OnOk result (IsReady self.old self.new row.now (allocation_event self.new row.now request.now.want)) }
        ensures flushed { OnOk result (FlushedFirst self.old self.new row.now) }
        ensures err { OnErr result (Breaks self.old self.new row.now.thread) }
    {
        // The heap meets its journal before the row, as its type says.
        let _ = &self.config;
        self.flush(row)?;
        self.evacuate(row)?;
        if self.lacks_room(row, request) {
            self.collect(row)?;
        }
        Ok(())
    }

    // Executes a row that asks for no room. A `gc` collects the heap first.
    fn execute(&mut self, row: Row) -> Result<Reply, NoMemory>
        requires next { IsNext self.old row }
        requires asks { want_of self.old.config.geometry row.op ≡ None }
        ensures ok { IfOk result (Executes self.old self.new row.thread) }
        ensures err { OnErr result (Breaks self.old self.new row.thread) }
    {
        // The heap meets its journal before the row, as its type says.
        let _ = &self.config;
        if let Op::Gc = row.op {
            self.collect(&row)?;
        }
        self.perform(row)
    }

    // Whether a row that allocates finds no soft room.
    fn lacks_room(&self, row: &Row, request: &Request) -> bool
        requires asks { request_of self.now.config.geometry row.now.op ≡ Some request.now }
        ensures { result ≡ lacks_room self.now.config (turn_of self.now row.now) (board_of self.now.config self.now.entries) }
    {
        let room = self
            .objects
            .find_room(&request.want, Some(self.config.eden));
        matches!(room, Room::Nowhere)
    }

    // Flushes all dirty cards. If memory is refused half way, the cards that were flushed stay so, and their notes are told.
    fn flush(&mut self, row: &Row) -> Result<(), NoMemory>
        requires next { IsNext self.old row.now }
        requires lacks { LacksRoom self.old row.now }
        ensures told { Flushes self.old self.new row.now }
        ensures clean { OnOk result (self.new.objects.cards.list ≡ []) }
    {
        let mut flushed = self.objects.is_clean();
        while !flushed {
            flushed = self.flush_part(row)?;
        }
        Ok(())
    }

    // Flushes dirty cards as far as there is room for their notes, tells these, and answers whether all are flushed. All
    // memory is reserved before.
    fn flush_part(&mut self, row: &Row) -> Result<bool, NoMemory>
        requires next { IsNext self.old row.now }
        requires lacks { LacksRoom self.old row.now }
        ensures told { (before : Told) → Flushes before self.old row.now → Flushes before self.new row.now }
        ensures clean { IfOk result (λ all. IsTrue all → self.new.objects.cards.list ≡ []) }
        ensures fewer { IfOk result (λ all. all ≡ false → length self.new.objects.cards.list < length self.old.objects.cards.list) }
    {
        self.slots.clear();
        self.slots.reserve(CARD_SLOTS)?;
        self.notes.clear();
        self.notes.reserve(NOTES)?;
        self.journal.events.reserve(self.notes.spare())?;
        let flushed = self
            .objects
            .flush(self.config.cards, &mut self.slots, &mut self.notes);
        self.objects
            .tell(self.notes.as_slice(), &mut self.journal.events);
        Ok(flushed)
    }

    // Collects eden and a few older regions, for a row that lacks room when all cards are flushed. There is room for what is told
    // before anything changes.
    fn evacuate(&mut self, row: &Row) -> Result<(), NoMemory>
        requires next { IsNext self.old row.now }
        requires lacks { LacksRoom self.old row.now }
        requires clean { self.old.objects.cards.list ≡ [] }
        ensures ok { OnOk result (Evacuates self.old self.new) }
        ensures err { OnErr result (self.new ≡ self.old) }
    {
        self.journal.events.reserve(1)?;
        let mut told = Box::new(self.alloc, nothing_told(self.alloc)?)?;
        *told = self.objects.evacuate(
            self.alloc,
            &mut self.moves,
            self.config.older,
            self.config.abort_after,
        )?;
        self.journal.events.push(Event::Partial(told));
        Ok(())
    }

    // Collects the whole heap for a row that may ask for it. There is room for the names of all objects before anything
    // changes.
    fn collect(&mut self, row: &Row) -> Result<(), NoMemory>
        requires next { IsNext self.old row.now }
        requires may { MayCompact self.old row.now }
        ensures ok { OnOk result (Collects self.old self.new) }
        ensures err { OnErr result (self.new ≡ self.old) }
    {
        let count = self.objects.count();
        let mut dead = Items::make(self.alloc)?;
        dead.reserve(count)?;
        let mut packed = Items::make(self.alloc)?;
        packed.reserve(count)?;
        self.journal.events.reserve(1)?;
        self.objects
            .collect(&mut self.marks, &mut self.moves, &mut dead, &mut packed);
        self.journal.events.push(Event::Global { dead, packed });
        Ok(())
    }

    // Places the object that a row allocates if there is hard room for it. Otherwise the heap is full. One or the other may
    // come now as the row's own event.
    fn place(&mut self, row: Row, request: &Request) -> Result<Reply, NoMemory>
        requires next { IsNext self.old row }
        requires asks { request_of self.old.config.geometry row.op ≡ Some request.now }
        requires may { MayEndBy self.old row (allocation_event self.old row request.now.want) }
        ensures ok { IfOk result (λ reply. Tells self.old self.new row reply (allocation_event self.old row request.now.want)) }
        ensures err { OnErr result (self.new ≡ self.old) }
    {
        let room = self.objects.find_room(&request.want, None);
        if let Room::Nowhere = room {
            return self.refuse(row);
        }
        self.journal.events.reserve(1)?;
        let (name, region) = self.objects.allocate(row.thread, request, room);
        let answer = Answer::Placed { name, region };
        tell(&mut self.turns, &mut self.journal.events, &row, answer);
        Ok(Reply::Name(name))
    }

    // Tells a row that allocates that the heap is full.
    fn refuse(&mut self, row: Row) -> Result<Reply, NoMemory>
        requires next { IsNext self.old row }
        requires asks { IsSome (want_of self.old.config.geometry row.op) }
        requires may { MayEndBy self.old row (full_event (turn_of self.old row)) }
        ensures ok { IfOk result (λ reply. Tells self.old self.new row reply (full_event (turn_of self.old row))) }
        ensures err { OnErr result (self.new ≡ self.old) }
    {
        self.journal.events.reserve(1)?;
        let answer = Answer::Replied(Reply::Full);
        tell(&mut self.turns, &mut self.journal.events, &row, answer);
        Ok(Reply::Full)
    }

    // Tells a row that asks for no room, and does what it says.
    fn perform(&mut self, row: Row) -> Result<Reply, NoMemory>
        requires next { IsNext self.old row }
        requires asks { want_of self.old.config.geometry row.op ≡ None }
        requires may { MayEndBy self.old row (plain_event self.old row) }
        ensures ok { IfOk result (λ reply. Tells self.old self.new row reply (plain_event self.old row)) }
        ensures err { OnErr result (self.new ≡ self.old) }
    {
        self.journal.events.reserve(1)?;
        let reply = self.objects.perform(row.thread, &row.op);
        let answer = Answer::Replied(reply);
        tell(&mut self.turns, &mut self.journal.events, &row, answer);
        Ok(reply)
    }
}

// A partial collection of which nothing is told.
fn nothing_told(alloc: Global) -> Result<PartialCollection, NoMemory> {
    Ok(PartialCollection {
        chosen: Items::make(alloc)?,
        scans: 0,
        kept: Items::make(alloc)?,
        aborts: Items::make(alloc)?,
    })
}

// Tells a row's own event, for which there is room, and the row was executed.
fn tell(turns: &mut Turns, events: &mut Items<Event>, row: &Row, answer: Answer)
    requires thread { row.now.thread < 32 }
    requires next { IsSome (next_of turns.old row.now.thread) }
    requires room { 1 ≤ events.old.spare }
    ensures turns { turns.new ≡ advanced turns.old row.now.thread }
    ensures told { events.new.list
        ≡ events.old.list ++ event.Row row.now.thread (done_of turns.old row.now.thread + 1) row.now.op answer ∷ [] }
{
    let number = turns.done(row.thread) + 1;
    turns.advance(row.thread);
    events.push(Event::Row {
        thread: row.thread,
        number,
        op: row.op,
        answer,
    });
}

// A journal with room for so many events: a row has at least its own.
fn empty_journal(alloc: Global, events: usize) -> Result<Journal, NoMemory>
    ensures empty { IfOk result (λ journal. entries_of journal ≡ []) }
    ensures room { IfOk result (λ journal. events ≤ journal.events.spare) }
{
    let mut journal = Journal {
        events: Items::make(alloc)?,
    };
    journal.events.reserve(events)?;
    Ok(journal)
}

impl From<NoMemory> for StepFault {
    ghost from_gives = { λ _ fault. fault ≡ no_memory };

    fn from(_: NoMemory) -> Self {
        StepFault::NoMemory
    }
}
