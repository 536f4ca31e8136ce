//! The objects of the heap in words: the table of regions, the roots, and how many objects each thread has made. A row reads
//! and writes words here, and the plain state for which they stand does what its definition says.
ghost use Rattle.std.specs.Prelude.{◌≡◌, ◌<◌, ◌≤◌, ◌*◌, ◌+◌, ◌-◌, ◌^◌, ◌++◌, ◌↔◌, [], All, IfOk, IfSome, IsSome, IsTrue, OnErr, false, length, map};
ghost use Rattle.bal_eden.specs.Room.{Finds as FindsRoom, IsRoom};
ghost use Rattle.bal_heap.specs.Objects.{Allocated, AreOnBoard, IsEvacuated, Performs, made_in, number_place, slot_holder, word_in};
ghost use Rattle.bal_barrier.specs.Flush.{IsFlushed};
ghost use Rattle.bal_heap.specs.Flush.{entry_for};
ghost use Rattle.bal_heap.specs.Request.{IsRequest};
ghost use Rattle.bal_layout.specs.References.{target_of};
ghost use Rattle.bal_model.specs.Plain.{name_or_null};
ghost use Rattle.bal_model.specs.Spelling.{IsOp};
ghost use Rattle.bal_model.specs.declared.config.Config.{Config};
ghost use Rattle.bal_model.specs.declared.row.Op.TheVariants as op;
ghost use Rattle.bal_model.specs.Entries.{entry_of};
ghost use Rattle.bal_rules.specs.Board.{Board, opening};
ghost use Rattle.bal_plan.specs.Plan.{starts_of};
ghost use Rattle.bal_rules.specs.GlobalEvents.{IsGlobal, after_global};
ghost use Rattle.bal_rules.specs.RowEvents.{want_of};
ghost use Rattle.bal_table.specs.Table.{things_of};
ghost use Rattle.bal_words.specs.Shown.{Finds, name_behind};

use crate::request::Request;
use bal_barrier::{Note, flush, store_ref};
use bal_base::{Items, NoMemory, filled};
use bal_cards::Cards;
use bal_eden::{Room, allocate, find_room};
use bal_global::global;
use bal_layout::{Header, NULL, Name, THREADS, Want, target_of, word_of};
use bal_model::{Event, Geometry, Op, Packed, PartialCollection, Reply};
use bal_partial::partial;
use bal_plan::count_objects;
use bal_roots::Roots;
use bal_table::{Marks, Moves, Slot, Table};
use std::alloc::Global;
use std::marker::Model;

/// The objects of all regions, what holds them, which cards were written since the last flush, and how many objects each
/// thread has made. That they are those of some board, so that no word leads astray, is in the type, and so is that each
/// reference between regions lies on a dirty card or on one that is remembered.
#[derive(Drop)]
pub(crate) struct Objects {
    table: Table,
    cards: Cards,
    roots: Roots,
    made: Items<u32>,
}

impl Model for Objects {
    ghost use Rattle.bal_heap.specs.Objects as spec;

    ghost Value = { spec.Objects };

    ghost use Rattle.bal_heap.specs.Kept.{objects_by, Kept};

    ghost view = { objects_by };

    ghost invariant = { Kept };
}

impl Objects {
    /// No object, and nothing that holds one.
    pub(crate) fn make(alloc: Global, geometry: Geometry) -> Result<Objects, NoMemory>
        ensures opening { IfOk result (λ objects. (c : Config) → c.geometry ≡ geometry → AreOnBoard objects (opening c)) }
        ensures shape { IfOk result (λ objects. objects.table.shape ≡ geometry) }
    {
        Ok(Objects {
            table: Table::make(alloc, geometry)?,
            cards: Cards::make(alloc, geometry)?,
            roots: Roots::make(alloc)?,
            made: filled(alloc, 0, THREADS as usize)?,
        })
    }

    /// The room for what an allocation asks for: soft room with a budget of eden regions, and hard room without one.
    pub(crate) fn find_room(&self, want: &Want, soft: Option<u32>) -> Room
        ensures { FindsRoom self.now.table want.now soft result }
    {
        find_room(&self.table, want, soft)
    }

    /// Makes an object in the room that was found for it, which a register then holds. Answers its name, and the region in
    /// which it lies.
    pub(crate) fn allocate(&mut self, thread: u32, request: &Request, room: Room) -> (Name, u32)
        requires thread { thread < 32 }
        requires few { made_in self.old thread < 2 ^ 32 - 1 }
        requires request { IsRequest self.old.table.shape request.now }
        requires room { IsRoom self.old.table request.now.want room }
        ensures { Allocated self.old self.new thread request.now room result.0 result.1 }
    {
        let name = Name {
            thread,
            ordinal: self.made.as_slice()[thread as usize] + 1,
        };
        let header = Header {
            kind: request.kind,
            refs: request.refs,
            values: request.values,
            name,
        };
        let address = allocate(&mut self.table, &request.want, room, &header);
        self.roots
            .set_register(thread, request.register, word_of(address));
        self.made.set(thread as usize, name.ordinal);
        (name, self.table.geometry().region_of(address))
    }

    /// Whether no card is dirty, so that a flush has nothing to do.
    pub(crate) fn is_clean(&self) -> bool
        ensures { IsTrue result ↔ (self.now.cards.list ≡ []) }
    {
        self.cards.next_list(0).is_none()
    }

    /// Flushes the dirty cards in ascending order, as long as there is room for the notes of a whole card, and answers
    /// whether all were flushed. The slots are scratch.
    pub(crate) fn flush(
        &mut self,
        limit: u32,
        slots: &mut Items<Slot>,
        notes: &mut Items<Note>,
    ) -> bool
        requires limit { limit ≤ 1024 }
        requires scratch { 64 ≤ slots.old.spare + length slots.old.list }
        ensures flushed { IsFlushed limit self.old.table self.new.table self.old.cards self.new.cards notes.old.list notes.new.list }
        ensures words { self.new ≡ record self.old { table = self.new.table; cards = self.new.cards } }
        ensures meets { (b : Board) → AreOnBoard self.old b → AreOnBoard self.new (record b { regions = self.new.table.regions }) }
        ensures all { IsTrue result ↔ (self.new.cards.list ≡ []) }
        ensures full { result ≡ false → notes.new.spare < 64 }
        ensures room { notes.new.spare + length notes.new.list ≡ notes.old.spare + length notes.old.list }
    {
        let flushed = flush(&mut self.table, &mut self.cards, limit, slots, notes);
        // What is promised of the table's objects is promised of a table that is one, as this says.
        let _ = self.table.geometry();
        flushed
    }

    /// Tells these notes, each with the name of its holder, into room that was reserved.
    pub(crate) fn tell(&self, notes: &[Note], events: &mut Items<Event>)
        requires holders { All (λ n. IsSome (things_of self.now.table n.holder)) notes.now }
        requires room { length notes.now ≤ events.old.spare }
        ensures { map entry_of events.new.list ≡ map entry_of events.old.list ++ map (entry_for self.now.table) notes.now }
    {
        for note in notes {
            events.push(Event::Note {
                region: note.region,
                card: note.card,
                holder: self.table.header(note.holder).name,
                slot: note.slot,
            });
        }
    }

    /// How many objects there are.
    pub(crate) fn count(&self) -> usize
        ensures { result ≡ length (starts_of self.now.table) }
    {
        count_objects(&self.table) as usize
    }

    /// Collects all that no register and no global reaches, packs the rest together, and tells both.
    pub(crate) fn collect(
        &mut self,
        marks: &mut Marks,
        moves: &mut Moves,
        dead: &mut Items<Name>,
        packed: &mut Items<Packed>,
    )
        requires marks { marks.old.words ≡ self.old.table.shape.regions * self.old.table.shape.words }
        requires moves { length moves.old.words ≡ self.old.table.shape.regions * self.old.table.shape.words }
        requires empty { (dead.old.list ≡ []) × (packed.old.list ≡ []) }
        requires room { (length (starts_of self.old.table) ≤ dead.old.spare) × (length (starts_of self.old.table) ≤ packed.old.spare) }
        ensures global { (c : Config) (b : Board) → c.geometry ≡ self.old.table.shape → AreOnBoard self.old b
            → IsGlobal c b dead.new.list packed.new.list × AreOnBoard self.new (after_global c b dead.new.list packed.new.list) }
        ensures shape { self.new.table.shape ≡ self.old.table.shape }
        ensures marks { marks.new.words ≡ marks.old.words }
        ensures moves { length moves.new.words ≡ length moves.old.words }
    {
        global(
            &mut self.table,
            &mut self.cards,
            &mut self.roots,
            marks,
            moves,
            dead,
            packed,
        );
        // What is promised of the table's objects is promised of a table that is one, as this says.
        let _ = self.table.geometry();
    }

    /// Collects eden and at most so many older regions, where at most so many objects are copied, if that is limited, and answers
    /// what is told of it. If memory is refused, all is as it was.
    pub(crate) fn evacuate(
        &mut self,
        alloc: Global,
        moves: &mut Moves,
        older: u32,
        limit: Option<u64>,
    ) -> Result<PartialCollection, NoMemory>
        requires clean { self.old.cards.list ≡ [] }
        requires moves { length moves.old.words ≡ self.old.table.shape.regions * self.old.table.shape.words }
        ensures ok { IfOk result (λ did. IsEvacuated self.old self.new older limit did.chosen.list did.scans did.kept.list did.aborts.list) }
        ensures err { OnErr result (self.new ≡ self.old) }
        ensures shape { self.new.table.shape ≡ self.old.table.shape }
        ensures moves { length moves.new.words ≡ length moves.old.words }
    {
        let did = partial(
            alloc,
            &mut self.table,
            &mut self.cards,
            &mut self.roots,
            moves,
            older,
            limit,
        );
        // What is promised of the table's objects is promised of a table that is one, as this says.
        let _ = self.table.geometry();
        did
    }

    /// Executes a row that asks for no room, and answers its reply.
    pub(crate) fn perform(&mut self, thread: u32, op: &Op) -> Reply
        requires thread { thread < 32 }
        requires in_range { IsOp self.old.table.shape op.now }
        requires asks { want_of self.old.table.shape op.now ≡ None }
        ensures { Performs self.old self.new thread op.now result }
    {
        match *op {
            Op::Store {
                holder,
                slot,
                value,
            } => self.store(thread, holder, slot, value),
            Op::Load { into, holder, slot } => self.load(thread, into, holder, slot),
            Op::Put {
                holder,
                slot,
                number,
            } => self.put(thread, holder, slot, number),
            Op::Get { holder, slot } => self.get(thread, holder, slot),
            Op::GStore { global, register } => self.store_global(thread, global, register),
            Op::GLoad { into, global } => self.load_global(thread, into, global),
            Op::Drop { register } => self.clear_register(thread, register),
            // An allocation is no such row, and a `gc` has its collection before.
            Op::New { .. } | Op::Arr { .. } | Op::Gc => Reply::Ok,
        }
    }
}

impl Objects {
    // Where the object starts that a register holds, if it holds one.
    #[inline(always)]
    fn held(&self, thread: u32, register: u32) -> Option<u32>
        requires thread { thread < 32 }
        requires register { register < 32 }
        ensures target { result ≡ target_of (word_in self.now thread register) }
        ensures start { IfSome result (λ a. IsSome (things_of self.now.table a)) }
    {
        target_of(self.roots.register(thread, register))
    }

    // The object of the reference slot that a row names by its holder's register and a number, or what the row replies if
    // there is none.
    #[inline(always)]
    fn slot_holder(&self, thread: u32, holder: u32, slot: u32) -> Result<u32, Reply>
        requires thread { thread < 32 }
        requires holder { holder < 32 }
        ensures { result ≡ slot_holder self.now thread holder slot }
    {
        let Some(address) = self.held(thread, holder) else {
            return Err(Reply::Nil);
        };
        if slot >= self.table.slots(address) {
            return Err(Reply::Slot);
        }
        Ok(address)
    }

    // Where the number lies.
    #[inline(always)]
    fn number_place(&self, thread: u32, holder: u32, slot: u32) -> Result<u32, Reply>
        requires thread { thread < 32 }
        requires holder { holder < 32 }
        ensures { result ≡ number_place self.now thread holder slot }
    {
        let Some(address) = self.held(thread, holder) else {
            return Err(Reply::Nil);
        };
        let Some(place) = self.table.find_value(address, slot) else {
            return Err(Reply::Slot);
        };
        Ok(place)
    }

    // The reply of a row that takes what a word leads to.
    fn reply_of(&self, word: u64) -> Reply
        requires few { word ≤ 2 ^ 32 }
        requires finds { Finds (things_of self.now.table) word }
        ensures { result ≡ name_or_null (name_behind (things_of self.now.table) word) }
    {
        match target_of(word) {
            Some(address) => Reply::Name(self.table.header(address).name),
            None => Reply::Null,
        }
    }

    // The holder's reference becomes what a register holds.
    fn store(&mut self, thread: u32, holder: u32, slot: u32, value: u32) -> Reply
        requires thread { thread < 32 }
        requires holder { holder < 32 }
        requires value { value < 32 }
        ensures { Performs self.old self.new thread (op.Store holder slot value) result }
    {
        let address = match self.slot_holder(thread, holder, slot) {
            Ok(address) => address,
            Err(reply) => return reply,
        };
        let word = self.roots.register(thread, value);
        store_ref(&mut self.table, &mut self.cards, address, slot, word);
        Reply::Ok
    }

    // A register takes the holder's reference.
    fn load(&mut self, thread: u32, into: u32, holder: u32, slot: u32) -> Reply
        requires thread { thread < 32 }
        requires into { into < 32 }
        requires holder { holder < 32 }
        ensures { Performs self.old self.new thread (op.Load into holder slot) result }
    {
        let address = match self.slot_holder(thread, holder, slot) {
            Ok(address) => address,
            Err(reply) => return reply,
        };
        let word = self.table.word(self.table.slot_place(address, slot));
        let reply = self.reply_of(word);
        self.roots.set_register(thread, into, word);
        reply
    }

    // The holder's number becomes another.
    fn put(&mut self, thread: u32, holder: u32, slot: u32, number: u64) -> Reply
        requires thread { thread < 32 }
        requires holder { holder < 32 }
        ensures { Performs self.old self.new thread (op.Put holder slot number) result }
    {
        let place = match self.number_place(thread, holder, slot) {
            Ok(place) => place,
            Err(reply) => return reply,
        };
        self.table.set_word(place, number);
        Reply::Ok
    }

    // The holder's number.
    fn get(&self, thread: u32, holder: u32, slot: u32) -> Reply
        requires thread { thread < 32 }
        requires holder { holder < 32 }
        ensures { Performs self.now self.now thread (op.Get holder slot) result }
    {
        let place = match self.number_place(thread, holder, slot) {
            Ok(place) => place,
            Err(reply) => return reply,
        };
        Reply::Number(self.table.word(place))
    }

    // A global takes what a register holds.
    fn store_global(&mut self, thread: u32, global: u32, register: u32) -> Reply
        requires thread { thread < 32 }
        requires global { global < 64 }
        requires register { register < 32 }
        ensures { Performs self.old self.new thread (op.GStore global register) result }
    {
        let word = self.roots.register(thread, register);
        self.roots.set_global(global, word);
        Reply::Ok
    }

    // A register takes what a global holds.
    fn load_global(&mut self, thread: u32, into: u32, global: u32) -> Reply
        requires thread { thread < 32 }
        requires into { into < 32 }
        requires global { global < 64 }
        ensures { Performs self.old self.new thread (op.GLoad into global) result }
    {
        let word = self.roots.global(global);
        let reply = self.reply_of(word);
        self.roots.set_register(thread, into, word);
        reply
    }

    // A register becomes null.
    fn clear_register(&mut self, thread: u32, register: u32) -> Reply
        requires thread { thread < 32 }
        requires register { register < 32 }
        ensures { Performs self.old self.new thread (op.Drop register) result }
    {
        self.roots.set_register(thread, register, NULL);
        Reply::Ok
    }
}
