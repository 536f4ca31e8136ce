//! What one worker decided and copied so far, and the regions that it draws from.
ghost use Rattle.std.specs.Prelude.{◌≡◌, ◌∷◌, [], ℕ, ◌+◌, ◌<◌, ◌≤◌, ◌^◌, IfErr, IfOk, IsTrue, MatchOption, None, false, is_none, is_some, length, option_map, replicate, slice_get};
ghost use Rattle.bal_layout.specs.Shape.{largest_of};
ghost use Rattle.bal_core.specs.declared.event.Decision.TheVariants as decision;
ghost use Rattle.bal_core.specs.declared.row.Told.{Told};
ghost use Rattle.bal_region.specs.Land.{IsObject};
ghost use Rattle.bal_dest.specs.Buffers.{IsBuffers, Takes, no_buffers, wants_region};
ghost use Rattle.bal_evacuate.specs.Course.{decision_of, is_dry, is_wish};
ghost use Rattle.bal_evacuate.specs.Going.{Copies, IsBegun, after_draw, decided, tried};
ghost use Rattle.bal_evacuate.specs.Plan.{AreBare};

use bal_base::{Items, NoMemory};
use bal_core::{Decision, Told};
use bal_dest::Buffers;
use bal_layout::{Abort, Geometry};
use bal_region::Region;
use std::alloc::Global;
use std::marker::Model;
use std::vec::IntoIter;

/// What was decided of each object, in which order, the regions with the copies, and those of the pool that were not drawn.
#[derive(Drop)]
pub struct Evacuated {
    decisions: Vec<Option<Decision>>,
    won: Items<Told>,
    // How many of the decided objects were copied.
    copied: u64,
    buffers: Buffers,
    spares: IntoIter<Region>,
    cause: Option<Abort>,
}

impl Model for Evacuated {
    ghost use Rattle.std.specs.Vec.Iter.{into_iter_items};
    ghost use Rattle.bal_evacuate.specs.Course.{Course};

    ghost Value = { Course };

    ghost view = { λ e. record {
      words = e.decisions.items;
      won = e.won.list;
      room = e.won.spare;
      copied = e.copied;
      buffers = e.buffers;
      spares = into_iter_items e.spares;
      cause = e.cause;
    } };
}

// Room for what is decided of so many objects, and for a pool of so many regions.
fn rooms(
    alloc: Global,
    geometry: Geometry,
    count: u32,
    pool: u32,
) -> Result<(Vec<Option<Decision>>, Items<Told>, Buffers), NoMemory>
    ensures words { IfOk result (λ rooms. rooms.0.items ≡ replicate count None) }
    ensures won { IfOk result (λ rooms. rooms.1.list ≡ []) }
    ensures room { IfOk result (λ rooms. count ≤ rooms.1.spare) }
    ensures buffers { IfOk result (λ rooms. rooms.2 ≡ no_buffers geometry pool) }
{
    let decisions = vec![in alloc; None; count as usize]?;
    let mut won = Items::make(alloc)?;
    won.reserve(count as usize)?;
    Ok((decisions, won, Buffers::make(alloc, geometry, pool)?))
}

impl Evacuated {
    /// Nothing is decided yet. If memory is refused, the pool comes back as it was.
    pub(crate) fn make(
        alloc: Global,
        geometry: Geometry,
        count: u32,
        pool: Vec<Region>,
    ) -> Result<Evacuated, (Vec<Region>, NoMemory)>
        requires { length pool.items < 2 ^ 32 }
        ensures ok { IfOk result (IsBegun geometry count pool.items) }
        ensures err { IfErr result (λ refused. refused.0.items ≡ pool.items) }
    {
        match rooms(alloc, geometry, count, pool.len() as u32) {
            Ok((decisions, won, buffers)) => Ok(Evacuated {
                decisions,
                won,
                copied: 0,
                buffers,
                spares: pool.into_iter(),
                cause: None,
            }),
            Err(refused) => Err((pool, refused)),
        }
    }

    /// What was decided of an object: None if nothing was.
    pub fn decision(&self, object: u32) -> Option<Decision>
        ensures { result ≡ decision_of self.now object }
    {
        match self.decisions.get(object as usize) {
            Some(decision) => *decision,
            None => None,
        }
    }

    /// The decided objects, in the order in which they were decided.
    pub fn won(&self) -> &[Told]
        ensures { result.now ≡ self.now.won }
    {
        self.won.as_slice()
    }

    /// Whether the evacuation was abandoned by the worker's wish.
    pub fn wished(&self) -> bool
        ensures { result ≡ is_wish self.now.cause }
    {
        matches!(self.cause, Some(Abort::Wished(_)))
    }

    /// Whether it was abandoned since the pool had no region left.
    pub fn drained(&self) -> bool
        ensures { result ≡ is_dry self.now.cause }
    {
        matches!(self.cause, Some(Abort::Drained))
    }

    /// Takes out the region that was drawn first, and answers its number, its age and the region: None if none is left.
    pub fn take_region(&mut self) -> Option<(u32, u8, Region)>
        requires { self.old.buffers.reserved ≡ None }
        ensures region { Takes self.old.buffers self.new.buffers result }
        ensures others { self.new ≡ record self.old { buffers = self.new.buffers } }
    {
        self.buffers.take_region()
    }

    /// Takes out the first of the pool's regions that were not drawn: None if none is left.
    pub fn take_spare(&mut self) -> Option<Region>
        ensures { MatchOption result ((self.old.spares ≡ []) × (self.new ≡ self.old))
            (λ region. (self.old.spares ≡ region ∷ self.new.spares) × (self.new ≡ record self.old { spares = self.new.spares })) }
    {
        self.spares.next()
    }
}

impl Evacuated {
    /// The object that was decided at this place of the order.
    pub(crate) fn won_at(&self, place: usize) -> Option<u32>
        ensures { result ≡ option_map (λ (t : Told). t.object) (slice_get self.now.won place) }
    {
        match self.won.get(place) {
            Some(told) => Some(told.object),
            None => None,
        }
    }

    /// Whether the object is decided.
    pub(crate) fn has_decided(&self, object: u32) -> bool
        ensures { result ≡ is_some (decision_of self.now object) }
    {
        self.decision(object).is_some()
    }

    /// What is known of the regions of survivors, as a fact.
    pub(crate) fn limits(&self)
        ensures { IsBuffers self.now.buffers }
    {
        let _ = self.buffers.wants_region(0, 0);
    }

    // The next region of the pool is drawn for an age, or the abort is raised if none is left. Answers whether there was one.
    fn draw(&mut self, age: u8) -> bool
        requires age { age ≤ 24 }
        requires wanted { IsTrue (wants_region self.old.buffers age (largest_of self.old.buffers.shape)) }
        requires pool { AreBare self.old.buffers.shape self.old.spares }
        requires room { self.old.buffers.room ≡ length self.old.spares }
        requires unraised { self.old.cause ≡ None }
        ensures draws { self.new ≡ after_draw self.old age self.old.spares }
        ensures answer { result ≡ is_none self.new.cause }
        ensures has_room { IsTrue result → (words : ℕ) → words ≤ self.old.buffers.shape.words → wants_region self.new.buffers age words ≡ false }
    {
        match self.spares.next() {
            Some(region) => {
                self.buffers.add_region(age, region);
                true
            }
            None => {
                self.cause = Some(Abort::Drained);
                false
            }
        }
    }

    /// Seeks room for an object of this age and size, if the abort is not raised, and answers whether there is room. It raises
    /// the abort at the limit, and where a region is wanted and none is left.
    pub(crate) fn seek_room(&mut self, limit: Option<u64>, age: u8, words: u32) -> bool
        requires age { age ≤ 24 }
        requires words { words ≤ largest_of self.old.buffers.shape }
        requires pool { AreBare self.old.buffers.shape self.old.spares }
        requires room { self.old.buffers.room ≡ length self.old.spares }
        ensures tries { self.new ≡ tried self.old limit age words }
        ensures answer { result ≡ is_none self.new.cause }
        ensures has_room { IsTrue result → wants_region self.new.buffers age words ≡ false }
    {
        if self.cause.is_some() {
            return false;
        }
        if limit == Some(self.copied) {
            self.cause = Some(Abort::Wished(0));
            return false;
        }
        if self.buffers.wants_region(age, words) {
            return self.draw(age);
        }
        true
    }

    /// Copies an object behind what was copied for its age before.
    pub(crate) fn copy(&mut self, object: u32, age: u8, words: &[u64])
        requires age { age ≤ 24 }
        requires object { object < length self.old.words }
        requires some { 1 ≤ length words.now }
        requires few { length words.now < 2 ^ 32 }
        requires is { IsObject self.old.buffers.shape.words words.now }
        requires fits { wants_region self.old.buffers age (length words.now) ≡ false }
        requires idle { self.old.buffers.reserved ≡ None }
        requires room { 1 ≤ self.old.room }
        requires copied { self.old.copied + 1 < 2 ^ 64 }
        ensures { Copies self.old self.new object age words.now }
    {
        let address = self.buffers.reserve(age, words.len() as u32);
        self.buffers.commit(words);
        self.decide(object, Decision::Copied(address));
        self.copied += 1;
    }

    /// Marks an object where it lies.
    pub(crate) fn mark(&mut self, object: u32)
        requires object { object < length self.old.words }
        requires room { 1 ≤ self.old.room }
        ensures { self.new ≡ decided self.old object decision.Marked }
    {
        self.decide(object, Decision::Marked);
    }

    // The object is decided so, as the last one.
    fn decide(&mut self, object: u32, decision: Decision)
        requires object { object < length self.old.words }
        requires room { 1 ≤ self.old.room }
        ensures { self.new ≡ decided self.old object decision }
    {
        self.decisions[object as usize] = Some(decision);
        self.won.push(Told { object, decision });
    }
}
