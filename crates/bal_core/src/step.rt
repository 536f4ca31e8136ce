//! One step, and a list of steps.
ghost use Rattle.std.specs.Prelude.{◌≡◌, ◌+◌, ◌<◌, ◌≤◌, ◌^◌, ◌↔◌, ℕ, length, take, MatchResult, None, OnErr, OnOk, slice_get, slice_set};
ghost use Rattle.std.specs.List.{list_any};
ghost use Rattle.bal_core.specs.declared.event.CoreEvent.TheVariants as event;
ghost use Rattle.bal_core.specs.Core.{IsCore};
ghost use Rattle.bal_core.specs.World.{word_of};
ghost use Rattle.bal_core.specs.Finished.{IsEvacuated, evacuation_of};
ghost use Rattle.bal_core.specs.Rest.{EndsWalk, IsAtRest, IsDecided};
ghost use Rattle.bal_core.specs.Steps.{after, after_all, after_claim, answer_of, answer_to_claim, fault_of, has_cause, passing, told_by, worker_of};

use crate::state::Race;
use crate::{CoreAnswer, CoreEvent, CoreFault, CoreState, Decision, Drawn};
use bal_base::NoMemory;
use bal_layout::Abort;

// Some worker wished to abort.
fn any_wished(wished: &[bool]) -> bool
    ensures { result ≡ list_any (λ wished. wished) wished.now }
{
    wished.iter().any(|wished| *wished)
}

impl Race {
    // What a step that is not refused answers.
    fn answer(&self, event: &CoreEvent) -> CoreAnswer
        ensures { result ≡ answer_of self.now event.now }
    {
        match event {
            CoreEvent::Look { object, .. } => CoreAnswer::Seen(self.word(*object)),
            CoreEvent::Copy { object, .. } => self.answer_to_claim(*object),
            CoreEvent::Mark { object, .. } => self.answer_to_claim(*object),
            CoreEvent::Draw { .. } => CoreAnswer::Drawn(self.next_region()),
            CoreEvent::Raise { .. } => CoreAnswer::Done,
            CoreEvent::Raised { .. } => CoreAnswer::Flag(self.has_cause()),
        }
    }

    fn answer_to_claim(&self, object: u32) -> CoreAnswer
        ensures { result ≡ answer_to_claim (word_of self.now object) }
    {
        match self.word(object) {
            Some(decision) => CoreAnswer::Lost(decision),
            None => CoreAnswer::Won,
        }
    }

    // The region that the next draw gives, or none.
    fn next_region(&self) -> Option<u32>
        ensures { result ≡ slice_get self.now.world.pool self.now.counter }
    {
        match self.pool.get(self.counter as usize) {
            Some(region) => Some(*region),
            None => None,
        }
    }

    // The abort is raised.
    fn has_cause(&self) -> bool
        ensures { result ≡ has_cause self.now }
    {
        self.drained || any_wished(self.wished.as_slice())
    }

    // The state after a step that is not refused.
    fn change(&mut self, event: &CoreEvent) -> Result<(), NoMemory>
        requires worker { worker_of event.now < length self.old.crew }
        requires counter { self.old.counter + 1 < 2 ^ 64 }
        requires wishes { length self.old.wished ≡ 32 }
        ensures ok { OnOk result (self.new ≡ after event.now self.old) }
        ensures err { OnErr result (self.new ≡ self.old) }
    {
        match event {
            CoreEvent::Look { worker, object } => self.look(*worker, *object),
            CoreEvent::Copy {
                worker,
                object,
                address,
            } => self.claim(*worker, *object, Decision::Copied(*address)),
            CoreEvent::Mark { worker, object } => self.claim(*worker, *object, Decision::Marked),
            CoreEvent::Draw { worker, age } => self.draw(*worker, *age),
            CoreEvent::Raise { worker, cause } => {
                self.raise(*worker, *cause);
                Ok(())
            }
            CoreEvent::Raised { worker } => {
                self.see(*worker);
                Ok(())
            }
        }
    }

    fn look(&mut self, worker: u32, object: u32) -> Result<(), NoMemory>
        requires worker { worker < length self.old.crew }
        ensures ok { OnOk result (self.new ≡ after (event.Look worker object) self.old) }
        ensures err { OnErr result (self.new ≡ self.old) }
    {
        match self.word(object) {
            Some(found) => self.crew[worker as usize].know(object, found),
            None => Ok(()),
        }
    }

    // The abort is seen, if it is raised.
    fn see(&mut self, worker: u32)
        requires worker { worker < length self.old.crew }
        ensures { self.new ≡ after (event.Raised worker) self.old }
    {
        let raised = self.has_cause();
        let row = &mut self.crew[worker as usize];
        row.saw = row.saw || raised;
    }

    // The worker claims the object: an open word is decided so.
    fn claim(&mut self, worker: u32, object: u32, decision: Decision) -> Result<(), NoMemory>
        requires worker { worker < length self.old.crew }
        ensures ok { OnOk result (self.new ≡ after_claim self.old worker object decision (word_of self.old object)) }
        ensures err { OnErr result (self.new ≡ self.old) }
    {
        if let Some(found) = self.word(object) {
            return self.crew[worker as usize].know(object, found);
        }
        self.crew[worker as usize].win(object, decision)?;
        if let Some(word) = self.words.get_mut(object as usize) {
            *word = Some(decision);
        }
        Ok(())
    }

    // The next region of the pool is drawn, or none.
    fn draw(&mut self, worker: u32, age: u8) -> Result<(), NoMemory>
        requires worker { worker < length self.old.crew }
        requires counter { self.old.counter + 1 < 2 ^ 64 }
        ensures ok { OnOk result (self.new ≡ after (event.Draw worker age) self.old) }
        ensures err { OnErr result (self.new ≡ self.old) }
    {
        let ordinal = self.counter;
        match self.next_region() {
            Some(region) => self.crew[worker as usize].draw(Drawn {
                ordinal,
                region,
                age,
            })?,
            None => self.crew[worker as usize].dry = true,
        }
        self.counter += 1;
        Ok(())
    }

    // The abort is raised.
    fn raise(&mut self, worker: u32, cause: Abort)
        requires worker { worker < length self.old.crew }
        ensures { self.new ≡ after (event.Raise worker cause) self.old }
    {
        match cause {
            Abort::Wished(wishing) => {
                if let Some(wished) = self.wished.get_mut(wishing as usize) {
                    *wished = true;
                }
            }
            Abort::Drained => self.drained = true,
        }
        self.crew[worker as usize].raise();
    }
}

/// One step: it is refused, or it answers and the state changes. A refusal changes nothing, and of two faults the earlier one in
/// the order of [`CoreFault`] is told. Memory may be refused where the worker learns, wins or draws.
pub fn apply(state: &mut CoreState, event: &CoreEvent) -> Result<CoreAnswer, CoreFault>
    ensures { MatchResult result
        (λ answer. (fault_of state.old event.now ≡ None) × (answer ≡ answer_of state.old event.now) × (state.new ≡ after event.now state.old))
        (λ fault. (fault_of state.old event.now ≡ told_by fault) × (state.new ≡ state.old)) }
{
    if let Some(fault) = state.race.fault(event) {
        return Err(fault);
    }
    let answer = state.race.answer(event);
    match state.race.change(event) {
        Ok(()) => Ok(answer),
        Err(_) => Err(CoreFault::NoMemory),
    }
}

// One step, or none if it is refused.
#[tactic(auto, unfolding(crate::specs::Steps::passing))]
fn apply_or_pass(state: &mut CoreState, event: &CoreEvent) -> Result<(), NoMemory>
    ensures ok { OnOk result (state.new ≡ passing event.now state.old) }
    ensures err { OnErr result (state.new ≡ state.old) }
{
    match apply(state, event) {
        Ok(_) => Ok(()),
        Err(CoreFault::NoMemory) => Err(NoMemory),
        Err(_) => Ok(()),
    }
}

/// The steps in turn. Those that are refused are passed over. If memory is refused, the steps before it were applied.
pub fn run_core(state: &mut CoreState, events: &[CoreEvent]) -> Result<(), NoMemory>
    ensures ok { OnOk result (state.new ≡ after_all events.now state.old) }
    ensures err { OnErr result ((n : ℕ) × (n < length events.now) × (state.new ≡ after_all (take n events.now) state.old)) }
    ensures always { (n : ℕ) → IsCore (after_all (take n events.now) state.old) }
    ensures rest { IsAtRest state.new → (k : ℕ) → IsDecided state.new k ↔ EndsWalk state.new.world k }
    ensures finished { IsAtRest state.new → IsEvacuated (evacuation_of state.new) }
{
    state.holds();
    for event in events {
        apply_or_pass(state, event)?;
    }
    Ok(())
}
