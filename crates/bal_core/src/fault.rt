//! Which steps are refused.
ghost use Rattle.std.specs.Prelude.{◌≡◌, ◌==◌, ◌<◌, ◌≤◌, ℕ, length};
ghost use Rattle.std.specs.List.{list_any};
ghost use Rattle.bal_core.specs.Core.{IsCore};
ghost use Rattle.bal_core.specs.World.{age_of, size_of, word_of};
ghost use Rattle.bal_core.specs.Steps.{fault_of, has_no_object, has_no_place, holds, is_not_drained, is_not_raised, is_place, is_reached, is_unreached, leads_to, next_age, used, wishes_for_another, words_put, worker_of};

use crate::row::CoreRow;
use crate::state::Race;
use crate::{CoreEvent, CoreFault, Decision, Drawn, Told};
use bal_layout::{Abort, OLDEST};

impl CoreEvent {
    /// Whose step it is.
    pub(crate) fn worker(&self) -> u32
        ensures { result ≡ worker_of self.now }
    {
        match self {
            CoreEvent::Look { worker, .. } => *worker,
            CoreEvent::Copy { worker, .. } => *worker,
            CoreEvent::Mark { worker, .. } => *worker,
            CoreEvent::Draw { worker, .. } => *worker,
            CoreEvent::Raise { worker, .. } => *worker,
            CoreEvent::Raised { worker } => *worker,
        }
    }

    // It raises the wish of another worker.
    fn wishes_for_another(&self) -> bool
        ensures { result ≡ wishes_for_another self.now }
    {
        match self {
            CoreEvent::Raise { worker, cause } => match cause {
                Abort::Wished(wishing) => *wishing != *worker,
                Abort::Drained => false,
            },
            _ => false,
        }
    }
}

impl CoreRow {
    // The worker may not mark.
    fn is_not_raised(&self, event: &CoreEvent) -> bool
        ensures { result ≡ is_not_raised self.now event.now }
    {
        match event {
            CoreEvent::Mark { .. } => !self.saw,
            _ => false,
        }
    }

    // The worker may not call the pool drained.
    fn is_not_drained(&self, event: &CoreEvent) -> bool
        ensures { result ≡ is_not_drained self.now event.now }
    {
        match event {
            CoreEvent::Raise { cause, .. } => match cause {
                Abort::Wished(_) => false,
                Abort::Drained => !self.dry,
            },
            _ => false,
        }
    }
}

// Some slot holds the object.
fn any_holds(object: u32, slots: &[Option<u32>]) -> bool
    ensures { result ≡ list_any (holds object) slots.now }
{
    slots.iter().any(|slot| *slot == Some(object))
}

// A root holds the object.
fn is_among(object: u32, roots: &[u32]) -> bool
    ensures { result ≡ list_any (λ r. r == object) roots.now }
{
    roots.iter().any(|root| *root == object)
}

impl Race {
    /// What the object's word holds.
    pub(crate) fn word(&self, object: u32) -> Option<Decision>
        ensures { result ≡ word_of self.now object }
    {
        match self.words.get(object as usize) {
            Some(word) => *word,
            None => None,
        }
    }

    fn age(&self, object: u32) -> u8
        ensures { result ≡ age_of self.now.world object }
    {
        match self.ages.get(object as usize) {
            Some(age) => *age,
            None => 0,
        }
    }

    fn size(&self, object: u32) -> u32
        ensures { result ≡ size_of self.now.world object }
    {
        match self.sizes.get(object as usize) {
            Some(size) => *size,
            None => 0,
        }
    }

    // The object is not there.
    fn has_no_object(&self, event: &CoreEvent) -> bool
        ensures { result ≡ has_no_object self.now event.now }
    {
        match event {
            CoreEvent::Look { object, .. } => *object as usize >= self.words.len(),
            CoreEvent::Copy { object, .. } => *object as usize >= self.words.len(),
            CoreEvent::Mark { object, .. } => *object as usize >= self.words.len(),
            _ => false,
        }
    }

    // Some slot of the known object holds the object.
    fn leads_to(&self, object: u32, told: &Told) -> bool
        ensures { result ≡ leads_to self.now.world object told.now }
    {
        match self.targets.get(told.object as usize) {
            Some(slots) => any_holds(object, slots.as_slice()),
            None => false,
        }
    }

    // Some known object leads to the object.
    fn any_leads(&self, object: u32, known: &[Told]) -> bool
        ensures { result ≡ list_any (leads_to self.now.world object) known.now }
    {
        known.iter().any(|told| self.leads_to(object, told))
    }

    // The worker may ask for the object.
    fn is_reached(&self, row: &CoreRow, object: u32) -> bool
        ensures { result ≡ is_reached self.now.world row.now.known object }
    {
        is_among(object, self.roots.as_slice()) || self.any_leads(object, row.known.as_slice())
    }

    fn is_unreached(&self, row: &CoreRow, event: &CoreEvent) -> bool
        ensures { result ≡ is_unreached self.now row.now event.now }
    {
        match event {
            CoreEvent::Look { object, .. } => !self.is_reached(row, *object),
            CoreEvent::Copy { object, .. } => !self.is_reached(row, *object),
            CoreEvent::Mark { object, .. } => !self.is_reached(row, *object),
            _ => false,
        }
    }

    // The words that a decision puts into a region.
    fn words_put(&self, region: u32, told: &Told) -> u32
        ensures { result ≡ words_put self.now.world region told.now.object told.now.decision }
    {
        match told.decision {
            Decision::Copied(address) if address / self.geometry.words() == region => {
                self.size(told.object)
            }
            _ => 0,
        }
    }

    // The words of a region that the decisions filled: its first free word.
    fn used(&self, region: u32, won: &[Told]) -> u32
        requires room { used self.now.world region won.now ≤ 65536 }
        ensures { result ≡ used self.now.world region won.now }
    {
        let mut used = 0;
        for told in won {
            used += self.words_put(region, told);
        }
        used
    }

    // The age of the region that the object is copied to.
    fn next_age(&self, object: u32) -> u8
        ensures { result ≡ next_age (age_of self.now.world object) }
    {
        let age = self.age(object);
        if age < OLDEST { age + 1 } else { OLDEST }
    }

    // The object goes to the address in the region that was drawn.
    fn is_place(&self, row: &CoreRow, object: u32, address: u32, drawn: &Drawn) -> bool
        requires room { (region : ℕ) → used self.now.world region row.now.won ≤ 65536 }
        ensures { result ≡ is_place self.now.world row.now.won object address drawn.now }
    {
        let used = self.used(drawn.region, row.won.as_slice());
        let room = self.geometry.words();
        let offset = address % room;
        drawn.age == self.next_age(object)
            && address / room == drawn.region
            && offset == used
            && u64::from(offset) + u64::from(self.size(object)) <= u64::from(room)
    }

    // Some region that was drawn takes the object there.
    fn any_place(&self, row: &CoreRow, object: u32, address: u32) -> bool
        requires room { (region : ℕ) → used self.now.world region row.now.won ≤ 65536 }
        ensures { result ≡ list_any (is_place self.now.world row.now.won object address) row.now.drawn }
    {
        row.drawn
            .as_slice()
            .iter()
            .any(|drawn| self.is_place(row, object, address, drawn))
    }

    fn has_no_place(&self, row: &CoreRow, event: &CoreEvent) -> bool
        requires room { (region : ℕ) → used self.now.world region row.now.won ≤ 65536 }
        ensures { result ≡ has_no_place self.now row.now event.now }
    {
        match event {
            CoreEvent::Copy {
                object,
                address,
                ..
            } => !self.any_place(row, *object, *address),
            CoreEvent::Draw { age, .. } => *age > OLDEST || row.dry,
            _ => false,
        }
    }

    /// Why the step is refused, if it is.
    pub(crate) fn fault(&self, event: &CoreEvent) -> Option<CoreFault>
        requires core { IsCore self.now }
        ensures { result ≡ fault_of self.now event.now }
    {
        let worker = event.worker() as usize;
        let crew = self.crew.as_slice();
        if worker >= crew.len() {
            return Some(CoreFault::Worker);
        }
        let row = &crew[worker];
        if event.wishes_for_another() {
            return Some(CoreFault::Worker);
        }
        if self.has_no_object(event) {
            return Some(CoreFault::Object);
        }
        if self.is_unreached(row, event) {
            return Some(CoreFault::Unreached);
        }
        if self.has_no_place(row, event) {
            return Some(CoreFault::Place);
        }
        if row.is_not_raised(event) {
            return Some(CoreFault::NotRaised);
        }
        if row.is_not_drained(event) {
            return Some(CoreFault::NotDrained);
        }
        None
    }
}
