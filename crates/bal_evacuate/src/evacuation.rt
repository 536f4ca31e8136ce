//! The walk: what the roots hold is decided, and then what the decided objects hold, in the order in which they were decided.
ghost use Rattle.std.specs.Prelude.{◌≡◌, ℕ, ◌<◌, ◌≤◌, ◌^◌, IfErr, IfOk, None, Some, List, drop, length, map};
ghost use Rattle.bal_core.specs.declared.event.CoreEvent.{CoreEvent};
ghost use Rattle.bal_core.specs.declared.event.Decision.{Decision};
ghost use Rattle.bal_core.specs.declared.row.Told.{Told};
ghost use Rattle.bal_core.specs.Finished.{AreFilled, ArePackedTight, IsEvacuated, IsWithinLimit, LeavesSome};
ghost use Rattle.bal_core.specs.Rest.{IsAtRest};
ghost use Rattle.bal_core.specs.Start.{start_of};
ghost use Rattle.bal_core.specs.Steps.{after_all, next_age, told};
ghost use Rattle.bal_core.specs.World.{At, slots_in};
ghost use Rattle.bal_evacuate.specs.Course.{decision_of, drawn_by, state_of};
ghost use Rattle.bal_evacuate.specs.Going.{Goes, HasDecided, HasScanned, IsAsked, IsGoing};
ghost use Rattle.bal_evacuate.specs.Order.{IsBreadthFirst, firsts, held, held_by, objects_of, with_first};
ghost use Rattle.bal_evacuate.specs.Plan.{IsNextFit, IsPrompt, MayEvacuate, Plan, filled_by, planned, shown, world_for};

use crate::Evacuated;
use bal_base::NoMemory;
use bal_core::FromGraph;
use bal_layout::{Geometry, OLDEST};
use bal_region::Region;
use std::alloc::Global;
use std::marker::Model;

/// An evacuation about to begin, with all memory that it needs: the objects that may be copied, the roots, a pool of free regions,
/// and how many objects are copied at most, if that is limited.
#[derive(Drop)]
pub struct Evacuation<'a, F: FromGraph> {
    geometry: Geometry,
    graph: &'a F,
    roots: &'a [u32],
    limit: Option<u64>,
    course: Evacuated,
}

impl<'a, F: FromGraph> Model for Evacuation<'a, F> {
    ghost use Rattle.bal_evacuate.specs.Going.{IsReady};
    ghost use Rattle.bal_evacuate.specs.Plan.{Plan, planned};

    ghost Value = { Plan };

    ghost view = { λ e. planned e.geometry (F.graph e.graph.now) e.roots.now e.course.spares e.limit };

    ghost invariant = { λ e. IsReady (planned e.geometry (F.graph e.graph.now) e.roots.now e.course.spares e.limit) e.course };
}

impl<'a, F: FromGraph> Evacuation<'a, F> {
    /// Takes all memory that the evacuation needs. If it is refused, the pool comes back as it was.
    pub fn make(
        alloc: Global,
        geometry: Geometry,
        graph: &'a F,
        roots: &'a [u32],
        pool: Vec<Region>,
        limit: Option<u64>,
    ) -> Result<Evacuation<'a, F>, (Vec<Region>, NoMemory)>
        requires { MayEvacuate (planned geometry (F.graph graph.now) roots.now pool.items limit) }
        ensures ok { IfOk result (λ e. e ≡ planned geometry (F.graph graph.now) roots.now pool.items limit) }
        ensures err { IfErr result (λ refused. refused.0.items ≡ pool.items) }
    {
        // The geometry has few regions, so that the length of the pool fits.
        let _ = geometry.regions();
        let course = Evacuated::make(alloc, geometry, graph.count(), pool)?;
        Ok(Evacuation {
            geometry,
            graph,
            roots,
            limit,
            course,
        })
    }

    /// Decides what can be reached from the roots, each object once.
    pub fn run(self) -> Evacuated
        ensures events { (events : List CoreEvent)
            × (state_of (world_for self.entry) result ≡ after_all events (start_of (world_for self.entry) 1)) }
        ensures order { IsBreadthFirst self.entry result }
        ensures rest { IsAtRest (state_of (world_for self.entry) result) }
        ensures evacuated { IsEvacuated (shown self.entry result) }
        ensures tight { ArePackedTight (shown self.entry result) }
        ensures limit { IsWithinLimit self.entry.limit (shown self.entry result) }
        ensures some { LeavesSome (shown self.entry result) }
        ensures filled { AreFilled (shown self.entry result) }
        ensures prompt { IsPrompt self.entry result }
        ensures next { IsNextFit self.entry result }
        ensures copies { result.buffers.regions ≡ map (filled_by self.entry result.won) (drawn_by result) }
        ensures spares { result.spares ≡ drop (length result.buffers.regions) self.entry.pool }
        ensures idle { result.buffers.reserved ≡ None }
        ensures few { length result.won < 2 ^ 32 }
    {
        let mut course = self.course;
        // Cheney 1970: the decided objects are his queue, and what is behind his scan pointer waits.
        decide_roots(self.graph, self.limit, self.roots, &mut course);
        scan_all(self.graph, self.limit, &mut course);
        course.limits();
        course
    }
}

// The age of the region that an object of this age is copied to.
fn next_age(age: u8) -> u8
    ensures { result ≡ next_age age }
{
    if age < OLDEST { age + 1 } else { OLDEST }
}

// Decides an object that is not decided yet: it is copied, or marked if the abort is raised.
fn decide<F: FromGraph>(graph: &F, limit: Option<u64>, object: u32, course: &mut Evacuated)
    requires { (p : Plan) × IsGoing p (F.graph graph.now) limit course.old × IsAsked p course.old object }
    ensures goes { (p : Plan) → IsGoing p (F.graph graph.now) limit course.old → IsAsked p course.old object → Goes p course.old course.new }
    ensures decided { HasDecided course.new object }
    ensures order { objects_of course.new.won ≡ with_first (objects_of course.old.won) object }
{
    if course.has_decided(object) {
        return;
    }
    let words = graph.words(object);
    let age = next_age(graph.age(object));
    if course.seek_room(limit, age, words.len() as u32) {
        course.copy(object, age, words);
    } else {
        course.mark(object);
    }
}

// Decides what the roots hold.
fn decide_roots<F: FromGraph>(graph: &F, limit: Option<u64>, roots: &[u32], course: &mut Evacuated)
    requires { (p : Plan) × IsGoing p (F.graph graph.now) limit course.old × (p.roots ≡ roots.now) }
    ensures goes { (p : Plan) → IsGoing p (F.graph graph.now) limit course.old → p.roots ≡ roots.now → Goes p course.old course.new }
    ensures decided { (i k : ℕ) → At roots.now i k → HasDecided course.new k }
    ensures order { objects_of course.new.won ≡ firsts (objects_of course.old.won) roots.now }
{
    for root in roots {
        decide(graph, limit, *root, course);
    }
}

// Decides what the slots of a decided object hold.
fn scan<F: FromGraph>(graph: &F, limit: Option<u64>, object: u32, course: &mut Evacuated)
    requires going { (p : Plan) × IsGoing p (F.graph graph.now) limit course.old }
    requires won { (i : ℕ) × (d : Decision) × At course.old.won i (told object d) }
    ensures goes { (p : Plan) → IsGoing p (F.graph graph.now) limit course.old → Goes p course.old course.new }
    ensures scanned { HasScanned (F.graph graph.now) course.new object }
    ensures order { objects_of course.new.won ≡ firsts (objects_of course.old.won) (held (slots_in (F.graph graph.now).targets object)) }
{
    for slot in 0..graph.slots(object) {
        if let Some(target) = graph.target(object, slot) {
            decide(graph, limit, target, course);
        }
    }
}

// Scans the decided objects in the order in which they were decided, also those that are decided meanwhile.
fn scan_all<F: FromGraph>(graph: &F, limit: Option<u64>, course: &mut Evacuated)
    requires { (p : Plan) × IsGoing p (F.graph graph.now) limit course.old }
    ensures goes { (p : Plan) → IsGoing p (F.graph graph.now) limit course.old → Goes p course.old course.new }
    ensures scanned { (i : ℕ) (t : Told) → At course.new.won i t → HasScanned (F.graph graph.now) course.new t.object }
    ensures order { objects_of course.new.won ≡ firsts (objects_of course.old.won) (held_by (F.graph graph.now) course.new.won) }
{
    // What the objects before this place hold is decided.
    let mut place = 0;
    while let Some(object) = course.won_at(place) {
        scan(graph, limit, object, course);
        place += 1;
    }
}
