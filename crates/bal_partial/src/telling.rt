//! What is told of an evacuation, into room that was taken before.
//!
//! 1. Where each copy is, and which objects were marked.
//! 2. In which regions survivors lie: those with copies, and those with marked objects.
//! 3. The survivors by ascending name, and why copying was abandoned.
ghost use Rattle.std.specs.Prelude.{◌≡◌, ℕ, ◌*◌, ◌≤◌, ◌<◌, ◌↔◌, ◌⊎◌, [], All, IfOk, IsTrue, List, Some, filter, length, map};
ghost use Rattle.std.specs.List.{range_with_len};
ghost use Rattle.std.specs.List.Sorted.{IsPermutation, IsSortedBy};
ghost use Rattle.bal_base.specs.Bits.{IsAscending, is_member};
ghost use Rattle.bal_core.specs.Start.{name_of};
ghost use Rattle.bal_core.specs.Steps.{told};
ghost use Rattle.bal_core.specs.World.{At};
ghost use Rattle.bal_core.specs.declared.event.Decision.TheVariants as decision;
ghost use Rattle.bal_evacuate.specs.Plan.{Plan, shown};
ghost use Rattle.bal_gather.specs.Numbers.{starts_of};
ghost use Rattle.bal_gather.specs.Objects.{graph_of};
ghost use Rattle.bal_layout.specs.Addresses.{IsAddress, region_of};
ghost use Rattle.bal_layout.specs.Regions.{is_in};
ghost use Rattle.bal_partial.specs.Collection.{AreSurvivorRegions, Collection, marked_of, seen_of};
ghost use Rattle.bal_partial.specs.Evacuating.{HasCopy, HasRoom, MayTell, region_of_copy};
ghost use Rattle.bal_partial.specs.Outcome.{AreMoves};
ghost use Rattle.bal_told.specs.Telling.{AreTold, IsInHeap, IsTellable, causes_of, goes_before, told_as};

use bal_base::{Bits, Items, NoMemory};
use bal_copyfwd::{decisions_are_those_that_were_told, tell_addresses};
use bal_core::{Decision, Told};
use bal_evacuate::Evacuated;
use bal_gather::{Numbered, objects_are_numbered_by_address};
use bal_kept::the_world_tells_the_objects;
use bal_layout::{Abort, Geometry};
use bal_model::Kept;
use bal_table::Moves;
use bal_told::{
    put_in_order, sorted_survivors_are_told, survivors_are_told_worker_by_worker, tell_survivors,
};
use std::alloc::Global;

/// What is told, and before that the room for it.
#[derive(Drop)]
pub(crate) struct Lists {
    /// Where the marked objects start, ascending.
    pub marked: Items<u32>,
    /// The regions in which survivors lie, as a set and in order.
    pub members: Bits,
    pub regions: Items<u32>,
    /// The survivors as the journal tells them, and why copying was abandoned.
    pub kept: Items<Kept>,
    pub aborts: Items<Abort>,
}

impl Lists {
    /// Takes the memory for what is told of so many objects and regions.
    pub fn make(alloc: Global, objects: u32, regions: u32) -> Result<Lists, NoMemory>
        ensures { IfOk result (λ lists. HasRoom lists objects regions) }
    {
        Ok(Lists {
            marked: room_for(alloc, objects)?,
            members: Bits::make(alloc, regions)?,
            regions: room_for(alloc, regions)?,
            kept: room_for(alloc, objects)?,
            aborts: room_for(alloc, 2)?,
        })
    }
}

// A list without items, and with room for so many.
fn room_for<T: Drop>(alloc: Global, count: u32) -> Result<Items<T>, NoMemory>
    ensures { IfOk result (λ items. (items.list ≡ []) × (count ≤ items.spare)) }
{
    let mut items = Items::make(alloc)?;
    items.reserve(count as usize)?;
    Ok(items)
}

/// Tells of an evacuation. What was told of moves before is forgotten.
pub(crate) fn tell(
    numbered: &Numbered<'_>,
    evacuated: &Evacuated,
    moves: &mut Moves,
    lists: &mut Lists,
)
    requires is { (x : Collection) × (roots : List ℕ) × MayTell x roots numbered.now evacuated.now }
    requires room { HasRoom lists.old (length (starts_of numbered.now)) numbered.now.table.shape.regions }
    requires heap { length moves.old.words ≡ numbered.now.table.shape.regions * numbered.now.table.shape.words }
    ensures moves { (x : Collection) (roots : List ℕ) → MayTell x roots numbered.now evacuated.now → AreMoves x moves.new }
    ensures marked { (x : Collection) (roots : List ℕ) → MayTell x roots numbered.now evacuated.now → lists.new.marked.list ≡ marked_of x }
    ensures regions { (x : Collection) (roots : List ℕ) → MayTell x roots numbered.now evacuated.now → AreSurvivorRegions x lists.new.regions.list }
    ensures told { (x : Collection) (roots : List ℕ) → MayTell x roots numbered.now evacuated.now → AreTold (seen_of x) lists.new.kept.list }
    ensures causes { (x : Collection) (roots : List ℕ) → MayTell x roots numbered.now evacuated.now → lists.new.aborts.list ≡ causes_of (seen_of x) }
    ensures heap { length moves.new.words ≡ length moves.old.words }
{
    objects_are_numbered_by_address();
    decisions_are_those_that_were_told();
    the_world_tells_the_objects();
    survivors_are_told_worker_by_worker();
    sorted_survivors_are_told();
    let geometry = numbered.chosen().geometry();
    moves.clear();
    tell_addresses(numbered, evacuated, moves, &mut lists.marked);
    tell_regions(
        &geometry,
        evacuated.won(),
        lists.marked.as_slice(),
        &mut lists.members,
        &mut lists.regions,
    );
    tell_kept(&geometry, numbered, evacuated.won(), &mut lists.kept);
    tell_causes(evacuated, &mut lists.aborts);
}

// Tells in which regions copies or marked objects lie.
fn tell_regions(
    geometry: &Geometry,
    won: &[Told],
    marked: &[u32],
    members: &mut Bits,
    regions: &mut Items<u32>,
)
    requires copies { (i k a : ℕ) → At won.now i (told k (decision.Copied a)) → IsAddress geometry.now a }
    requires marked { (a : ℕ) → IsTrue (is_in a marked.now) → IsAddress geometry.now a }
    requires no_members { members.old.members ≡ [] }
    requires members { geometry.now.regions ≤ members.old.room }
    requires no_regions { regions.old.list ≡ [] }
    requires regions { geometry.now.regions ≤ regions.old.spare }
    ensures ascending { IsAscending regions.new.list }
    ensures just { (q : ℕ) → IsTrue (is_in q regions.new.list)
        ↔ (HasCopy geometry.now won.now (length won.now) q ⊎ ((a : ℕ) × IsTrue (is_in a marked.now) × (region_of geometry.now a ≡ q))) }
{
    insert_copies(geometry, won, members);
    insert_marked(geometry, marked, members);
    list_members(members, geometry.regions(), regions);
}

// The regions of copies become members.
fn insert_copies(geometry: &Geometry, won: &[Told], members: &mut Bits)
    requires copies { (i k a : ℕ) → At won.now i (told k (decision.Copied a)) → IsAddress geometry.now a }
    requires room { geometry.now.regions ≤ members.old.room }
    ensures members { (q : ℕ) → IsTrue (is_member members.new.members q)
        ↔ (HasCopy geometry.now won.now (length won.now) q ⊎ IsTrue (is_member members.old.members q)) }
    ensures room { members.old.room ≤ members.new.room }
{
    for told in won {
        insert_copy(geometry, told.decision, members);
    }
}

// The region of a copy becomes a member.
fn insert_copy(geometry: &Geometry, decision: Decision, members: &mut Bits)
    requires copy { IsInHeap geometry.now decision }
    requires room { geometry.now.regions ≤ members.old.room }
    ensures members { (q : ℕ) → IsTrue (is_member members.new.members q)
        ↔ ((region_of_copy geometry.now decision ≡ Some q) ⊎ IsTrue (is_member members.old.members q)) }
    ensures room { members.old.room ≤ members.new.room }
{
    match decision {
        Decision::Copied(address) => members.insert(geometry.region_of(address)),
        Decision::Marked => {}
    }
}

// The regions of marked objects become members.
fn insert_marked(geometry: &Geometry, marked: &[u32], members: &mut Bits)
    requires marked { (a : ℕ) → IsTrue (is_in a marked.now) → IsAddress geometry.now a }
    requires room { geometry.now.regions ≤ members.old.room }
    ensures members { (q : ℕ) → IsTrue (is_member members.new.members q)
        ↔ (((a : ℕ) × IsTrue (is_in a marked.now) × (region_of geometry.now a ≡ q)) ⊎ IsTrue (is_member members.old.members q)) }
    ensures room { members.old.room ≤ members.new.room }
{
    for address in marked {
        members.insert(geometry.region_of(*address));
    }
}

// Appends the members below a limit in order, into room that was reserved.
fn list_members(members: &Bits, limit: u32, into: &mut Items<u32>)
    requires none { into.old.list ≡ [] }
    requires room { limit ≤ into.old.spare }
    ensures { into.new.list ≡ filter (is_member members.now.members) (range_with_len 0 limit) }
{
    for number in 0..limit {
        if members.contains(number) {
            into.push(number);
        }
    }
}

// Tells of the survivors by ascending name, into room that was reserved.
fn tell_kept(geometry: &Geometry, numbered: &Numbered<'_>, won: &[Told], kept: &mut Items<Kept>)
    requires tellable { All (IsTellable geometry.now (length (graph_of numbered.now).ages)) won.now }
    requires none { kept.old.list ≡ [] }
    requires room { length won.now ≤ kept.old.spare }
    ensures same { IsPermutation (map (told_as geometry.now (map name_of (graph_of numbered.now).words) 0) won.now) kept.new.list }
    ensures ascending { IsSortedBy goes_before kept.new.list }
{
    tell_survivors(geometry, numbered, 0, won, kept);
    put_in_order(kept.as_mut_slice());
}

// Tells why copying was abandoned, if it was: the worker wished it, or the pool had no region left.
fn tell_causes(evacuated: &Evacuated, aborts: &mut Items<Abort>)
    requires none { aborts.old.list ≡ [] }
    requires room { 2 ≤ aborts.old.spare }
    ensures { (p : Plan) → aborts.new.list ≡ causes_of (shown p evacuated.now) }
{
    if evacuated.wished() {
        aborts.push(Abort::Wished(0));
    }
    if evacuated.drained() {
        aborts.push(Abort::Drained);
    }
}
