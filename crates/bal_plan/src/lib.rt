//! The plan of a compaction: where each object goes. It is made before any object moves, so that each of them is moved once.
//!
//! The objects are visited in the order of their addresses, and each goes behind the one before it, or to the first word of
//! the next region if it does not fit: next fit, from the lowest region on. So none goes up, and none is in the way of one that
//! comes later. Where each goes is written into a table beside the heap, and in a list that a journal tells. The heap itself
//! stays as it is. No memory is taken.
#![tactic(auto)]

ghost use Rattle.std.specs.Prelude.{◌≡◌, ℕ, ◌+◌, ◌*◌, ◌<◌, ◌≤◌, ◌^◌, ◌++◌, List, [], ◌∷◌, length, map};
ghost use Rattle.bal_model.specs.declared.event.Packed.{Packed};
ghost use Rattle.bal_plan.specs.Plan.{IsObject, IsPlan, packed_as, starts_below, starts_of, told_by_plan};
ghost use Rattle.bal_plan.specs.Plan as spec;
ghost use Rattle.bal_plan.specs.Planning.{IsPlannedTo, with_room};
ghost use Rattle.bal_table.specs.Moves.{moved_to};

#[cfg(test)]
mod tests;

use bal_base::Items;
use bal_model::Packed;
use bal_table::{Moves, Table};

/// Plans where each object goes, and tells it: what was known of moves before is forgotten.
pub fn plan(table: &Table, moves: &mut Moves, packed: &mut Items<Packed>)
    requires heap { length moves.old.words ≡ table.now.shape.regions * table.now.shape.words }
    requires room { length (starts_of table.now) ≤ packed.old.spare }
    ensures plan { IsPlan table.now (moved_to moves.new) }
    ensures packed { packed.new.list ≡ packed.old.list ++ told_by_plan table.now (moved_to moves.new) }
    ensures heap { length moves.new.words ≡ length moves.old.words }
    ensures room { packed.new.spare + length packed.new.list ≡ packed.old.spare + length packed.old.list }
{
    let geometry = table.geometry();
    moves.clear();
    let mut cursor = Cursor {
        next: 0,
        end: geometry.words(),
    };
    for region in 0..geometry.regions() {
        cursor = plan_region(table, region, cursor, moves, packed);
    }
}

/// How many objects there are.
pub fn count_objects(table: &Table) -> u32
    ensures { result ≡ length (starts_of table.now) }
{
    let mut count = 0;
    for region in 0..table.geometry().regions() {
        count += count_in(table, region);
    }
    count
}

// The first word that no object has taken yet, and the end of the region in which it lies or which it ends.
#[derive(Clone, Copy)]
pub(crate) struct Cursor {
    next: u32,
    end: u32,
}

// Plans where the objects of a region go.
fn plan_region(
    table: &Table,
    region: u32,
    cursor: Cursor,
    moves: &mut Moves,
    packed: &mut Items<Packed>,
) -> Cursor
    requires within { region < table.now.shape.regions }
    requires heap { length moves.old.words ≡ table.now.shape.regions * table.now.shape.words }
    requires room { length (starts_of table.now) ≤ packed.old.spare + length (starts_below table.now (region * table.now.shape.words)) }
    requires plan { IsPlannedTo table.now (moved_to moves.old) (region * table.now.shape.words) cursor }
    ensures plan { IsPlannedTo table.now (moved_to moves.new) ((region + 1) * table.now.shape.words) result }
    ensures told { (before : List Packed)
        → packed.old.list ≡ before ++ map (packed_as table.now (moved_to moves.old)) (starts_below table.now (region * table.now.shape.words))
        → packed.new.list ≡ before ++ map (packed_as table.now (moved_to moves.new)) (starts_below table.now ((region + 1) * table.now.shape.words)) }
    ensures heap { length moves.new.words ≡ length moves.old.words }
    ensures room { packed.new.spare + length packed.new.list ≡ packed.old.spare + length packed.old.list }
{
    let geometry = table.geometry();
    let mut cursor = cursor;
    let mut at = 0;
    while let Some(offset) = table.region(region).first_from(at) {
        let address = geometry.address(region, offset);
        cursor = plan_object(table, address, cursor, moves, packed);
        at = offset + 1;
    }
    cursor
}

// Plans where one object goes, once it is known of all before it. An object that stays has no entry among the moves.
fn plan_object(
    table: &Table,
    address: u32,
    cursor: Cursor,
    moves: &mut Moves,
    packed: &mut Items<Packed>,
) -> Cursor
    requires object { IsObject table.now address }
    requires heap { length moves.old.words ≡ table.now.shape.regions * table.now.shape.words }
    requires room { 1 ≤ packed.old.spare }
    requires plan { IsPlannedTo table.now (moved_to moves.old) address cursor }
    ensures plan { IsPlannedTo table.now (moved_to moves.new) (address + 1) result }
    ensures others { (a : ℕ) → a < address → moved_to moves.new a ≡ moved_to moves.old a }
    ensures told { packed.new.list ≡ packed.old.list ++ packed_as table.now (moved_to moves.new) address ∷ [] }
    ensures heap { length moves.new.words ≡ length moves.old.words }
    ensures room { packed.new.spare + 1 ≡ packed.old.spare }
{
    let geometry = table.geometry();
    let words = words_at(table, address);
    let place = room_for(cursor, words, geometry.words());
    set_place(moves, address, place.next);
    packed.push(Packed {
        name: table.header(address).name,
        region: geometry.region_of(place.next),
    });
    Cursor {
        next: place.next + words,
        end: place.end,
    }
}

// Writes where an object goes, unless it stays.
fn set_place(moves: &mut Moves, from: u32, to: u32)
    requires from { from < length moves.old.words }
    requires to { to < length moves.old.words }
    requires none { moved_to moves.old from ≡ from }
    ensures own { moved_to moves.new from ≡ to }
    ensures others { (a : ℕ) → (a ≡ from → ⊥) → moved_to moves.new a ≡ moved_to moves.old a }
    ensures heap { length moves.new.words ≡ length moves.old.words }
{
    if to != from {
        moves.set(from, to);
    }
}

// How many words the object takes that starts there.
fn words_at(table: &Table, address: u32) -> u32
    requires { IsObject table.now address }
    ensures { result ≡ spec.words_at table.now address }
{
    let geometry = table.geometry();
    let region = table.region(geometry.region_of(address));
    region.object(geometry.offset_of(address)).len() as u32
}

// Where there is room for an object of so many words: where the last one ends, or in the next region.
fn room_for(cursor: Cursor, words: u32, region_words: u32) -> Cursor
    requires next { cursor.next + words < 2 ^ 32 }
    requires end { cursor.end + region_words < 2 ^ 32 }
    ensures { result ≡ with_room region_words cursor words }
{
    if cursor.next + words <= cursor.end {
        return cursor;
    }
    Cursor {
        next: cursor.end,
        end: cursor.end + region_words,
    }
}

// How many objects of a region there are.
fn count_in(table: &Table, region: u32) -> u32
    requires { region < table.now.shape.regions }
    ensures { result + length (starts_below table.now (region * table.now.shape.words)) ≡ length (starts_below table.now ((region + 1) * table.now.shape.words)) }
{
    let _ = table.geometry();
    let mut count = 0;
    let mut at = 0;
    while let Some(offset) = table.region(region).first_from(at) {
        count += 1;
        at = offset + 1;
    }
    count
}
