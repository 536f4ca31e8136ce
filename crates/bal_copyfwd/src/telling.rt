//! Where the objects of the chosen regions went, for those who mend references and settle the regions.
ghost use Rattle.std.specs.Prelude.{◌≡◌, ◌*◌, ◌<◌, ◌≤◌, ◌++◌, ◌∷◌, ◌+◌, ℕ, [], None, Option, Some, filter, length, option_and_then, if◌then◌else◌};
ghost use Rattle.bal_core.specs.declared.event.Decision.{Decision};
ghost use Rattle.bal_core.specs.declared.event.Decision.TheVariants as decision;
ghost use Rattle.bal_copyfwd.specs.Moving.{address_of_copy, copy_of, is_mark, is_marked_at};
ghost use Rattle.bal_evacuate.specs.Course.{decision_of};
ghost use Rattle.bal_gather.specs.Numbers.{starts_of};
ghost use Rattle.bal_table.specs.Moves.{moved};

use bal_base::Items;
use bal_core::{Decision, FromGraph};
use bal_evacuate::Evacuated;
use bal_gather::{Numbered, objects_are_numbered_by_address};
use bal_table::Moves;

/// Tells of each object that was copied where its copy is, and lists the addresses of the marked ones, ascending. Nothing was
/// told before, and there is room.
pub fn tell_addresses(
    numbered: &Numbered<'_>,
    evacuated: &Evacuated,
    moves: &mut Moves,
    marked: &mut Items<u32>,
)
    requires heap { length moves.old.words ≡ numbered.now.table.shape.regions * numbered.now.table.shape.words }
    requires none { (a : ℕ) → moved moves.old a ≡ None }
    requires empty { marked.old.list ≡ [] }
    requires room { length (starts_of numbered.now) ≤ marked.old.spare }
    requires within { (k a : ℕ) → decision_of evacuated.now k ≡ Some (decision.Copied a) → a < length moves.old.words }
    ensures moves { (a : ℕ) → moved moves.new a ≡ copy_of numbered.now (decision_of evacuated.now) a }
    ensures marked { marked.new.list ≡ filter (is_marked_at numbered.now (decision_of evacuated.now)) (starts_of numbered.now) }
    ensures heap { length moves.new.words ≡ length moves.old.words }
{
    objects_are_numbered_by_address();
    // It is a table: so each number is that of one address.
    let _ = numbered.chosen().geometry();
    for object in 0..numbered.count() {
        let address = numbered.address_of(object);
        tell_address(address, evacuated.decision(object), moves, marked);
    }
}

// Tells of one object, by what was decided of it.
fn tell_address(address: u32, decided: Option<Decision>, moves: &mut Moves, marked: &mut Items<u32>)
    requires address { address < length moves.old.words }
    requires within { (a : ℕ) → decided ≡ Some (decision.Copied a) → a < length moves.old.words }
    requires room { 1 ≤ marked.old.spare }
    requires none { moved moves.old address ≡ None }
    ensures here { moved moves.new address ≡ option_and_then address_of_copy decided }
    ensures others { (b : ℕ) → (b ≡ address → ⊥) → moved moves.new b ≡ moved moves.old b }
    ensures marked { marked.new.list ≡ marked.old.list ++ (if is_mark decided then address ∷ [] else []) }
    ensures room { marked.old.spare ≤ marked.new.spare + 1 }
    ensures heap { length moves.new.words ≡ length moves.old.words }
{
    match decided {
        Some(Decision::Copied(to)) => moves.set(address, to),
        Some(Decision::Marked) => marked.push(address),
        None => {}
    }
}
