//! Walks by number and by name.
ghost use Rattle.std.specs.Prelude.{◌≡◌, ℕ, ◌↔◌, IsTrue, List, Some};
ghost use Rattle.bal_core.specs.Rest.{EndsWalk};
ghost use Rattle.bal_core.specs.World.{At};
ghost use Rattle.bal_gather.specs.Lent.{Lent};
ghost use Rattle.bal_gather.specs.Numbers.{starts_of};
ghost use Rattle.bal_kept.specs.Collected.{IsCollectedFrom, IsReached, names_to_keep, world_from};
ghost use Rattle.bal_layout.specs.Names.{is_among};
ghost use Rattle.bal_layout.specs.declared.name.Name.{Name};
ghost use Rattle.bal_model.specs.Entries.{Spot};
ghost use Rattle.bal_rules.specs.Board.{Board};
ghost use Rattle.bal_rules.specs.Sound.{IsAscending};
ghost use Rattle.bal_table.specs.Table.{things_of};
ghost use Rattle.bal_words.specs.Things.{Thing};

use bal_gather::{objects_are_numbered_by_address, what_is_held_from_outside_is_gathered};

/// A walk from what was gathered ends at an object, by its number, exactly if the rules keep its name: what is held from
/// outside of the chosen regions, by a root or by any object there, garbage or not, and what that refers to inside of them.
pub fn just_what_is_kept_is_reached()
    ensures number { (b : Board) (spot : ℕ → Spot) (l : Lent) (roots held places pool : List ℕ) (k a : ℕ) (x : Thing)
        → IsCollectedFrom b spot l roots held places → At (starts_of l) k a → things_of l.table a ≡ Some x
        → EndsWalk (world_from l held pool) k ↔ IsTrue (is_among x.name (names_to_keep b l.regions)) }
    ensures name { (b : Board) (spot : ℕ → Spot) (l : Lent) (roots held places pool : List ℕ) (name : Name)
        → IsCollectedFrom b spot l roots held places → IsReached (world_from l held pool) name ↔ IsTrue (is_among name (names_to_keep b l.regions)) }
{
    objects_are_numbered_by_address();
    what_is_held_from_outside_is_gathered();
}

/// The names of the objects that are reached, once they are put in order, are the list of what the rules keep.
pub fn what_is_reached_in_order_is_what_is_kept()
    ensures { (b : Board) (spot : ℕ → Spot) (l : Lent) (roots held places pool : List ℕ) (names : List Name)
        → IsCollectedFrom b spot l roots held places → IsAscending names
        → ((name : Name) → IsTrue (is_among name names) ↔ IsReached (world_from l held pool) name)
        → names ≡ names_to_keep b l.regions }
{
    objects_are_numbered_by_address();
    what_is_held_from_outside_is_gathered();
}
