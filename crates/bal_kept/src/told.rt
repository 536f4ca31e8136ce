//! What the world of an evacuation says of each object.
ghost use Rattle.std.specs.Prelude.{◌≡◌, ℕ, ◌↔◌, IsTrue, List, Some, length};
ghost use Rattle.bal_core.specs.World.{At, age_of, size_of};
ghost use Rattle.bal_gather.specs.Lent.{Lent};
ghost use Rattle.bal_gather.specs.Numbers.{starts_of};
ghost use Rattle.bal_gather.specs.Objects.{age_at};
ghost use Rattle.bal_kept.specs.Collected.{IsCollectedFrom, names_chosen, world_from};
ghost use Rattle.bal_layout.specs.Names.{is_among};
ghost use Rattle.bal_layout.specs.Regions as regions;
ghost use Rattle.bal_layout.specs.Regions.{is_in, region_at};
ghost use Rattle.bal_layout.specs.declared.name.Name.{Name};
ghost use Rattle.bal_model.specs.Entries.{Spot};
ghost use Rattle.bal_model.specs.declared.config.Config.{Config};
ghost use Rattle.bal_rules.specs.Board.{Board, Placed, place_of, words_of};
ghost use Rattle.bal_table.specs.Table.{objects_of, things_of};
ghost use Rattle.bal_words.specs.Things.{Thing};

use bal_gather::{objects_are_numbered_by_address, what_is_held_from_outside_is_gathered};
use bal_layout::a_header_has_one_spelling;
use bal_table::objects_of_a_table_do_not_overlap;

/// Of each number the world tells the name and the size of its object and the age of the region in which that lies. The names
/// are those of the objects that the board has in the chosen regions, and each has one number.
pub fn the_world_tells_the_objects()
    ensures name { (l : Lent) (held pool : List ℕ) (k a : ℕ) (x : Thing) → At (starts_of l) k a → things_of l.table a ≡ Some x
        → At (world_from l held pool).names k x.name }
    ensures size { (l : Lent) (held pool : List ℕ) (k a : ℕ) (words : List ℕ) → At (starts_of l) k a
        → objects_of l.table a ≡ Some words → size_of (world_from l held pool) k ≡ length words }
    ensures age { (l : Lent) (held pool : List ℕ) (k a : ℕ) → At (starts_of l) k a
        → age_of (world_from l held pool) k ≡ age_at l.table a }
    ensures all { (b : Board) (spot : ℕ → Spot) (l : Lent) (roots held places pool : List ℕ) (name : Name)
        → IsCollectedFrom b spot l roots held places
        → ((k : ℕ) × At (world_from l held pool).names k name) ↔ IsTrue (is_among name (names_chosen b l.regions)) }
    ensures once { (b : Board) (spot : ℕ → Spot) (l : Lent) (roots held places pool : List ℕ) (name : Name) (j k : ℕ)
        → IsCollectedFrom b spot l roots held places → At (world_from l held pool).names j name
        → At (world_from l held pool).names k name → j ≡ k }
{
    objects_are_numbered_by_address();
    what_is_held_from_outside_is_gathered();
}

/// If the board has the heap's shape and the states of its regions too, then it says the same of each object as the world: the
/// object lies in a chosen region, which has the age that the world tells, and takes as many words.
pub fn the_world_tells_what_the_board_does()
    ensures { (c : Config) (b : Board) (spot : ℕ → Spot) (l : Lent) (roots held places pool : List ℕ) (k : ℕ) (name : Name)
        → IsCollectedFrom b spot l roots held places → c.geometry ≡ l.table.shape → b.regions ≡ l.table.regions
        → At (world_from l held pool).names k name
        → (p : Placed) × (place_of b.present name ≡ Some p) × IsTrue (is_in p.region l.regions)
        × (regions.age_of (region_at b.regions p.region).role ≡ age_of (world_from l held pool) k)
        × (words_of c b name ≡ size_of (world_from l held pool) k) }
{
    objects_are_numbered_by_address();
    what_is_held_from_outside_is_gathered();
    objects_of_a_table_do_not_overlap();
    a_header_has_one_spelling();
}
