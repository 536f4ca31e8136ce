//! One object is moved to where a plan has it.
ghost use Rattle.std.specs.Prelude.{◌≡◌, ℕ, ◌+◌, ◌<◌, ◌≤◌, IsTrue, None, false};
ghost use Rattle.bal_compact.specs.Packing.{IsMovedTo, with_joined};
ghost use Rattle.bal_layout.specs.Addresses.{address_in};
ghost use Rattle.bal_layout.specs.Regions as regions;
ghost use Rattle.bal_plan.specs.Plan.{words_into};
ghost use Rattle.bal_region.specs.Land.{starts_at};
ghost use Rattle.bal_table.specs.Moves.{moved_to};
ghost use Rattle.bal_table.specs.Table.{Table, land_at, role_at};

use bal_layout::Role;
use bal_table::{Moves, Table, objects_of_a_table_are_moved_one_by_one};

/// Moves the object that starts there to where it goes, and answers how many words more of this region are in use then: those
/// of the object, or none if it goes to a lower region.
pub(crate) fn move_object(table: &mut Table, region: u32, offset: u32, moves: &Moves) -> u32
    requires within { region < table.old.shape.regions }
    requires start { IsTrue (starts_at (land_at table.old region) offset) }
    requires moving { (before : Table) × IsMovedTo before table.old (moved_to moves.now) region (address_in table.old.shape region offset) }
    ensures moving { (before : Table) → IsMovedTo before table.old (moved_to moves.now) region (address_in table.old.shape region offset)
        → IsMovedTo before table.new (moved_to moves.now) region (address_in table.old.shape region offset + 1) }
    ensures words { (before : Table) → IsMovedTo before table.old (moved_to moves.now) region (address_in table.old.shape region offset)
        → words_into before (moved_to moves.now) (address_in table.old.shape region offset + 1) region
        ≡ words_into before (moved_to moves.now) (address_in table.old.shape region offset) region + result }
{
    objects_of_a_table_are_moved_one_by_one();
    let geometry = table.geometry();
    let from = geometry.address(region, offset);
    let to = moves.to(from).unwrap_or(from);
    let target = geometry.region_of(to);
    if target == region {
        let words = table.region(region).object(offset).len() as u32;
        // One that stays is not copied onto itself.
        if to != from {
            table.slide(from, to);
        }
        return words;
    }
    let age = age_of(table.role(region));
    join_region(table, target, age);
    table.carry(from, target);
    0
}

// A region takes objects from one of this age: a region that has objects, or the lowest free one.
fn join_region(table: &mut Table, region: u32, age: u8)
    requires within { region < table.old.shape.regions }
    requires age { age ≤ 24 }
    requires current { table.old.current ≡ None }
    requires lowest { (p : ℕ) → p < region → regions.is_free (role_at table.old p) ≡ false }
    ensures { table.new ≡ with_joined table.old region age }
{
    let _ = table.geometry();
    match table.role(region) {
        Role::Object { age: own } => {
            if own < age {
                table.set_age(region, age);
            }
        }
        Role::Free | Role::Leaf => {
            table.take_free(Role::Object { age });
        }
    }
}

// The age of the objects of a region with this role.
fn age_of(role: Role) -> u8
    ensures { result ≡ regions.age_of role }
{
    match role {
        Role::Object { age } => age,
        Role::Free | Role::Leaf => 0,
    }
}
