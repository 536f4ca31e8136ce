//! The regions that were out are put back into the table.
ghost use Rattle.std.specs.Prelude.{◌≡◌, [], None};
ghost use Rattle.bal_copyfwd.specs.Filled.{IsSplit, MayFill, all_back, numbers_of, with_all_filled};
ghost use Rattle.bal_table.specs.Table.{Table};

use bal_evacuate::Evacuated;
use bal_layout::Role;
use bal_region::Region;
use bal_table::{Occupied, Table};

/// Puts the regions back: those with copies with their ages, and the others as free ones.
pub fn put_survivors_back(occupied: Occupied, evacuated: Evacuated) -> Table
    requires idle { evacuated.buffers.reserved ≡ None }
    requires may { MayFill occupied (all_back evacuated.buffers.regions evacuated.spares) }
    ensures { result ≡ with_all_filled (all_back evacuated.buffers.regions evacuated.spares) occupied.table }
{
    let mut occupied = occupied;
    let mut evacuated = evacuated;
    put_copies_back(&mut occupied, &mut evacuated);
    put_spares_back(&mut occupied, &mut evacuated);
    occupied.whole()
}

// Puts the regions with copies back. What was not drawn is left.
fn put_copies_back(occupied: &mut Occupied, evacuated: &mut Evacuated)
    requires idle { evacuated.old.buffers.reserved ≡ None }
    requires may { MayFill occupied.old (all_back evacuated.old.buffers.regions evacuated.old.spares) }
    ensures table { occupied.new.table ≡ with_all_filled (all_back evacuated.old.buffers.regions []) occupied.old.table }
    ensures may { MayFill occupied.new (all_back [] evacuated.old.spares) }
    ensures spares { evacuated.new.spares ≡ evacuated.old.spares }
{
    while let Some((_, age, region)) = evacuated.take_region() {
        occupied.put_back(region, Role::Object { age });
    }
}

// Puts the regions back that were not drawn, as free ones.
fn put_spares_back(occupied: &mut Occupied, evacuated: &mut Evacuated)
    requires { MayFill occupied.old (all_back [] evacuated.old.spares) }
    ensures table { occupied.new.table ≡ with_all_filled (all_back [] evacuated.old.spares) occupied.old.table }
    ensures all { occupied.new.out ≡ [] }
{
    while let Some(region) = evacuated.take_spare() {
        occupied.put_back(region, Role::Free);
    }
}

/// Puts the pool back as it was, if the evacuation could not begin.
pub fn put_pool_back(occupied: Occupied, pool: Vec<Region>) -> Table
    requires { (t : Table) × IsSplit t occupied pool.items }
    ensures { (t : Table) → IsSplit t occupied pool.items → result ≡ t }
{
    let mut occupied = occupied;
    for region in pool {
        occupied.put_back(region, Role::Free);
    }
    occupied.whole()
}
