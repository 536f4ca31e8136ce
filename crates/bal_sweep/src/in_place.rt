//! A region in which survivors were marked where they lie, since the evacuation was aborted: it keeps just these.
ghost use Rattle.std.specs.Prelude.{◌≡◌, ℕ, ◌<◌, ◌↔◌, IsTrue, List, None, Some, if◌then◌else◌, slice_get};
ghost use Rattle.bal_layout.specs.Addresses.{region_of};
ghost use Rattle.bal_layout.specs.Regions.{is_in};
ghost use Rattle.bal_sweep.specs.InPlace.{AreOf};
ghost use Rattle.bal_sweep.specs.Sweep.{with_swept};
ghost use Rattle.bal_table.specs.Table.{IsTable, Table, things_of};

use bal_table::Table;

/// Takes away the objects of a region that do not start at one of these addresses, which ascend. The words of those that are
/// left are what is thought to be alive of the region. Its words stay given out.
pub fn keep_marked(table: &mut Table, region: u32, marked: &[u32])
    requires within { region < table.old.shape.regions }
    requires marked { AreOf table.old region marked.now }
    ensures { table.new ≡ with_swept marked.now table.old region }
{
    // It is a table: so its objects lie one after the other.
    let _ = table.geometry();
    let mut live = 0;
    let mut next = 0;
    // The objects of the region and the list are gone over side by side.
    let mut met = 0;
    while let Some(offset) = table.region(region).first_from(next) {
        let address = table.geometry().address(region, offset);
        if is_at(marked, met, address) {
            live += table.region(region).object(offset).len() as u32;
            met += 1;
        } else {
            table.remove(address);
        }
        next = offset + 1;
    }
    table.set_estimate(region, live);
}

// Whether the list has this address at a place.
fn is_at(marked: &[u32], place: usize, address: u32) -> bool
    ensures { IsTrue result ↔ (slice_get marked.now place ≡ Some address) }
{
    match marked.get(place) {
        Some(found) => *found == address,
        None => false,
    }
}

/// Of a region that was swept just the marked objects are left, and nothing else has changed.
pub fn a_swept_region_keeps_just_the_marked()
    ensures inside { (t : Table) (q : ℕ) (marked : List ℕ) → IsTable t → q < t.shape.regions
        → (a : ℕ) → region_of t.shape a ≡ q → things_of (with_swept marked t q) a ≡ (if is_in a marked then things_of t a else None) }
    ensures outside { (t : Table) (q : ℕ) (marked : List ℕ)
        → (a : ℕ) → (region_of t.shape a ≡ q → ⊥) → things_of (with_swept marked t q) a ≡ things_of t a }
{}
