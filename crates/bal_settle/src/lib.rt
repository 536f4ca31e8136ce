//! What becomes of the chosen regions after an evacuation, before references are mended. What survived was copied out of them,
//! or was marked where it lies, since the evacuation was aborted.
//!
//! 1. No region takes new objects any more.
//! 2. Each chosen region without a marked object is freed. Each other one keeps just its marked objects, and is one age older.
//! 3. What is still eden is one age older.
//!
//! No object is moved, and no memory is taken.
#![tactic(auto)]

ghost use Rattle.std.specs.Prelude.{◌≡◌, ℕ, ◌<◌, ◌≤◌, IsTrue, None, true};
ghost use Rattle.bal_base.specs.Bits.{IsAscending};
ghost use Rattle.bal_layout.specs.Addresses.{IsAddress, region_of};
ghost use Rattle.bal_layout.specs.Regions.{age_of, is_in, is_object};
ghost use Rattle.bal_layout.specs.declared.region_state.Role.TheVariants.{Object};
ghost use Rattle.bal_rules.specs.PartialEvents.{next_age};
ghost use Rattle.bal_settle.specs.Settled.{MaySettle, lost_regions, settled};
ghost use Rattle.bal_settle.specs.Settling.{AreFirst, all_cards_settled, all_settled, cards_settled, with_eden_older, with_kept, with_region_settled};
ghost use Rattle.bal_sweep.specs.InPlace.{AreOf};
ghost use Rattle.bal_sweep.specs.Sweep.{without_regions};
ghost use Rattle.bal_table.specs.Table.{IsRole, IsTable, role_at};

mod laws;

use bal_barrier::free_region;
use bal_cards::Cards;
use bal_layout::{Geometry, OLDEST, Role};
use bal_sweep::keep_marked;
use bal_table::Table;
pub use laws::a_settled_table_keeps_just_the_marked;

/// Settles the chosen regions, which ascend, once the survivors were copied out of them or were marked. `marked` has the
/// addresses of the marked objects, ascending; each lies in a chosen region.
pub fn settle(table: &mut Table, cards: &mut Cards, chosen: &[u32], marked: &[u32])
    requires shape { cards.old.shape ≡ table.old.shape }
    requires may { MaySettle table.old chosen.now marked.now }
    ensures table { table.new ≡ settled chosen.now marked.now table.old }
    ensures cards { cards.new ≡ without_regions (lost_regions table.old.shape chosen.now marked.now) cards.old }
    ensures limits { IsTable table.new }
{
    // It is a table: so its regions have their states.
    let _ = table.geometry();
    table.set_current(None);
    settle_chosen(table, cards, chosen, marked);
    age_eden(table);
    // It is one still.
    let _ = table.geometry();
}

// Settles the regions one after the other. Those of the marked objects that were not met yet shrink beside them.
fn settle_chosen(table: &mut Table, cards: &mut Cards, chosen: &[u32], marked: &[u32])
    requires shape { cards.old.shape ≡ table.old.shape }
    requires current { table.old.current ≡ None }
    requires may { MaySettle table.old chosen.now marked.now }
    ensures table { table.new ≡ all_settled chosen.now marked.now table.old }
    ensures cards { cards.new ≡ all_cards_settled table.old.shape chosen.now marked.now cards.old }
{
    let geometry = table.geometry();
    let mut rest = marked;
    for region in chosen {
        // It is a table: so each marked object has an address.
        let _ = table.geometry();
        let (own, others) = rest.split_at(count_in(&geometry, *region, rest));
        settle_region(table, cards, *region, own);
        rest = others;
    }
}

// How many of these addresses, which ascend, lie in a region. None lies in a lower one, so they come first.
fn count_in(geometry: &Geometry, region: u32, marked: &[u32]) -> usize
    requires ascending { IsAscending marked.now }
    requires within { (a : ℕ) → IsTrue (is_in a marked.now) → IsAddress geometry.now a }
    requires from { (a : ℕ) → IsTrue (is_in a marked.now) → region ≤ region_of geometry.now a }
    ensures { AreFirst geometry.now region marked.now result }
{
    let mut count = 0;
    while count < marked.len() && geometry.region_of(marked[count]) == region {
        count += 1;
    }
    count
}

// Frees a region, if these are none; else it keeps just these objects, and is one age older.
fn settle_region(table: &mut Table, cards: &mut Cards, region: u32, own: &[u32])
    requires within { region < table.old.shape.regions }
    requires objects { is_object (role_at table.old region) ≡ true }
    requires current { table.old.current ≡ None }
    requires shape { cards.old.shape ≡ table.old.shape }
    requires own { AreOf table.old region own.now }
    ensures table { table.new ≡ with_region_settled own.now table.old region }
    ensures cards { cards.new ≡ cards_settled own.now cards.old region }
{
    if own.is_empty() {
        free_region(table, cards, region);
    } else {
        keep_older(table, region, own);
    }
}

// A region keeps just these objects, and is one age older.
fn keep_older(table: &mut Table, region: u32, own: &[u32])
    requires within { region < table.old.shape.regions }
    requires objects { is_object (role_at table.old region) ≡ true }
    requires current { table.old.current ≡ None }
    requires own { AreOf table.old region own.now }
    ensures { table.new ≡ with_kept own.now table.old region }
{
    keep_marked(table, region, own);
    // It is a table: so no region is older than the oldest may be.
    let _ = table.geometry();
    let age = age_after(table.role(region));
    table.set_age(region, age);
}

// The age of a region's objects after one more collection.
fn age_after(role: Role) -> u8
    requires { IsRole role }
    ensures { result ≡ next_age (age_of role) }
{
    match role {
        Role::Object { age } => (age + 1).min(OLDEST),
        Role::Free | Role::Leaf => 1,
    }
}

// Each region that is eden is one age older.
fn age_eden(table: &mut Table)
    requires { table.old.current ≡ None }
    ensures { table.new ≡ with_eden_older table.old }
{
    for region in 0..table.geometry().regions() {
        if table.role(region).is_eden() {
            table.set_age(region, 1);
        }
    }
}
