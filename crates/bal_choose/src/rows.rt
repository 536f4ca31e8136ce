//! What the choice goes by: a row for each region of objects.
ghost use Rattle.std.specs.Prelude.{◌≡◌, ◌<◌, ◌≤◌, ◌+◌, ◌++◌, ◌∷◌, [], IfOk, if◌then◌else◌};
ghost use Rattle.bal_choose.specs.Rows.{holds_objects, row_in, rows_in};

use bal_base::{Items, NoMemory};
use bal_layout::Role;
use bal_table::Table;
use std::alloc::Global;

/// What the choice goes by, of one region of objects: its age, whether its remembered list has overflowed, how many of its
/// words are in use, and how many of these are thought to be alive.
#[derive(Clone, Copy)]
pub struct ChoiceRow {
    pub region: u32,
    pub age: u8,
    pub overflowed: bool,
    pub used: u32,
    pub estimate: u32,
}

// The rows of a heap's regions of objects.
pub(crate) fn rows_in(alloc: Global, table: &Table) -> Result<Items<ChoiceRow>, NoMemory>
    ensures { IfOk result (λ rows. rows.list ≡ rows_in table.now.regions) }
{
    let regions = table.geometry().regions();
    let mut rows = Items::make(alloc)?;
    rows.reserve(regions as usize)?;
    for region in 0..regions {
        add_row(table, region, &mut rows);
    }
    Ok(rows)
}

// Appends the row of a region, if it is one of objects.
fn add_row(table: &Table, region: u32, rows: &mut Items<ChoiceRow>)
    requires within { region < table.now.shape.regions }
    requires room { 1 ≤ rows.old.spare }
    ensures row { rows.new.list ≡ rows.old.list ++ (if holds_objects table.now.regions region then row_in table.now.regions region ∷ [] else []) }
    ensures room { rows.old.spare ≤ rows.new.spare + 1 }
{
    let Role::Object { age } = table.role(region) else {
        return;
    };
    let state = table.state(region);
    rows.push(ChoiceRow {
        region,
        age,
        overflowed: state.remembered.is_overflowed(),
        used: state.used,
        estimate: state.estimate,
    });
}
