//! Whether an allocation has room, and where.
ghost use Rattle.std.specs.Prelude.{◌≡◌};
ghost use Rattle.bal_eden.specs.Room.{Finds, is_within_budget};
ghost use Rattle.bal_rules.specs.Room.{fits_current};

use bal_layout::Want;
use bal_table::Table;

/// Where an allocation has room: in the current region, in a free region by its number, or nowhere.
#[derive(Clone, Copy, PartialEq, Eq)]
pub enum Room {
    Here,
    Fresh(u32),
    Nowhere,
}

/// The room for what an allocation asks for. Under a budget, a free region is taken only while fewer regions than that are
/// eden; without one it is taken in any case.
pub fn find_room(table: &Table, want: &Want, soft: Option<u32>) -> Room
    ensures { Finds table.now want.now soft result }
{
    let free = table.free_count();
    if want.leaves <= free && fits_current(table, want.words) {
        return Room::Here;
    }
    if !within_budget(table, soft) || free <= want.leaves {
        return Room::Nowhere;
    }
    let Some(region) = table.lowest_free() else {
        return Room::Nowhere;
    };
    Room::Fresh(region)
}

// Whether the current region, if there is one, has so many words left.
fn fits_current(table: &Table, words: u32) -> bool
    ensures { result ≡ fits_current table.now.shape table.now.regions table.now.current words }
{
    let Some(region) = table.current() else {
        return false;
    };
    table.region(region).fits(words)
}

// Whether one more region may be eden.
fn within_budget(table: &Table, soft: Option<u32>) -> bool
    ensures { result ≡ is_within_budget table.now soft }
{
    match soft {
        Some(eden) => table.eden_count() < eden,
        None => true,
    }
}
