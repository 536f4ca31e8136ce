//! A new object is placed where there is room for it.
ghost use Rattle.std.specs.Prelude.{◌≡◌, Some};
ghost use Rattle.bal_eden.specs.Room.{Allocates, IsRoom, want_of_header};
ghost use Rattle.bal_layout.specs.Header.{IsHeader};
ghost use Rattle.bal_layout.specs.declared.name.Kind.TheVariants.{Spine};

use crate::Room;
use bal_layout::{Header, Role, Want, write_header};
use bal_table::Table;

/// Places a new object, whose references are null and whose numbers are zero, in the room that was found for it, and answers
/// its address.
pub fn allocate(table: &mut Table, want: &Want, room: Room, header: &Header) -> u32
    requires room { IsRoom table.old want.now room }
    requires header { IsHeader header.now }
    requires want { want_of_header table.old.shape header.now ≡ Some want.now }
    requires one_piece { want.now.leaves ≡ 0 }
    requires no_spine { header.now.kind ≡ Spine → ⊥ }
    ensures { Allocates table.old table.new want.now room header.now result }
{
    // It is a table: so a free region is empty, and the current one is eden.
    let _ = table.geometry();
    if let Room::Fresh(_) = room {
        let region = table.take_free(Role::Object { age: 0 });
        table.set_current(region);
    }
    let Some(region) = table.current() else {
        unreachable!()
    };
    let (first, second) = write_header(header);
    table.place_new(region, first, second, want.words)
}
