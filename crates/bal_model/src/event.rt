use crate::{Op, Reply};
use bal_base::Items;
use bal_layout::{Abort, Name};

/// What a row answered: its reply, and where its object was placed, if it made one. The reply is then the object's name.
#[derive(Drop)]
pub enum Answer {
    /// No object was placed.
    Replied(Reply),
    /// An object that lies in one piece, in this region.
    Placed {
        name: Name,
        region: u32,
    },
    /// An array whose spine lies in this region, and whose leaves are these regions, in leaf order.
    Arraylet {
        name: Name,
        region: u32,
        leaves: Box<Items<u32>>,
    },
}

/// How an evacuation kept an object: copied into a region, or marked where it lies.
#[derive(Clone, Copy)]
pub enum How {
    Copied(u32),
    Marked,
}

/// An object that a partial collection kept, and the worker that decided it.
#[derive(Clone, Copy)]
pub struct Kept {
    pub name: Name,
    pub how: How,
    pub worker: u32,
}

/// An object that a compaction packed, and the region that it went to.
#[derive(Clone, Copy)]
pub struct Packed {
    pub name: Name,
    pub region: u32,
}

/// What a partial collection did.
#[derive(Drop)]
pub struct PartialCollection {
    /// The chosen regions, ascending.
    pub chosen: Items<u32>,
    /// How many objects were scanned.
    pub scans: u32,
    /// The objects that were kept, by ascending name.
    pub kept: Items<Kept>,
    /// The causes of an abort: the wished workers ascending, then `Drained`.
    pub aborts: Items<Abort>,
}

/// One event of a journal. Nearly all events are rows, so none takes more memory than a row does: what is larger stands
/// behind a box.
#[derive(Drop)]
pub enum Event {
    /// A row was executed. `number` counts the thread's rows from 1; an object was placed exactly if the row is an
    /// allocation that succeeded.
    Row {
        thread: u32,
        number: u32,
        op: Op,
        answer: Answer,
    },
    /// A flush noted a card for a region, for the reference in a slot of the holder.
    Note {
        region: u32,
        card: u32,
        holder: Name,
        slot: u32,
    },
    /// A partial collection.
    Partial(Box<PartialCollection>),
    /// A mark cycle begins.
    Begin,
    /// A mark step, with the names in the order of listing.
    Mark {
        names: Items<Name>,
    },
    /// A mark cycle ends, with the dead by ascending name.
    End {
        dead: Items<Name>,
    },
    /// A global collection: the dead by ascending name, and the others in the order of packing.
    Global {
        dead: Items<Name>,
        packed: Items<Packed>,
    },
}

// A journal of 2^20 rows takes 64 MiB.
const _: () = prove!(size_of::<Event>() == 64);

/// All that happened, in order.
#[derive(Drop)]
pub struct Journal {
    pub events: Items<Event>,
}
