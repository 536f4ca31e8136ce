//! The atomic steps, their answers and their refusals.
use bal_layout::Abort;

/// What was decided of an object: it was copied to an address, or it is marked where it lies.
#[derive(Clone, Copy, PartialEq, Eq)]
pub enum Decision {
    Copied(u32),
    Marked,
}

/// One atomic step of a worker.
#[derive(Clone, Copy)]
pub enum CoreEvent {
    /// It looks at an object's word.
    Look {
        worker: u32,
        object: u32,
    },
    /// It wants the object copied to an address.
    Copy {
        worker: u32,
        object: u32,
        address: u32,
    },
    /// It wants the object marked.
    Mark {
        worker: u32,
        object: u32,
    },
    /// It draws the next region of the pool, for copies of this age.
    Draw {
        worker: u32,
        age: u8,
    },
    /// It raises the abort.
    Raise {
        worker: u32,
        cause: Abort,
    },
    /// It looks whether the abort is raised.
    Raised {
        worker: u32,
    },
}

/// What a step answers.
#[derive(Clone, Copy, PartialEq, Eq)]
pub enum CoreAnswer {
    /// What the word holds, if it is not open.
    Seen(Option<Decision>),
    /// The word was open and holds now what the worker wanted.
    Won,
    /// The word held this.
    Lost(Decision),
    /// The region that was drawn, or none.
    Drawn(Option<u32>),
    /// The abort is raised.
    Done,
    /// Whether the abort is raised.
    Flag(bool),
}

/// Why a step is refused, in the order in which it is tested.
#[derive(Clone, Copy, PartialEq, Eq)]
pub enum CoreFault {
    /// There is no such worker, or the wish is another worker's.
    Worker,
    /// There is no such object.
    Object,
    /// The object is neither a root nor a target of an object that the worker knows.
    Unreached,
    /// The object does not fit there, or no region may be drawn.
    Place,
    /// A mark by a worker that neither raised the abort nor saw it.
    NotRaised,
    /// The worker was given a region by each of its draws.
    NotDrained,
    /// Memory was refused.
    NoMemory,
}
