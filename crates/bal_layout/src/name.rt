//! What an object is called and of which kind it is, and why an evacuation was abandoned.
ghost use Rattle.std.specs.Prelude.{◌≡◌};
ghost use Rattle.bal_layout.specs.Names.{is_before};

/// What an object is called for its whole life, wherever a collection moves it: the thread that made it, and which
/// of that thread's objects it is, counted from 1. Names are ordered by thread, then by ordinal.
#[derive(Clone, Copy, PartialEq, Eq)]
pub struct Name {
    pub thread: u32,
    pub ordinal: u32,
}

impl Name {
    /// Whether this name stands before another one.
    pub fn is_before(&self, other: &Name) -> bool
        ensures { result ≡ is_before self.now other.now }
    {
        self.thread < other.thread || (self.thread == other.thread && self.ordinal < other.ordinal)
    }
}

/// What an object is: a plain object has references and numbers, an array references alone. A spine is an array
/// whose references lie in leaf regions.
#[derive(Clone, Copy, PartialEq, Eq)]
pub enum Kind {
    Plain,
    Array,
    Spine,
}

/// Why an evacuation was abandoned: a worker's wish, by the worker's number, or a pool with no region left.
#[derive(Clone, Copy, PartialEq, Eq)]
pub enum Abort {
    Wished(u32),
    Drained,
}
