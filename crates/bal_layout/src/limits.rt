//! How many there may be of what a heap and a trace have.

/// How many program threads there are.
pub const THREADS: u32 = 32;

/// How many registers each thread has.
pub const REGISTERS: u32 = 32;

/// How many globals there are.
pub const GLOBALS: u32 = 64;

/// How many workers an evacuation has at most.
pub const WORKERS: u32 = 32;

/// The age of the oldest regions of objects. Eden has age 0.
pub const OLDEST: u8 = 24;

/// How many regions a heap has at least and at most.
pub const FEWEST_REGIONS: u32 = 4;

pub const MOST_REGIONS: u32 = 2047;

/// How many words a region has at least and at most.
pub const FEWEST_WORDS: u32 = 256;

pub const MOST_WORDS: u32 = 65_536;

/// How many words a heap has at most.
pub const HEAP_WORDS: u32 = 1 << 24;

/// How many words a card has, of which the heap remembers whether one was written.
pub const CARD_WORDS: u32 = 64;

/// How many cards a heap has at most.
pub const CARDS: u32 = HEAP_WORDS / CARD_WORDS;

/// An object in one piece takes one of so many parts of a region at most.
pub const PARTS: u32 = 8;

/// An object has fewer references than this, and fewer values.
pub const SLOTS: u32 = 1 << 24;
