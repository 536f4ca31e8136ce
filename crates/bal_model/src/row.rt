use bal_base::Items;
use bal_layout::Name;

/// What a row of the trace does. Registers are the row's own thread's, by number below 32; globals belong to all
/// threads, by number below 64.
#[derive(Clone, Copy)]
pub enum Op {
    /// A new object with null references and zero values, held by the register.
    New {
        register: u32,
        refs: u32,
        values: u32,
    },
    /// A new array with `len` null references, held by the register.
    Arr {
        register: u32,
        len: u32,
    },
    /// The holder's reference becomes what the register `value` holds.
    Store {
        holder: u32,
        slot: u32,
        value: u32,
    },
    /// The register takes the holder's reference.
    Load {
        into: u32,
        holder: u32,
        slot: u32,
    },
    /// The holder's value becomes the number.
    Put {
        holder: u32,
        slot: u32,
        number: u64,
    },
    /// The holder's value is read.
    Get {
        holder: u32,
        slot: u32,
    },
    /// The global takes what the register holds.
    GStore {
        global: u32,
        register: u32,
    },
    /// The register takes what the global holds.
    GLoad {
        into: u32,
        global: u32,
    },
    /// The register becomes null.
    Drop {
        register: u32,
    },
    /// A global collection.
    Gc,
}

/// The word of a row, which says what it does, without the numbers.
#[derive(Clone, Copy)]
pub enum Word {
    New,
    Arr,
    Store,
    Load,
    Put,
    Get,
    GStore,
    GLoad,
    Drop,
    Gc,
}

/// What a row replies.
#[derive(Clone, Copy, PartialEq, Eq)]
pub enum Reply {
    Name(Name),
    Null,
    Number(u64),
    Ok,
    /// The holder's register is null.
    Nil,
    /// The holder has no such slot.
    Slot,
    /// There is no room for the allocation.
    Full,
}

/// One row of a trace: a program thread, below 32, and what it does.
#[derive(Clone, Copy)]
pub struct Row {
    pub thread: u32,
    pub op: Op,
}

/// The rows of all threads, in the order of the file.
#[derive(Drop)]
pub struct Trace {
    pub rows: Items<Row>,
}
