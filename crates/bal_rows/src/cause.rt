//! Why a record of a trace is no row.
ghost use Rattle.std.specs.Prelude.{◌≡◌};
ghost use Rattle.bal_rows.specs.Texts.{text_of};

/// Why a record is no row of a trace, in the order in which a record is tested: the first cause that it has is told.
#[derive(Clone, Copy, Debug)]
pub enum RowCause {
    /// There are 2^20 rows before it.
    TooManyRows,
    /// The first field is no word.
    Word,
    /// There are not as many fields as the word wants.
    Fields,
    /// A field after the word is no number of 64 bits.
    Number,
    /// The thread is over 31.
    Thread,
    /// A register is over 31.
    Register,
    /// The global is over 63.
    Global,
    /// The slot is over 2^24 - 1.
    Slot,
    /// The object has more words than the largest.
    TooBig,
}

impl RowCause {
    /// What a message says of the cause.
    pub fn text(self) -> &'static str
        ensures { result.now ≡ text_of self }
    {
        match self {
            RowCause::TooManyRows => "too many rows",
            RowCause::Word => "bad word",
            RowCause::Fields => "bad number of fields",
            RowCause::Number => "bad number",
            RowCause::Thread => "bad thread",
            RowCause::Register => "bad register",
            RowCause::Global => "bad global",
            RowCause::Slot => "bad slot",
            RowCause::TooBig => "too big",
        }
    }
}
