//! What the callers of `parse_trace` build on: the two readings of some bytes exclude each other, a trace is one, and
//! the first bad record is one, with one cause. The causes leave no record out.
ghost use Rattle.std.specs.Prelude.{◌≡◌, ◌⊎◌, ℕ, List};
ghost use Rattle.bal_layout.specs.Shape.{IsShape, Shape};
ghost use Rattle.bal_model.specs.declared.row.Row.{Row};
ghost use Rattle.bal_model.specs.Spelling.{fields};
ghost use Rattle.bal_model.specs.Built.{IsTraceRow};
ghost use Rattle.bal_rows.specs.Causes.{HasCause};
ghost use Rattle.bal_rows.specs.Trace.{HasBadRecord, IsTrace};
ghost use Rattle.bal_rows.specs.declared.cause.RowCause.{RowCause};

/// No bytes are a trace and have a bad record too.
pub fn no_trace_has_a_bad_record()
    ensures { (s : Shape) (bytes : List ℕ) (rows : List Row) (number : ℕ) (why : RowCause)
        → IsShape s → IsTrace s bytes rows → HasBadRecord s bytes number why → ⊥ }
{}

/// The bytes of a trace are the trace of no other rows, in the limits of a geometry: without these an object could
/// have so many values that two numbers are spelled alike, since `decimal` writes the last 64 digits.
pub fn a_text_is_one_trace()
    ensures { (s : Shape) (bytes : List ℕ) (one other : List Row)
        → IsShape s → IsTrace s bytes one → IsTrace s bytes other → one ≡ other }
{}

/// The first bad record of some bytes is one, and so is its first cause.
pub fn bytes_have_one_bad_record()
    ensures { (s : Shape) (bytes : List ℕ) (m n : ℕ) (one other : RowCause)
        → IsShape s → HasBadRecord s bytes m one → HasBadRecord s bytes n other → (m ≡ n) × (one ≡ other) }
{}

/// Each record is that of a row of a trace, or it has a cause, of which no row has one and no record two.
pub fn a_record_is_a_row_or_has_one_cause()
    ensures either { (s : Shape) (cells : List (List ℕ))
        → ((r : Row) × IsTraceRow s r × (cells ≡ fields r)) ⊎ ((why : RowCause) × HasCause s cells why) }
    ensures not_both { (s : Shape) (cells : List (List ℕ)) (r : Row) (why : RowCause)
        → IsShape s → IsTraceRow s r → cells ≡ fields r → HasCause s cells why → ⊥ }
    ensures not_two { (s : Shape) (cells : List (List ℕ)) (one other : RowCause)
        → HasCause s cells one → HasCause s cells other → one ≡ other }
{}
