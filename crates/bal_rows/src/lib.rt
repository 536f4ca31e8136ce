//! The rows of a trace, read exactly: the bytes of a text in, and its rows out, or the number of the first record that
//! is no row, with its first cause. `specs/Causes` has the causes and their order, and `specs/Trace` what they say of
//! bytes.
#![tactic(auto)]

mod cause;
mod laws;
mod plain;
mod row;
#[cfg(test)]
mod tests;
mod trace;

pub use bal_base::NoMemory;
pub use cause::RowCause;
pub use laws::{
    a_record_is_a_row_or_has_one_cause, a_text_is_one_trace, bytes_have_one_bad_record,
    no_trace_has_a_bad_record,
};
pub use trace::{TraceFault, parse_trace};
