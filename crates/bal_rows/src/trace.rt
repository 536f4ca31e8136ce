//! The trace of some bytes: each record of a comma separated text is a row. If the bytes are no trace, the first
//! record that is no row, or is one too many, is told with its cause. Plain lines are read directly (`plain`), and all
//! other bytes by csv, record by record.
ghost use Rattle.std.specs.Prelude.{◌≡◌, IfErr, IfOk};
ghost use Rattle.bal_rows.specs.Trace.{IsTrace, TellsFault};
ghost use Rattle.bal_rows.specs.declared.trace.TraceFault.TheVariants.{NoMemory as no_memory};

use crate::RowCause;
use crate::plain::{MOST_ROWS, plain_rows, room_for_rows};
use crate::row::row_of;
use bal_base::NoMemory;
use bal_layout::Geometry;
use bal_model::Trace;
use csv::{ByteRecord, ReaderBuilder};
use std::alloc::Global;

/// Why no trace was read.
#[derive(Clone, Copy, Debug)]
pub enum TraceFault {
    /// The record of this number, from 1, is the first that is no row, for this cause.
    Bad { row: u32, cause: RowCause },
    /// An allocation was refused.
    NoMemory,
}

impl From<NoMemory> for TraceFault {
    ghost from_gives = { λ _ fault. fault ≡ no_memory };

    fn from(_: NoMemory) -> Self {
        TraceFault::NoMemory
    }
}

/// Reads the rows of a trace, or finds the first record that makes the bytes none, and its first cause.
pub fn parse_trace(alloc: Global, bytes: &[u8], geometry: &Geometry) -> Result<Trace, TraceFault>
    ensures ok { IfOk result (λ trace. IsTrace geometry.now bytes.now trace.rows.list) }
    ensures bad { IfErr result (TellsFault geometry.now bytes.now) }
{
    match plain_rows(alloc, bytes, geometry)? {
        Some(rows) => Ok(Trace { rows }),
        None => read_records(alloc, bytes, geometry),
    }
}

/// The same of any bytes, record by record.
fn read_records(alloc: Global, bytes: &[u8], geometry: &Geometry) -> Result<Trace, TraceFault>
    ensures ok { IfOk result (λ trace. IsTrace geometry.now bytes.now trace.rows.list) }
    ensures bad { IfErr result (TellsFault geometry.now bytes.now) }
{
    let mut reader = ReaderBuilder::new()
        .has_headers(false)
        .flexible(true)
        .from_reader(alloc, bytes);
    let mut record = ByteRecord::new(alloc);
    let mut rows = room_for_rows(alloc, bytes.len())?;
    for before in 0..MOST_ROWS {
        // Over a slice, and with fields as many as there are, only memory can fail.
        let Ok(found) = reader.read_byte_record(&mut record) else {
            return Err(TraceFault::NoMemory);
        };
        if !found {
            return Ok(Trace { rows });
        }
        match row_of(&record, geometry) {
            Ok(row) => {
                rows.reserve(1)?;
                rows.push(row);
            }
            Err(cause) => {
                return Err(TraceFault::Bad {
                    row: before + 1,
                    cause,
                });
            }
        }
    }
    let Ok(found) = reader.read_byte_record(&mut record) else {
        return Err(TraceFault::NoMemory);
    };
    if found {
        return Err(TraceFault::Bad {
            row: MOST_ROWS + 1,
            cause: RowCause::TooManyRows,
        });
    }
    Ok(Trace { rows })
}
