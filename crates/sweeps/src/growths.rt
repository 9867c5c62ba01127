//! How time and work grow.

ghost use Rattle.std.specs.Prelude.{◌≡◌, IfOk, option_map};
ghost use Rattle.sweeps.specs.declared.measure.Measure.TheVariants.{Time, Work};
ghost use Rattle.sweeps.specs.SweptTables as spec;

use crate::measure::Measure;
use crate::size_row::{Ending, SizeRow};
use crate::{Growth, Row, fit};
use std::alloc::{AllocError, Global};

/// How time and work grow with the size.
#[derive(Clone, Copy, Debug, PartialEq, Eq)]
pub struct Growths {
    pub time: Growth,
    pub work: Growth,
}

// The number of a run that ended, by its size.
fn ended_row(measure: Measure, row: &SizeRow) -> Option<Row>
    ensures { result ≡ spec.ended_row measure row.now }
{
    match &row.ending {
        Ending::Ended(counts) => Some(Row {
            size: row.size,
            number: u128::from(measure.number(counts)),
        }),
        Ending::GoesOn(_) => None,
        Ending::Faulted(_, _) => None,
        Ending::Refused(_) => None,
    }
}

// The number at each size, where each run ended.
fn table_of(
    alloc: Global,
    measure: Measure,
    rows: &[SizeRow],
) -> Result<Option<Vec<Row>>, AllocError>
    ensures { IfOk result (λ table. option_map (λ v. v.items) table ≡ spec.table measure rows.now) }
{
    let mut table = Vec::new(alloc);
    for row in rows {
        match ended_row(measure, row) {
            Some(found) => table.push(found)?,
            None => return Ok(None),
        }
    }
    Ok(Some(table))
}

// How one of them grows.
fn growth_of(alloc: Global, measure: Measure, rows: &[SizeRow]) -> Result<Growth, AllocError>
    ensures { IfOk result (λ growth. spec.IsToldOf growth (spec.table measure rows.now)) }
{
    match table_of(alloc, measure, rows)? {
        Some(table) => Ok(fit(&table)),
        None => Ok(Growth::Nothing),
    }
}

/// How time and work grow with the size, where each of the runs ended; else nothing is told of either. What is told holds at the sizes of
/// the rows, and is claimed of no others. The error is that memory was refused.
pub fn growths_of(alloc: Global, rows: &[SizeRow]) -> Result<Growths, AllocError>
    // Where every run ended, what is told of the times at these sizes is so; else nothing is told.
    ensures time { IfOk result (λ growths. spec.IsToldOf growths.time (spec.table Time rows.now)) }
    // Where every run ended, what is told of the work at these sizes is so; else nothing is told.
    ensures work { IfOk result (λ growths. spec.IsToldOf growths.work (spec.table Work rows.now)) }
{
    let time = growth_of(alloc, Measure::Time, rows)?;
    let work = growth_of(alloc, Measure::Work, rows)?;
    Ok(Growths { time, work })
}
