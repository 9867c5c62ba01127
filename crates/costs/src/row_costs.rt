//! The costs of lines.

ghost use Rattle.std.specs.Prelude.{◌≡◌, ◌≤◌, ◌^◌, IfOk, length};
ghost use Rattle.costs.specs.Ledgers.{tally_is};
ghost use Rattle.costs.specs.RowCosts.{cost_of_row, costs_of_rows};

use crate::line_cost::LineCost;
use crate::tally::Tally;
use std::alloc::{AllocError, Global};

// What a line costs, by its row.
fn row_cost(line: u32, row: &Tally) -> LineCost
    ensures { result ≡ cost_of_row line (tally_is row.now) }
{
    LineCost {
        line,
        times: row.time,
        work: row.work,
        reads: row.reads,
        writes: row.writes,
    }
}

/// The costs of the lines that ran, ascending, where line l has row l.
pub fn costs_by_line(alloc: Global, rows: &[Tally]) -> Result<Vec<LineCost>, AllocError>
    requires few { length rows.now ≤ 2 ^ 32 }
    ensures { IfOk result (λ costs. costs.items ≡ costs_of_rows rows.now (length rows.now)) }
{
    let mut costs = Vec::new(alloc);
    for line in 0..rows.len() {
        let row = rows[line];
        if row.time > 0 {
            costs.push(row_cost(line as u32, &row))?;
        }
    }
    Ok(costs)
}
