//! A statement that is drawn.

ghost use Rattle.std.specs.Prelude.{◌≡◌, ◌++◌, ◌∷◌, [], IfOk, OnOk, map};
ghost use Rattle.journal.specs.Entries.{act_is, entry_is};
ghost use Rattle.pictures.specs.Acts.{acts_in};
ghost use Rattle.pictures.specs.Flows.Drawing as spec;
ghost use Rattle.pictures.specs.Flows.Values as cell_values;

use crate::acts::acts_in;
use crate::flows::values::value_at;
use journal::{Act, Entry};
use std::alloc::{AllocError, Global};

/// A statement that is drawn.
#[derive(Drop)]
pub struct Column {
    /// Its number, counted from 1.
    pub number: usize,
    /// What is told of it.
    pub entry: Entry,
    /// Which of a processor's reads stand in a subscript, in the order of evaluation; what isn't told counts as read for its value.
    pub aside: Vec<bool>,
    /// For each of its acts, in order, the value behind the statement of the cell that was written, and 0 where none was.
    pub written: Vec<i64>,
}

// The value of the cell that was written.
fn write_value(values: &[i64], write: Option<u32>) -> i64
    ensures { result ≡ spec.write_value (cell_values.value_at values.now) write }
{
    match write {
        None => 0,
        Some(cell) => value_at(values, cell as usize),
    }
}

// Those of all acts.
#[tactic(auto, using(crate::proofs::OfFlows::ColumnLists::more_written, crate::proofs::OfFlows::ColumnLists::all_written))]
fn written_by(alloc: Global, values: &[i64], acts: &[Act]) -> Result<Vec<i64>, AllocError>
    ensures { IfOk result (λ written. written.items ≡ spec.written_by (cell_values.value_at values.now) (map act_is acts.now)) }
{
    let mut written = Vec::new(alloc);
    for act in acts {
        let value = write_value(values, act.write);
        written.push(value)?;
    }
    Ok(written)
}

/// Puts the column of a statement behind others, by the values behind it. `AllocError`: memory was refused.
pub(crate) fn push_column(
    alloc: Global,
    columns: &mut Vec<Column>,
    values: &[i64],
    number: usize,
    entry: Entry,
    aside: Vec<bool>,
) -> Result<(), AllocError>
    ensures { OnOk result (map spec.column_is columns.new.items ≡ map spec.column_is columns.old.items ++ (record {
      number = number;
      entry = entry_is entry;
      aside = aside.items;
      written = spec.written_by (cell_values.value_at values.now) (acts_in (entry_is entry));
    } ∷ [])) }
{
    let written = written_by(alloc, values, acts_in(&entry))?;
    columns.push(Column {
        number,
        entry,
        aside,
        written,
    })?;
    Ok(())
}
