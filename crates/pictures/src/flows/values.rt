//! The values of cells behind some statements.

ghost use Rattle.std.specs.Prelude.{◌≡◌, ◌<◌, ℕ, IfOk, OnOk, if◌then◌else◌, length, nat_eq};
ghost use Rattle.std.specs.List.{fold};
ghost use Rattle.journal.specs.Entries.{entry_is};
ghost use Rattle.pictures.specs.Flows.Values as spec;

use crate::flows::entries::changes_in;
use journal::{Change, Entry};
use std::alloc::{AllocError, Global};

/// The value of a cell, by those of the first cells; the others hold 0.
pub(crate) fn value_at(values: &[i64], cell: usize) -> i64
    ensures { result ≡ spec.value_at values.now cell }
{
    if cell < values.len() { values[cell] } else { 0 }
}

// Puts zeros behind values, up to a cell.
fn put_zeros(values: &mut Vec<i64>, cell: usize) -> Result<(), AllocError>
    ensures reaches { OnOk result (cell < length values.new.items) }
    ensures same { OnOk result ((k : ℕ) → spec.value_at values.new.items k ≡ spec.value_at values.old.items k) }
{
    while values.len() <= cell {
        values.push(0)?;
    }
    Ok(())
}

// Puts a value at a cell, with zeros up to there.
fn put_value(values: &mut Vec<i64>, cell: usize, value: i64) -> Result<(), AllocError>
    ensures { OnOk result ((k : ℕ) →
        spec.value_at values.new.items k ≡ (if nat_eq cell k then value else spec.value_at values.old.items k)) }
{
    put_zeros(values, cell)?;
    values[cell] = value;
    Ok(())
}

fn put_all(values: &mut Vec<i64>, changes: &[Change]) -> Result<(), AllocError>
    ensures { OnOk result ((k : ℕ) →
        spec.value_at values.new.items k ≡ fold (spec.changed k) (spec.value_at values.old.items k) changes.now) }
{
    for change in changes {
        put_value(values, change.cell, change.after)?;
    }
    Ok(())
}

/// Makes the changes of a statement.
pub(crate) fn put_changes(values: &mut Vec<i64>, entry: &Entry) -> Result<(), AllocError>
    ensures { OnOk result ((k : ℕ) →
        spec.value_at values.new.items k ≡ spec.value_after k (spec.value_at values.old.items k) (entry_is entry.now)) }
{
    put_all(values, changes_in(entry))
}
