//! Whether a formula fits a table.

ghost use Rattle.std.specs.Prelude.{◌≡◌, ◌↔◌, ◌==◌, pos, IsTrue};
ghost use Rattle.std.specs.List.{list_any};
ghost use Rattle.sweeps.specs.Formulas.{HasValue, IsValue};
ghost use Rattle.sweeps.specs.Tables.{Explains, Fits, has_size, size_count};

use crate::equation::Equation;
use crate::formula::Formula;
use crate::row::Row;

// Whether the formula is something at a size: 0 has no logarithm.
fn has_value(formula: &Formula, size: u64) -> bool
    ensures { IsTrue result ↔ HasValue formula.now size }
{
    size > 0 || (formula.logarithm == 0 && formula.linearithmic == 0)
}

// Whether the formula gives the number of the row.
fn gives(formula: &Formula, row: &Row) -> bool
    ensures { IsTrue result ↔ IsValue formula.now row.now.size (pos row.now.number) }
{
    let sum = Equation::of_row(row).sum(&Equation::of_formula(formula));
    has_value(formula, row.size) && sum.is_zero()
}

// Whether the formula gives the number at each size.
fn fits(formula: &Formula, table: &[Row]) -> bool
    ensures { IsTrue result ↔ Fits formula.now table.now }
{
    for row in table {
        if !gives(formula, row) {
            return false;
        }
    }
    true
}

// Whether a row has this size.
fn has_size(table: &[Row], size: u64) -> bool
    ensures { result ≡ has_size size table.now }
{
    for row in table {
        if row.size == size {
            return true;
        }
    }
    false
}

// How many different sizes there are.
fn size_count(table: &[Row]) -> usize
    ensures { result ≡ size_count table.now }
{
    let mut count = 0;
    for i in 0..table.len() {
        if !has_size(&table[i + 1..], table[i].size) {
            count += 1;
        }
    }
    count
}

/// Whether the formula gives the number at each size, of which there are at least two different ones more than it has terms.
pub(crate) fn explains(formula: &Formula, table: &[Row]) -> bool
    ensures { IsTrue result ↔ Explains formula.now table.now }
{
    fits(formula, table) && formula.term_count() + 2 <= size_count(table)
}
