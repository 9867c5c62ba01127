//! Numbers that grow by one step at each doubling of the size.

ghost use Rattle.std.specs.Prelude.{◌≡◌, ◌↔◌, ◌*◌, ◌<◌, ◌+ℤ◌, ℤ, pos, IsTrue, IfSome, IfNone, FitsSigned};
ghost use Rattle.std.specs.Int.{w128};
ghost use Rattle.sweeps.specs.Tables.{Doubles, GrowsBy};

use crate::row::Row;

// Whether a size is twice another one, which is not 0.
fn is_twice(size: u64, half: u64) -> bool
    ensures { IsTrue result ↔ ((0 < half) × (size ≡ half * 2)) }
{
    half > 0 && size % 2 == 0 && size / 2 == half
}

// Whether a number is another one and the step.
fn is_stepped(number: u128, before: u128, step: i128) -> bool
    ensures { IsTrue result ↔ (pos number ≡ pos before +ℤ step) }
{
    match number.checked_signed_diff(before) {
        Some(difference) => difference == step,
        None => false,
    }
}

// Whether a row has twice the size of the one before, which is not 0, and a number that is greater by the step.
fn doubles(step: i128, before: Row, row: Row) -> bool
    ensures { IsTrue result ↔ Doubles step before row }
{
    is_twice(row.size, before.size) && is_stepped(row.number, before.number, step)
}

// Whether each row doubles the one before, in a table of three or more.
fn grows_by(step: i128, table: &[Row]) -> bool
    ensures { IsTrue result ↔ GrowsBy step table.now }
{
    for i in 1..table.len() {
        if !doubles(step, table[i - 1], table[i]) {
            return false;
        }
    }
    table.len() >= 3
}

/// The step by which the numbers grow at each doubling of the size, in a table of three or more.
pub(crate) fn doubling(table: &[Row]) -> Option<i128>
    ensures told { IfSome result (λ step. GrowsBy step table.now) }
    ensures found { IfNone result ((step : ℤ) → FitsSigned w128 step → ¬ GrowsBy step table.now) }
{
    if table.len() < 3 {
        return None;
    }
    let step = table[1].number.checked_signed_diff(table[0].number)?;
    if grows_by(step, table) {
        Some(step)
    } else {
        None
    }
}
