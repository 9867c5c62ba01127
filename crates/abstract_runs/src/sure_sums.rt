//! Whether what processors write to a cell surely adds up to no number of 64 bits.

ghost use Rattle.std.specs.Prelude.{◌≡◌, ◌≤ℤ◌, ℕ, ℤ, List, true, false, None};
ghost use Rattle.pram_values.specs.Value.{fits};
ghost use Rattle.pram_meaning.specs.Conflict.{Part, keys, least};
ghost use Rattle.abstract_runs.specs.declared.findings.Findings as spec;
ghost use Rattle.abstract_runs.specs.Rows.{ArePartsBy};
ghost use Rattle.abstract_runs.specs.Sure.{AddsIn, NeverFits};

use crate::row::Row;
use crate::sure_faults::sure_write;
use intervals::Interval;
use pram_model::Rule;

// What a row adds to a cell's sum: its values, 0 where it doesn't write there, or both.
fn added_to(c: u32, row: &Row) -> Interval
    ensures { AddsIn c result row.now }
{
    let nothing = Interval::point(0);
    let Some(effect) = row.effect else {
        return nothing;
    };
    let Some(reach) = effect.reach else {
        return nothing;
    };
    if c < reach.least || reach.most < c {
        return nothing;
    }
    if row.is_sure && reach.least == reach.most {
        return effect.value;
    }
    effect.value.join(nothing)
}

// Whether none of the numbers between these has 64 bits: `true` says so.
fn are_past(low: i128, high: i128) -> bool
    ensures { result ≡ true → (sum : ℤ) → low ≤ℤ sum → sum ≤ℤ high → fits sum ≡ false }
{
    i128::from(i64::MAX) < low || high < i128::from(i64::MIN)
}

// Whether no sum of what the rows write to a cell is a number of 64 bits: `true` says so.
fn never_fits(c: u32, rows: &[Row]) -> bool
    ensures { result ≡ true → NeverFits c rows.now }
{
    let mut low: i128 = 0;
    let mut high: i128 = 0;
    for k in 0..rows.len() {
        let added = added_to(c, &rows[k]);
        let Some(less) = low.checked_add(i128::from(added.least())) else {
            return false;
        };
        let Some(more) = high.checked_add(i128::from(added.greatest())) else {
            return false;
        };
        low = less;
        high = more;
    }
    are_past(low, high)
}

// Whether that is so of the cell of the first row that surely writes to just one.
fn some_sum_overflows(rows: &[Row]) -> bool
    ensures { result ≡ true → (faults : spec.Findings) (xs : List Part) → ArePartsBy faults rows.now xs →
        least (keys Rule.Sum xs) ≡ None → ⊥ }
{
    for k in 0..rows.len() {
        if let Some((c, _)) = sure_write(&rows[k]) {
            return never_fits(c, rows);
        }
    }
    false
}

/// Whether what is written to a cell surely overflows where the rule adds it up: `true` says so.
pub(crate) fn surely_overflows(rule: Rule, rows: &[Row]) -> bool
    // Where it says so, no parts of this kind are without a fault.
    ensures { result ≡ true → (faults : spec.Findings) (xs : List Part) → ArePartsBy faults rows.now xs →
        least (keys rule xs) ≡ None → ⊥ }
{
    match rule {
        Rule::Sum => some_sum_overflows(rows),
        Rule::Erew | Rule::Crew | Rule::Common | Rule::Priority => false,
    }
}
