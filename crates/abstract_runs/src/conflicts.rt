//! Conflicts that may come between the processors of a set.

ghost use Rattle.std.specs.Prelude.{◌≡◌, ◌≤◌, ℕ, List, true, false, None, Some, IfOk, OnOk, length, slice_index_or};
ghost use Rattle.std.specs.List.{All, Contains, flat_map};
ghost use Rattle.pram_values.specs.Value.{fits};
ghost use Rattle.write_rules.specs.Rule.{shares_reads as shares_by};
ghost use Rattle.pram_meaning.specs.Conflict.{Part, keys, read_conflicts, reads_of, write_conflict};
ghost use Rattle.pram_meaning.specs.declared.key.Key.{Key};
ghost use Rattle.abstract_runs.specs.declared.findings.Findings as spec;
ghost use Rattle.abstract_runs.specs.Alike.{AreAlike};
ghost use Rattle.abstract_runs.specs.Columns.{AreApartBefore, GivesBehind, column as column_of, value_in, low_sum, high_sum};
ghost use Rattle.abstract_runs.specs.Columns.{WritesOnly, NeverClash, kind_under};
ghost use Rattle.abstract_runs.specs.Finding.{MayBy, AreKept};
ghost use Rattle.abstract_runs.specs.Rows.{ArePartsBy};

use crate::apart::are_apart;
use crate::findings::Findings;
use crate::reach::Reach;
use crate::row::{Row, targets};
use all_inputs::Reason;
use intervals::Interval;
use pram_model::Rule;
use pram_values::Kind;
use std::alloc::{AllocError, Global};

// ---- reads

// Whether processors may read one cell at the same position.
fn shares_reads(rule: Rule) -> bool
    ensures { result ≡ shares_by rule }
{
    rule != Rule::Erew
}

// What a row reads at a position.
pub(crate) fn reach_at(row: &Row, k: usize) -> Option<Reach>
    ensures { result ≡ slice_index_or row.now.trail.items k None }
{
    if k >= row.trail.len() {
        return None;
    }
    row.trail[k]
}

// What each row reads at a position.
fn column(alloc: Global, rows: &[Row], k: usize) -> Result<Vec<Option<Reach>>, AllocError>
    ensures { IfOk result (λ reaches. reaches.items ≡ column_of k rows.now) }
{
    let mut reaches = Vec::with_capacity(alloc, rows.len())?;
    for j in 0..rows.len() {
        reaches.push(reach_at(&rows[j], k))?;
    }
    Ok(reaches)
}

// A number of positions that no row's trail passes.
pub(crate) fn longest(rows: &[Row]) -> usize
    ensures { All (λ row. length row.trail.items ≤ result) rows.now }
{
    let mut most: usize = 0;
    for k in 0..rows.len() {
        most = most.max(rows[k].trail.len());
    }
    most
}

// The first position at which two rows may read one cell, if there is one.
fn first_shared(alloc: Global, cells: usize, rows: &[Row]) -> Result<Option<usize>, AllocError>
    ensures { IfOk result (λ first. AreApartBefore first rows.now) }
{
    let most = longest(rows);
    for k in 0..most {
        let reaches = column(alloc, rows, k)?;
        let apart = are_apart(alloc, cells, &reaches)?;
        if !apart {
            return Ok(Some(k + 1));
        }
    }
    Ok(None)
}

/// Notes a read conflict, if two processors may read one cell at the same position and the rule forbids it.
pub fn note_read_conflicts(
    alloc: Global,
    rule: Rule,
    cells: usize,
    rows: &[Row],
    faults: &mut Findings,
) -> Result<(), AllocError>
    // Each read conflict of parts of this kind is one that may come.
    ensures noted { OnOk result ((before : spec.Findings) (xs : List Part) (key : Key) → ArePartsBy before rows.now xs →
        Contains (read_conflicts rule (reads_of xs)) key → MayBy key.kind key.at faults.new) }
    // What might come before may come still.
    ensures kept { AreKept faults.old faults.new }
{
    if shares_reads(rule) {
        return Ok(());
    }
    let Some(position) = first_shared(alloc, cells, rows)? else {
        return Ok(());
    };
    faults.note(Kind::ReadConflict, position, Reason::Shared);
    Ok(())
}

// ---- writes

// The values that a row writes, if it writes.
fn value_written(row: &Row) -> Option<Interval>
    ensures { result ≡ value_in row.now.effect }
{
    let Some(effect) = row.effect else {
        return None;
    };
    if effect.reach.is_none() {
        return None;
    }
    Some(effect.value)
}

// A value that the first row that writes may write, or 0.
fn first_value(rows: &[Row]) -> i64 {
    for k in 0..rows.len() {
        if let Some(value) = value_written(&rows[k]) {
            return value.least();
        }
    }
    0
}

// Whether a row writes no other value than this.
fn writes_only(x: i64, row: &Row) -> bool
    ensures { result ≡ true → WritesOnly x row.now }
{
    let Some(value) = value_written(row) else {
        return true;
    };
    value.least() == x && value.greatest() == x
}

// Whether no row writes another value than this.
fn write_only(x: i64, rows: &[Row]) -> bool
    ensures { result ≡ true → All (WritesOnly x) rows.now }
{
    for k in 0..rows.len() {
        if !writes_only(x, &rows[k]) {
            return false;
        }
    }
    true
}

// Whether the sums of all that may be written to a cell have 64 bits.
fn have_sums(rows: &[Row]) -> bool
    ensures { result ≡ true → (fits (low_sum rows.now) ≡ true) × (fits (high_sum rows.now) ≡ true) }
{
    let mut low: i64 = 0;
    let mut high: i64 = 0;
    for k in 0..rows.len() {
        let Some(value) = value_written(&rows[k]) else {
            continue;
        };
        let Some(less) = low.checked_add(value.least().min(0)) else {
            return false;
        };
        let Some(more) = high.checked_add(value.greatest().max(0)) else {
            return false;
        };
        low = less;
        high = more;
    }
    true
}

// Whether all that write to one cell write one number: `true` says so.
fn write_common(alike: bool, rows: &[Row]) -> bool
    ensures { result ≡ true → NeverClash Rule.Common alike rows.now }
{
    if alike {
        return true;
    }
    write_only(first_value(rows), rows)
}

// Whether the rule has nothing against whatever rows write to one cell: `true` says so.
fn is_shared_well(rule: Rule, alike: bool, rows: &[Row]) -> bool
    ensures { result ≡ true → NeverClash rule alike rows.now }
{
    match rule {
        Rule::Erew | Rule::Crew => false,
        Rule::Common => write_common(alike, rows),
        Rule::Priority => true,
        Rule::Sum => have_sums(rows),
    }
}

// Whether the rule has nothing against the writers of any cell: `true` says so.
fn never_clash(
    alloc: Global,
    rule: Rule,
    cells: usize,
    alike: bool,
    rows: &[Row],
) -> Result<bool, AllocError>
    ensures { IfOk result (λ never. never ≡ true → NeverClash rule alike rows.now) }
{
    let reaches = targets(alloc, rows)?;
    let apart = are_apart(alloc, cells, &reaches)?;
    if apart {
        return Ok(true);
    }
    Ok(is_shared_well(rule, alike, rows))
}

// A position that no row's write comes before.
fn shortest(rows: &[Row]) -> usize
    ensures { All (GivesBehind result) rows.now }
{
    let mut least = longest(rows);
    for k in 0..rows.len() {
        if rows[k].effect.is_some() {
            least = least.min(rows[k].trail.len());
        }
    }
    least
}

// The kind of the faults of a rule that has something against writers.
fn clash_kind(rule: Rule) -> Kind
    ensures { result ≡ kind_under rule }
{
    match rule {
        Rule::Sum => Kind::Overflow,
        _ => Kind::WriteConflict,
    }
}

/// Notes the fault that the rule may have against the writers of one cell, if it may have one. Where they are alike, all write one value.
pub fn note_write_conflicts(
    alloc: Global,
    rule: Rule,
    cells: usize,
    alike: bool,
    rows: &[Row],
    faults: &mut Findings,
) -> Result<(), AllocError>
    // Each fault of the writers of a cell, by parts of this kind, alike where that is said, is one that may come.
    ensures noted { OnOk result ((before : spec.Findings) (xs : List Part) (key : Key) → ArePartsBy before rows.now xs →
        (alike ≡ true → AreAlike xs) → Contains (flat_map (λ x. write_conflict rule xs x.attempt) xs) key → MayBy key.kind key.at faults.new) }
    // What might come before may come still.
    ensures kept { AreKept faults.old faults.new }
{
    let never = never_clash(alloc, rule, cells, alike, rows)?;
    if !never {
        faults.note(clash_kind(rule), shortest(rows), Reason::Shared);
    }
    Ok(())
}

// ---- both

/// Notes the conflicts that may come between the processors of a set. Where they are alike, all write one value.
pub fn note_conflicts(
    alloc: Global,
    rule: Rule,
    cells: usize,
    alike: bool,
    rows: &[Row],
    faults: &mut Findings,
) -> Result<(), AllocError>
    // Each fault of a statement on parts of this kind, alike where that is said, is one that may come, if the parts' own are.
    ensures noted { OnOk result ((before : spec.Findings) (xs : List Part) (key : Key) → ArePartsBy before rows.now xs →
        (alike ≡ true → AreAlike xs) → AreKept before faults.new → Contains (keys rule xs) key → MayBy key.kind key.at faults.new) }
    // What might come before may come still.
    ensures kept { AreKept faults.old faults.new }
{
    note_read_conflicts(alloc, rule, cells, rows, faults)?;
    note_write_conflicts(alloc, rule, cells, alike, rows, faults)?;
    Ok(())
}
