//! Whether each run of a set of processors faults.

ghost use Rattle.std.specs.Prelude.{◌≡◌, ℕ, List, true, None, IfOk, IfSome};
ghost use Rattle.pram_model.specs.declared.rule.Rule as spec_rule;
ghost use Rattle.pram_meaning.specs.Conflict.{Part, keys, least};
ghost use Rattle.abstract_runs.specs.declared.findings.Findings as spec;
ghost use Rattle.abstract_runs.specs.Rows.{ArePartsBy};
ghost use Rattle.abstract_runs.specs.Sure.{Clash, FaultsSurely, HaveFaultBy, IsAgainst, WritesSurely};

use crate::findings::Findings;
use crate::first_rows::first_before;
use crate::row::Row;
use crate::sooner::sooner;
use crate::sure_meetings::surely_meet;
use crate::sure_sums::surely_overflows;
use intervals::Interval;
use pram_model::Rule;
use std::alloc::{AllocError, Global};

// The position at which an attempt faults at the latest, if it surely takes place and always faults.
fn fault_position(row: &Row) -> Option<usize>
    ensures { IfSome result (λ at. FaultsSurely at row.now) }
{
    if !row.is_sure || row.effect.is_some() {
        return None;
    }
    Some(row.trail.len())
}

// The least position at which one of the attempts surely faults.
fn first_fault(rows: &[Row]) -> Option<usize>
    ensures { IfSome result (λ at. (rule : spec_rule.Rule) → HaveFaultBy rule rows.now at) }
{
    let mut first = None;
    for k in 0..rows.len() {
        first = sooner(first, fault_position(&rows[k]));
    }
    first
}

/// The one cell to which a row surely writes, and what it writes there.
pub(crate) fn sure_write(row: &Row) -> Option<(u32, Interval)>
    ensures { IfSome result (λ w. WritesSurely w.0 w.1 row.now) }
{
    let Some(effect) = row.effect else {
        return None;
    };
    let Some(reach) = effect.reach else {
        return None;
    };
    if !row.is_sure || reach.least != reach.most {
        return None;
    }
    Some((reach.least, effect.value))
}

// Whether the rule is against two writers of one cell, whatever values of these they write.
fn is_against(rule: Rule, one: Interval, two: Interval) -> bool
    ensures { result ≡ true → IsAgainst rule one two }
{
    match rule {
        Rule::Erew | Rule::Crew => true,
        Rule::Common => one.greatest() < two.least() || two.greatest() < one.least(),
        Rule::Priority | Rule::Sum => false,
    }
}

// Whether two rows surely write to one cell, and the rule is against it.
fn clash(rule: Rule, one: &Row, two: &Row) -> bool
    ensures { result ≡ true → Clash rule one.now two.now }
{
    let Some((c, first)) = sure_write(one) else {
        return false;
    };
    let Some((d, second)) = sure_write(two) else {
        return false;
    };
    c == d && is_against(rule, first, second)
}

// Whether a row clashes with the first one that surely writes to the same cell: `true` says that some two clash.
fn some_clash(alloc: Global, rule: Rule, cells: usize, rows: &[Row]) -> Result<bool, AllocError>
    ensures { IfOk result (λ sure. sure ≡ true → (faults : spec.Findings) (xs : List Part) → ArePartsBy faults rows.now xs →
        least (keys rule xs) ≡ None → ⊥) }
{
    let mut first = vec![in alloc; rows.len(); cells]?;
    for k in 0..rows.len() {
        let Some((c, _)) = sure_write(&rows[k]) else {
            continue;
        };
        let Some(j) = first_before(&mut first, c, k) else {
            continue;
        };
        if clash(rule, &rows[j], &rows[k]) {
            return Ok(true);
        }
    }
    Ok(false)
}

/// The least position at which each run has a fault in a statement on parts of this kind, but for what the rule has against writers.
pub(crate) fn sure_position(
    alloc: Global,
    rule: Rule,
    cells: usize,
    rows: &[Row],
    faults: &Findings,
) -> Result<Option<usize>, AllocError>
    // Where there is one, parts of this kind have a fault at it or before.
    ensures { IfOk result (λ sure. IfSome sure (HaveFaultBy rule rows.now)) }
{
    let first = first_fault(rows);
    if faults.read_conflict.is_none() {
        return Ok(first);
    }
    let meets = surely_meet(alloc, rule, cells, rows)?;
    Ok(sooner(first, meets))
}

/// Whether the rule surely has something against the writers of a cell, in a statement of which these faults may come: `true` says so.
pub(crate) fn surely_clash(
    alloc: Global,
    rule: Rule,
    cells: usize,
    rows: &[Row],
    faults: &Findings,
) -> Result<bool, AllocError>
    // Where it says so, no parts of this kind are without a fault.
    ensures { IfOk result (λ sure. sure ≡ true → (faults : spec.Findings) (xs : List Part) → ArePartsBy faults rows.now xs →
        least (keys rule xs) ≡ None → ⊥) }
{
    if faults.write_conflict.is_some() {
        let clashes = some_clash(alloc, rule, cells, rows)?;
        if clashes {
            return Ok(true);
        }
    }
    if faults.overflow.is_none() {
        return Ok(false);
    }
    Ok(surely_overflows(rule, rows))
}
