//! Whether processors surely meet where they read.

ghost use Rattle.std.specs.Prelude.{◌≡◌, ◌+◌, true, IfOk, IfSome};
ghost use Rattle.abstract_runs.specs.Sure.{HaveFaultBy, Meeting, ReadsSurely};

use crate::conflicts::{longest, reach_at};
use crate::first_rows::first_before;
use crate::row::Row;
use pram_model::Rule;
use std::alloc::{AllocError, Global};

// The one cell that a row surely reads at a position, if there is one.
fn sure_read(row: &Row, p: usize) -> Option<u32>
    ensures { IfSome result (λ c. ReadsSurely p c row.now) }
{
    let Some(reach) = reach_at(row, p) else {
        return None;
    };
    if !row.is_sure || reach.least != reach.most {
        return None;
    }
    Some(reach.least)
}

// Whether two rows surely read one cell at the position, and are of two processors.
fn meet(p: usize, one: &Row, two: &Row) -> bool
    ensures { result ≡ true → Meeting p one.now two.now }
{
    let Some(c) = sure_read(one, p) else {
        return false;
    };
    let Some(d) = sure_read(two, p) else {
        return false;
    };
    c == d && one.processor != two.processor
}

// Whether a row meets the first one that surely reads the same cell at the position: `true` says that some two meet.
fn some_meet_at(alloc: Global, cells: usize, p: usize, rows: &[Row]) -> Result<bool, AllocError>
    ensures { IfOk result (λ sure. sure ≡ true → HaveFaultBy Rule.Erew rows.now (p + 1)) }
{
    let mut first = vec![in alloc; rows.len(); cells]?;
    for k in 0..rows.len() {
        let Some(c) = sure_read(&rows[k], p) else {
            continue;
        };
        let Some(j) = first_before(&mut first, c, k) else {
            continue;
        };
        if meet(p, &rows[j], &rows[k]) {
            return Ok(true);
        }
    }
    Ok(false)
}

// The first position at which some two meet.
fn first_meeting(alloc: Global, cells: usize, rows: &[Row]) -> Result<Option<usize>, AllocError>
    ensures { IfOk result (λ sure. IfSome sure (HaveFaultBy Rule.Erew rows.now)) }
{
    for p in 0..longest(rows) {
        if some_meet_at(alloc, cells, p, rows)? {
            return Ok(Some(p + 1));
        }
    }
    Ok(None)
}

/// The first position at which two processors surely read one cell, unless one faults before, where the rule forbids it.
pub(crate) fn surely_meet(
    alloc: Global,
    rule: Rule,
    cells: usize,
    rows: &[Row],
) -> Result<Option<usize>, AllocError>
    // Where there is one, parts of this kind have a fault at it or before.
    ensures { IfOk result (λ sure. IfSome sure (HaveFaultBy rule rows.now)) }
{
    match rule {
        Rule::Erew => {
            let sure = first_meeting(alloc, cells, rows)?;
            Ok(sure)
        }
        Rule::Crew | Rule::Common | Rule::Priority | Rule::Sum => Ok(None),
    }
}
