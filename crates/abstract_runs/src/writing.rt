//! What is known behind an assignment of a set of processors.

ghost use Rattle.std.specs.Prelude.{◌≡◌, ℕ, List, ℤ, true, false, length, None, ◌+ℤ◌, IfSome, OnOk, slice_set};
ghost use Rattle.intervals.specs.Intervals.{IsIn};
ghost use Rattle.pram_model.specs.declared.rule.Rule.{Rule as AnyRule};
ghost use Rattle.pram_values.specs.Value.{fits};
ghost use Rattle.pram_meaning.specs.Conflict.{Part, keys, least};
ghost use Rattle.pram_meaning.specs.Store.{Member as AnyMember, with_local};
ghost use Rattle.pram_meaning.specs.Together.{overwritten, with_locals};
ghost use Rattle.abstract_runs.specs.declared.findings.Findings.{Findings};
ghost use Rattle.abstract_runs.specs.Apart.{AreApart};
ghost use Rattle.abstract_runs.specs.Columns.{targets as targets_of};
ghost use Rattle.all_inputs.specs.Overall.{Cover};
ghost use Rattle.abstract_runs.specs.Covers.{IsReached};
ghost use Rattle.abstract_runs.specs.Given.{AreGiven};
ghost use Rattle.abstract_runs.specs.Likeness.{AreLike};
ghost use Rattle.abstract_runs.specs.Rows.{ArePartsBy};
ghost use Rattle.abstract_runs.specs.Standing.{AreMembersOf};
ghost use Rattle.abstract_runs.specs.Writing.{HoldSums, MayLeave};

use crate::apart::are_apart;
use crate::reach::Reach;
use crate::row::{Row, targets};
use crate::standing::Member;
use crate::storing::{join_interval, set_interval};
use intervals::{Interval, operate};
use pram_model::Rule;
use pram_trees::Binary;
use std::alloc::{AllocError, Global};

// The local of a member becomes a value of the interval, or may stay where that isn't sure.
fn write_local(team: &mut Vec<Member>, member: u32, place: usize, value: Interval, is_sure: bool)
    ensures set { (gs : List AnyMember) (v : ℤ) → AreMembersOf gs team.old.items → IsIn v value →
        AreMembersOf (with_local place member v gs) team.new.items }
    ensures stays { is_sure ≡ false → (gs : List AnyMember) → AreMembersOf gs team.old.items → AreMembersOf gs team.new.items }
    ensures like { AreLike team.old.items team.new.items }
{
    let index = member as usize;
    if index >= team.len() {
        return;
    }
    if is_sure {
        set_interval(&mut team[index].locals, place, value);
    } else {
        join_interval(&mut team[index].locals, place, value);
    }
}

/// The local of each processor becomes its value.
pub fn write_locals(rows: &[Row], place: usize, team: &mut Vec<Member>)
    // Where each attempt gives something, the processors behind the assignment are known so.
    ensures covers { (faults : Findings) (xs : List Part) (gs : List AnyMember) → ArePartsBy faults rows.now xs → AreGiven xs →
        AreMembersOf gs team.old.items → AreMembersOf (with_locals place xs gs) team.new.items }
    // They are the same processors.
    ensures like { AreLike team.old.items team.new.items }
{
    for k in 0..rows.len() {
        let row = &rows[k];
        let Some(effect) = row.effect else {
            continue;
        };
        write_local(team, row.member, place, effect.value, row.is_sure);
    }
}

// One of the cells of a reach becomes a value of the interval, or none does.
fn join_cells(cells: &mut Vec<Interval>, reach: Reach, value: Interval)
    ensures set { (zs : List ℤ) (c : ℕ) (v : ℤ) → Cover cells.old.items zs → IsReached c reach → IsIn v value →
        Cover cells.new.items (slice_set zs c v) }
    ensures stays { (zs : List ℤ) → Cover cells.old.items zs → Cover cells.new.items zs }
    ensures length { length cells.new.items ≡ length cells.old.items }
{
    for c in reach.least as usize..reach.most as usize + 1 {
        join_interval(cells, c, value);
    }
}

// One of the cells of a reach becomes a value of the interval, or none does where that isn't sure.
fn set_cell(cells: &mut Vec<Interval>, reach: Reach, value: Interval, is_sure: bool)
    ensures set { (zs : List ℤ) (c : ℕ) (v : ℤ) → Cover cells.old.items zs → IsReached c reach → IsIn v value →
        Cover cells.new.items (slice_set zs c v) }
    ensures stays { is_sure ≡ false → (zs : List ℤ) → Cover cells.old.items zs → Cover cells.new.items zs }
    ensures length { length cells.new.items ≡ length cells.old.items }
    ensures words { (v : ℤ) → IsIn v value → fits v ≡ true }
{
    if is_sure && reach.least == reach.most {
        set_interval(cells, reach.least as usize, value);
    } else {
        join_cells(cells, reach, value);
    }
}

// The cells behind an assignment in which no two rows can write one.
fn write_apart(rows: &[Row], cells: &mut Vec<Interval>)
    requires { AreApart (targets_of rows.now) }
    ensures covers { (rule : AnyRule) (faults : Findings) (xs : List Part) (zs : List ℤ) → ArePartsBy faults rows.now xs → AreGiven xs →
        Cover cells.old.items zs → Cover cells.new.items (overwritten rule xs 0 zs) }
    ensures length { length cells.new.items ≡ length cells.old.items }
{
    for k in 0..rows.len() {
        let row = &rows[k];
        let Some(effect) = row.effect else {
            continue;
        };
        let Some(reach) = effect.reach else {
            continue;
        };
        set_cell(cells, reach, effect.value, row.is_sure);
    }
}

// The sums of a number of the first and one of the second, if all have 64 bits.
fn added(sums: Interval, value: Interval) -> Option<Interval>
    ensures { IfSome result (λ more. (s v : ℤ) → IsIn s sums → IsIn v value → IsIn (s +ℤ v) more) }
{
    let found = operate(Binary::Add, sums, value);
    if found.may_overflow {
        return None;
    }
    found.value
}

// The sums of what some of the rows write.
fn sums_of(rows: &[Row]) -> Interval
    ensures { HoldSums rows.now result }
{
    let mut sums = Interval::point(0);
    for k in 0..rows.len() {
        let row = &rows[k];
        let Some(effect) = row.effect else {
            continue;
        };
        let Some(more) = added(sums, effect.value.join(Interval::point(0))) else {
            return Interval::all();
        };
        sums = more;
    }
    sums
}

// What a cell may come to by a write of a value of the interval, beside others.
fn left_by(rule: Rule, sums: Interval, value: Interval) -> Interval
    ensures { (w v : ℤ) → IsIn w value → MayLeave rule sums w v → IsIn v result }
{
    match rule {
        Rule::Sum => sums,
        Rule::Erew | Rule::Crew | Rule::Common | Rule::Priority => value,
    }
}

// The cells behind an assignment in which several rows may write one.
fn write_beside(rule: Rule, sums: Interval, rows: &[Row], cells: &mut Vec<Interval>)
    requires { HoldSums rows.now sums }
    ensures covers { (faults : Findings) (xs : List Part) (zs : List ℤ) → ArePartsBy faults rows.now xs → AreGiven xs →
        Cover cells.old.items zs → Cover cells.new.items (overwritten rule xs 0 zs) }
    ensures length { length cells.new.items ≡ length cells.old.items }
{
    for k in 0..rows.len() {
        let row = &rows[k];
        let Some(effect) = row.effect else {
            continue;
        };
        let Some(reach) = effect.reach else {
            continue;
        };
        join_cells(cells, reach, left_by(rule, sums, effect.value));
    }
}

/// Each cell comes to what the rule makes of its writers.
pub fn write_cells(
    alloc: Global,
    rule: Rule,
    rows: &[Row],
    cells: &mut Vec<Interval>,
) -> Result<(), AllocError>
    // Where the statement has no fault, the cells behind it are known so.
    ensures covers { OnOk result ((faults : Findings) (xs : List Part) (zs : List ℤ) → ArePartsBy faults rows.now xs →
        least (keys rule xs) ≡ None → Cover cells.old.items zs → Cover cells.new.items (overwritten rule xs 0 zs)) }
    // There are as many as before.
    ensures length { OnOk result (length cells.new.items ≡ length cells.old.items) }
{
    let reaches = targets(alloc, rows)?;
    let apart = are_apart(alloc, cells.len(), &reaches)?;
    if apart {
        write_apart(rows, cells);
        return Ok(());
    }
    write_beside(rule, sums_of(rows), rows, cells);
    Ok(())
}
