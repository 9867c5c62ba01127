//! Exit statuses of what was found.

ghost use Rattle.std.specs.Prelude.{◌≡◌, map, not};
ghost use Rattle.std.specs.List.{list_any};
ghost use Rattle.comparing.specs.Found.{differing_is, found_is};
ghost use Rattle.command_facts.specs.Grades.{row_passes};
ghost use Rattle.command_facts.specs.Statuses as spec;

use crate::found::{GradeRow, Settled};
use all_inputs::{LineFaults, Overall, Told, Undecided};
use comparing::{Comparison, FoundDifference};
use program_texts::Status;
use scopes::Findings;
use sweeps::{Ending, SizeRow};

// Whether the run at a size faults or is refused.
fn is_bad(ending: &Ending) -> bool
    ensures { result ≡ spec.is_bad ending.now }
{
    match ending {
        Ending::Faulted(_, _) => true,
        Ending::Refused(_) => true,
        Ending::Ended(_) => false,
        Ending::GoesOn(_) => false,
    }
}

// Whether it goes on.
fn is_going_on(ending: &Ending) -> bool
    ensures { result ≡ spec.is_going_on ending.now }
{
    match ending {
        Ending::GoesOn(_) => true,
        Ending::Ended(_) => false,
        Ending::Faulted(_, _) => false,
        Ending::Refused(_) => false,
    }
}

// Whether a size is bad.
fn has_bad(rows: &[SizeRow]) -> bool
    ensures { result ≡ list_any (λ r. spec.is_bad r.ending) rows.now }
{
    for row in rows {
        if is_bad(&row.ending) {
            return true;
        }
    }
    false
}

// Whether the run at a size goes on.
fn has_going_on(rows: &[SizeRow]) -> bool
    ensures { result ≡ list_any (λ r. spec.is_going_on r.ending) rows.now }
{
    for row in rows {
        if is_going_on(&row.ending) {
            return true;
        }
    }
    false
}

// The exit status of a sweep.
fn status_of_rows(rows: &[SizeRow]) -> Status
    ensures { result ≡ spec.status_of_rows rows.now }
{
    if has_bad(rows) {
        Status::Faulted
    } else if has_going_on(rows) {
        Status::GoesOn
    } else {
        Status::Done
    }
}

// The exit status of runs on inputs of a scope.
fn status_of_findings(findings: &Findings) -> Status
    ensures { result ≡ spec.status_of_findings findings.now.faulted findings.now.failed findings.now.go_on }
{
    if findings.faulted > 0 || findings.failed > 0 {
        Status::Faulted
    } else if findings.go_on > 0 {
        Status::GoesOn
    } else {
        Status::Done
    }
}

// The exit status of one run for all inputs, by the lines that may fault.
fn status_of_lines(lines: &[LineFaults], may_go_on: bool) -> Status
    ensures { result ≡ spec.status_of_lines lines.now may_go_on }
{
    match lines {
        [] => {
            if may_go_on {
                Status::GoesOn
            } else {
                Status::Done
            }
        }
        [_line, ..] => Status::Faulted,
    }
}

// By what is told of it.
fn status_of_told(told: &Told) -> Status
    ensures { result ≡ spec.status_of_lines told.now.lines.items told.now.may_go_on }
{
    status_of_lines(told.lines(), told.may_go_on())
}

// The exit status of one run for all inputs.
fn status_of_overall(told: &Result<Overall, Undecided>) -> Status
    ensures { result ≡ spec.status_of_overall told.now }
{
    match told {
        Ok(overall) => status_of_told(&overall.told),
        Err(_) => Status::Faulted,
    }
}

// The exit status of two programs, where they differ on these inputs.
fn status_of_differing(told: &[FoundDifference]) -> Status
    ensures { result ≡ spec.status_of_differing (map differing_is told.now) }
{
    match told {
        [] => Status::Done,
        [_, ..] => Status::Faulted,
    }
}

// The exit status of two programs on the same inputs.
fn status_of_pair(comparison: &Comparison) -> Status
    ensures { result ≡ spec.status_of_pair (found_is comparison.now) }
{
    status_of_differing(&comparison.told)
}

// Whether a program that is graded doesn't pass.
fn has_failing(rows: &[GradeRow<'_>]) -> bool
    ensures { result ≡ list_any (λ row. not (row_passes row)) rows.now }
{
    for row in rows {
        if !row.passes() {
            return true;
        }
    }
    false
}

// The exit status of programs that are graded.
fn status_of_grades(rows: &[GradeRow<'_>]) -> Status
    ensures { result ≡ spec.status_of_grades rows.now }
{
    if has_failing(rows) {
        Status::Faulted
    } else {
        Status::Done
    }
}

/// The exit status that goes with what was found, however it is told.
pub fn status_of(found: &Settled<'_>) -> Status
    ensures { result ≡ spec.status_of_found found.now }
{
    match found {
        Settled::Run(run, _) => Status::of(&run.outcome),
        Settled::Costed(run, _, _) => Status::of(&run.outcome),
        Settled::Traced(run, _, _) => Status::of(&run.outcome),
        Settled::Executed(run) => Status::of(&run.outcome),
        Settled::Swept(swept) => status_of_rows(&swept.rows),
        Settled::Version => Status::Done,
        Settled::Explanation(_) => Status::Done,
        Settled::Accepted(_) => Status::Done,
        Settled::Expanded(_) => Status::Done,
        Settled::Planned(_) => Status::Done,
        Settled::Exported(_) => Status::Done,
        Settled::ExportedAlone(_) => Status::Done,
        Settled::Explored(found) => status_of_findings(&found.findings),
        Settled::Surveyed(found) => status_of_overall(&found.told),
        Settled::Paired(pair) => status_of_pair(&pair.comparison),
        Settled::Graded(found) => status_of_grades(&found.rows),
        Settled::Compared(_) => Status::Done,
    }
}
