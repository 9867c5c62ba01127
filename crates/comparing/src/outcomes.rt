//! What differs first between two runs.

ghost use Rattle.std.specs.Prelude.{◌≡◌, slice_get};
ghost use Rattle.write_rules.specs.Verdict.{Ended, verdict_of};
ghost use Rattle.comparing.specs.Differences.{ending_of, limit_differences};
ghost use Rattle.comparing.specs.Differences as spec;

use crate::compared::{Compared, Limits};
use crate::difference::{Difference, Ending};
use crate::ends::{cell_difference, output_difference};
use pram_values::Kind;
use write_rules::Outcome;

fn is_same_kind(kind: Kind, other: Kind) -> bool
    ensures { result ≡ spec.same_kind kind other }
{
    kind == other
}

fn is_same_ending(ending: Ending, other: Ending) -> bool
    ensures { result ≡ spec.same_ending ending other }
{
    match (ending, other) {
        (Ending::Ended, Ending::Ended) | (Ending::GoesOn, Ending::GoesOn) => true,
        (Ending::Faulted(fault), Ending::Faulted(other)) => is_same_kind(fault.kind, other.kind),
        _ => false,
    }
}

/// How a run came out.
pub(crate) fn ending(outcome: &Outcome) -> Ending
    ensures { result ≡ ending_of (verdict_of outcome.now) }
{
    match outcome {
        Outcome::Ended { .. } => Ending::Ended,
        Outcome::Faulted { fault, .. } => Ending::Faulted(*fault),
        Outcome::GoesOn { .. } => Ending::GoesOn,
    }
}

// That they come out otherwise.
fn ending_difference(first: Ending, second: Ending) -> Option<Difference>
    ensures { result ≡ slice_get (spec.ending_differences first second) 0 }
{
    if is_same_ending(first, second) {
        None
    } else {
        Some(Difference::Endings { first, second })
    }
}

// What differs first in output and cells, where both end.
fn end_difference(compared: &Compared, first: &Outcome, second: &Outcome) -> Option<Difference>
    ensures { result ≡ slice_get (spec.end_differences compared.now.output compared.now.ranges.items
        (verdict_of first.now) (verdict_of second.now)) 0 }
{
    match (first, second) {
        (
            Outcome::Ended { output, memory },
            Outcome::Ended {
                output: other_output,
                memory: other_memory,
            },
        ) => value_difference(compared, output, memory, other_output, other_memory),
        _ => None,
    }
}

fn value_difference(
    compared: &Compared,
    output: &[i64],
    memory: &[i64],
    other_output: &[i64],
    other_memory: &[i64],
) -> Option<Difference>
    ensures { result ≡ slice_get (spec.end_differences compared.now.output compared.now.ranges.items
        (Ended output.now memory.now) (Ended other_output.now other_memory.now)) 0 }
{
    if compared.output {
        output_difference(output, other_output).or_else(|| cell_difference(
            &compared.ranges,
            memory,
            other_memory,
        ))
    } else {
        cell_difference(&compared.ranges, memory, other_memory)
    }
}

// The limit, where more is taken.
fn exceeded(taken: u64, limit: Option<u64>) -> Option<u64>
    ensures { result ≡ spec.exceeded taken limit }
{
    match limit {
        Some(limit) if limit < taken => Some(limit),
        _ => None,
    }
}

// That a run that ends takes more than it may.
fn limit_difference(limits: Limits, second: &Outcome, time: u64, work: u64) -> Option<Difference>
    ensures { result ≡ slice_get (limit_differences limits record { verdict = verdict_of second.now; time = time; work = work }) 0 }
{
    match second {
        Outcome::Ended { .. } => excess(limits, time, work),
        Outcome::Faulted { .. } | Outcome::GoesOn { .. } => None,
    }
}

fn excess(limits: Limits, time: u64, work: u64) -> Option<Difference>
    ensures { result ≡ slice_get (spec.excesses limits time work) 0 }
{
    if let Some(limit) = exceeded(time, limits.time) {
        return Some(Difference::Time { taken: time, limit });
    }
    let limit = exceeded(work, limits.work)?;
    Some(Difference::Work { taken: work, limit })
}

/// What differs first between a run of a first program, and one of a second that takes `time` statements and so much work: that they
/// come out otherwise; where both end the first output item, and then the first cell of the ranges in their order; and then that the
/// second, where it ends, takes more than its limit of time or of work. None where they come to the same within the limits.
pub(crate) fn first_difference(
    compared: &Compared,
    first: &Outcome,
    second: &Outcome,
    time: u64,
    work: u64,
) -> Option<Difference>
    ensures { result ≡ spec.first_difference compared.now (verdict_of first.now)
        record { verdict = verdict_of second.now; time = time; work = work } }
{
    ending_difference(ending(first), ending(second))
        .or_else(|| end_difference(compared, first, second))
        .or_else(|| limit_difference(compared.limits, second, time, work))
}
