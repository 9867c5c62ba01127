//! What of a run's entries the picture of some of them is drawn from.

ghost use Rattle.std.specs.Prelude.{◌≡◌, IfOk, length};
ghost use Rattle.write_rules.specs.Verdict.{verdict_of};
ghost use Rattle.pram_meaning.specs.Outcome.{IsOutcome};
ghost use Rattle.journal.specs.Between.{between};
ghost use Rattle.journal.specs.InTime.{EndsBy};
ghost use Rattle.journal.specs.RunEntries.{run_entries};
ghost use Rattle.pictures.specs.Steps.Kept.{Keeps};

use crate::steps::excerpt::Excerpt;
use crate::steps::keeper::Keeper;
use journal::{Ending, tell_in_time};
use observing::Watch;
use pram_check::Program;
use std::alloc::{AllocError, Global};

/// Runs a program on an input that fits, for at most `bound` statements, as long as there is time, and keeps what the picture of the entries
/// is drawn from whose numbers, counted from 1, go from one to another. `AllocError`: memory was refused.
pub(crate) fn keep_run<V: Watch>(
    alloc: Global,
    program: &Program,
    input: &[i64],
    bound: u32,
    until: Option<u64>,
    from: usize,
    to: usize,
    watch: &mut V,
) -> Result<(Ending, Keeper), AllocError>
    ensures outcome { IfOk result (λ r. IsOutcome program.now input.now r.0.bound (verdict_of r.0.outcome)) }
    ensures ends { IfOk result (λ r. EndsBy until bound r.0.bound) }
    ensures kept { IfOk result (λ r. Keeps r.1.excerpt (between from to (run_entries program.now input.now r.0.bound))) }
    ensures counted { IfOk result (λ r. r.1.count ≡ length (run_entries program.now input.now r.0.bound)) }
{
    let keeper = Keeper {
        first: from,
        last: to,
        count: 0,
        excerpt: Excerpt::new(alloc),
    };
    let (keeper, done) = tell_in_time(alloc, program, input, bound, until, keeper, watch);
    match done {
        Ok(ending) => Ok((ending, keeper)),
        Err(_) => Err(AllocError),
    }
}
