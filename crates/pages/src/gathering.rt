//! What a page takes of a run, gathered as it goes.

ghost use Rattle.std.specs.Prelude.{IfOk, take};
ghost use Rattle.write_rules.specs.Verdict.{verdict_of};
ghost use Rattle.pram_meaning.specs.Outcome.{IsOutcome};
ghost use Rattle.journal.specs.InTime.{EndsBy};
ghost use Rattle.journal.specs.RunEntries.{run_entries};
ghost use Rattle.pages.specs.Gathered.{AreRecent, IsGathered, last_told};

use crate::asked::Asked;
use crate::first_lines::FirstLines;
use crate::gatherer::Gatherer;
use crate::last_lines::lines_of;
use crate::lines::KeptLines;
use crate::recent::Recent;
use crate::state::RunState;
use journal::{Ending, tell_in_time};
use observing::Watch;
use pram_check::Program;
use std::alloc::{AllocError, Global};

/// How many entries a run has, the state before the first one that is asked for, and the lines of those that are.
#[derive(Drop)]
pub(crate) struct Gathered {
    pub(crate) count: usize,
    pub(crate) state: RunState,
    pub(crate) lines: KeptLines,
}

/// Runs a program on an input that fits, for at most `bound` statements, as long as there is time, and gathers what its page takes. Beside
/// the run it takes the memory of one statement, of two states, and of the lines and the last entries that are kept; these come with it.
/// `AllocError`: memory was refused.
pub(crate) fn gather<V: Watch>(
    alloc: Global,
    asked: Asked<'_>,
    program: &Program,
    input: &[i64],
    bound: u32,
    until: Option<u64>,
    watch: &mut V,
) -> Result<(Ending, Gathered, Recent), AllocError>
    ensures outcome { IfOk result (λ r. IsOutcome program.now input.now r.0.bound (verdict_of r.0.outcome)) }
    ensures ends { IfOk result (λ r. EndsBy until bound r.0.bound) }
    ensures gathered { IfOk result (λ r. IsGathered asked.entry input.now (run_entries program.now input.now r.0.bound) r.1) }
    ensures recent { IfOk result
        (λ r. AreRecent input.now (take (last_told asked.entry) (run_entries program.now input.now r.0.bound)) r.2) }
{
    let state = RunState::before_all(alloc, input)?;
    let recent = Recent::new(alloc, input)?;
    let first = FirstLines::new(alloc);
    let gatherer = Gatherer {
        alloc,
        asked,
        count: 0,
        state,
        recent,
        first,
    };
    let (gatherer, done) = tell_in_time(alloc, program, input, bound, until, gatherer, watch);
    let Ok(ending) = done else {
        return Err(AllocError);
    };
    let (count, state, recent) = (gatherer.count, gatherer.state, gatherer.recent);
    let lines = lines_of(alloc, asked, &recent, gatherer.first)?;
    Ok((
        ending,
        Gathered {
            count,
            state,
            lines,
        },
        recent,
    ))
}
