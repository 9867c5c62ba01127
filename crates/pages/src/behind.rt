//! The state behind an entry of a run.

ghost use Rattle.std.specs.Prelude.{◌≤◌, IfOk, ℕ, string_bytes, take};
ghost use Rattle.journal.specs.RunEntries.{run_entries};
ghost use Rattle.pages.specs.Gathered.{AreRecent, IsBehind};
ghost use Rattle.pages.specs.Pages.{IsStateBehind};
ghost use Rattle.pages.specs.Paged.{IsWithin};

use crate::recent::Recent;
use crate::replayer::Replayer;
use crate::state::{RunState, state_line};
use journal::tell_run;
use observing::Watch;
use pram_check::Program;
use std::alloc::{AllocError, Global};

// Runs a program on an input that fits, to the state behind so many statements.
fn replayed<V: Watch>(
    alloc: Global,
    program: &Program,
    input: &[i64],
    bound: u32,
    behind: usize,
    watch: &mut V,
) -> Result<RunState, AllocError>
    ensures state { IfOk result (λ s. IsBehind input.now (run_entries program.now input.now bound) behind s) }
{
    let state = RunState::before_all(alloc, input)?;
    let replayer = Replayer {
        last: behind,
        count: 0,
        state,
    };
    let (replayer, done) = tell_run(alloc, program, input, bound, replayer, watch);
    match done {
        Ok(_) => Ok(replayer.state),
        Err(_) => Err(AllocError),
    }
}

// The state behind so many statements, by the last ones of those up to number `most`.
fn state_behind<V: Watch>(
    alloc: Global,
    program: &Program,
    input: &[i64],
    bound: u32,
    behind: usize,
    recent: Recent,
    watch: &mut V,
) -> Result<RunState, AllocError>
    ensures state { IfOk result (λ s. (most : ℕ) → AreRecent input.now (take most (run_entries program.now input.now bound)) recent →
        behind ≤ most → IsBehind input.now (run_entries program.now input.now bound) behind s) }
{
    match recent.state_behind(behind)? {
        Some(state) => Ok(state),
        None => replayed(alloc, program, input, bound, behind, watch),
    }
}

// Its line.
fn line_behind<V: Watch>(
    alloc: Global,
    program: &Program,
    input: &[i64],
    bound: u32,
    behind: usize,
    recent: Recent,
    watch: &mut V,
) -> Result<String, AllocError>
    ensures line { IfOk result (λ line. (most : ℕ) → AreRecent input.now (take most (run_entries program.now input.now bound)) recent →
        behind ≤ most → IsStateBehind input.now (run_entries program.now input.now bound) (Some behind) (string_bytes line)) }
{
    let state = state_behind(alloc, program, input, bound, behind, recent, watch)?;
    state_line(alloc, &state, behind)
}

/// The line of the state behind the entry of this number, where there is one, by the last entries of those up to some number: where it is
/// before these, the program runs once more on the input, which fits. `AllocError`: memory was refused.
pub(crate) fn state_if<V: Watch>(
    alloc: Global,
    program: &Program,
    input: &[i64],
    bound: u32,
    behind: Option<usize>,
    recent: Recent,
    watch: &mut V,
) -> Result<String, AllocError>
    ensures line { IfOk result (λ line. (most : ℕ) → AreRecent input.now (take most (run_entries program.now input.now bound)) recent →
        IsWithin behind most → IsStateBehind input.now (run_entries program.now input.now bound) behind (string_bytes line)) }
{
    match behind {
        None => Ok(String::new(alloc)),
        Some(behind) => line_behind(alloc, program, input, bound, behind, recent, watch),
    }
}
