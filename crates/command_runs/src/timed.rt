//! Runs that are to be over in some seconds.

ghost use Rattle.std.specs.Prelude.{◌≡◌, ◌<◌, ◌≤◌, Some};
ghost use Rattle.command_runs.specs.Timed.{IsLimitOf};

use command_facts::Limit;
use command_requests::MeaningWords;
use journal::bound_in_time;
use observing::Watch;
use pram_check::Program;
use std::alloc::Global;

/// What a run by the definition is made for.
#[derive(Clone, Copy)]
pub(crate) enum Aim {
    /// Its outcome.
    Outcome,
    /// What it costs.
    Cost,
}

// A run is made twice, and the first one has this part of the time: a half where both take the same, and less where more is done in the
// second.
fn share_of(aim: Aim) -> u64
    ensures { 0 < result }
{
    match aim {
        Aim::Outcome => 2,
        Aim::Cost => 4,
    }
}

// For how many statements there is time.
fn bound_of<V: Watch>(
    alloc: Global,
    aim: Aim,
    program: &Program,
    input: &[i64],
    bound: u32,
    seconds: u32,
    watch: &mut V,
) -> u32
    ensures { result ≤ bound }
{
    let milliseconds = u64::from(seconds) * 1000 / share_of(aim);
    bound_in_time(alloc, program, input, bound, milliseconds, watch)
}

// Where a run ends that is to be over in so many seconds.
fn limit_in_time<V: Watch>(
    alloc: Global,
    aim: Aim,
    program: &Program,
    input: &[i64],
    words: MeaningWords<'_>,
    seconds: u32,
    watch: &mut V,
) -> Limit
    requires seconds { words.seconds ≡ Some seconds }
    ensures limit { IsLimitOf words.entry result }
{
    let bound = bound_of(alloc, aim, program, input, words.bound, seconds, watch);
    if bound < words.bound {
        Limit {
            bound,
            seconds: Some(seconds),
        }
    } else {
        Limit {
            bound: words.bound,
            seconds: None,
        }
    }
}

/// Where a run by the definition ends that is asked for so: behind all its statements, where there is time for them, and else behind as
/// many as there is time for.
pub(crate) fn limit_of<V: Watch>(
    alloc: Global,
    aim: Aim,
    program: &Program,
    input: &[i64],
    words: MeaningWords<'_>,
    watch: &mut V,
) -> Limit
    ensures limit { IsLimitOf words.entry result }
{
    match words.seconds {
        None => Limit {
            bound: words.bound,
            seconds: None,
        },
        Some(seconds) => limit_in_time(alloc, aim, program, input, words, seconds, watch),
    }
}
