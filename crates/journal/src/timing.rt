//! For how many statements there is time.

ghost use Rattle.std.specs.Prelude.{◌≤◌};

use crate::looker::Looker;
use crate::tell_run;
use crate::timed_teller::TimedTeller;
use observing::{Nobody, Watch};
use pram_check::Program;
use pram_meaning::observe;
use std::alloc::Global;

/// For how many statements of a program's run on an input, `bound` at most, there are so many milliseconds: the run is made for as long.
/// `bound` where it is over before, is refused, or where nobody looks at a clock. How many there are on another day isn't said.
pub fn bound_in_time<V: Watch>(
    alloc: Global,
    program: &Program,
    input: &[i64],
    bound: u32,
    milliseconds: u64,
    watch: &mut V,
) -> u32
    // The bound that is found for a run in time is at most the one that is asked for.
    ensures { result ≤ bound }
{
    let until = watch.elapsed().saturating_add(milliseconds);
    let mut looker = Looker {
        watch,
        until,
        statements: 0,
        is_over: false,
    };
    let _ = observe(alloc, program, input, bound, &mut looker);
    if looker.is_over {
        looker.statements.min(bound)
    } else {
        bound
    }
}

/// The same of a run that is told statement by statement, each of which then takes longer.
pub fn steps_bound_in_time<V: Watch>(
    alloc: Global,
    program: &Program,
    input: &[i64],
    bound: u32,
    milliseconds: u64,
    watch: &mut V,
) -> u32
    // The bound that is found for a run told statement by statement is at most the one that is asked for.
    ensures { result ≤ bound }
{
    let until = watch.elapsed().saturating_add(milliseconds);
    let teller = TimedTeller {
        watch,
        until,
        count: 0,
        is_over: false,
    };
    let (teller, _) = tell_run(alloc, program, input, bound, teller, &mut Nobody);
    if teller.is_over {
        teller.count.min(bound)
    } else {
        bound
    }
}
