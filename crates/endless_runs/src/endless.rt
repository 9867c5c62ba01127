//! Runs that never end.

ghost use Rattle.std.specs.Prelude.{◌≡◌, ◌≤◌, Some};
ghost use Rattle.endless_runs.specs.Endless.{HasCycle, NeverEnds};

use crate::cycle::Cycle;
use crate::search::Search;
use crate::stop::Stop;
use observing::Watch;
use pram_check::Program;
use pram_meaning::interpreter::Interpreter;
use pram_meaning::open;
use std::alloc::Global;

// How many cells and processors may be gone through beyond the bound, in all statements together.
const ROOM: u32 = 1_000_000;

// How many statements a search goes beyond its bound, at the least and at the most.
const LEAST_BEYOND: u32 = 32;

const MOST_BEYOND: u32 = 65_536;

// Up to this bound a search finds each loop that comes back within the bound: four times as many statements and a few are enough.
const MOST_IN_FULL: u32 = 1_000_000;

const MORE_IN_FULL: u32 = 64;

// How many statements are searched in full for a bound, and none of a greater one.
fn in_full(bound: u32) -> u32 {
    if bound <= MOST_IN_FULL {
        bound * 4 + MORE_IN_FULL
    } else {
        0
    }
}

// How many statements are searched of a run within a bound: some more, of a large program fewer of these. A state that came back just
// before the bound is found by going on.
fn searched(program: &Program, bound: u32) -> u32
    ensures { bound ≤ result }
{
    let size = program.layout().cells().saturating_add(program.procs());
    let beyond = (ROOM / size.max(1)).max(LEAST_BEYOND).min(MOST_BEYOND);
    bound.saturating_add(beyond).max(in_full(bound))
}

/// A loop outside pardo that comes back, on an input, to the state that it had: then the run never ends, and its outcome is within every
/// bound that it goes on. Its line is told, and how many statements run from the one state to the other. `bound` statements and some more
/// are searched at most, by running them; up to a bound of 1,000,000 so many that a loop is found which came back within it. Two states
/// of a loop are compared by its cells and its uniform variables. Its first one is kept, and another one each time that the run has twice
/// as many statements. The watch is told how far the search is. None where nothing is known: there is no such loop or it comes later, the
/// run ends or faults, there are more values than cells, or memory was refused.
pub fn find_cycle<V: Watch>(
    alloc: Global,
    program: &Program,
    input: &[i64],
    bound: u32,
    watch: &mut V,
) -> Option<Cycle>
    // Where a loop is told, the program on that input goes on within every bound: it never ends.
    ensures never { (cycle : Cycle) → result ≡ Some cycle → NeverEnds program.now input.now }
    // The told loop is the run's: its `while` is tested twice, with the same cells and uniform variables, the second
    // time the told number of statements later, one at least.
    ensures found { (cycle : Cycle) → result ≡ Some cycle → HasCycle program.now input.now cycle }
{
    if input.len() > program.layout().cells() as usize {
        return None;
    }
    let Ok(mut run) = open(alloc, program, input) else {
        return None;
    };
    let search = Search {
        interpreter: Interpreter {
            alloc,
            program,
            bound: searched(program, bound),
        },
    };
    match search.search_body(&mut run, watch) {
        Err(Stop::Cycle(cycle)) => Some(cycle),
        Ok(()) | Err(Stop::Unknown) => None,
    }
}
