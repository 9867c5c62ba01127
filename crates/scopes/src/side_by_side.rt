//! A block of the inputs for each worker.

ghost use Rattle.std.specs.Prelude.{◌≡◌, ◌↔◌, ◌+◌, ◌*◌, ◌<◌, ◌≤◌, ◌^◌, IfOk, length, take, drop};
ghost use Rattle.scopes.specs.Scopes.{inputs_of};
ghost use Rattle.scopes.specs.Found.{found, found_is};
ghost use Rattle.scopes.specs.Specified.{most_values};

use crate::affirming::most_values;
use crate::exploring::explore_block;
use crate::inputs::input_at;
use crate::{Findings, Scope, Specification, explore, input_count};
use observing::Watch;
use pram_check::Program;
use pram_meaning::MeaningRefusal;
use std::alloc::{AllocError, Global};
use std::thread::{Threads, map_indices};

// How often the watch is told how far several workers are.
const ROUNDS: u64 = 16;

// So many inputs are run in one round: nobody waits for their end.
const MANY: u64 = 1 << 63;

// In how many rounds so many inputs are run, and how many of them in a row by each worker in one round.
fn shares(all: u64, workers: u32) -> (u64, u64)
    requires some { 0 < workers }
    requires few { all + workers < 2 ^ 64 }
    ensures round { workers * result.1 < 2 ^ 64 }
    ensures whole { all ≤ result.0 * (workers * result.1) }
    ensures room { result.0 * (workers * result.1) < 2 ^ 64 }
{
    let rounds = if all < MANY { ROUNDS } else { 1 };
    let size = all.div_ceil(rounds * u64::from(workers));
    (rounds, size)
}

// The runs on so many inputs in a row by each worker, from a place on.
fn explore_blocks<R: Threads + Sync>(
    rt: &R,
    alloc: Global,
    program: &Program,
    specification: &Specification,
    scope: Scope,
    bound: u32,
    workers: u32,
    place: u64,
    size: u64,
) -> Result<Findings, AllocError>
    requires few { length (inputs_of scope) < 2 ^ 64 }
    requires room { place + workers * size < 2 ^ 64 }
    ensures found { IfOk result (λ r. found_is r ≡ found specification.now program.now bound
        (take (workers * size) (drop place (inputs_of scope)))) }
{
    let block = |worker: usize| -> Result<Findings, MeaningRefusal>
        requires { place + worker * size < 2 ^ 64 }
        ensures { IfOk result
            (λ r. found_is r ≡ found specification.entry.now program.entry.now bound
            (take size (drop (place + worker * size) (inputs_of scope)))) }
    {
        explore_block(
            alloc,
            program,
            specification,
            scope,
            place + worker as u64 * size,
            size,
            bound,
        )
    };
    let parts = map_indices(rt, alloc, workers as usize, &block)?;
    let mut all = Findings::new(alloc);
    'merging: for part in parts {
        let Ok(found) = part else {
            return Err(AllocError);
        };
        all.append(found)?;
    }
    Ok(all)
}

// Tells the watch how many inputs are done, and which is next.
fn tell<W: Watch>(
    alloc: Global,
    scope: Scope,
    done: u64,
    all: u64,
    watch: &mut W,
) -> Result<(), AllocError> {
    let inputs = input_at(alloc, scope, done)?;
    if !inputs.is_over() {
        watch.look(done, all, inputs.values());
    }
    Ok(())
}

// The runs on all inputs, in rounds of so many in a row by each worker.
fn explore_rounds<R: Threads + Sync, W: Watch>(
    rt: &R,
    alloc: Global,
    program: &Program,
    specification: &Specification,
    scope: Scope,
    bound: u32,
    workers: u32,
    rounds: u64,
    size: u64,
    watch: &mut W,
) -> Result<Findings, AllocError>
    requires few { length (inputs_of scope) < 2 ^ 64 }
    requires one { workers * size < 2 ^ 64 }
    requires whole { length (inputs_of scope) ≤ rounds * (workers * size) }
    requires room { rounds * (workers * size) < 2 ^ 64 }
    ensures found { IfOk result (λ r. found_is r ≡ found specification.now program.now bound (inputs_of scope)) }
{
    let all_inputs = input_count(scope).unwrap_or(0);
    let step = u64::from(workers) * size;
    let mut all = Findings::new(alloc);
    'rounds: for round in 0..rounds {
        tell(alloc, scope, round * step, all_inputs, watch)?;
        let found = explore_blocks(
            rt,
            alloc,
            program,
            specification,
            scope,
            bound,
            workers,
            round * step,
            size,
        )?;
        all.append(found)?;
    }
    Ok(all)
}

/// Runs a program on each input of a scope that counts, as [`explore`] does, by so many workers in threads: each takes a block of the
/// inputs in their order, and what they find is told as one worker finds it. E11 where an input has more values than the program has cells,
/// or the precondition; E16 only where memory was refused. Where no thread can be made, blocks are run one after the other. One worker
/// tells the watch before each input how many were tried, several before each sixteenth of them; and it is closed behind the last.
pub fn explore_by<R: Threads + Sync, W: Watch>(
    rt: &R,
    alloc: Global,
    program: &Program,
    specification: &Specification,
    scope: Scope,
    bound: u32,
    workers: u32,
    watch: &mut W,
) -> Result<Findings, MeaningRefusal>
    requires some { 0 < workers }
    requires few { length (inputs_of scope) + workers < 2 ^ 64 }
    ensures found { IfOk result (λ r. found_is r ≡ found specification.now program.now bound (inputs_of scope)) }
    ensures too_long { (result ≡ Err MeaningRefusal.InputTooLong) ↔ (most_values specification.now.precondition program.now < scope.count) }
{
    if workers == 1 {
        return explore(alloc, program, specification, scope, bound, watch);
    }
    if scope.count > most_values(&specification.precondition, program) {
        return Err(MeaningRefusal::InputTooLong);
    }
    let (rounds, size) = shares(input_count(scope).unwrap_or(0), workers);
    let found = explore_rounds(
        rt,
        alloc,
        program,
        specification,
        scope,
        bound,
        workers,
        rounds,
        size,
        watch,
    );
    watch.close();
    match found {
        Ok(findings) => Ok(findings),
        Err(_) => Err(MeaningRefusal::OutOfMemory),
    }
}
