//! The runs of a program on every input of a scope, one after the other.

ghost use Rattle.std.specs.Prelude.{◌≡◌, ◌≢◌, ◌↔◌, ◌+◌, ◌<◌, ◌^◌, [], ◌∷◌, ◌++◌, take, drop, IfOk, OnOk, length, List, ℤ};
ghost use Rattle.scopes.specs.Scopes.{inputs_left, inputs_of};
ghost use Rattle.scopes.specs.Found.{found, found_is, with_input, with_run};
ghost use Rattle.scopes.specs.Specified.{most_values};

use crate::affirming::{input_counts, most_values};
use crate::failing::is_failing;
use crate::findings::Findings;
use crate::inputs::input_at;
use crate::{Inputs, Scope, Specification, first_input, input_count};
use costs::time_and_work;
use observing::{Nobody, Watch};
use pram_check::Program;
use pram_meaning::MeaningRefusal;
use std::alloc::Global;

// Runs the program on one input more that counts.
fn run_on(
    alloc: Global,
    program: &Program,
    specification: &Specification,
    bound: u32,
    input: &[i64],
    findings: &mut Findings,
) -> Result<(), MeaningRefusal>
    requires room { findings.old.inputs + 1 < 2 ^ 64 }
    ensures found { OnOk result (found_is findings.new
        ≡ with_run specification.now.postcondition program.now bound input.now (found_is findings.old)) }
{
    let (outcome, counted) = time_and_work(alloc, program, input, bound)?;
    let fails = is_failing(
        alloc,
        program,
        &specification.postcondition,
        input,
        &outcome,
        bound,
    )?;
    let time = u64::from(counted.time);
    findings.add(alloc, &outcome, time, counted.work, fails, input)?;
    Ok(())
}

/// Tries one input more: the program is run on it where it counts, for at most `bound` statements, and what is found is noted, as [`explore`]
/// does for each input of a scope. E11 where the input has more values than the program has cells, or the precondition; E16 only where
/// memory was refused. What the findings are behind an error isn't said.
pub fn explore_input(
    alloc: Global,
    program: &Program,
    specification: &Specification,
    bound: u32,
    input: &[i64],
    findings: &mut Findings,
) -> Result<(), MeaningRefusal>
    requires room { findings.old.inputs + 1 < 2 ^ 64 }
    // Where the input counts, just the run on it is noted behind what was found, and else that there is one more that doesn't.
    ensures found { OnOk result (found_is findings.new ≡ with_input specification.now program.now bound input.now (found_is findings.old)) }
{
    if input_counts(alloc, &specification.precondition, input, bound)? {
        run_on(alloc, program, specification, bound, input, findings)
    } else {
        findings.skip();
        Ok(())
    }
}

// The runs on the inputs that are left, or on so many of them, one after the other.
#[tactic(auto, using(crate::proofs::Explored::none_yet))]
fn try_some<W: Watch>(
    alloc: Global,
    program: &Program,
    specification: &Specification,
    inputs: Inputs,
    most: u64,
    bound: u32,
    watch: &mut W,
) -> Result<Findings, MeaningRefusal>
    ensures found { IfOk result (λ r. found_is r ≡ found specification.now program.now bound
        (take most (inputs_left inputs.scope inputs.over inputs.input.items))) }
    ensures memory { result ≢ Err MeaningRefusal.InputTooLong }
{
    let mut inputs = inputs;
    let mut findings = Findings::new(alloc);
    'trying: while findings.inputs < most {
        if inputs.is_over() {
            return Ok(findings);
        }
        let next = inputs.values();
        watch.look(findings.inputs, most, next);
        let Ok(()) = explore_input(alloc, program, specification, bound, next, &mut findings) else {
            return Err(MeaningRefusal::OutOfMemory);
        };
        inputs.advance();
    }
    Ok(findings)
}

// The runs on all inputs.
#[tactic(auto, using(crate::proofs::Explored::all_taken))]
fn try_all<W: Watch>(
    alloc: Global,
    program: &Program,
    specification: &Specification,
    scope: Scope,
    bound: u32,
    watch: &mut W,
) -> Result<Findings, MeaningRefusal>
    requires few { length (inputs_of scope) < 2 ^ 64 }
    ensures found { IfOk result (λ r. found_is r ≡ found specification.now program.now bound (inputs_of scope)) }
    ensures memory { result ≢ Err MeaningRefusal.InputTooLong }
{
    let all = input_count(scope).unwrap_or(u64::MAX);
    let Ok(inputs) = first_input(alloc, scope) else {
        return Err(MeaningRefusal::OutOfMemory);
    };
    try_some(alloc, program, specification, inputs, all, bound, watch)
}

/// Runs a program on a block of the inputs of a scope, as [`explore`] does on all of them: on `count` inputs from that of a place on, which
/// is counted from 0, or on all from there on. E11 where an input has more values than the program has cells, or the precondition; E16 only
/// where memory was refused.
pub(crate) fn explore_block(
    alloc: Global,
    program: &Program,
    specification: &Specification,
    scope: Scope,
    place: u64,
    count: u64,
    bound: u32,
) -> Result<Findings, MeaningRefusal>
    ensures found { IfOk result (λ r. found_is r ≡ found specification.now program.now bound (take count (drop place (inputs_of scope)))) }
    ensures too_long { (result ≡ Err MeaningRefusal.InputTooLong) ↔ (most_values specification.now.precondition program.now < scope.count) }
{
    if scope.count > most_values(&specification.precondition, program) {
        return Err(MeaningRefusal::InputTooLong);
    }
    let Ok(inputs) = input_at(alloc, scope, place) else {
        return Err(MeaningRefusal::OutOfMemory);
    };
    try_some(
        alloc,
        program,
        specification,
        inputs,
        count,
        bound,
        &mut Nobody,
    )
}

/// Runs a program on each input of a scope that counts, for at most `bound` statements, and says what is found, over just these inputs in
/// their order: how many there are, and how many count; on how many of these the run ends, faults and goes on; of each kind of fault at
/// each line the first one, with its input; the first input on which the run goes on; how many of the runs that end fail, and the first
/// input of these; and the least and the greatest time and work of the runs that end. Precondition and postcondition are run within the
/// same bound. E11 where an input has more values than the program has cells, or the precondition; E16 only where memory was refused.
/// Before each input the watch is told how many were tried, and it is closed behind the last.
pub fn explore<W: Watch>(
    alloc: Global,
    program: &Program,
    specification: &Specification,
    scope: Scope,
    bound: u32,
    watch: &mut W,
) -> Result<Findings, MeaningRefusal>
    requires few { length (inputs_of scope) < 2 ^ 64 }
    // Over just the scope's inputs that count it tells how many runs end, fault, go on and fail, the first of each, and
    // spans of time and work.
    ensures found { IfOk result (λ r. found_is r ≡ found specification.now program.now bound (inputs_of scope)) }
    // The inputs are refused as too long exactly where they have more values than the program has cells, or the
    // precondition.
    ensures too_long { (result ≡ Err MeaningRefusal.InputTooLong) ↔ (most_values specification.now.precondition program.now < scope.count) }
{
    if scope.count > most_values(&specification.precondition, program) {
        return Err(MeaningRefusal::InputTooLong);
    }
    let found = try_all(alloc, program, specification, scope, bound, watch);
    watch.close();
    found
}
