//! The runs of two programs on the same inputs.

ghost use Rattle.std.specs.Prelude.{◌≡◌, ◌≢◌, ◌↔◌, ◌+◌, ◌<◌, ◌^◌, [], ◌∷◌, ◌++◌, IfOk, OnOk, Some, length, map, List, ℤ};
ghost use Rattle.scopes.specs.Scopes.{inputs_of};
ghost use Rattle.comparing.specs.Differences as bounds;
ghost use Rattle.comparing.specs.Found.{added, drawn_inputs, found, found_is, trial_on, values_of, with_input};
ghost use Rattle.comparing.specs.Found as spec;
ghost use Rattle.comparing.specs.declared.refusal.Side as rust;

use crate::compared::{Compared, Limits};
use crate::comparison::Comparison;
use crate::most::most_told;
use crate::outcomes::{ending, first_difference};
use crate::refusal::{ComparisonRefusal, longest, too_long};
use crate::trial::Trial;
use costs::time_and_work;
use pram_check::Program;
use pram_meaning::reference_run;
use scopes::{Drawing, Scope, draw, first_input, input_counts};
use std::alloc::Global;

// The most statements of the second program's runs.
fn second_bound(limits: Limits, bound: u32) -> u32
    ensures { result ≡ bounds.second_bound limits bound }
{
    match limits.time {
        Some(limit) if limits.stops && limit < u64::from(bound) => limit as u32,
        _ => bound,
    }
}

// What is found on an input that is not too long for either program.
fn trial(
    alloc: Global,
    first: &Program,
    second: &Program,
    compared: &Compared,
    input: &[i64],
    bound: u32,
) -> Result<Trial, ComparisonRefusal>
    ensures trial { IfOk result (λ t. t ≡ trial_on first.now second.now compared.now bound input.now) }
    ensures memory { (side : rust.Side) → result ≢ Err (ComparisonRefusal.InputTooLong side) }
{
    let Ok(outcome) = reference_run(alloc, first, input, bound) else {
        return Err(ComparisonRefusal::OutOfMemory);
    };
    let most = second_bound(compared.limits, bound);
    let Ok((other, counted)) = time_and_work(alloc, second, input, most) else {
        return Err(ComparisonRefusal::OutOfMemory);
    };
    let time = u64::from(counted.time);
    Ok(Trial {
        difference: first_difference(compared, &outcome, &other, time, counted.work),
        ending: ending(&other),
        time,
        work: counted.work,
    })
}

// Runs both programs on one input more that counts.
fn compare_on(
    alloc: Global,
    first: &Program,
    second: &Program,
    compared: &Compared,
    input: &[i64],
    bound: u32,
    most: usize,
    comparison: &mut Comparison,
) -> Result<(), ComparisonRefusal>
    requires room { comparison.old.inputs + 1 < 2 ^ 64 }
    ensures found { OnOk result (found_is comparison.new
        ≡ added most (trial_on first.now second.now compared.now bound input.now) input.now (found_is comparison.old)) }
    ensures memory { (side : rust.Side) → result ≢ Err (ComparisonRefusal.InputTooLong side) }
{
    let trial = trial(alloc, first, second, compared, input, bound)?;
    match comparison.add(alloc, most, trial, input) {
        Ok(()) => Ok(()),
        Err(_) => Err(ComparisonRefusal::OutOfMemory),
    }
}

/// Tries one input more: both programs are run on it where it counts.
pub(crate) fn try_input(
    alloc: Global,
    first: &Program,
    second: &Program,
    precondition: &Option<Program>,
    compared: &Compared,
    input: &[i64],
    bound: u32,
    most: usize,
    comparison: &mut Comparison,
) -> Result<(), ComparisonRefusal>
    requires room { comparison.old.inputs + 1 < 2 ^ 64 }
    ensures found { OnOk result (found_is comparison.new
        ≡ with_input precondition.now first.now second.now compared.now bound most input.now (found_is comparison.old)) }
    ensures memory { (side : rust.Side) → result ≢ Err (ComparisonRefusal.InputTooLong side) }
{
    match input_counts(alloc, precondition, input, bound) {
        Ok(true) => compare_on(
            alloc, first, second, compared, input, bound, most, comparison,
        ),
        Ok(false) => {
            comparison.skip();
            Ok(())
        }
        Err(_) => Err(ComparisonRefusal::OutOfMemory),
    }
}

/// Runs two programs on each input of a scope that counts, each run for at most `bound` statements, and says what is found over just these
/// inputs in their order: how many there are and how many count, on how many of these the programs come to the same, and the first on which
/// they don't, as many as [`most_told`] says. An input counts where the precondition affirms it within the same bound, and each where there
/// is none. E11 where an input has more values than one of the programs has cells, or the precondition; E16 only where memory was refused.
pub fn compare_scope(
    alloc: Global,
    first: &Program,
    second: &Program,
    precondition: &Option<Program>,
    compared: &Compared,
    scope: Scope,
    bound: u32,
) -> Result<Comparison, ComparisonRefusal>
    requires few { length (inputs_of scope) < 2 ^ 64 }
    // It tells on how many of the scope's inputs that count the programs come to the same, and the first on which they
    // don't, as many as allowed.
    ensures found { IfOk result (λ r. found_is r ≡ found precondition.now first.now second.now compared.now bound
        (spec.most_told scope.count) (inputs_of scope)) }
    // The inputs are refused exactly where a program has fewer cells than they have values: the first before the
    // second, then the precondition.
    ensures too_long { (side : rust.Side) → (result ≡ Err (ComparisonRefusal.InputTooLong side))
        ↔ (spec.too_long precondition.now first.now second.now scope.count ≡ Some side) }
{
    if let Some(side) = too_long(first, second, precondition, scope.count as usize) {
        return Err(ComparisonRefusal::InputTooLong(side));
    }
    let Ok(mut inputs) = first_input(alloc, scope) else {
        return Err(ComparisonRefusal::OutOfMemory);
    };
    let most = most_told(scope.count as usize);
    let mut comparison = Comparison::new(alloc);
    'trying: while !inputs.is_over() {
        let input = inputs.values();
        try_input(
            alloc,
            first,
            second,
            precondition,
            compared,
            input,
            bound,
            most,
            &mut comparison,
        )?;
        inputs.advance();
    }
    Ok(comparison)
}

/// The same on each of these inputs. E11 where any of them has more values than one of the programs has cells, or the precondition.
pub fn compare_inputs(
    alloc: Global,
    first: &Program,
    second: &Program,
    precondition: &Option<Program>,
    compared: &Compared,
    inputs: &[Vec<i64>],
    bound: u32,
) -> Result<Comparison, ComparisonRefusal>
    // It tells on how many of these inputs that count the programs come to the same, and the first on which they don't,
    // as many as allowed.
    ensures found { IfOk result (λ r. found_is r ≡ found precondition.now first.now second.now compared.now bound
        (spec.most_told (spec.longest (map values_of inputs.now))) (map values_of inputs.now)) }
    // They are refused exactly where a program has fewer cells than the longest has values: the first before the
    // second, then the precondition.
    ensures too_long { (side : rust.Side) → (result ≡ Err (ComparisonRefusal.InputTooLong side))
        ↔ (spec.too_long precondition.now first.now second.now (spec.longest (map values_of inputs.now)) ≡ Some side) }
{
    let values = longest(inputs);
    if let Some(side) = too_long(first, second, precondition, values) {
        return Err(ComparisonRefusal::InputTooLong(side));
    }
    let most = most_told(values);
    let mut comparison = Comparison::new(alloc);
    for input in inputs {
        try_input(
            alloc,
            first,
            second,
            precondition,
            compared,
            input,
            bound,
            most,
            &mut comparison,
        )?;
    }
    Ok(comparison)
}

// The input that a seed draws.
fn draw_input(
    alloc: Global,
    drawing: Drawing,
    turn: u32,
    cells: u32,
) -> Result<Vec<i64>, ComparisonRefusal>
    requires seeds { drawing.seed + turn < 2 ^ 64 }
    ensures drawn { IfOk result (λ input. input.items ≡ spec.drawn_by drawing.low drawing.high cells (drawing.seed + turn)) }
    ensures memory { (side : rust.Side) → result ≢ Err (ComparisonRefusal.InputTooLong side) }
{
    let drawing = Drawing {
        low: drawing.low,
        high: drawing.high,
        seed: drawing.seed + u64::from(turn),
    };
    match draw(alloc, drawing, cells) {
        Ok(input) => Ok(input),
        Err(_) => Err(ComparisonRefusal::OutOfMemory),
    }
}

/// The same on inputs that are drawn, each of `cells` values: what the seed of the drawing draws, what the next seed draws, and so on, as
/// many as `count`. E11 where one of the programs has fewer cells, or the precondition.
pub fn compare_drawn(
    alloc: Global,
    first: &Program,
    second: &Program,
    precondition: &Option<Program>,
    compared: &Compared,
    drawing: Drawing,
    cells: u32,
    count: u32,
    bound: u32,
) -> Result<Comparison, ComparisonRefusal>
    requires seeds { drawing.seed + count < 2 ^ 64 }
    // It tells on how many of the inputs that these seeds draw, and that count, the programs come to the same, and the
    // first on which they don't.
    ensures found { IfOk result (λ r. found_is r ≡ found precondition.now first.now second.now compared.now bound
        (spec.most_told cells) (drawn_inputs drawing.low drawing.high drawing.seed cells count)) }
    // They are refused exactly where a program has fewer cells than are drawn: the first before the second, then the
    // precondition.
    ensures too_long { (side : rust.Side) → (result ≡ Err (ComparisonRefusal.InputTooLong side))
        ↔ (spec.too_long precondition.now first.now second.now cells ≡ Some side) }
{
    if let Some(side) = too_long(first, second, precondition, cells as usize) {
        return Err(ComparisonRefusal::InputTooLong(side));
    }
    let most = most_told(cells as usize);
    let mut comparison = Comparison::new(alloc);
    for turn in 0..count {
        let input = draw_input(alloc, drawing, turn, cells)?;
        try_input(
            alloc,
            first,
            second,
            precondition,
            compared,
            &input,
            bound,
            most,
            &mut comparison,
        )?;
    }
    Ok(comparison)
}
