//! One program on inputs that are drawn.

ghost use Rattle.std.specs.Prelude.{◌≡◌, ◌≢◌, ◌↔◌, ◌+◌, ◌<◌, ◌^◌, ℤ, List, IfOk, OnOk};
ghost use Rattle.drawn_kinds.specs.Kinds.{IsDrawn};
ghost use Rattle.scopes.specs.Found.{found, found_is, with_input};
ghost use Rattle.scopes.specs.Specified.{most_values};
ghost use Rattle.comparing.specs.Found as spec;

use drawn_kinds::{DrawnKind, draw_kind};
use observing::Watch;
use pram_check::Program;
use pram_meaning::MeaningRefusal;
use scopes::{Drawing, Findings, Specification, draw, explore_input, most_values};
use std::alloc::Global;

// The numbers that a seed draws.
fn draw_numbers(
    alloc: Global,
    drawing: Drawing,
    turn: u32,
    cells: u32,
) -> Result<Vec<i64>, MeaningRefusal>
    requires seeds { drawing.seed + turn < 2 ^ 64 }
    ensures drawn { IfOk result (λ input. input.items ≡ spec.drawn_by drawing.low drawing.high cells (drawing.seed + turn)) }
    ensures memory { result ≢ Err MeaningRefusal.InputTooLong }
{
    let drawing = Drawing {
        low: drawing.low,
        high: drawing.high,
        seed: drawing.seed + u64::from(turn),
    };
    match draw(alloc, drawing, cells) {
        Ok(input) => Ok(input),
        Err(_) => Err(MeaningRefusal::OutOfMemory),
    }
}

// The input of a kind that a seed draws.
fn draw_of_kind(
    alloc: Global,
    kind: DrawnKind,
    seed: u64,
    cells: u32,
) -> Result<Vec<i64>, MeaningRefusal>
    ensures drawn { IfOk result (λ input. IsDrawn kind seed cells input.items) }
    ensures memory { result ≢ Err MeaningRefusal.InputTooLong }
{
    match draw_kind(alloc, kind, cells, seed) {
        Ok(input) => Ok(input),
        Err(_) => Err(MeaningRefusal::OutOfMemory),
    }
}

// Tells the watch of an input, and tries it.
fn explore_on<W: Watch>(
    alloc: Global,
    program: &Program,
    specification: &Specification,
    bound: u32,
    input: &[i64],
    turn: u32,
    count: u32,
    watch: &mut W,
    findings: &mut Findings,
) -> Result<(), MeaningRefusal>
    requires room { findings.old.inputs + 1 < 2 ^ 64 }
    ensures found { OnOk result (found_is findings.new ≡ with_input specification.now program.now bound input.now (found_is findings.old)) }
    ensures memory { result ≢ Err MeaningRefusal.InputTooLong }
{
    watch.look(u64::from(turn), u64::from(count), input);
    match explore_input(alloc, program, specification, bound, input, findings) {
        Ok(()) => Ok(()),
        Err(_) => Err(MeaningRefusal::OutOfMemory),
    }
}

// The runs on the numbers that these seeds draw.
fn try_drawn<W: Watch>(
    alloc: Global,
    program: &Program,
    specification: &Specification,
    drawing: Drawing,
    cells: u32,
    count: u32,
    bound: u32,
    watch: &mut W,
) -> Result<Findings, MeaningRefusal>
    requires seeds { drawing.seed + count < 2 ^ 64 }
    ensures found { IfOk result (λ r. found_is r ≡ found specification.now program.now bound
        (spec.drawn_inputs drawing.low drawing.high drawing.seed cells count)) }
    ensures memory { result ≢ Err MeaningRefusal.InputTooLong }
{
    let mut findings = Findings::new(alloc);
    for turn in 0..count {
        let input = draw_numbers(alloc, drawing, turn, cells)?;
        explore_on(
            alloc,
            program,
            specification,
            bound,
            &input,
            turn,
            count,
            watch,
            &mut findings,
        )?;
    }
    Ok(findings)
}

// The runs on the inputs of a kind that these seeds draw.
fn try_kind<W: Watch>(
    alloc: Global,
    program: &Program,
    specification: &Specification,
    kind: DrawnKind,
    seed: u64,
    cells: u32,
    count: u32,
    bound: u32,
    watch: &mut W,
) -> Result<Findings, MeaningRefusal>
    requires seeds { seed + count < 2 ^ 64 }
    ensures found { IfOk result (λ r. (inputs : List (List ℤ)) × spec.AreOfKind kind seed cells count inputs
        × (found_is r ≡ found specification.now program.now bound inputs)) }
    ensures memory { result ≢ Err MeaningRefusal.InputTooLong }
{
    let mut findings = Findings::new(alloc);
    for turn in 0..count {
        let input = draw_of_kind(alloc, kind, seed + u64::from(turn), cells)?;
        explore_on(
            alloc,
            program,
            specification,
            bound,
            &input,
            turn,
            count,
            watch,
            &mut findings,
        )?;
    }
    Ok(findings)
}

/// Runs a program on inputs that are drawn, as [`explore`](scopes::explore) does on those of a scope: each of `cells` values, what the seed
/// of the drawing draws, what the next seed draws, and so on, as many as `count`. E11 where an input has more values than the program has
/// cells, or the precondition; E16 only where memory was refused. Before each input the watch is told how many were tried, and it is closed
/// behind the last.
pub fn explore_drawn<W: Watch>(
    alloc: Global,
    program: &Program,
    specification: &Specification,
    drawing: Drawing,
    cells: u32,
    count: u32,
    bound: u32,
    watch: &mut W,
) -> Result<Findings, MeaningRefusal>
    requires seeds { drawing.seed + count < 2 ^ 64 }
    // It tells of just the inputs that these seeds draw, in this order, what `explore` tells of those of a scope.
    ensures found { IfOk result (λ r. found_is r ≡ found specification.now program.now bound
        (spec.drawn_inputs drawing.low drawing.high drawing.seed cells count)) }
    // The inputs are refused as too long exactly where they have more values than the program has cells, or the
    // precondition.
    ensures too_long { (result ≡ Err MeaningRefusal.InputTooLong) ↔ (most_values specification.now.precondition program.now < cells) }
{
    if cells > most_values(&specification.precondition, program) {
        return Err(MeaningRefusal::InputTooLong);
    }
    let found = try_drawn(
        alloc,
        program,
        specification,
        drawing,
        cells,
        count,
        bound,
        watch,
    );
    watch.close();
    found
}

/// The same on inputs of a kind, each of `cells` values: what the seed draws, what the next seed draws, and so on, as many as `count`.
pub fn explore_kind<W: Watch>(
    alloc: Global,
    program: &Program,
    specification: &Specification,
    kind: DrawnKind,
    seed: u64,
    cells: u32,
    count: u32,
    bound: u32,
    watch: &mut W,
) -> Result<Findings, MeaningRefusal>
    requires seeds { seed + count < 2 ^ 64 }
    // It tells of just the inputs of that kind that these seeds draw, in this order, what `explore` tells of those of a scope.
    ensures found { IfOk result (λ r. (inputs : List (List ℤ)) × spec.AreOfKind kind seed cells count inputs
        × (found_is r ≡ found specification.now program.now bound inputs)) }
    // The inputs are refused as too long exactly where they have more values than the program has cells, or the
    // precondition.
    ensures too_long { (result ≡ Err MeaningRefusal.InputTooLong) ↔ (most_values specification.now.precondition program.now < cells) }
{
    if cells > most_values(&specification.precondition, program) {
        return Err(MeaningRefusal::InputTooLong);
    }
    let found = try_kind(
        alloc,
        program,
        specification,
        kind,
        seed,
        cells,
        count,
        bound,
        watch,
    );
    watch.close();
    found
}
