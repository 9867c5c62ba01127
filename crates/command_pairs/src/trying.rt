//! Two programs on inputs of a scope, of files, or that are drawn.

ghost use Rattle.std.specs.Prelude.{◌≡◌, ◌⊎◌, ℕ, ℤ, List, Some, IfOk, IfErr};
ghost use Rattle.std.specs.List.{AllZip};
ghost use Rattle.system_files.specs.Files.{IsSame};
ghost use Rattle.scopes.specs.Scopes.{inputs_of};
ghost use Rattle.comparing.specs.Found as pairs;
ghost use Rattle.comparing.specs.Found.{drawn_inputs};
ghost use Rattle.comparing.specs.declared.refusal.Side as rust;
ghost use Rattle.command_pairs.specs.Pairs as spec;

use crate::pair_inputs::load_inputs;
use command_requests::{DrawnWords, FewInputs, InputFile, InputWords, KindWords, PairWords};
use comparing::{
    Compared, Comparison, ComparisonRefusal, Side, compare_drawn, compare_inputs, compare_kind,
    compare_scope, first_front_cells, front_cells, longest,
};
use diagnoses::{About, Halted};
use pram_check::Program;
use program_texts::{Refusal, Stop};
use std::alloc::Global;
use system_files::Sources;

// The cells of a precondition, if there is one.
fn cells_where(precondition: &Option<Program>) -> u32
    ensures { result ≡ spec.cells_where precondition.now }
{
    match precondition {
        None => 0,
        Some(program) => program.layout().cells(),
    }
}

fn cells_of(first: &Program, second: &Program, precondition: &Option<Program>, side: Side) -> u32
    ensures { result ≡ spec.cells_of precondition.now first.now second.now side }
{
    match side {
        Side::First => first.layout().cells(),
        Side::Second => second.layout().cells(),
        Side::Precondition => cells_where(precondition),
    }
}

// No run begins: an input has more values than a program has cells, or memory was refused.
fn halted<'a>(
    why: ComparisonRefusal,
    values: usize,
    first: &Program,
    second: &Program,
    precondition: &Option<Program>,
) -> Halted<'a>
    requires too_long { (side : rust.Side) → why ≡ ComparisonRefusal.InputTooLong side
        → pairs.too_long precondition.now first.now second.now values ≡ Some side }
    ensures { spec.IsTooLong precondition.now first.now second.now values result.stop result.about }
{
    match why {
        ComparisonRefusal::InputTooLong(side) => Halted {
            stop: Stop::Refused(Refusal::InputTooLong),
            about: About::Values {
                values,
                cells: cells_of(first, second, precondition, side),
            },
        },
        ComparisonRefusal::OutOfMemory => Halted {
            stop: Stop::Refused(Refusal::OutOfMemory),
            about: About::Nothing,
        },
    }
}

// On every input of a scope.
fn on_scope<'a>(
    alloc: Global,
    first: &Program,
    second: &Program,
    precondition: &Option<Program>,
    compared: &Compared,
    few: FewInputs,
    bound: u32,
) -> Result<Comparison, Halted<'a>>
    ensures found { IfOk result (spec.IsFoundBy precondition.now first.now second.now compared.now bound few.scope.count
        (inputs_of few.scope)) }
    ensures refused { IfErr result (λ h. spec.IsTooLong precondition.now first.now second.now few.scope.count h.stop h.about) }
{
    match compare_scope(
        alloc,
        first,
        second,
        precondition,
        compared,
        few.scope,
        bound,
    ) {
        Ok(comparison) => Ok(comparison),
        Err(why) => Err(halted(why, few.scope.count as usize, first, second, precondition)),
    }
}

// On the inputs of files.
fn on_files<'a, S: Sources>(
    alloc: Global,
    first: &Program,
    second: &Program,
    precondition: &Option<Program>,
    compared: &Compared,
    files: &[InputFile<'a>],
    bound: u32,
    sources: &mut S,
) -> Result<Comparison, Halted<'a>>
    ensures found { IfOk result (λ r. (inputs : List (List ℤ)) × AllZip (spec.IsInputOfFile (S.Sources.holds sources.old)) files.now inputs
        × spec.IsFoundBy precondition.now first.now second.now compared.now bound (pairs.longest inputs) inputs r) }
    ensures refused { IfErr result (λ h. spec.StopsAtInputs (S.Sources.holds sources.old) files.now h
        ⊎ ((values : ℕ) × spec.AreMostIn (S.Sources.holds sources.old) files.now values
        × spec.IsTooLong precondition.now first.now second.now values h.stop h.about)) }
    ensures same { IsSame (S.Sources.holds sources.new) (S.Sources.holds sources.old) }
{
    let inputs = load_inputs(alloc, files, sources)?;
    match compare_inputs(alloc, first, second, precondition, compared, &inputs, bound) {
        Ok(comparison) => Ok(comparison),
        Err(why) => Err(halted(why, longest(&inputs), first, second, precondition)),
    }
}

// How many cells are drawn of each input.
fn cells_drawn(first: &Program, beside: &Program, drawn: DrawnWords) -> u32
    ensures { result ≡ spec.cells_drawn drawn first.now beside.now }
{
    match drawn.cells {
        Some(cells) => cells,
        None => front_cells(first.layout(), beside.layout()),
    }
}

// How many values each input of a kind has.
fn kind_cells(first: &Program, beside: &Program, words: KindWords) -> u32
    ensures { result ≡ spec.kind_cells words first.now beside.now }
{
    match words.cells {
        Some(cells) => cells,
        None => first_front_cells(first.layout(), beside.layout(), words.kind.declarations()),
    }
}

/// How many values each input has, where inputs are drawn.
pub(crate) fn drawn_of(first: &Program, beside: &Program, words: &InputWords<'_>) -> Option<u32>
    ensures { result ≡ spec.drawn_of words.now first.now beside.now }
{
    match words {
        InputWords::Scope(_) | InputWords::Files(_) => None,
        InputWords::Drawn(drawn) => Some(cells_drawn(first, beside, *drawn)),
        InputWords::OfKind(words) => Some(kind_cells(first, beside, *words)),
    }
}

// On inputs that are drawn, each of values for the cells with which the first program begins as another does.
fn on_drawn<'a>(
    alloc: Global,
    first: &Program,
    second: &Program,
    beside: &Program,
    precondition: &Option<Program>,
    compared: &Compared,
    drawn: DrawnWords,
    bound: u32,
) -> Result<Comparison, Halted<'a>>
    ensures found { IfOk result (spec.IsFoundBy precondition.now first.now second.now compared.now bound
        (spec.cells_drawn drawn first.now beside.now)
        (drawn_inputs drawn.drawing.low drawn.drawing.high drawn.drawing.seed (spec.cells_drawn drawn first.now beside.now) drawn.count)) }
    ensures refused { IfErr result (λ h.
        spec.IsTooLong precondition.now first.now second.now (spec.cells_drawn drawn first.now beside.now) h.stop h.about) }
{
    let cells = cells_drawn(first, beside, drawn);
    let (drawing, count) = (drawn.drawing, drawn.count);
    match compare_drawn(
        alloc,
        first,
        second,
        precondition,
        compared,
        drawing,
        cells,
        count,
        bound,
    ) {
        Ok(comparison) => Ok(comparison),
        Err(why) => Err(halted(why, cells as usize, first, second, precondition)),
    }
}

// The same on inputs of a kind.
fn on_kind<'a>(
    alloc: Global,
    first: &Program,
    second: &Program,
    beside: &Program,
    precondition: &Option<Program>,
    compared: &Compared,
    words: KindWords,
    bound: u32,
) -> Result<Comparison, Halted<'a>>
    ensures found { IfOk result (λ r. (is : List (List ℤ))
        × pairs.AreOfKind words.kind words.seed (spec.kind_cells words first.now beside.now) words.count is
        × spec.IsFoundBy precondition.now first.now second.now compared.now bound (spec.kind_cells words first.now beside.now) is r) }
    ensures refused { IfErr result (λ h.
        spec.IsTooLong precondition.now first.now second.now (spec.kind_cells words first.now beside.now) h.stop h.about) }
{
    let cells = kind_cells(first, beside, words);
    match compare_kind(
        alloc,
        first,
        second,
        precondition,
        compared,
        words.kind,
        words.seed,
        cells,
        words.count,
        bound,
    ) {
        Ok(comparison) => Ok(comparison),
        Err(why) => Err(halted(why, cells as usize, first, second, precondition)),
    }
}

/// What is found of two programs on the inputs that the words give.
pub(crate) fn compare_on<'a, S: Sources>(
    alloc: Global,
    first: &Program,
    second: &Program,
    beside: &Program,
    precondition: &Option<Program>,
    compared: &Compared,
    words: &PairWords<'a>,
    sources: &mut S,
) -> Result<Comparison, Halted<'a>>
    ensures found { IfOk result (spec.IsFoundOn (S.Sources.holds sources.old) precondition.now first.now second.now beside.now
        compared.now words.now.inputs words.now.bound) }
    ensures refused { IfErr result
        (spec.IsRefusedPair (S.Sources.holds sources.old) words.now.inputs precondition.now first.now second.now beside.now) }
    ensures same { IsSame (S.Sources.holds sources.new) (S.Sources.holds sources.old) }
{
    let (pre, bound) = (precondition, words.bound);
    match &words.inputs {
        InputWords::Scope(few) => { on_scope(alloc, first, second, pre, compared, *few, bound) }
        InputWords::Files(files) => {
            on_files(alloc, first, second, pre, compared, files, bound, sources)
        }
        InputWords::Drawn(drawn) => {
            on_drawn(alloc, first, second, beside, pre, compared, *drawn, bound)
        }
        InputWords::OfKind(kind) => {
            on_kind(alloc, first, second, beside, pre, compared, *kind, bound)
        }
    }
}
