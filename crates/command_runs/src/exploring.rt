//! Runs of a program on the inputs of a scope, or on some that are drawn.

ghost use Rattle.std.specs.Prelude.{◌≡◌, ◌<◌, ◌≤◌, IfOk, IfErr, ℕ};
ghost use Rattle.scopes.specs.Found.{found, found_is};
ghost use Rattle.scopes.specs.Scopes.{inputs_of};
ghost use Rattle.scopes.specs.Specified as specified;
ghost use Rattle.command_requests.specs.declared.scope_words.ExploredInputs.TheVariants as inputs;
ghost use Rattle.command_runs.specs.Scopes as spec;

use crate::specifying::load_specification;
use command_facts::{FoundScope, load_program};
use command_requests::{
    DrawnWords, ExploredInputs, FewInputs, KindWords, ProgramFile, ScopeWords, SpecificationFiles,
};
use comparing::{explore_drawn, explore_kind, first_cells};
use diagnoses::{About, Halted};
use observing::Watch;
use pram_check::Program;
use pram_meaning::MeaningRefusal;
use pram_trees::Rule;
use program_texts::{Refusal, Stop};
use scopes::{Findings, Scope, Specification, explore_by, most_values};
use std::alloc::Global;
use std::thread::Threads;
use system_files::Sources;

// The most workers that share the inputs.
const MOST_WORKERS: u32 = 32;

// The program under the rule that is asked for, or its own.
pub(crate) fn under(program: Program, rule: Option<Rule>) -> Program
    ensures { result ≡ spec.under_rule rule program }
{
    match rule {
        None => program,
        Some(rule) => program.under(rule),
    }
}

// No run begins: the inputs have more values than there are cells, or memory was refused.
fn halted<'a>(why: MeaningRefusal, values: u32, cells: u32) -> Halted<'a>
    requires too_long { why ≡ MeaningRefusal.InputTooLong → cells < values }
    ensures { (workers : ℕ) → spec.IsRefusedFor workers values cells result.stop result.about }
{
    match why {
        MeaningRefusal::InputTooLong => Halted {
            stop: Stop::Refused(Refusal::InputTooLong),
            about: About::Values {
                values: values as usize,
                cells,
            },
        },
        MeaningRefusal::OutOfMemory => Halted {
            stop: Stop::Refused(Refusal::OutOfMemory),
            about: About::Nothing,
        },
    }
}

// There have to be 1 to 32 workers.
fn check_workers<'a>(workers: u32) -> Result<(), Halted<'a>>
    ensures some { IfOk result (λ u. 0 < workers) }
    ensures few { IfOk result (λ u. workers ≤ 32) }
    ensures refused { IfErr result (λ h. (values cells : ℕ) → spec.IsRefusedFor workers values cells h.stop h.about) }
{
    if 0 < workers && workers <= MOST_WORKERS {
        Ok(())
    } else {
        Err(Halted {
            stop: Stop::Refused(Refusal::BadWorkers),
            about: About::Nothing,
        })
    }
}

// What is told of what was found on the inputs of a scope: with smaller inputs, where that is asked for.
fn told(
    alloc: Global,
    program: &Program,
    specification: &Specification,
    scope: Scope,
    shrink: bool,
    bound: u32,
    findings: Findings,
) -> Result<Findings, MeaningRefusal>
    requires found { found_is findings ≡ found specification.now program.now bound (inputs_of scope) }
    ensures told { IfOk result (λ f. spec.IsToldOfAll shrink scope specification.now program.now bound (found_is f)) }
    ensures too_long { result ≡ Err MeaningRefusal.InputTooLong
        → specified.most_values specification.now.precondition program.now < scope.count }
{
    let mut findings = findings;
    if !shrink {
        return Ok(findings);
    }
    findings.shrink(alloc, program, specification, scope, bound)?;
    Ok(findings)
}

// The runs of a program on the inputs of a scope, and what is told of them.
fn explore_scope<R: Threads + Sync, V: Watch>(
    rt: &R,
    alloc: Global,
    program: &Program,
    specification: &Specification,
    few: FewInputs,
    shrink: bool,
    workers: u32,
    bound: u32,
    watch: &mut V,
) -> Result<Findings, MeaningRefusal>
    requires some { 0 < workers }
    requires few { workers ≤ 32 }
    ensures fit { IfOk result (λ f. few.scope.count ≤ specified.most_values specification.now.precondition program.now) }
    ensures told { IfOk result (λ f. spec.IsTold (inputs.Scope few shrink) specification.now program.now bound (found_is f)) }
    ensures too_long { result ≡ Err MeaningRefusal.InputTooLong
        → specified.most_values specification.now.precondition program.now < few.scope.count }
{
    let found = explore_by(
        rt,
        alloc,
        program,
        specification,
        few.scope,
        bound,
        workers,
        watch,
    )?;
    told(
        alloc,
        program,
        specification,
        few.scope,
        shrink,
        bound,
        found,
    )
}

// How many cells are drawn of each input.
fn cells_drawn(program: &Program, drawn: DrawnWords) -> u32
    ensures { result ≡ spec.cells_drawn drawn program.now }
{
    match drawn.cells {
        Some(cells) => cells,
        None => program.layout().cells(),
    }
}

// How many values each input of a kind has.
fn kind_cells(program: &Program, words: KindWords) -> u32
    ensures { result ≡ spec.kind_cells words program.now }
{
    match words.cells {
        Some(cells) => cells,
        None => first_cells(program.layout(), words.kind.declarations()),
    }
}

// How many values each input has, where inputs are drawn.
fn drawn_of(program: &Program, inputs: ExploredInputs) -> Option<u32>
    ensures { result ≡ spec.drawn_of inputs program.now }
{
    match inputs {
        ExploredInputs::Scope { .. } => None,
        ExploredInputs::Drawn(drawn) => Some(cells_drawn(program, drawn)),
        ExploredInputs::OfKind(words) => Some(kind_cells(program, words)),
    }
}

// How many values each input has.
fn values_each(program: &Program, inputs: ExploredInputs) -> u32
    ensures { result ≡ spec.values_each inputs program.now }
{
    match inputs {
        ExploredInputs::Scope { few, .. } => few.scope.count,
        ExploredInputs::Drawn(drawn) => cells_drawn(program, drawn),
        ExploredInputs::OfKind(words) => kind_cells(program, words),
    }
}

// The runs on inputs that are drawn.
fn explore_numbers<V: Watch>(
    alloc: Global,
    program: &Program,
    specification: &Specification,
    words: DrawnWords,
    bound: u32,
    watch: &mut V,
) -> Result<Findings, MeaningRefusal>
    ensures fit { IfOk result (λ f. spec.cells_drawn words program.now ≤ specified.most_values specification.now.precondition program.now) }
    ensures told { IfOk result (λ f. spec.IsTold (inputs.Drawn words) specification.now program.now bound (found_is f)) }
    ensures too_long { result ≡ Err MeaningRefusal.InputTooLong
        → specified.most_values specification.now.precondition program.now < spec.cells_drawn words program.now }
{
    let cells = cells_drawn(program, words);
    explore_drawn(
        alloc,
        program,
        specification,
        words.drawing,
        cells,
        words.count,
        bound,
        watch,
    )
}

// The runs on inputs of a kind that are drawn.
fn explore_of_kind<V: Watch>(
    alloc: Global,
    program: &Program,
    specification: &Specification,
    words: KindWords,
    bound: u32,
    watch: &mut V,
) -> Result<Findings, MeaningRefusal>
    ensures fit { IfOk result (λ f. spec.kind_cells words program.now ≤ specified.most_values specification.now.precondition program.now) }
    ensures told { IfOk result (λ f. spec.IsTold (inputs.OfKind words) specification.now program.now bound (found_is f)) }
    ensures too_long { result ≡ Err MeaningRefusal.InputTooLong
        → specified.most_values specification.now.precondition program.now < spec.kind_cells words program.now }
{
    let cells = kind_cells(program, words);
    explore_kind(
        alloc,
        program,
        specification,
        words.kind,
        words.seed,
        cells,
        words.count,
        bound,
        watch,
    )
}

// The runs on the inputs that are asked for.
fn explore_on<R: Threads + Sync, V: Watch>(
    rt: &R,
    alloc: Global,
    program: &Program,
    specification: &Specification,
    words: ScopeWords,
    bound: u32,
    watch: &mut V,
) -> Result<Findings, MeaningRefusal>
    requires some { 0 < words.workers }
    requires few { words.workers ≤ 32 }
    ensures fit { IfOk result
        (λ f. spec.values_each words.inputs program.now ≤ specified.most_values specification.now.precondition program.now) }
    ensures told { IfOk result (λ f. spec.IsTold words.inputs specification.now program.now bound (found_is f)) }
    ensures too_long { result ≡ Err MeaningRefusal.InputTooLong
        → specified.most_values specification.now.precondition program.now < spec.values_each words.inputs program.now }
{
    match words.inputs {
        ExploredInputs::Scope { few, shrink } => explore_scope(
            rt,
            alloc,
            program,
            specification,
            few,
            shrink,
            words.workers,
            bound,
            watch,
        ),
        ExploredInputs::Drawn(drawn) => {
            explore_numbers(alloc, program, specification, drawn, bound, watch)
        }
        ExploredInputs::OfKind(kind) => {
            explore_of_kind(alloc, program, specification, kind, bound, watch)
        }
    }
}

// The runs of a program on the inputs that are asked for, or why none begins.
fn explore_all<'a, R: Threads + Sync, V: Watch>(
    rt: &R,
    alloc: Global,
    program: &Program,
    specification: &Specification,
    words: ScopeWords,
    bound: u32,
    watch: &mut V,
) -> Result<Findings, Halted<'a>>
    ensures some { IfOk result (λ f. 1 ≤ words.workers) }
    ensures few { IfOk result (λ f. words.workers ≤ 32) }
    ensures fit { IfOk result
        (λ f. spec.values_each words.inputs program.now ≤ specified.most_values specification.now.precondition program.now) }
    ensures told { IfOk result (λ f. spec.IsTold words.inputs specification.now program.now bound (found_is f)) }
    ensures refused { IfErr result (λ h. spec.IsRefusedFor words.workers (spec.values_each words.inputs program.now)
        (specified.most_values specification.now.precondition program.now) h.stop h.about) }
{
    if let Err(halted) = check_workers(words.workers) {
        return Err(halted);
    }
    match explore_on(rt, alloc, program, specification, words, bound, watch) {
        Ok(findings) => Ok(findings),
        Err(why) => {
            let cells = most_values(&specification.precondition, program);
            Err(halted(why, values_each(program, words.inputs), cells))
        }
    }
}

/// The runs of the file's program on the inputs that count, of a scope or drawn, each for at most `bound` statements, by the workers that
/// are asked for. Inputs of a scope are told smaller where that is asked for. Which count and which results are right the programs of the
/// other files say, within the same bound and under their own rules.
///
/// It is refused as [`load_program`] refuses the files, for a postcondition that declares something with other bounds than the program
/// (P1), for other than 1 to 32 workers (E13), for inputs with too many values (E11), and for want of memory (E16).
pub fn find_scope<'a, R: Threads + Sync, S: Sources, V: Watch>(
    rt: &R,
    alloc: Global,
    file: &ProgramFile<'a>,
    files: &SpecificationFiles<'a>,
    scope: ScopeWords,
    bound: u32,
    sources: &mut S,
    watch: &mut V,
) -> Result<FoundScope, Halted<'a>>
    // What is found on the scope's or drawn inputs within the bound is told, of the file's program under the rule
    // wanted, by the other files, smaller where wanted.
    ensures found { IfOk result (spec.IsExplored (S.Sources.holds sources.old) file.now files.now scope bound) }
    // Nothing is found only for a file, a postcondition's bounds, the number of workers, inputs with too many values, or
    // want of memory.
    ensures refused { IfErr result (spec.StopsAtExploration (S.Sources.holds sources.old) file.now files.now scope) }
{
    let loaded = load_program(alloc, sources, file)?;
    let specification = match load_specification(
        alloc,
        file.name,
        &loaded.program,
        files,
        sources,
    ) {
        Ok(specification) => specification,
        Err(halted) => return Err(halted),
    };
    let program = under(loaded.program, scope.rule);
    match explore_all(rt, alloc, &program, &specification, scope, bound, watch) {
        Ok(findings) => Ok(FoundScope {
            drawn: drawn_of(&program, scope.inputs),
            program,
            specification,
            findings,
        }),
        Err(halted) => Err(halted),
    }
}
