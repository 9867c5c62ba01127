//! One run of a program for all inputs of a scope.

ghost use Rattle.std.specs.Prelude.{◌≡◌, ◌≤◌, ◌<◌, ℤ, List, length, IfOk, IfErr, IsOk, IfSome, IfNone};
ghost use Rattle.pram_model.specs.Layout.{total_size};
ghost use Rattle.write_rules.specs.Verdict.{Verdict, Ended};
ghost use Rattle.pram_meaning.specs.Outcome.{IsOutcome};
ghost use Rattle.costs.specs.Cost.{time};
ghost use Rattle.costs.specs.Steps.{run_steps};
ghost use Rattle.all_inputs.specs.Overall.{HasOneInput, IsInScope, IsJust, IsToldOf, MayEndBehind};
ghost use Rattle.command_runs.specs.Overalls as spec;

use crate::exploring::under;
use abstract_runs::{Halt, overall_of, run_for_all};
use all_inputs::{Overall, Scope, Told, Undecided};
use command_facts::{FoundOverall, load_program};
use command_requests::{AlwaysWords, ProgramFile};
use costs::time_and_work;
use diagnoses::{About, Halted};
use pram_check::Program;
use program_texts::{Refusal, Stop};
use std::alloc::{AllocError, Global};
use system_files::Sources;

// The inputs have more values than there are cells.
fn too_long<'a>(values: u32, cells: u32) -> Halted<'a>
    requires { cells < values }
    ensures { spec.IsUnfitFor values cells result.stop result.about }
{
    Halted {
        stop: Stop::Refused(Refusal::InputTooLong),
        about: About::Values {
            values: values as usize,
            cells,
        },
    }
}

// Memory was refused.
fn unremembered<'a>() -> Halted<'a>
    ensures stop { result.stop ≡ Stop.Refused Refusal.OutOfMemory }
    ensures about { result.about ≡ About.Nothing }
{
    Halted {
        stop: Stop::Refused(Refusal::OutOfMemory),
        about: About::Nothing,
    }
}

// The inputs that are asked for, which have no more values than there are cells.
fn scope_of<'a>(program: &Program, words: AlwaysWords) -> Result<Scope, Halted<'a>>
    ensures asked { IfOk result (λ scope. spec.IsAsked words program.now scope) }
    ensures refused { IfErr result (λ h. spec.IsUnfitFor (spec.values_of words program.now) (total_size program.now.layout) h.stop h.about) }
{
    let cells = program.layout().cells();
    let values = words.cells.unwrap_or(cells);
    if cells < values {
        return Err(too_long(values, cells));
    }
    Ok(Scope {
        values,
        of: words.of,
    })
}

// The one input of a scope that has no other.
fn one_input(alloc: Global, scope: Scope) -> Result<Option<Vec<i64>>, AllocError>
    ensures single { IfOk result (λ found. IfSome found (λ input. (other : List ℤ) → IsInScope scope other → other ≡ input.items)) }
    ensures values { IfOk result (λ found. IfSome found (λ input. length input.items ≡ scope.values)) }
    ensures several { IfOk result (λ found. IfNone found (HasOneInput scope → ⊥)) }
{
    if scope.values > 0 && scope.of.least() < scope.of.greatest() {
        return Ok(None);
    }
    let input = vec![in alloc; scope.of.least(); scope.values as usize]?;
    Ok(Some(input))
}

// What the run on one input tells: its outcome.
fn told_of_one(
    alloc: Global,
    program: &Program,
    input: &[i64],
    bound: u32,
    why: Option<&Told>,
) -> Result<Overall, AllocError>
    requires { length input.now ≤ total_size program.now.layout }
    ensures just { IfOk result (λ overall. (verdict : Verdict) → IsOutcome program.now input.now bound verdict →
        IsJust overall verdict × IsToldOf program.now.layout overall verdict) }
    ensures time { IfOk result (λ overall. (output memory : List ℤ) → IsOutcome program.now input.now bound (Ended output memory) →
        MayEndBehind overall (time (run_steps program.now input.now bound))) }
{
    match time_and_work(alloc, program, input, bound) {
        Ok((outcome, taken)) => overall_of(alloc, program, outcome, taken.time, why),
        Err(_) => Err(AllocError),
    }
}

// What was told with reasons.
fn why_of(found: &Result<Overall, Undecided>) -> Option<&Told> {
    match found {
        Ok(overall) => Some(&overall.told),
        Err(_) => None,
    }
}

// What one run for all of them tells.
fn told_of_all(
    alloc: Global,
    program: &Program,
    scope: Scope,
    bound: u32,
) -> Result<Result<Overall, Undecided>, AllocError>
    ensures { IfOk result (λ told. IfOk told (spec.TellsAll program.now scope bound)) }
{
    match run_for_all(alloc, program, scope, bound) {
        Ok(overall) => Ok(Ok(overall)),
        Err(Halt::Undecided(why)) => Ok(Err(why)),
        Err(Halt::OutOfMemory) => Err(AllocError),
    }
}

// What is told of the runs on all inputs of a scope: of one input alone its outcome.
fn told(
    alloc: Global,
    program: &Program,
    scope: Scope,
    bound: u32,
) -> Result<Result<Overall, Undecided>, AllocError>
    requires { scope.values ≤ total_size program.now.layout }
    ensures told { IfOk result (λ told. IfOk told (spec.Tells program.now scope bound)) }
    ensures decided { IfOk result (λ told. HasOneInput scope → IsOk told) }
{
    let found = told_of_all(alloc, program, scope, bound)?;
    let Some(input) = one_input(alloc, scope)? else {
        return Ok(found);
    };
    let overall = told_of_one(alloc, program, &input, bound, why_of(&found))?;
    Ok(Ok(overall))
}

// What one run of a program tells of its runs on all inputs that are asked for.
fn survey<'a>(
    alloc: Global,
    program: Program,
    words: AlwaysWords,
    bound: u32,
) -> Result<FoundOverall, Halted<'a>>
    ensures program { IfOk result (λ f. f.program ≡ program) }
    ensures asked { IfOk result (λ f. spec.IsAsked words program f.scope) }
    ensures told { IfOk result (λ f. IfOk f.told (spec.Tells program f.scope bound)) }
    ensures decided { IfOk result (λ f. HasOneInput f.scope → IsOk f.told) }
    ensures refused { IfErr result (λ h. spec.IsUnfitFor (spec.values_of words program) (total_size program.layout) h.stop h.about) }
{
    let scope = scope_of(&program, words)?;
    let Ok(told) = told(alloc, &program, scope, bound) else {
        return Err(unremembered());
    };
    Ok(FoundOverall {
        program,
        scope,
        told,
    })
}

/// What one run of the file's program tells of its runs on all inputs that are asked for, each for at most `bound` statements.
///
/// It is refused as [`load_program`] refuses the file, for inputs with too many values (E11), and for want of memory (E16).
pub fn find_overall<'a, S: Sources>(
    alloc: Global,
    file: &ProgramFile<'a>,
    words: AlwaysWords,
    bound: u32,
    sources: &mut S,
) -> Result<FoundOverall, Halted<'a>>
    // What is told holds of the outcome of the file's program on each of these inputs, under the rule that is asked for.
    ensures found { IfOk result (spec.IsSurveyed (S.Sources.holds sources.old) file.now words bound) }
    // Nothing is found only for the program's file, inputs with too many values, or want of memory.
    ensures refused { IfErr result (spec.StopsAtSurvey (S.Sources.holds sources.old) file.now words) }
{
    let loaded = load_program(alloc, sources, file)?;
    let program = under(loaded.program, words.rule);
    match survey(alloc, program, words, bound) {
        Ok(found) => Ok(found),
        Err(why) => Err(why),
    }
}
