//! What calls find in their files.

ghost use Rattle.std.specs.Prelude.{IfOk, IfErr};
ghost use Rattle.command_runs.specs.Scopes.{StopsAtExploration};
ghost use Rattle.pramc.specs.Calls.{Finds, IsExploration, IsFoundFirst, Refuses};

use command_facts::{Found, Settled, load_listing, load_program, load_text};
use command_pairs::{find_grade, find_pair};
use command_requests::{
    AlwaysWords, CostWords, GradeWords, MeaningWords, Opening, PairWords, ProgramFile, Request,
    RunWords, ScopeWords, SpecificationFiles, StepWords, SweepWords, TraceWords,
};
use command_runs::{
    find_code, find_code_run, find_cost, find_meaning, find_overall, find_plain_c, find_rules,
    find_run, find_scope, find_steps, find_trace,
};
use command_sweeps::find_sweep;
use diagnoses::Halted;
use memory_texts::Choice;
use observing::Watch;
use std::alloc::Global;
use std::sync::Wait;
use std::thread::Threads;
use system_files::Sources;
use workers::Gate;

fn accepted<'a, S: Sources>(
    alloc: Global,
    file: &ProgramFile<'a>,
    sources: &mut S,
) -> Result<Found<'a>, Halted<'a>>
    ensures found { IfOk result (Finds (S.Sources.holds sources.old) (Request.Check file.now)) }
    ensures refused { IfErr result (Refuses (S.Sources.holds sources.old) (Request.Check file.now)) }
{
    let loaded = load_program(alloc, sources, file)?;
    Ok(Found::Settled(Settled::Accepted(loaded)))
}

fn expanded<'a, S: Sources>(
    alloc: Global,
    file: &ProgramFile<'a>,
    sources: &mut S,
) -> Result<Found<'a>, Halted<'a>>
    ensures found { IfOk result (Finds (S.Sources.holds sources.old) (Request.Expand file.now)) }
    ensures refused { IfErr result (Refuses (S.Sources.holds sources.old) (Request.Expand file.now)) }
{
    let text = load_text(alloc, sources, file)?;
    Ok(Found::Settled(Settled::Expanded(text)))
}

fn planned<'a, S: Sources>(
    alloc: Global,
    file: &ProgramFile<'a>,
    sources: &mut S,
) -> Result<Found<'a>, Halted<'a>>
    ensures found { IfOk result (Finds (S.Sources.holds sources.old) (Request.Plan file.now)) }
    ensures refused { IfErr result (Refuses (S.Sources.holds sources.old) (Request.Plan file.now)) }
{
    let code = find_code(alloc, file, sources)?;
    Ok(Found::Settled(Settled::Planned(code)))
}

fn exported<'a, S: Sources>(
    alloc: Global,
    file: &ProgramFile<'a>,
    sources: &mut S,
) -> Result<Found<'a>, Halted<'a>>
    ensures found { IfOk result (Finds (S.Sources.holds sources.old) (Request.Export file.now)) }
    ensures refused { IfErr result (Refuses (S.Sources.holds sources.old) (Request.Export file.now)) }
{
    let code = find_code(alloc, file, sources)?;
    Ok(Found::Settled(Settled::Exported(code)))
}

fn exported_alone<'a, S: Sources>(
    alloc: Global,
    file: &ProgramFile<'a>,
    sources: &mut S,
) -> Result<Found<'a>, Halted<'a>>
    ensures found { IfOk result (Finds (S.Sources.holds sources.old) (Request.PlainC file.now)) }
    ensures refused { IfErr result (Refuses (S.Sources.holds sources.old) (Request.PlainC file.now)) }
{
    let plan = find_plain_c(alloc, file, sources)?;
    Ok(Found::Settled(Settled::ExportedAlone(plan)))
}

fn meant<'a, S: Sources, V: Watch>(
    alloc: Global,
    file: &ProgramFile<'a>,
    words: MeaningWords<'a>,
    shown: Choice<'a>,
    sources: &mut S,
    watch: &mut V,
) -> Result<Found<'a>, Halted<'a>>
    ensures found { IfOk result (Finds (S.Sources.holds sources.old) (Request.Meaning file.now words.entry shown.entry)) }
    ensures refused { IfErr result (Refuses (S.Sources.holds sources.old) (Request.Meaning file.now words.entry shown.entry)) }
{
    let run = find_meaning(alloc, file, words, shown, sources, watch)?;
    Ok(Found::Settled(Settled::Run(run, shown)))
}

fn costed<'a, S: Sources, V: Watch>(
    alloc: Global,
    file: &ProgramFile<'a>,
    words: MeaningWords<'a>,
    costs: CostWords,
    sources: &mut S,
    watch: &mut V,
) -> Result<Found<'a>, Halted<'a>>
    ensures found { IfOk result (Finds (S.Sources.holds sources.old) (Request.Cost file.now words.entry costs)) }
    ensures refused { IfErr result (Refuses (S.Sources.holds sources.old) (Request.Cost file.now words.entry costs)) }
{
    let (run, cost) = find_cost(alloc, file, words, costs, sources, watch)?;
    Ok(Found::Settled(Settled::Costed(run, costs, cost)))
}

fn stepped<'a, S: Sources>(
    alloc: Global,
    file: &ProgramFile<'a>,
    words: MeaningWords<'a>,
    steps: StepWords<'a>,
    sources: &mut S,
) -> Result<Found<'a>, Halted<'a>>
    ensures found { IfOk result (Finds (S.Sources.holds sources.old) (Request.Steps file.now words.entry steps.entry)) }
    ensures refused { IfErr result (Refuses (S.Sources.holds sources.old) (Request.Steps file.now words.entry steps.entry)) }
{
    let found = find_steps(alloc, file, words, steps, sources)?;
    Ok(Found::Stepped(found))
}

fn compared<'a, S: Sources, V: Watch>(
    alloc: Global,
    file: &ProgramFile<'a>,
    opening: Opening<'a>,
    bound: u32,
    sources: &mut S,
    watch: &mut V,
) -> Result<Found<'a>, Halted<'a>>
    ensures found { IfOk result (Finds (S.Sources.holds sources.old) (Request.Rules file.now opening.entry bound)) }
    ensures refused { IfErr result (Refuses (S.Sources.holds sources.old) (Request.Rules file.now opening.entry bound)) }
{
    let rules = find_rules(alloc, file, opening, bound, sources, watch)?;
    Ok(Found::Settled(Settled::Compared(rules)))
}

fn ran<'a, R: Threads + Wait + Sync, S: Sources, V: Watch + Gate + Sync>(
    rt: &R,
    alloc: Global,
    file: &ProgramFile<'a>,
    words: RunWords<'a>,
    shown: Choice<'a>,
    sources: &mut S,
    watch: &mut V,
) -> Result<Found<'a>, Halted<'a>>
    ensures found { IfOk result (Finds (S.Sources.holds sources.old) (Request.Run file.now words.entry shown.entry)) }
    ensures refused { IfErr result (Refuses (S.Sources.holds sources.old) (Request.Run file.now words.entry shown.entry)) }
{
    let run = find_run(rt, alloc, file, words, shown, sources, watch)?;
    Ok(Found::Settled(Settled::Run(run, shown)))
}

fn traced<'a, R: Threads + Wait + Sync, S: Sources, V: Watch + Gate + Sync>(
    rt: &R,
    alloc: Global,
    file: &ProgramFile<'a>,
    words: RunWords<'a>,
    trace: TraceWords,
    sources: &mut S,
    watch: &mut V,
) -> Result<Found<'a>, Halted<'a>>
    ensures found { IfOk result (Finds (S.Sources.holds sources.old) (Request.Trace file.now words.entry trace)) }
    ensures refused { IfErr result (Refuses (S.Sources.holds sources.old) (Request.Trace file.now words.entry trace)) }
{
    let (run, exchanges) = find_trace(rt, alloc, file, words, trace, sources, watch)?;
    Ok(Found::Settled(Settled::Traced(run, trace, exchanges)))
}

fn swept<'a, S: Sources>(
    alloc: Global,
    file: &ProgramFile<'a>,
    words: SweepWords<'a>,
    sources: &mut S,
) -> Result<Found<'a>, Halted<'a>>
    ensures found { IfOk result (Finds (S.Sources.holds sources.old) (Request.Sweep file.now words.entry)) }
    ensures refused { IfErr result (Refuses (S.Sources.holds sources.old) (Request.Sweep file.now words.entry)) }
{
    let rows = find_sweep(alloc, file, words, sources)?;
    Ok(Found::Settled(Settled::Swept(rows)))
}

fn explored<'a, R: Threads + Sync, S: Sources, V: Watch>(
    rt: &R,
    alloc: Global,
    file: &ProgramFile<'a>,
    files: &SpecificationFiles<'a>,
    scope: ScopeWords,
    bound: u32,
    sources: &mut S,
    watch: &mut V,
) -> Result<Found<'a>, Halted<'a>>
    ensures found { IfOk result (IsExploration (S.Sources.holds sources.old) file.now files.now scope bound) }
    ensures refused { IfErr result (StopsAtExploration (S.Sources.holds sources.old) file.now files.now scope) }
{
    let found = find_scope(rt, alloc, file, files, scope, bound, sources, watch)?;
    Ok(Found::Settled(Settled::Explored(found)))
}

fn surveyed<'a, S: Sources>(
    alloc: Global,
    file: &ProgramFile<'a>,
    words: AlwaysWords,
    bound: u32,
    sources: &mut S,
) -> Result<Found<'a>, Halted<'a>>
    ensures found { IfOk result (Finds (S.Sources.holds sources.old) (Request.Always file.now words bound)) }
    ensures refused { IfErr result (Refuses (S.Sources.holds sources.old) (Request.Always file.now words bound)) }
{
    let found = find_overall(alloc, file, words, bound, sources)?;
    Ok(Found::Settled(Settled::Surveyed(found)))
}

fn paired<'a, S: Sources>(
    alloc: Global,
    words: &PairWords<'a>,
    sources: &mut S,
) -> Result<Found<'a>, Halted<'a>>
    ensures found { IfOk result (Finds (S.Sources.holds sources.old) (Request.Pair words.now)) }
    ensures refused { IfErr result (Refuses (S.Sources.holds sources.old) (Request.Pair words.now)) }
{
    let pair = find_pair(alloc, words, sources)?;
    Ok(Found::Settled(Settled::Paired(pair)))
}

fn graded<'a, S: Sources>(
    alloc: Global,
    words: &GradeWords<'a>,
    sources: &mut S,
) -> Result<Found<'a>, Halted<'a>>
    ensures found { IfOk result (Finds (S.Sources.holds sources.old) (Request.Grade words.now)) }
    ensures refused { IfErr result (Refuses (S.Sources.holds sources.old) (Request.Grade words.now)) }
{
    let grade = find_grade(alloc, words, sources)?;
    Ok(Found::Settled(Settled::Graded(grade)))
}

fn executed<'a, R: Threads + Wait + Sync, S: Sources, V: Watch + Gate + Sync>(
    rt: &R,
    alloc: Global,
    file: &'a str,
    words: RunWords<'a>,
    shown: Choice<'a>,
    sources: &mut S,
    watch: &mut V,
) -> Result<Found<'a>, Halted<'a>>
    ensures found { IfOk result (Finds (S.Sources.holds sources.old) (Request.Listing file.entry words.entry shown.entry)) }
    ensures refused { IfErr result (Refuses (S.Sources.holds sources.old) (Request.Listing file.entry words.entry shown.entry)) }
{
    let run = find_code_run(rt, alloc, file, words, shown, sources, watch)?;
    Ok(Found::Settled(Settled::Executed(run)))
}

fn verified<'a, S: Sources>(
    alloc: Global,
    file: &'a str,
    sources: &mut S,
) -> Result<Found<'a>, Halted<'a>>
    ensures found { IfOk result (Finds (S.Sources.holds sources.old) (Request.ListingInC file.entry)) }
    ensures refused { IfErr result (Refuses (S.Sources.holds sources.old) (Request.ListingInC file.entry)) }
{
    let code = load_listing(alloc, sources, file)?;
    Ok(Found::Settled(Settled::Exported(code)))
}

/// What a call finds, before anything is written of it.
///
/// A refusal is judged in this order: of a program the words that give sizes (P1), its file and its text as it stands (P2, E2, E1), its
/// sizes (E19, P1 for one that the text doesn't declare, E2), and what it comes to by them (E3 to E10); of a listing P2, E2, E15, E14; a
/// name that is to be shown or told and isn't declared (P1); the input's file and its text (P2, E1 to E3), or a memory's, of which also a
/// name that isn't declared (E6) and too many values (E11) are told; the number of workers (E13), the map (E12), and the number of the
/// input's values (E11); and with a reserve whether the run comes past it (E18). E16 comes where memory was refused. A run that is told
/// statement by statement is judged so and not yet run: who tells it runs it.
pub(crate) fn find<'a, R: Threads + Wait + Sync, S: Sources, V: Watch + Gate + Sync>(
    rt: &R,
    alloc: Global,
    request: Request<'a>,
    sources: &mut S,
    watch: &mut V,
) -> Result<Found<'a>, Halted<'a>>
    requires first { IsFoundFirst request }
    // What is found is of just what the named files hold, by the request's words: its sizes, input, rule, bound,
    // workers, map, reserve, scope or second program.
    ensures found { IfOk result (Finds (S.Sources.holds sources.old) request.entry) }
    // Nothing is found only where a word gives no size, a file can't be read, expanded or accepted, for just that, or
    // this run is refused.
    ensures refused { IfErr result (Refuses (S.Sources.holds sources.old) request.entry) }
{
    match request {
        Request::Version => Ok(Found::Settled(Settled::Version)),
        Request::Explanation(subject) => Ok(Found::Settled(Settled::Explanation(subject))),
        Request::Check(file) => accepted(alloc, &file, sources),
        Request::Expand(file) => expanded(alloc, &file, sources),
        Request::Arrange(_) => Ok(Found::Settled(Settled::Version)),
        Request::Plan(file) => planned(alloc, &file, sources),
        Request::Export(file) => exported(alloc, &file, sources),
        Request::PlainC(file) => exported_alone(alloc, &file, sources),
        Request::Meaning { file, words, shown } => {
            meant(alloc, &file, words, shown, sources, watch)
        }
        Request::Cost { file, words, costs } => costed(alloc, &file, words, costs, sources, watch),
        Request::Steps { file, words, steps } => { stepped(alloc, &file, words, steps, sources) }
        Request::Rules {
            file,
            opening,
            bound,
        } => compared(alloc, &file, opening, bound, sources, watch),
        Request::Run { file, words, shown } => {
            ran(rt, alloc, &file, words, shown, sources, watch)
        }
        Request::Trace { file, words, trace } => {
            traced(rt, alloc, &file, words, trace, sources, watch)
        }
        Request::Sweep { file, words } => swept(alloc, &file, words, sources),
        Request::Exploration {
            file,
            specification,
            scope,
            bound,
            witness: _,
        } => explored(
            rt,
            alloc,
            &file,
            &specification,
            scope,
            bound,
            sources,
            watch,
        ),
        Request::Always { file, words, bound } => surveyed(alloc, &file, words, bound, sources),
        Request::Pair(words) => paired(alloc, &words, sources),
        Request::Grade(words) => graded(alloc, &words, sources),
        Request::Listing { file, words, shown } => {
            executed(rt, alloc, file, words, shown, sources, watch)
        }
        Request::ListingInC { file } => verified(alloc, file, sources),
    }
}
