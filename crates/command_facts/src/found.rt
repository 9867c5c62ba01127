//! What calls find.

ghost use Rattle.std.specs.Prelude.{◌≤◌, length};
ghost use Rattle.pram_model.specs.Layout.{total_size};

use crate::loaded::Loaded;
use all_inputs::{Overall, Scope, Undecided};
use bsp_verify::Verified;
use command_requests::{CostWords, StepWords, SweepForm, TraceWords};
use comparing::{Comparison, UnderRules};
use costs::Cost;
use diagnoses::{Halted, Source};
use exchange_counts::Counts;
use help::Subject;
use memory_texts::Choice;
use mpi_export::AlonePlan;
use pram_check::Program;
use pram_model::Rule;
use scopes::{Findings, Specification};
use sized_texts::Sweep;
use sweeps::{Growths, SizeRow};
use write_rules::Outcome;

/// Where a run ends at the latest.
#[derive(Clone, Copy, Debug)]
pub struct Limit {
    /// Behind so many statements.
    pub bound: u32,
    /// The seconds that the run had, where they ended it there.
    pub seconds: Option<u32>,
}

/// The exchanges of a run.
#[derive(Drop)]
pub struct FoundTrace {
    pub counts: Counts,
    /// The line of the statement that each serves, where that is asked for.
    pub lines: Vec<u32>,
    /// How the run ends: `ended`, `goes on`, or its fault.
    pub ends: Vec<u8>,
}

/// A run of a program: the program with its text, the input's values, where it ends at the latest, and its outcome.
#[derive(Drop)]
pub struct FoundRun<'a> {
    pub loaded: Loaded<'a>,
    pub input: Vec<i64>,
    pub limit: Limit,
    pub outcome: Outcome,
}

/// A run of a program that is still to be told, statement by statement as it goes: the program with its text, the input's values, which are
/// no more than its cells, how many statements and how many seconds it has, and how it is told.
#[derive(Drop)]
pub struct FoundSteps<'a> {
    pub loaded: Loaded<'a>,
    pub input: Vec<i64>,
    pub limit: Limit,
    pub words: StepWords<'a>,
    ghost fits: { length input.items ≤ total_size loaded.program.layout },
}

/// A run of a listing's code: the code, which declarations are shown, and the outcome.
#[derive(Drop)]
pub struct FoundCode<'a> {
    pub code: Verified,
    pub shown: Choice<'a>,
    pub outcome: Outcome,
}

/// The runs of a program at several sizes: what they cost, how that grows, and how it is asked for.
#[derive(Drop)]
pub struct FoundSweep {
    pub sweep: Sweep,
    /// A row for each size, in order.
    pub rows: Vec<SizeRow>,
    pub growths: Growths,
    pub form: SweepForm,
}

/// The runs of a program on the inputs of a scope, or on some that are drawn: the program as it was run, which inputs count and which
/// results are right, how many cells are drawn of each input, where inputs are, and what is found of it.
#[derive(Drop)]
pub struct FoundScope {
    pub program: Program,
    pub specification: Specification,
    pub drawn: Option<u32>,
    pub findings: Findings,
}

/// The run of a program for all inputs of a scope together: the program as it was run, the scope, and what is told of them, or where too
/// little was known for that.
#[derive(Drop)]
pub struct FoundOverall {
    pub program: Program,
    pub scope: Scope,
    pub told: Result<Overall, Undecided>,
}

/// Two programs as they were run, the one that says which inputs count, if there is one, how many cells are drawn of each input, where
/// inputs are, and what is found of their runs on the same inputs; the rule of the second program's text, and the most processors that it
/// may declare, where that is asked for.
#[derive(Drop)]
pub struct FoundPair {
    pub first: Program,
    pub second: Program,
    pub precondition: Option<Program>,
    pub drawn: Option<u32>,
    pub comparison: Comparison,
    pub rule: Rule,
    pub most_procs: Option<u64>,
}

/// A program that is graded: the name of its file, and what is found of it beside the first program, or why nothing is.
#[derive(Drop)]
pub struct GradeRow<'a> {
    pub name: &'a str,
    pub graded: Result<FoundPair, Halted<'a>>,
}

/// Programs that are graded by a first one: the name of its file, that program, and a row for each of them.
#[derive(Drop)]
pub struct FoundGrade<'a> {
    pub name: &'a str,
    pub reference: Program,
    pub rows: Vec<GradeRow<'a>>,
}

/// What a call finds that is known whole before anything is written of it.
#[derive(Drop)]
pub enum Settled<'a> {
    /// The version was asked for.
    Version,
    /// What there is to say of a subject was asked for.
    Explanation(Subject),
    /// A program is accepted.
    Accepted(Loaded<'a>),
    /// A program's text, with what it comes to by its sizes.
    Expanded(Source<'a>),
    /// The code of a program.
    Planned(Verified),
    /// The code of a program or of a listing, to be written in C over MPI.
    Exported(Verified),
    /// The code of a program, to be written in C for one memory.
    ExportedAlone(AlonePlan),
    /// How a program comes out under each rule.
    Compared(UnderRules),
    /// A program was run; of memory these declarations are shown.
    Run(FoundRun<'a>, Choice<'a>),
    /// A program was run, and what that costs was counted.
    Costed(FoundRun<'a>, CostWords, Cost),
    /// A program was run, and its exchanges are told.
    Traced(FoundRun<'a>, TraceWords, FoundTrace),
    /// A program was run at several sizes.
    Swept(FoundSweep),
    /// A program was run on the inputs of a scope, or on those that were drawn, that count.
    Explored(FoundScope),
    /// A program was run once for all inputs of a scope.
    Surveyed(FoundOverall),
    /// Two programs were run on the same inputs.
    Paired(FoundPair),
    /// Programs were run on the same inputs as a first one, and graded by it.
    Graded(FoundGrade<'a>),
    /// A listing was run.
    Executed(FoundCode<'a>),
}

/// What a call finds.
#[derive(Drop)]
pub enum Found<'a> {
    /// What is known whole.
    Settled(Settled<'a>),
    /// A program is to be run, and told as it runs.
    Stepped(FoundSteps<'a>),
}
