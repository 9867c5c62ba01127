//! Two programs on the same inputs.

ghost use Rattle.std.specs.Prelude.{◌≡◌, ◌⊎◌, IfOk, IfErr};
ghost use Rattle.system_files.specs.Files.{IsSame};
ghost use Rattle.pram_tokens.specs.Plain.{IsPlain};
ghost use Rattle.command_facts.specs.Held.{StopsAtProgram};
ghost use Rattle.command_pairs.specs.Limits.{HaveNoLimits};
ghost use Rattle.command_pairs.specs.Pairs as spec;
ghost use Rattle.command_facts.specs.Refused.{IsProgramIn, IsProgramOfText};

use crate::choosing::compared_of;
use crate::limiting::most_procs_of;
use crate::trying::{compare_on, drawn_of};
use command_facts::{FoundPair, load_program, load_where_named};
use command_requests::{PairWords, ProgramFile};
use comparing::{Compared, Comparison};
use diagnoses::Halted;
use pram_check::Program;
use pram_model::Rule;
use std::alloc::Global;
use system_files::Sources;

/// The program of a file.
pub(crate) fn load<'a, S: Sources>(
    alloc: Global,
    file: &ProgramFile<'a>,
    sources: &mut S,
) -> Result<Program, Halted<'a>>
    ensures loaded { IfOk result (IsProgramIn (S.Sources.holds sources.old) file.now) }
    ensures refused { IfErr result (StopsAtProgram (S.Sources.holds sources.old file.now.name.now) file.now) }
    ensures same { IsSame (S.Sources.holds sources.new) (S.Sources.holds sources.old) }
{
    let loaded = load_program(alloc, sources, file)?;
    Ok(loaded.program)
}

// The same, with the text that the file holds, of which the program is.
fn load_with_text<'a, S: Sources>(
    alloc: Global,
    file: &ProgramFile<'a>,
    sources: &mut S,
) -> Result<(Program, Vec<u8>), Halted<'a>>
    ensures loaded { IfOk result (λ l. IsProgramOfText (S.Sources.holds sources.old) file.now l.1.items l.0) }
    ensures plain { IfOk result (λ l. IsPlain l.1.items) }
    ensures refused { IfErr result (StopsAtProgram (S.Sources.holds sources.old file.now.name.now) file.now) }
    ensures same { IsSame (S.Sources.holds sources.new) (S.Sources.holds sources.old) }
{
    let loaded = load_program(alloc, sources, file)?;
    Ok((loaded.program, loaded.source.bytes))
}

// The program under the rule that is asked for, or its own.
fn under(program: Program, rule: Option<Rule>) -> Program
    ensures { result ≡ spec.under_rule rule program }
{
    match rule {
        None => program,
        Some(rule) => program.under(rule),
    }
}

// What is found of two programs, the second of this text, on the inputs that the words give.
fn compare_pair<'a, S: Sources>(
    alloc: Global,
    first: &Program,
    second: &Program,
    beside: &Program,
    precondition: &Option<Program>,
    text: &[u8],
    words: &PairWords<'a>,
    sources: &mut S,
) -> Result<Comparison, Halted<'a>>
    requires plain { IsPlain text.now }
    ensures found { IfOk result (λ r. (compared : Compared) × spec.IsCompared words.now first.now.layout second.now.layout text.now compared
        × spec.IsFoundOn (S.Sources.holds sources.old) precondition.now first.now second.now beside.now compared words.now.inputs
        words.now.bound r) }
    ensures refused { IfErr result (λ h. spec.IsUncommonIn words.now first.now.layout second.now.layout h.stop h.about
        ⊎ (HaveNoLimits words.now text.now h
        ⊎ spec.IsRefusedPair (S.Sources.holds sources.old) words.now.inputs precondition.now first.now second.now beside.now h)) }
    ensures same { IsSame (S.Sources.holds sources.new) (S.Sources.holds sources.old) }
{
    let compared = compared_of(alloc, words, first.layout(), second.layout(), text)?;
    compare_on(
        alloc,
        first,
        second,
        beside,
        precondition,
        &compared,
        words,
        sources,
    )
}

// The program beside which the first begins with declarations of which cells are drawn.
fn drawn_beside<'b>(is_graded: bool, first: &'b Program, second: &'b Program) -> &'b Program
    ensures { result.now ≡ spec.drawn_beside is_graded first.now second.now }
{
    if is_graded { first } else { second }
}

/// What is found of the programs of two files on the same inputs.
///
/// It is refused for either program's file or the precondition's (as [`load_program`] says), a name that both don't declare (P1), a limit
/// that has no number (P1), the inputs' files (P2, E1 to E3), an input with too many values (E11), and want of memory (E16).
pub fn find_pair<'a, S: Sources>(
    alloc: Global,
    words: &PairWords<'a>,
    sources: &mut S,
) -> Result<FoundPair, Halted<'a>>
    // What is found is of both files' programs on just the inputs that the words give and that count, of what they name,
    // within their limits.
    ensures found { IfOk result (spec.IsPaired (S.Sources.holds sources.old) words.now) }
    // Nothing is found only for a program's file, a name, a limit, the inputs, or want of memory.
    ensures refused { IfErr result (spec.StopsAtPair (S.Sources.holds sources.old) words.now) }
    // All files hold what they held.
    ensures same { IsSame (S.Sources.holds sources.new) (S.Sources.holds sources.old) }
{
    let first = load(alloc, &words.first, sources)?;
    let (written, text) = load_with_text(alloc, &words.second, sources)?;
    let precondition = load_where_named(alloc, sources, &words.precondition)?;
    let most_procs = most_procs_of(alloc, words, &text)?;
    let rule = written.rule();
    let second = under(written, words.under);
    let beside = drawn_beside(words.is_graded, &first, &second);
    let drawn = drawn_of(&first, beside, &words.inputs);
    let comparison = compare_pair(
        alloc,
        &first,
        &second,
        beside,
        &precondition,
        &text,
        words,
        sources,
    )?;
    Ok(FoundPair {
        first,
        second,
        precondition,
        drawn,
        comparison,
        rule,
        most_procs,
    })
}
