//! From a text to its program, and to the outcome of that by the definition.

ghost use Rattle.std.specs.Prelude.{◌≡◌, ℕ, List, IfErr, IfOk};
ghost use Rattle.write_rules.specs.Verdict.{verdict_of};
ghost use Rattle.program_texts.specs.Report.{IsMeaningOf, IsMeaningRefused, IsNoProgram, IsProgramOf, IsRefusedRightly, IsRunOf};
ghost use Rattle.program_texts.specs.Report.{refusal_of, refusal_of_meaning};
ghost use Rattle.program_texts.specs.declared.from_text.Refusal.TheVariants.{OutOfMemory};

use pram_check::{Breach, CheckFault, Program, check};
use pram_meaning::{MeaningRefusal, reference_run};
use pram_parser::parse;
use pram_trees::{Layout, TextFault};
use std::alloc::{AllocError, Global};
use write_rules::Outcome;

/// Why a text is not run.
#[derive(Clone, Copy, Debug, PartialEq, Eq)]
pub enum Refusal {
    /// E1 to E5: what is wrong with the text.
    Text(TextFault),
    /// E6 to E10: the first thing that is wrong with the program.
    Program(Breach),
    /// E11: the input has more values than the program has cells.
    InputTooLong,
    /// E12: the map has not one module for each worker, or not a place for each cell.
    BadMap,
    /// E13: the number of workers is none of 1 to 32.
    BadWorkers,
    /// E16: memory was refused.
    OutOfMemory,
    /// E18: the run comes past the reserve of output items and exchanges that it was given.
    OutOfReserve,
}

// What a text, or an input, is refused for. Want of memory has one spelling, whoever asked.
impl From<TextFault> for Refusal {
    ghost from_gives = { λ fault refusal. refusal ≡ refusal_of fault };

    fn from(fault: TextFault) -> Refusal {
        match fault {
            TextFault::OutOfMemory => Refusal::OutOfMemory,
            _ => Refusal::Text(fault),
        }
    }
}

// Why a program has no meaning on an input.
impl From<MeaningRefusal> for Refusal {
    ghost from_gives = { λ why refusal. refusal ≡ refusal_of_meaning why };

    fn from(why: MeaningRefusal) -> Refusal {
        match why {
            MeaningRefusal::InputTooLong => Refusal::InputTooLong,
            MeaningRefusal::OutOfMemory => Refusal::OutOfMemory,
        }
    }
}

impl From<AllocError> for Refusal {
    ghost from_gives = { λ _ refusal. refusal ≡ OutOfMemory };

    fn from(_e: AllocError) -> Refusal {
        Refusal::OutOfMemory
    }
}

/// How a run came out, and the shared declarations by which its cells are named.
#[derive(Drop)]
pub struct TextOutcome {
    pub layout: Layout,
    pub outcome: Outcome,
}

/// The program of a text, with its names resolved. It is refused for E1 to E10, and for E16 where
/// memory was refused.
pub fn read_program(alloc: Global, text: &[u8]) -> Result<Program, Refusal>
    // The program is that of the text, and so accepted.
    ensures program { IfOk result (IsProgramOf text.now) }
    // Each refusal says what is wrong with the text; E16 comes only for a text that is neither too long nor has a
    // non-ASCII byte.
    ensures refused { IsNoProgram text.now result }
{
    let tree = parse(alloc, text)?;
    match check(alloc, tree) {
        Ok(program) => Ok(program),
        Err((CheckFault::Refused(breach), _tree)) => Err(Refusal::Program(breach)),
        Err((CheckFault::OutOfMemory, _tree)) => Err(Refusal::OutOfMemory),
    }
}

/// The outcome of a program on an input by the definition, within at most `bound` statements. The
/// first cells get the values of the input. It is refused for E11, and for E16 where memory was
/// refused.
pub fn mean_program(
    alloc: Global,
    program: &Program,
    input: &[i64],
    bound: u32,
) -> Result<Outcome, Refusal>
    // The answer is the program's outcome on an input that fits, by the definition, whichever rule it is under.
    ensures meaning { IfOk result (λ o. IsMeaningOf program.now input.now bound (verdict_of o)) }
    // E11 is answered only where the input has more values than there are cells, and E16 only where it has not.
    ensures stopped { IfErr result (IsMeaningRefused program.now input.now) }
    // The answer is the run of each text that the program is of.
    ensures outcome { IfOk result (λ o. (text : List ℕ) → IsProgramOf text program.now →
        IsRunOf text input.now bound program.now.layout (verdict_of o)) }
    // For each text of the program, E11 says that the input has more values than cells; E16 comes only where the text
    // is neither too long nor non-ASCII.
    ensures refused { (text : List ℕ) → IsProgramOf text program.now → IsRefusedRightly text input.now result }
{
    let outcome = reference_run(alloc, program, input, bound)?;
    Ok(outcome)
}

/// The outcome, by the definition, of the program of a text on an input, within at most `bound` statements, and the program's shared
/// declarations. The first cells get the values of the input. It is refused for E1 to E11, and for E16 where memory was refused.
pub fn meaning_of_text(
    alloc: Global,
    text: &[u8],
    input: &[i64],
    bound: u32,
) -> Result<TextOutcome, Refusal>
    // The answer is the run of the text's accepted program on an input that fits, within the bound, by the definition
    // alone.
    ensures outcome { IfOk result (λ r. IsRunOf text.now input.now bound r.layout (verdict_of r.outcome)) }
    // Each refusal is right: of the text, or E11 where the input has more values than cells; E16 only for a text
    // neither too long nor with a non-ASCII byte.
    ensures refused { IsRefusedRightly text.now input.now result }
{
    let program = read_program(alloc, text)?;
    let outcome = mean_program(alloc, &program, input, bound)?;
    let layout = program.into_layout();
    Ok(TextOutcome { layout, outcome })
}
