//! A run that is observed.

ghost use Rattle.std.specs.Prelude.{◌≡◌, ◌≢◌, ◌++◌, ◌↔◌, ◌<◌, ◌-◌, ◌≤◌, [], Err, IfOk, OnOk, length, replicate, pos};
ghost use Rattle.pram_model.specs.Layout.{total_size};
ghost use Rattle.write_rules.specs.Verdict.{verdict_of};
ghost use Rattle.pram_meaning.specs.Listening.{HasHeardPart};
ghost use Rattle.pram_meaning.specs.Moments.{run_moments};
ghost use Rattle.pram_meaning.specs.Outcome.{IsOutcome};

use crate::interpreter::Interpreter;
use crate::listener::Listener;
use crate::run::{Halt, Run, add_zeros, zeros};
use crate::slate::Slate;
use pram_check::Program;
use std::alloc::{AllocError, Global};
use thiserror::Error;
use write_rules::Outcome;

/// Why a run is refused.
#[derive(Clone, Copy, Debug, Drop, PartialEq, Eq, Error)]
pub enum MeaningRefusal {
    /// E11: the input has more values than the program has cells.
    #[error("E11 InputTooLong")]
    InputTooLong,
    /// E16: memory was refused.
    #[error("E16 OutOfMemory")]
    OutOfMemory,
}

impl From<AllocError> for MeaningRefusal {
    ghost use Rattle.pram_meaning.specs.declared.observation.MeaningRefusal.TheVariants.{OutOfMemory};

    ghost from_gives = { λ _ refusal. refusal ≡ OutOfMemory };

    fn from(_: AllocError) -> MeaningRefusal {
        MeaningRefusal::OutOfMemory
    }
}

/// The store before the first statement, where the first cells have the values of the input. The
/// error is that memory was refused.
pub fn open(alloc: Global, program: &Program, input: &[i64]) -> Result<Run, AllocError>
    requires { length input.now ≤ total_size program.now.layout }
    ensures count { IfOk result (λ run. run.count ≡ 0) }
    ensures output { IfOk result (λ run. run.output.items ≡ []) }
    ensures uniforms { IfOk result (λ run. run.uniforms.items ≡ replicate program.now.uniforms (pos 0)) }
    ensures cells { IfOk result (λ run. run.cells.items ≡ input.now
        ++ replicate (total_size program.now.layout - length input.now) (pos 0)) }
{
    let uniforms = zeros(alloc, program.uniforms())?;
    let mut cells = Vec::from_slice(alloc, input)?;
    add_zeros(&mut cells, program.layout().cells() - input.len() as u32)?;
    let slate = Slate::new(alloc, program.layout().cells())?;
    Ok(Run {
        count: 0,
        output: Vec::new(alloc),
        uniforms,
        cells,
        slate,
    })
}

/// Whether an input has no more values than the program has cells: E11 where it has more.
pub fn check_input(program: &Program, input: &[i64]) -> Result<(), MeaningRefusal>
    // The input is taken only where it has no more values than the program has cells.
    ensures fits { OnOk result (length input.now ≤ total_size program.now.layout) }
    // It is refused, and as too long, exactly where it has more.
    ensures too_long { (result ≡ Err MeaningRefusal.InputTooLong) ↔ (total_size program.now.layout < length input.now) }
    ensures only { result ≢ Err MeaningRefusal.OutOfMemory }
{
    if input.len() > program.layout().cells() as usize {
        Err(MeaningRefusal::InputTooLong)
    } else {
        Ok(())
    }
}

/// Runs a program on an input, for at most `bound` statements, and tells the listener each moment of the run as it passes. The first cells
/// get the values of the input. E11 where there are more values than cells, and then nothing is told; E16 only where memory was refused, to
/// the run or to the listener, or where the listener gave up.
pub fn observe<L: Listener>(
    alloc: Global,
    program: &Program,
    input: &[i64],
    bound: u32,
    listener: &mut L,
) -> Result<Outcome, MeaningRefusal>
    // The answer is the program's outcome on the input, within the bound, by the definition.
    ensures outcome { IfOk result (λ o. IsOutcome program.now input.now bound (verdict_of o)) }
    // An input that is run has no more values than the program has cells.
    ensures fits { OnOk result (length input.now ≤ total_size program.now.layout) }
    // The input is refused as too long exactly where it has more values than the program has cells.
    ensures too_long { (result ≡ Err MeaningRefusal.InputTooLong) ↔ (total_size program.now.layout < length input.now) }
    // Where there is an outcome, the listener has heard all moments of the run, in order.
    ensures heard { OnOk result (L.hears listener.old (run_moments program.now input.now bound) listener.new) }
    // Where memory was refused or the listener gave up, it has heard a beginning of them.
    ensures part { result ≡ Err MeaningRefusal.OutOfMemory →
        HasHeardPart L.hears L.gives_up listener.old (run_moments program.now input.now bound) listener.new }
    // Of an input that is too long it has heard nothing.
    ensures unheard { result ≡ Err MeaningRefusal.InputTooLong → listener.new ≡ listener.old }
{
    check_input(program, input)?;
    let Ok(mut run) = open(alloc, program, input) else {
        return Err(MeaningRefusal::OutOfMemory);
    };
    let interpreter = Interpreter {
        alloc,
        program,
        bound,
    };
    match interpreter.run_body(&mut run, listener) {
        Ok(()) => Ok(Outcome::Ended {
            output: run.output,
            memory: run.cells,
        }),
        Err(Halt::Fault(fault)) => Ok(Outcome::Faulted {
            fault,
            output: run.output,
        }),
        Err(Halt::Bound) => Ok(Outcome::GoesOn { output: run.output }),
        Err(Halt::OutOfMemory) => Err(MeaningRefusal::OutOfMemory),
    }
}
