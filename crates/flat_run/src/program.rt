//! A run of superstep code on one memory, as a plain program beside its definition.

ghost use Rattle.std.specs.Prelude.{◌≡◌, ◌+◌, ◌*◌, ◌≤◌, Some, IfOk, OnOk, length};
ghost use Rattle.bsp_verify.specs.WellFormed.{IsWellFormed};
ghost use Rattle.write_rules.specs.Verdict.{Verdict};
ghost use Rattle.superstep_instructions.specs.Limits.{most_instructions};
ghost use Rattle.flat_machine.specs.ByExchanges.{opening};
ghost use Rattle.flat_machine.specs.ByInstructions.{outcome_within, everywhere, steps, IsFlatOutcome};
ghost use Rattle.instruction_steps.specs.Views.{registers_of};
ghost use Rattle.flat_run.specs.RunViews.{state_of, is_going, verdict_in, IsRun, AreSameStates};

use crate::instruct::none_held;
use crate::machine::Machine;
use crate::run::{Run, Stand};
use crate::step::step;
use crate::verdict::outcome;
use instruction_steps::{make_room, open_uniform};
use std::alloc::{AllocError, Global};
use superstep_instructions::Code;
use write_rules::Outcome;

// So many uniform registers there can be, since each has a number of 16 bits.
const REGISTERS: u32 = 65_536;

// The memory at the beginning: the first cells have the values of the input, and the others 0.
fn open_memory(alloc: Global, cells: u32, input: &[i64]) -> Result<Vec<i64>, AllocError>
    ensures room { IfOk result (λ memory. cells ≤ length memory.items) }
    ensures values { IfOk result (λ memory. registers_of memory.items ≡ registers_of input.now) }
{
    let mut memory = Vec::from_slice(alloc, input)?;
    make_room(&mut memory, cells as usize)?;
    Ok(memory)
}

// The run before the first instruction.
pub(crate) fn open(alloc: Global, code: &Code, bound: u32, input: &[i64]) -> Result<Run, AllocError>
    ensures run { IfOk result (λ run. IsRun code.now bound run) }
    ensures state { IfOk result (λ run. AreSameStates (state_of run) (opening input.now)) }
{
    let cells = code.layout().cells();
    let memory = open_memory(alloc, cells, input)?;
    let held = none_held(alloc, cells)?;
    let uniform = open_uniform(alloc, REGISTERS)?;
    Ok(Run {
        machine: Machine {
            uniform,
            processors: Vec::new(alloc),
            memory,
            held,
            key: None,
        },
        place: 0,
        stand: Stand::On,
    })
}

// Whether it goes on.
pub(crate) fn is_on(run: &Run) -> bool
    ensures { result ≡ is_going (state_of run.now).way }
{
    run.stand == Stand::On
}

// At most so many instructions.
fn advance(
    alloc: Global,
    code: &Code,
    bound: u32,
    run: &mut Run,
    most: u64,
) -> Result<(), AllocError>
    requires { IsRun code.now bound run.old }
    ensures run { OnOk result (IsRun code.now bound run.new) }
    ensures state { OnOk result (AreSameStates (state_of run.new) (steps code.now bound everywhere most (state_of run.old))) }
{
    let mut left = most;
    'instructions: while left > 0 && is_on(run) {
        step(alloc, code, bound, run)?;
        left -= 1;
    }
    Ok(())
}

// How many instructions a run within the bound can have.
pub(crate) fn enough(code: &Code, bound: u32) -> u64
    ensures { result ≡ (bound + 1) * length code.now.instructions }
{
    (u64::from(bound) + 1) * count(code)
}

// The number of instructions.
fn count(code: &Code) -> u64
    ensures value { result ≡ length code.now.instructions }
    ensures few { result ≤ most_instructions }
{
    code.instructions().len() as u64
}

/// Runs any code, well formed or not, on an input, for at most `bound` statements and at most
/// (bound + 1) * N instructions, N those of the code: what it comes to within them, and `None`
/// where that is no outcome.
pub fn flat_run(
    alloc: Global,
    code: &Code,
    input: &[i64],
    bound: u32,
) -> Result<Option<Outcome>, AllocError>
    // Of well-formed code it gives the outcome of the run on one memory, and there is one.
    ensures well_formed { IfOk result (λ found. IsWellFormed code.now → (v : Verdict) × (verdict_in found ≡ Some v)
        × IsFlatOutcome code.now input.now bound v) }
    // Of any code it gives what the definition comes to within (bound + 1) * N instructions, N those of the code, and
    // none where that is no outcome.
    ensures found { IfOk result (λ found. verdict_in found ≡ outcome_within code.now bound everywhere
        ((bound + 1) * length code.now.instructions) input.now) }
{
    let mut run = open(alloc, code, bound, input)?;
    advance(alloc, code, bound, &mut run, enough(code, bound))?;
    outcome(alloc, code, run)
}
