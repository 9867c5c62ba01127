//! The exchanges of a run.

ghost use Rattle.std.specs.Prelude.{◌≡◌, ◌+◌, ◌*◌, ◌++◌, ◌∷◌, [], true, IfOk, OnOk, Some};
ghost use Rattle.superstep_machine.specs.Stretch.{ToClose};
ghost use Rattle.superstep_machine.specs.Run as spec;
ghost use Rattle.instruction_steps.specs.Views.{uniform_of};
ghost use Rattle.flat_machine.specs.ByInstructions.{everywhere};
ghost use Rattle.flat_machine.specs.Exchanges.{exchange, exchanges_at, exchanges_from, exchanges_of, is_holding as spec_is_holding};
ghost use Rattle.flat_run.specs.RunViews.{state_of, way_is, IsRun};
ghost use Rattle.superstep_machine.specs.Purposes.{purpose_is};
ghost use Rattle.flat_run.specs.Exchanged.{exchanges_are, exchanges_for, exchanges_here};
ghost use Rattle.superstep_instructions.specs.declared.instr.Instr.TheVariants as instr_is;

use crate::exchange::Exchange;
use crate::program::{enough, is_on, open};
use crate::run::Run;
use crate::step::step;
use instruction_steps::UniformState;
use std::alloc::{AllocError, Global};
use superstep_instructions::{Code, Instr};
use superstep_machine::Purpose;

// Whether a read or a write is held.
fn is_holding(uniform: &UniformState) -> bool
    ensures { result ≡ spec_is_holding (uniform_of uniform.now) }
{
    uniform.put.is_some() || !uniform.asks.is_empty()
}

// One exchange more, at which this is held.
fn add(all: &mut Vec<Exchange>, purpose: Purpose, uniform: &UniformState) -> Result<(), AllocError>
    ensures { OnOk result (exchanges_are all.new.items
        ≡ exchanges_are all.old.items ++ (exchange (purpose_is purpose) (uniform_of uniform.now) ∷ [])) }
{
    let held = is_holding(uniform);
    all.push(Exchange { purpose, held })?;
    Ok(())
}

// The close, and before it the send of a write that is held.
fn add_close(all: &mut Vec<Exchange>, uniform: &UniformState) -> Result<(), AllocError>
    ensures { OnOk result (exchanges_are all.new.items
        ≡ exchanges_are all.old.items ++ exchanges_at (ToClose true) (uniform_of uniform.now)) }
{
    if uniform.put.is_none() {
        return add(all, Purpose::Close, uniform);
    }
    add(all, Purpose::Send, uniform)?;
    all.push(Exchange {
        purpose: Purpose::Close,
        held: false,
    })?;
    Ok(())
}

// The close of a run at its bound.
fn add_mark(
    all: &mut Vec<Exchange>,
    line: u32,
    bound: u32,
    uniform: &UniformState,
) -> Result<(), AllocError>
    ensures { OnOk result (exchanges_are all.new.items
        ≡ exchanges_are all.old.items ++ exchanges_for bound (instr_is.Mark line) (uniform_of uniform.now)) }
{
    if uniform.count == bound {
        add_close(all, uniform)
    } else {
        Ok(())
    }
}

// What an instruction exchanges.
fn add_for(
    all: &mut Vec<Exchange>,
    instr: Instr,
    bound: u32,
    uniform: &UniformState,
) -> Result<(), AllocError>
    ensures { OnOk result (exchanges_are all.new.items
        ≡ exchanges_are all.old.items ++ exchanges_for bound instr (uniform_of uniform.now)) }
{
    match instr {
        Instr::Mark { line } => add_mark(all, line, bound, uniform),
        Instr::Send => add(all, Purpose::Send, uniform),
        Instr::Reply => add(all, Purpose::Reply, uniform),
        Instr::Vote { destination } => add(all, Purpose::Vote { destination }, uniform),
        Instr::Halt => add_close(all, uniform),
        _ => Ok(()),
    }
}

// What the instruction at the run's place exchanges.
fn add_here(all: &mut Vec<Exchange>, code: &Code, bound: u32, run: &Run) -> Result<(), AllocError>
    requires on { way_is run.now.stand ≡ spec.On }
    ensures { OnOk result (exchanges_are all.new.items
        ≡ exchanges_are all.old.items ++ exchanges_here code.now bound (state_of run.now)) }
{
    match code.instructions().get(run.place as usize) {
        Some(instr) => add_for(all, *instr, bound, &run.machine.uniform),
        None => Ok(()),
    }
}

// Those of at most so many instructions.
fn follow(
    alloc: Global,
    code: &Code,
    bound: u32,
    run: &mut Run,
    most: u64,
) -> Result<Vec<Exchange>, AllocError>
    requires { IsRun code.now bound run.old }
    ensures { IfOk result (λ all. exchanges_are all.items ≡ exchanges_from code.now bound everywhere most (state_of run.old)) }
{
    let mut all = Vec::new(alloc);
    let mut left = most;
    'instructions: while left > 0 && is_on(run) {
        add_here(&mut all, code, bound, run)?;
        step(alloc, code, bound, run)?;
        left -= 1;
    }
    Ok(all)
}

// The same of a run that is let go.
fn follow_to_end(
    alloc: Global,
    code: &Code,
    bound: u32,
    run: Run,
    most: u64,
) -> Result<Vec<Exchange>, AllocError>
    requires { IsRun code.now bound run }
    ensures { IfOk result (λ all. exchanges_are all.items ≡ exchanges_from code.now bound everywhere most (state_of run)) }
{
    let mut run = run;
    follow(alloc, code, bound, &mut run, most)
}

/// The exchanges of any code's run on an input, for at most `bound` statements and at most
/// (bound + 1) * N instructions, N those of the code: all of them where the code is well formed. They
/// are those of its workers too, whatever their number and their map.
pub fn flat_exchanges(
    alloc: Global,
    code: &Code,
    input: &[i64],
    bound: u32,
) -> Result<Vec<Exchange>, AllocError>
    // They are the exchanges that the definition has for this run, in order, each with what it is for and whether
    // anything is held there.
    ensures { IfOk result (λ all. exchanges_are all.items ≡ exchanges_of code.now bound input.now) }
{
    let run = open(alloc, code, bound, input)?;
    follow_to_end(alloc, code, bound, run, enough(code, bound))
}
