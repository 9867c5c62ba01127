//! The lines of a run's exchanges.

ghost use Rattle.std.specs.Prelude.{◌≡◌, ◌+◌, ◌*◌, ◌++◌, ◌∷◌, [], true, IfOk, OnOk, Some};
ghost use Rattle.bsp_verify.specs.WellFormed.{IsWellFormed};
ghost use Rattle.superstep_machine.specs.Stretch.{ToClose};
ghost use Rattle.superstep_machine.specs.Run as spec;
ghost use Rattle.exchange_lines.specs.Lines.{AreLinesOf, flat_lines as spec_lines, lines_at, lines_within};
ghost use Rattle.instruction_steps.specs.Views.{uniform_of};
ghost use Rattle.flat_run.specs.Lined.{lines_for, lines_in};
ghost use Rattle.flat_run.specs.RunViews.{state_of, way_is, IsRun};
ghost use Rattle.superstep_instructions.specs.declared.instr.Instr.TheVariants as instr_is;

use crate::program::{enough, is_on, open};
use crate::run::Run;
use crate::step::step;
use instruction_steps::UniformState;
use std::alloc::{AllocError, Global};
use superstep_instructions::{Code, Instr};

// One exchange more in the present statement.
fn add(all: &mut Vec<u32>, uniform: &UniformState) -> Result<(), AllocError>
    ensures { OnOk result (all.new.items ≡ all.old.items ++ ((uniform_of uniform.now).line ∷ [])) }
{
    all.push(uniform.line)?;
    Ok(())
}

// The close, and before it the send of a write that is held.
fn add_close(all: &mut Vec<u32>, uniform: &UniformState) -> Result<(), AllocError>
    ensures { OnOk result (all.new.items ≡ all.old.items ++ lines_at (ToClose true) (uniform_of uniform.now)) }
{
    if uniform.put.is_none() {
        return add(all, uniform);
    }
    add(all, uniform)?;
    add(all, uniform)
}

// The close of a run at its bound.
fn add_mark(
    all: &mut Vec<u32>,
    line: u32,
    bound: u32,
    uniform: &UniformState,
) -> Result<(), AllocError>
    ensures { OnOk result (all.new.items ≡ all.old.items ++ lines_for bound (instr_is.Mark line) (uniform_of uniform.now)) }
{
    if uniform.count == bound {
        add_close(all, uniform)
    } else {
        Ok(())
    }
}

// What an instruction exchanges.
fn add_for(
    all: &mut Vec<u32>,
    instr: Instr,
    bound: u32,
    uniform: &UniformState,
) -> Result<(), AllocError>
    ensures { OnOk result (all.new.items ≡ all.old.items ++ lines_for bound instr (uniform_of uniform.now)) }
{
    match instr {
        Instr::Mark { line } => add_mark(all, line, bound, uniform),
        Instr::Send => add(all, uniform),
        Instr::Reply => add(all, uniform),
        Instr::Vote { destination: _ } => add(all, uniform),
        Instr::Halt => add_close(all, uniform),
        _ => Ok(()),
    }
}

// What the instruction at the run's place exchanges.
fn add_here(all: &mut Vec<u32>, code: &Code, bound: u32, run: &Run) -> Result<(), AllocError>
    requires on { way_is run.now.stand ≡ spec.On }
    ensures { OnOk result (all.new.items ≡ all.old.items ++ lines_in code.now bound (state_of run.now)) }
{
    match code.instructions().get(run.place as usize) {
        Some(instr) => add_for(all, *instr, bound, &run.machine.uniform),
        None => Ok(()),
    }
}

// Those of at most so many instructions.
fn follow(
    alloc: Global,
    code: &Code,
    bound: u32,
    run: &mut Run,
    most: u64,
) -> Result<Vec<u32>, AllocError>
    requires { IsRun code.now bound run.old }
    ensures { IfOk result (λ all. all.items ≡ lines_within code.now bound most (state_of run.old)) }
{
    let mut all = Vec::new(alloc);
    let mut left = most;
    'instructions: while left > 0 && is_on(run) {
        add_here(&mut all, code, bound, run)?;
        step(alloc, code, bound, run)?;
        left -= 1;
    }
    Ok(all)
}

// The same of a run that is let go.
fn follow_to_end(
    alloc: Global,
    code: &Code,
    bound: u32,
    run: Run,
    most: u64,
) -> Result<Vec<u32>, AllocError>
    requires { IsRun code.now bound run }
    ensures { IfOk result (λ all. all.items ≡ lines_within code.now bound most (state_of run)) }
{
    let mut run = run;
    follow(alloc, code, bound, &mut run, most)
}

/// The line of each exchange of any code's run on an input, for at most `bound` statements and at most (bound + 1) * N instructions,
/// N those of the code: that of the statement that began last before it. Of well-formed code these are the lines of the exchanges of its
/// workers, whatever their number and their map, up to the verdict.
pub fn flat_lines(
    alloc: Global,
    code: &Code,
    input: &[i64],
    bound: u32,
) -> Result<Vec<u32>, AllocError>
    // The lines are those of the exchanges of the code's run on one memory, within (bound + 1) * N instructions, N
    // those of the code.
    ensures found { IfOk result (λ all. all.items ≡ spec_lines code.now bound input.now) }
    // Of well-formed code these are the lines of its workers' exchanges, whatever their number and their map.
    ensures lines { IfOk result (λ all. IsWellFormed code.now → AreLinesOf code.now input.now bound all.items) }
{
    let run = open(alloc, code, bound, input)?;
    follow_to_end(alloc, code, bound, run, enough(code, bound))
}
