//! The code of statements inside pardo.

ghost use Rattle.std.specs.Prelude.{◌≡◌, ◌+◌, ◌<◌, ◌^◌, OnOk, length, false};
ghost use Rattle.plain_form.specs.Inside as inside;
ghost use Rattle.plain_form.specs.Shapes as shapes;
ghost use Rattle.plain_form.specs.Formulas.{formula_of};
ghost use Rattle.lowering.specs.Parts as parts;
ghost use Rattle.lowering.specs.Parts.{frame};
ghost use Rattle.lowering.specs.Room.{StepHasRoom, StepsHaveRoom};
ghost use Rattle.straight_lowering.specs.Room.{IsRoomFor};
ghost use Rattle.straight_lowering.specs.Written.{wrote};

use pram_check::{Expression, Step};
use std::alloc::AllocError;
use straight_lowering::{Emitter, flagged, flags, masked, next_register, step_assign};
use superstep_instructions::Instr;

/// A statement inside pardo, with all that it holds. Votes go to the uniform register `vote`, and
/// the private registers from `base` on are free.
#[cycle(inside)]
fn step(out: &mut Emitter, s: &Step, vote: u16, base: u16) -> Result<(), AllocError>
    requires room { StepHasRoom base s.now }
    requires short { length out.old.instructions + length
        (inside.step_code (frame vote) base (length out.old.instructions) out.old.held s.now) < 2 ^ 16 }
    ensures { OnOk result (out.new ≡ wrote
        (inside.step_code (frame vote) base (length out.old.instructions) out.old.held s.now)
        (inside.step_left out.old.held s.now) out.old) }
{
    match s {
        Step::Assign {
            location,
            target,
            value,
        } => step_assign(out, location.line, target, value, base),
        Step::While {
            location,
            test,
            body,
        } => step_while(out, body, location.line, test, vote, base),
        Step::If {
            location,
            test,
            then_part,
            else_part,
        } => {
            masked(out, location.line, test, base)?;
            steps(out, then_part, vote, base)?;
            step_else(out, else_part, vote, base)?;
            out.push(Instr::Unmask)
        }
    }
}

// A `while`.
#[cycle(inside)]
fn step_while(
    out: &mut Emitter,
    body: &Vec<Step>,
    line: u32,
    test: &Expression,
    vote: u16,
    base: u16,
) -> Result<(), AllocError>
    requires above { base + 1 < 2 ^ 16 }
    requires test { IsRoomFor (formula_of test.now) (base + 1) }
    requires body { StepsHaveRoom (base + 1) body.now.items }
    requires short { length out.old.instructions + length
        (parts.step_while vote base (length out.old.instructions) out.old.held line (formula_of test.now) body.now.items) < 2 ^ 16 }
    ensures { OnOk result (out.new ≡ wrote
        (parts.step_while vote base (length out.old.instructions) out.old.held line (formula_of test.now) body.now.items)
        false out.old) }
{
    let above = next_register(base);
    flagged(out, base)?;
    step_turns(out, body, line, test, vote, base, above)?;
    out.push(Instr::Unmask)
}

// The turns of a `while`, from its head on.
#[cycle(inside)]
fn step_turns(
    out: &mut Emitter,
    body: &Vec<Step>,
    line: u32,
    test: &Expression,
    vote: u16,
    flag: u16,
    base: u16,
) -> Result<(), AllocError>
    requires test { IsRoomFor (formula_of test.now) base }
    requires body { StepsHaveRoom base body.now.items }
    requires short { length out.old.instructions + length
        (parts.step_turns vote flag base (length out.old.instructions) out.old.held line (formula_of test.now) body.now.items) < 2 ^ 16 }
    ensures { OnOk result (out.new ≡ wrote
        (parts.step_turns vote flag base (length out.old.instructions) out.old.held line (formula_of test.now) body.now.items)
        false out.old) }
{
    let head = out.place();
    flags(out, line, test, vote, flag, base)?;
    let exit = out.gap()?;
    steps(out, body, vote, base)?;
    out.flush()?;
    out.push(Instr::Jump { target: head })?;
    let target = out.place();
    out.fill(
        exit,
        Instr::JumpIfZero {
            source: vote,
            target,
        },
    );
    Ok(())
}

// An else part, if there is one.
#[cycle(inside)]
fn step_else(
    out: &mut Emitter,
    else_part: &Vec<Step>,
    vote: u16,
    base: u16,
) -> Result<(), AllocError>
    requires room { StepsHaveRoom base else_part.now.items }
    requires short { length out.old.instructions + length
        (parts.step_else vote base (length out.old.instructions) out.old.held else_part.now.items) < 2 ^ 16 }
    ensures { OnOk result (out.new ≡ wrote
        (parts.step_else vote base (length out.old.instructions) out.old.held else_part.now.items)
        (inside.steps_left out.old.held else_part.now.items) out.old) }
{
    if else_part.is_empty() {
        return Ok(());
    }
    out.push(Instr::Flip)?;
    steps(out, else_part, vote, base)
}

/// The statements of a part, in order.
#[cycle(inside)]
pub(crate) fn steps(
    out: &mut Emitter,
    body: &Vec<Step>,
    vote: u16,
    base: u16,
) -> Result<(), AllocError>
    requires room { StepsHaveRoom base body.now.items }
    requires short { length out.old.instructions + length
        (inside.steps_code (frame vote) base (length out.old.instructions) out.old.held body.now.items) < 2 ^ 16 }
    ensures { OnOk result (out.new ≡ wrote
        (inside.steps_code (frame vote) base (length out.old.instructions) out.old.held body.now.items)
        (inside.steps_left out.old.held body.now.items) out.old) }
{
    for s in body {
        step(out, s, vote, base)?;
    }
    Ok(())
}
