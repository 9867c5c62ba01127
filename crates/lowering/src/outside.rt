//! The code of statements outside pardo.

ghost use Rattle.std.specs.Prelude.{◌≡◌, ◌<◌, ◌+◌, ◌^◌, OnOk, IfOk, length, true, false};
ghost use Rattle.plain_form.specs.Formulas.{formula_of};
ghost use Rattle.plain_form.specs.Formulas as formulas;
ghost use Rattle.plain_form.specs.Groups as groups;
ghost use Rattle.plain_form.specs.Outside as outside;
ghost use Rattle.plain_form.specs.Registers as registers;
ghost use Rattle.plain_form.specs.Shapes as shapes;
ghost use Rattle.lowering.specs.Blocks as blocks;
ghost use Rattle.lowering.specs.Room.{StepsHaveRoom, StatementHasRoom, StatementsHaveRoom};
ghost use Rattle.superstep_instructions.specs.declared.instr.Side.TheVariants as Side;
ghost use Rattle.straight_lowering.specs.Room.{IsRoomFor};
ghost use Rattle.straight_lowering.specs.Written.{wrote};

use crate::inside::steps;
use pram_check::{Expression, Statement, Step};
use std::alloc::AllocError;
use straight_lowering::{
    Emitter, Turns, assign, bounds, entered, local, parted, print, setting, tested, turns_from,
};
use superstep_instructions::Instr;

// A pardo.
fn pardo(
    out: &mut Emitter,
    line: u32,
    low: &Expression,
    high: &Expression,
    locals: usize,
    body: &Vec<Step>,
    free: u16,
) -> Result<(), AllocError>
    requires bounds { IsRoomFor (formulas.Pair (formula_of low.now) (formula_of high.now)) free }
    requires locals { locals + 2 < 2 ^ 16 }
    requires body { StepsHaveRoom (registers.behind_locals locals) body.now.items }
    requires short { length out.old.instructions + length
        (blocks.pardo free (length out.old.instructions) out.old.held line (formula_of low.now) (formula_of high.now) locals body.now.items)
        < 2 ^ 16 }
    ensures { OnOk result (out.new ≡ wrote
        (blocks.pardo free (length out.old.instructions) out.old.held line (formula_of low.now) (formula_of high.now) locals body.now.items)
        (blocks.pardo_left out.old.held (formula_of low.now) (formula_of high.now) body.now.items) out.old) }
{
    let base = local(locals);
    entered(out, line, low, high, free)?;
    steps(out, body, free, base)?;
    out.push(Instr::Leave)
}

/// A statement outside pardo, with all that it holds. The uniform registers from `free` on are free.
#[cycle(outside)]
pub(crate) fn statement(out: &mut Emitter, s: &Statement, free: u16) -> Result<(), AllocError>
    requires room { StatementHasRoom free s.now }
    requires short { length out.old.instructions + length
        (outside.code true free (length out.old.instructions) out.old.held s.now) < 2 ^ 16 }
    ensures { OnOk result (out.new ≡ wrote (outside.code true free (length out.old.instructions) out.old.held s.now)
        (outside.left out.old.held s.now) out.old) }
{
    match s {
        Statement::Assign {
            location,
            target,
            value,
        } => assign(out, location.line, target, value, free),
        Statement::Print { location, value } => print(out, location.line, value, free),
        Statement::While {
            location,
            test,
            body,
        } => while_loop(out, body, location.line, test, free),
        Statement::If {
            location,
            test,
            then_part,
            else_part,
        } => {
            let source = parted(out, location.line, test, free)?;
            let over = out.gap()?;
            part(out, then_part, free)?;
            joined(out, else_part, over, source, free)
        }
        Statement::For {
            location,
            variable,
            low,
            high,
            body,
        } => {
            let turns = turns_from(free);
            bounds(out, location.line, low, high, turns)?;
            for_turns(out, body, location.line, *variable, turns)
        }
        Statement::Pardo {
            location,
            low,
            high,
            locals,
            body,
        } => pardo(out, location.line, low, high, *locals, body, free),
    }
}

// A `while`.
#[cycle(outside)]
fn while_loop(
    out: &mut Emitter,
    body: &Vec<Statement>,
    line: u32,
    test: &Expression,
    free: u16,
) -> Result<(), AllocError>
    requires test { IsRoomFor (formula_of test.now) free }
    requires body { StatementsHaveRoom free body.now.items }
    requires short { length out.old.instructions + length
        (blocks.while_loop free (length out.old.instructions) out.old.held line (formula_of test.now) body.now.items) < 2 ^ 16 }
    ensures { OnOk result (out.new ≡ wrote
        (blocks.while_loop free (length out.old.instructions) out.old.held line (formula_of test.now) body.now.items) false out.old) }
{
    out.flush()?;
    while_turns(out, body, line, test, free)
}

// The turns of a `while`, from its head on.
#[cycle(outside)]
fn while_turns(
    out: &mut Emitter,
    body: &Vec<Statement>,
    line: u32,
    test: &Expression,
    free: u16,
) -> Result<(), AllocError>
    requires test { IsRoomFor (formula_of test.now) free }
    requires body { StatementsHaveRoom free body.now.items }
    requires short { length out.old.instructions + length
        (blocks.while_turns free (length out.old.instructions) out.old.held line (formula_of test.now) body.now.items) < 2 ^ 16 }
    ensures { OnOk result (out.new ≡ wrote
        (blocks.while_turns free (length out.old.instructions) out.old.held line (formula_of test.now) body.now.items) false out.old) }
{
    let head = out.place();
    let source = tested(out, line, test, free)?;
    let exit = out.gap()?;
    part(out, body, free)?;
    out.push(Instr::Jump { target: head })?;
    let target = out.place();
    out.fill(exit, Instr::JumpIfZero { source, target });
    Ok(())
}

// The turns of a `for`.
#[cycle(outside)]
fn for_turns(
    out: &mut Emitter,
    body: &Vec<Statement>,
    line: u32,
    number: usize,
    turns: Turns,
) -> Result<(), AllocError>
    requires variable { number + 1 < 2 ^ 16 }
    requires body { StatementsHaveRoom turns.behind body.now.items }
    requires short { length out.old.instructions + length
        (blocks.for_turns (length out.old.instructions) out.old.held line turns number body.now.items) < 2 ^ 16 }
    ensures { OnOk result (out.new ≡ wrote
        (blocks.for_turns (length out.old.instructions) out.old.held line turns number body.now.items) false out.old) }
{
    let exit = out.gap()?;
    let head = out.place();
    setting(out, line, number, turns)?;
    part(out, body, turns.behind)?;
    let end = out.place_behind(2);
    let leave = Instr::JumpIfZero {
        source: turns.more,
        target: end,
    };
    out.push(leave)?;
    out.push(Instr::Jump { target: head })?;
    out.fill(exit, leave);
    Ok(())
}

// The end of the first part of an `if`, over which the jump at `over` goes, and its else part.
#[cycle(outside)]
fn joined(
    out: &mut Emitter,
    else_part: &Vec<Statement>,
    over: usize,
    source: u16,
    free: u16,
) -> Result<(), AllocError>
    requires over { over < length out.old.instructions }
    requires room { StatementsHaveRoom free else_part.now.items }
    requires short { length (blocks.joined over source free else_part.now.items out.old).instructions < 2 ^ 16 }
    ensures { OnOk result (out.new ≡ blocks.joined over source free else_part.now.items out.old) }
{
    if else_part.is_empty() {
        let target = out.place();
        out.fill(over, Instr::JumpIfZero { source, target });
        return Ok(());
    }
    let other = out.place_behind(1);
    out.fill(
        over,
        Instr::JumpIfZero {
            source,
            target: other,
        },
    );
    let end = out.gap()?;
    part(out, else_part, free)?;
    let target = out.place();
    out.fill(end, Instr::Jump { target });
    Ok(())
}

// A part, and the send of what it holds.
#[cycle(outside)]
fn part(out: &mut Emitter, body: &Vec<Statement>, free: u16) -> Result<(), AllocError>
    requires room { StatementsHaveRoom free body.now.items }
    requires short { length out.old.instructions + length
        (blocks.part free out.old.held body.now.items (length out.old.instructions)) < 2 ^ 16 }
    ensures { OnOk result (out.new ≡ wrote (blocks.part free out.old.held body.now.items (length out.old.instructions)) false out.old) }
{
    block(out, body, free)?;
    out.flush()
}

// The statements of a part, in order.
#[cycle(outside)]
fn block(out: &mut Emitter, body: &Vec<Statement>, free: u16) -> Result<(), AllocError>
    requires room { StatementsHaveRoom free body.now.items }
    requires short { length out.old.instructions + length
        (outside.statements_code true free (length out.old.instructions) out.old.held body.now.items) < 2 ^ 16 }
    ensures { OnOk result (out.new ≡ wrote
        (outside.statements_code true free (length out.old.instructions) out.old.held body.now.items)
        (outside.statements_left out.old.held body.now.items) out.old) }
{
    for s in body {
        statement(out, s, free)?;
    }
    Ok(())
}
