//! One instruction of a run.

ghost use Rattle.std.specs.Prelude.{◌≡◌, ◌<◌, ◌+◌, ◌^◌, Some, OnOk};
ghost use Rattle.superstep_instructions.specs.declared.instr.Instr.TheVariants as instr_is;
ghost use Rattle.superstep_machine.specs.Run as spec;
ghost use Rattle.flat_machine.specs.ByInstructions.{instructed, exchanged, closed, going, everywhere};
ghost use Rattle.flat_machine.specs.Flat.{after_instr};
ghost use Rattle.instruction_steps.specs.Views.{put_is};
ghost use Rattle.flat_run.specs.Views.{flat_of};
ghost use Rattle.flat_run.specs.RunViews.{way_is, state_of, led, IsRun, IsCounted, AreSameStates};

use crate::instruct::instruct;
use crate::machine::Machine;
use crate::reply::reply;
use crate::run::{Run, Stand};
use crate::send::send;
use crate::vote::vote;
use instruction_steps::{Moment, register};
use pram_values::is_true;
use std::alloc::{AllocError, Global};
use superstep_instructions::{Code, Instr};
use superstep_machine::Key;

// Whether a put is held.
fn is_held(put: Option<Moment>) -> bool
    ensures { result ≡ spec.is_held (put_is put) }
{
    put.is_some()
}

// A key whose statement is over ends a run.
fn unless_due(key: Option<Key>, count: u32) -> Stand
    ensures { way_is result ≡ spec.unless (spec.due key count) spec.On }
{
    match key {
        Some(told) => {
            if told.count < count {
                Stand::Over {
                    key: Some(told),
                    ended: false,
                }
            } else {
                Stand::On
            }
        }
        None => Stand::On,
    }
}

// What a send decides: nothing where a put is held.
fn decided_by_send(machine: &Machine) -> Stand
    ensures { way_is result ≡ spec.decided spec.Sends (flat_of machine.now).uniform (flat_of machine.now).key spec.On }
{
    if is_held(machine.uniform.put) {
        Stand::On
    } else {
        unless_due(machine.key, machine.uniform.count)
    }
}

fn exchange_send(alloc: Global, code: &Code, bound: u32, run: &mut Run) -> Result<(), AllocError>
    requires run { IsRun code.now bound run.old }
    requires place { run.old.place < 2 ^ 16 }
    ensures run { OnOk result (IsRun code.now bound run.new) }
    ensures state { OnOk result (AreSameStates (state_of run.new)
        (exchanged code.now everywhere spec.Sends run.old.place (flat_of run.old.machine))) }
{
    let stand = decided_by_send(&run.machine);
    send(alloc, code, &mut run.machine)?;
    run.place += 1;
    run.stand = stand;
    Ok(())
}

fn exchange_reply(code: &Code, bound: u32, run: &mut Run) -> Result<(), AllocError>
    requires run { IsRun code.now bound run.old }
    requires place { run.old.place < 2 ^ 16 }
    ensures run { OnOk result (IsRun code.now bound run.new) }
    ensures state { OnOk result (AreSameStates (state_of run.new)
        (exchanged code.now everywhere spec.Replies run.old.place (flat_of run.old.machine))) }
{
    let stand = unless_due(run.machine.key, run.machine.uniform.count);
    reply(code, &mut run.machine)?;
    run.place += 1;
    run.stand = stand;
    Ok(())
}

fn exchange_vote(code: &Code, bound: u32, run: &mut Run, destination: u16) -> Result<(), AllocError>
    requires run { IsRun code.now bound run.old }
    requires place { run.old.place < 2 ^ 16 }
    ensures run { OnOk result (IsRun code.now bound run.new) }
    ensures state { OnOk result (AreSameStates (state_of run.new) (exchanged code.now everywhere (spec.Votes destination) run.old.place
        (flat_of run.old.machine))) }
{
    let stand = unless_due(run.machine.key, run.machine.uniform.count);
    vote(code, &mut run.machine, destination);
    run.place += 1;
    run.stand = stand;
    Ok(())
}

// A close sends what is held, and is over by a key whatever its count.
fn close(
    alloc: Global,
    code: &Code,
    bound: u32,
    run: &mut Run,
    ended: bool,
) -> Result<(), AllocError>
    requires run { IsRun code.now bound run.old }
    ensures run { OnOk result (IsRun code.now bound run.new) }
    ensures state { OnOk result (AreSameStates (state_of run.new) (closed code.now ended run.old.place (flat_of run.old.machine))) }
{
    if is_held(run.machine.uniform.put) {
        send(alloc, code, &mut run.machine)?;
    }
    run.stand = Stand::Over {
        key: run.machine.key,
        ended,
    };
    Ok(())
}

// An instruction on registers, and on to the next.
fn go_on(
    alloc: Global,
    code: &Code,
    bound: u32,
    run: &mut Run,
    instr: Instr,
) -> Result<(), AllocError>
    requires run { IsRun code.now bound run.old }
    requires place { run.old.place < 2 ^ 16 }
    requires room { IsCounted instr run.old.machine.uniform.count bound }
    requires on { way_is run.old.stand ≡ spec.On }
    ensures run { OnOk result (IsRun code.now bound run.new) }
    ensures state { OnOk result (AreSameStates (state_of run.new)
        (going (run.old.place + 1) (after_instr code.now instr (flat_of run.old.machine)))) }
{
    instruct(alloc, code, instr, &mut run.machine)?;
    run.place += 1;
    Ok(())
}

// A statement begins, or the run closes at its bound.
fn mark(
    alloc: Global,
    code: &Code,
    bound: u32,
    run: &mut Run,
    instr: Instr,
    line: u32,
) -> Result<(), AllocError>
    requires run { IsRun code.now bound run.old }
    requires place { run.old.place < 2 ^ 16 }
    requires mark { instr ≡ instr_is.Mark line }
    requires on { way_is run.old.stand ≡ spec.On }
    ensures run { OnOk result (IsRun code.now bound run.new) }
    ensures state { OnOk result (AreSameStates (state_of run.new)
        (led code.now bound (Some instr) run.old.place (flat_of run.old.machine))) }
{
    if run.machine.uniform.count == bound {
        close(alloc, code, bound, run, false)
    } else {
        go_on(alloc, code, bound, run, instr)
    }
}

// Goes to a place where a uniform register is 0.
fn jump_if_zero(code: &Code, bound: u32, run: &mut Run, source: u16, target: u16)
    requires run { IsRun code.now bound run.old }
    requires place { run.old.place < 2 ^ 16 }
    requires on { way_is run.old.stand ≡ spec.On }
    ensures run { IsRun code.now bound run.new }
    ensures state { AreSameStates (state_of run.new) (led code.now bound (Some (instr_is.JumpIfZero source target)) run.old.place
        (flat_of run.old.machine)) }
{
    if is_true(register(&run.machine.uniform.registers, source)) {
        run.place += 1;
    } else {
        run.place = u32::from(target);
    }
}

/// What an instruction does to a run.
fn obey(
    alloc: Global,
    code: &Code,
    bound: u32,
    run: &mut Run,
    instr: Instr,
) -> Result<(), AllocError>
    requires run { IsRun code.now bound run.old }
    requires place { run.old.place < 2 ^ 16 }
    requires on { way_is run.old.stand ≡ spec.On }
    ensures run { OnOk result (IsRun code.now bound run.new) }
    ensures state { OnOk result (AreSameStates (state_of run.new)
        (led code.now bound (Some instr) run.old.place (flat_of run.old.machine))) }
{
    match instr {
        Instr::Mark { line } => mark(alloc, code, bound, run, instr, line),
        Instr::Send => exchange_send(alloc, code, bound, run),
        Instr::Reply => exchange_reply(code, bound, run),
        Instr::Vote { destination } => exchange_vote(code, bound, run, destination),
        Instr::Jump { target } => {
            run.place = u32::from(target);
            Ok(())
        }
        Instr::JumpIfZero { source, target } => {
            jump_if_zero(code, bound, run, source, target);
            Ok(())
        }
        Instr::Halt => close(alloc, code, bound, run, true),
        _ => go_on(alloc, code, bound, run, instr),
    }
}

/// The instruction at the run's place.
pub fn step(alloc: Global, code: &Code, bound: u32, run: &mut Run) -> Result<(), AllocError>
    requires run { IsRun code.now bound run.old }
    requires on { way_is run.old.stand ≡ spec.On }
    ensures run { OnOk result (IsRun code.now bound run.new) }
    ensures state { OnOk result (AreSameStates (state_of run.new)
        (instructed code.now bound everywhere run.old.place (flat_of run.old.machine))) }
{
    match code.instructions().get(run.place as usize) {
        Some(instr) => obey(alloc, code, bound, run, *instr),
        None => {
            run.stand = Stand::Lost;
            Ok(())
        }
    }
}
