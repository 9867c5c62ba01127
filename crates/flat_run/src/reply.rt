//! A reply: each read gets the value of its cell.

ghost use Rattle.std.specs.Prelude.{◌≡◌, ◌<◌, ◌≤◌, ◌^◌, ℕ, OnOk, length, map};
ghost use Rattle.std.specs.List.{zip};
ghost use Rattle.superstep_machine.specs.Answering as spec;
ghost use Rattle.superstep_machine.specs.Parts.{Read as SpecRead};
ghost use Rattle.flat_machine.specs.Flat as flat;
ghost use Rattle.instruction_steps.specs.Views.{registers_of, read_is, uniform_of};
ghost use Rattle.flat_run.specs.Views.{part_of, own_of, flat_of, IsSized, AreSame};

use crate::machine::Machine;
use crate::processor::ProcessorState;
use instruction_steps::{Read, UniformState, put_number, set_number, value_at};
use std::alloc::AllocError;
use superstep_instructions::Code;

// A register after its value came; without a cell it keeps what it holds.
fn answer(
    memory: &[i64],
    registers: &mut Vec<i64>,
    destination: u16,
    cell: Option<u32>,
) -> Result<(), AllocError>
    ensures { OnOk result (registers_of registers.new.items ≡ spec.answer (λ c. registers_of memory.now c) destination cell
        (registers_of registers.old.items)) }
{
    match cell {
        None => Ok(()),
        Some(cell) => set_number(registers, destination, value_at(memory, cell as usize)),
    }
}

// The same of a register that has a place.
fn answer_in_place(memory: &[i64], registers: &mut [i64], destination: u16, cell: Option<u32>)
    requires room { 2 ^ 16 ≤ length registers.old }
    ensures value { registers_of registers.new ≡ spec.answer (λ c. registers_of memory.now c) destination cell
        (registers_of registers.old) }
    ensures count { length registers.new ≡ length registers.old }
{
    if let Some(cell) = cell {
        put_number(registers, destination, value_at(memory, cell as usize));
    }
}

// The answers to the reads of the uniform part.
fn answer_uniform(memory: &[i64], registers: &mut [i64], awaited: &[Read])
    requires room { 2 ^ 16 ≤ length registers.old }
    ensures value { registers_of registers.new
        ≡ spec.answers (λ k c. registers_of memory.now c) 0
        (map (λ (x : SpecRead). (x.destination, x.cell)) (map read_is awaited.now)) (registers_of registers.old) }
    ensures count { length registers.new ≡ length registers.old }
{
    let mut k = 0;
    'reads: while k < awaited.len() {
        let read = awaited[k];
        answer_in_place(memory, registers, read.destination, read.cell);
        k += 1;
    }
}

// The answers to the reads of a processor.
fn answer_own(
    memory: &[i64],
    registers: &mut Vec<i64>,
    awaited: &[Read],
    cells: &[Option<u32>],
) -> Result<(), AllocError>
    ensures { OnOk result (registers_of registers.new.items
        ≡ spec.answers (λ k c. registers_of memory.now c) 0 (zip (spec.destinations (map read_is awaited.now)) cells.now)
        (registers_of registers.old.items)) }
{
    let mut k = 0;
    'reads: while k < awaited.len() && k < cells.len() {
        answer(memory, registers, awaited[k].destination, cells[k])?;
        k += 1;
    }
    Ok(())
}

fn reply_own(memory: &[i64], awaited: &[Read], x: &mut ProcessorState) -> Result<(), AllocError>
    ensures { OnOk result (part_of x.new ≡ spec.own_answered (λ k c. registers_of memory.now c) (map read_is awaited.now)
        (part_of x.old)) }
{
    answer_own(memory, &mut x.registers, awaited, &x.awaited)?;
    x.awaited.clear();
    Ok(())
}

fn reply_processors(
    memory: &[i64],
    awaited: &[Read],
    processors: &mut Vec<ProcessorState>,
) -> Result<(), AllocError>
    ensures count { OnOk result (length processors.new.items ≡ length processors.old.items) }
    ensures each { OnOk result ((v : ℕ) → v < length processors.old.items → own_of processors.new.items v
        ≡ spec.own_answered (λ k c. registers_of memory.now c) (map read_is awaited.now) (own_of processors.old.items v)) }
{
    let mut v = 0;
    'processors: while v < processors.len() {
        reply_own(memory, awaited, &mut processors[v])?;
        v += 1;
    }
    Ok(())
}

fn reply_uniform(memory: &[i64], u: &mut UniformState)
    requires room { 2 ^ 16 ≤ length u.old.registers.items }
    ensures value { uniform_of u.new ≡ spec.uniform_answered (λ k c. registers_of memory.now c) (uniform_of u.old) }
    ensures width { u.new.width ≡ u.old.width }
    ensures count { length u.new.registers.items ≡ length u.old.registers.items }
{
    answer_uniform(memory, u.registers.as_mut_slice(), u.awaited.as_slice());
    u.awaited.clear();
}

/// What a reply does to the machine.
pub fn reply(code: &Code, machine: &mut Machine) -> Result<(), AllocError>
    requires { IsSized code.now machine.old }
    ensures sized { OnOk result (IsSized code.now machine.new) }
    ensures same { OnOk result (AreSame (flat_of machine.new) (flat.after_reply (flat_of machine.old))) }
{
    reply_processors(
        &machine.memory,
        machine.uniform.awaited.as_slice(),
        &mut machine.processors,
    )?;
    reply_uniform(&machine.memory, &mut machine.uniform);
    Ok(())
}
