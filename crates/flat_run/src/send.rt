//! A send: what is held is settled, and what is asked is on its way.

ghost use Rattle.std.specs.Prelude.{◌≡◌, ◌≤◌, ◌<◌, ℕ, OnOk, FitsSigned, length};
ghost use Rattle.std.specs.Int.{w64};
ghost use Rattle.superstep_machine.specs.Sending as spec;
ghost use Rattle.flat_machine.specs.Flat as flat;
ghost use Rattle.instruction_steps.specs.Views.{registers_of, uniform_of};
ghost use Rattle.flat_run.specs.Views.{part_of, own_of, held_of, flat_of, IsSized, AreSame};

use crate::conflict::conflicts;
use crate::instruct::none_held;
use crate::machine::Machine;
use crate::processor::ProcessorState;
use instruction_steps::{UniformState, value_at, verdict_on};
use pram_model::Rule;
use pram_values::Kind;
use smallvec::SmallVec;
use std::alloc::{AllocError, Global};
use std::mem;
use superstep_instructions::Code;
use superstep_machine::least;
use write_rules::Entry;

// A cell that nobody writes keeps its value, and so does one in conflict.
fn settled(verdict: Option<Result<i64, Kind>>, old: i64) -> i64
    ensures value { result ≡ spec.settled verdict old }
    ensures fits { FitsSigned w64 result }
{
    match verdict {
        Some(Ok(value)) => value,
        _ => old,
    }
}

// Each cell gets what its writers leave.
fn settle(rule: Rule, held: &[Option<Entry>], memory: &mut Vec<i64>)
    requires { length held.now ≤ length memory.old.items }
    ensures cells { length memory.new.items ≡ length memory.old.items }
    ensures each { (c : ℕ) → registers_of memory.new.items c ≡ spec.settled (spec.verdict_on rule (held_of held.now c))
        (registers_of memory.old.items c) }
{
    let mut c = 0;
    'cells: while c < held.len() {
        memory[c] = settled(verdict_on(rule, held[c]), value_at(memory, c));
        c += 1;
    }
}

// What the uniform part held is on its way.
fn send_uniform(alloc: Global, u: &mut UniformState)
    ensures shown { uniform_of u.new ≡ spec.uniform_sent (uniform_of u.old) }
    ensures registers { u.new.registers ≡ u.old.registers }
{
    u.put = None;
    u.awaited = mem::replace(&mut u.asks, SmallVec::new(alloc));
}

// What a processor held is on its way.
fn send_own(alloc: Global, x: &mut ProcessorState)
    ensures { part_of x.new ≡ spec.own_sent (part_of x.old) }
{
    x.awaited = mem::replace(&mut x.asks, Vec::new(alloc));
}

fn send_processors(alloc: Global, processors: &mut Vec<ProcessorState>)
    ensures count { length processors.new.items ≡ length processors.old.items }
    ensures each { (v : ℕ) → v < length processors.old.items →
        own_of processors.new.items v ≡ spec.own_sent (own_of processors.old.items v) }
{
    let mut v = 0;
    'processors: while v < processors.len() {
        send_own(alloc, &mut processors[v]);
        v += 1;
    }
}

/// What a send does to the machine.
pub fn send(alloc: Global, code: &Code, machine: &mut Machine) -> Result<(), AllocError>
    requires { IsSized code.now machine.old }
    ensures sized { OnOk result (IsSized code.now machine.new) }
    ensures same { OnOk result (AreSame (flat_of machine.new) (flat.after_send code.now (flat_of machine.old))) }
{
    let none = none_held(alloc, code.layout().cells())?;
    machine.key = least(machine.key, conflicts(code, machine));
    settle(code.rule(), &machine.held, &mut machine.memory);
    machine.held = none;
    send_uniform(alloc, &mut machine.uniform);
    send_processors(alloc, &mut machine.processors);
    Ok(())
}
