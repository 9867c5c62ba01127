//! An instruction on registers, by all processors of the range.

ghost use Rattle.std.specs.Prelude.{◌≡◌, ◌<◌, ◌≤◌, ◌^◌, ℕ, None, OnOk, IfOk, if◌then◌else◌, length};
ghost use Rattle.std.specs.List.{range_with_len};
ghost use Rattle.pram_model.specs.Layout.{total_size};
ghost use Rattle.pram_values.specs.Total.{total};
ghost use Rattle.superstep_machine.specs.Keys.{least as spec_least};
ghost use Rattle.superstep_machine.specs.Parts.{fresh as spec_fresh};
ghost use Rattle.superstep_machine.specs.Sending.{join as spec_join};
ghost use Rattle.superstep_machine.specs.Steps as spec;
ghost use Rattle.flat_machine.specs.Flat.{single_to, after_instr, noted as spec_noted, written as spec_written};
ghost use Rattle.instruction_steps.specs.Views.{uniform_of, HasRoom};
ghost use Rattle.flat_run.specs.Views.{own_of, held_of, flat_of, IsSized, AreSame};

use crate::machine::Machine;
use crate::processor::{ProcessorState, fresh, step_own};
use crate::processor_fault::{own_key, own_write};
use instruction_steps::{
    UniformState, index_of, step_uniform, uniform_key, uniform_write, with_writer,
};
use std::alloc::{AllocError, Global};
use superstep_instructions::{Code, Instr};
use superstep_machine::{Key, least};
use write_rules::{Entry, RuleBody, WriteRule, under};

// The least key that is noted on the processors.
fn own_keys(
    code: &Code,
    instr: Instr,
    u: &UniformState,
    processors: &[ProcessorState],
) -> Option<Key>
    requires { length processors.now ≡ u.now.width }
    ensures { result ≡ total None spec_least (λ v. spec.own_key code.now instr (uniform_of u.now) v (own_of processors.now v))
        (range_with_len 0 u.now.width) }
{
    let mut noted = None;
    let mut v = u.width;
    'processors: while v > 0 {
        v -= 1;
        noted = least(own_key(code, instr, u, v, &processors[v as usize]), noted);
    }
    noted
}

// One write more, as far as there is one and its cell.
fn add_write<R: WriteRule>(
    rule: &R,
    held: &mut Vec<Option<Entry>>,
    processor: i64,
    write: Option<(u32, i64)>,
)
    ensures cells { length held.new.items ≡ length held.old.items }
    ensures written { (c : ℕ) → c < length held.old.items →
        held_of held.new.items c
        ≡ spec_join (R.rule rule.now) (single_to (R.rule rule.now) c processor write) (held_of held.old.items c) }
{
    if let Some((cell, value)) = write {
        let place = cell as usize;
        if place < held.len() {
            held[place] = with_writer(rule, processor, value, held[place]);
        }
    }
}

// What the processors write, cell by cell.
fn own_writes<R: WriteRule>(
    rule: &R,
    code: &Code,
    instr: Instr,
    u: &UniformState,
    processors: &[ProcessorState],
    held: &mut Vec<Option<Entry>>,
)
    requires room { length processors.now ≡ u.now.width }
    requires none { (c : ℕ) → held_of held.old.items c ≡ None }
    ensures cells { length held.new.items ≡ length held.old.items }
    ensures written { (c : ℕ) → c < length held.old.items → held_of held.new.items c
        ≡ total None (spec_join (R.rule rule.now)) (λ v. single_to (R.rule rule.now) c (spec.index_of (uniform_of u.now) v)
        (spec.own_write code.now instr (own_of processors.now v))) (range_with_len 0 u.now.width) }
{
    let mut v = u.width;
    'processors: while v > 0 {
        v -= 1;
        let write = own_write(code, instr, &processors[v as usize]);
        add_write(rule, held, index_of(u, v), write);
    }
}

// All writes of an instruction. It is run under the rule of the code, which is matched once for all of them.
struct Writes<'a> {
    code: &'a Code,
    instr: Instr,
    machine: &'a Machine,
    held: Vec<Option<Entry>>,
}

impl<'a> RuleBody for Writes<'a> {
    ghost use Rattle.std.specs.Prelude.{◌≡◌, ◌<◌, ℕ, None, length};
    ghost use Rattle.flat_machine.specs.Flat.{written as spec_written};
    ghost use Rattle.flat_run.specs.Views.{flat_of, held_of, IsSized};

    type Answer = Vec<Option<Entry>>;

    ghost can_run = { λ b rule. (rule ≡ b.code.now.rule) × IsSized b.code.now b.machine.now × ((c : ℕ) → held_of b.held.items c ≡ None) };

    ghost gives = { λ b rule held. (length held.items ≡ length b.held.items) × ((c : ℕ) → c < length b.held.items →
        held_of held.items c ≡ spec_written b.code.now b.instr (flat_of b.machine.now) c) };

    fn run<R: WriteRule>(self, rule: &R) -> Vec<Option<Entry>> {
        let Writes {
            code,
            instr,
            machine,
            mut held,
        } = self;
        let u = &machine.uniform;
        own_writes(rule, code, instr, u, &machine.processors, &mut held);
        let write = uniform_write(code, instr, u);
        add_write(rule, &mut held, 0, write);
        held
    }
}

/// Nothing is held for any cell.
pub fn none_held(alloc: Global, cells: u32) -> Result<Vec<Option<Entry>>, AllocError>
    ensures cells { IfOk result (λ held. length held.items ≡ cells) }
    ensures none { IfOk result (λ held. (c : ℕ) → held_of held.items c ≡ None) }
{
    vec![in alloc; None; cells as usize]
}

// Each processor does an instruction.
fn step_processors(
    code: &Code,
    instr: Instr,
    u: &UniformState,
    processors: &mut Vec<ProcessorState>,
) -> Result<(), AllocError>
    requires { length processors.old.items ≡ u.now.width }
    ensures count { OnOk result (length processors.new.items ≡ u.now.width) }
    ensures each { OnOk result ((v : ℕ) → v < u.now.width →
        own_of processors.new.items v ≡ spec.on_own code.now instr (uniform_of u.now) v (own_of processors.old.items v)) }
{
    'processors: for v in 0..u.width {
        step_own(code, instr, u, v, &mut processors[v as usize])?;
    }
    Ok(())
}

// The processors of a new range.
fn fresh_processors(alloc: Global, width: u32) -> Result<Vec<ProcessorState>, AllocError>
    ensures count { IfOk result (λ all. length all.items ≡ width) }
    ensures each { IfOk result (λ all. (v : ℕ) → own_of all.items v ≡ spec_fresh) }
{
    let mut all = Vec::new(alloc);
    for _ in 0..width {
        all.push(fresh(alloc))?;
    }
    Ok(all)
}

// Whether each processor gets a new part.
fn renews(instr: Instr) -> bool
    ensures { result ≡ spec.renews instr }
{
    match instr {
        Instr::Enter { .. } | Instr::Leave => true,
        _ => false,
    }
}

fn is_put(instr: Instr) -> bool
    ensures { result ≡ spec.is_put instr }
{
    match instr {
        Instr::Put { .. } => true,
        _ => false,
    }
}

// The least key that is noted in an instruction.
fn noted(code: &Code, instr: Instr, machine: &Machine) -> Option<Key>
    requires { IsSized code.now machine.now }
    ensures { result ≡ spec_noted code.now instr (flat_of machine.now) }
{
    least(
        uniform_key(code, instr, &machine.uniform),
        own_keys(code, instr, &machine.uniform, &machine.processors),
    )
}

// What the writers come to, cell by cell: the uniform part writes as processor 0.
fn written(
    alloc: Global,
    code: &Code,
    instr: Instr,
    machine: &Machine,
) -> Result<Vec<Option<Entry>>, AllocError>
    requires { IsSized code.now machine.now }
    ensures cells { IfOk result (λ held. length held.items ≡ total_size code.now.layout) }
    ensures each { IfOk result (λ held. (c : ℕ) → c < total_size code.now.layout →
        held_of held.items c ≡ spec_written code.now instr (flat_of machine.now) c) }
{
    let held = none_held(alloc, code.layout().cells())?;
    Ok(under(
        code.rule(),
        Writes {
            code,
            instr,
            machine,
            held,
        },
    ))
}

// What an instruction does to the uniform part and to the processors.
fn step_parts(
    alloc: Global,
    code: &Code,
    instr: Instr,
    u: &mut UniformState,
    processors: &mut Vec<ProcessorState>,
) -> Result<(), AllocError>
    requires sized { length processors.old.items ≡ u.old.width }
    requires places { 2 ^ 16 ≤ length u.old.registers.items }
    requires room { HasRoom instr u.old.count }
    ensures uniform { OnOk result (uniform_of u.new ≡ spec.on_uniform code.now instr (uniform_of u.old)) }
    ensures registers { OnOk result (length u.new.registers.items ≡ length u.old.registers.items) }
    ensures count { OnOk result (length processors.new.items ≡ u.new.width) }
    ensures each { OnOk result ((v : ℕ) → v < u.new.width → own_of processors.new.items v
        ≡ (if spec.renews instr then spec_fresh else spec.on_own code.now instr (uniform_of u.old) v (own_of processors.old.items v))) }
{
    instr.operands_fit();
    if renews(instr) {
        step_uniform(u, code, instr)?;
        *processors = fresh_processors(alloc, u.width)?;
    } else {
        step_processors(code, instr, u, processors)?;
        step_uniform(u, code, instr)?;
    }
    Ok(())
}

// What is held after an instruction.
fn hold(alloc: Global, code: &Code, instr: Instr, machine: &mut Machine) -> Result<(), AllocError>
    requires { IsSized code.now machine.old }
    ensures held { OnOk result (held_of machine.new.held.items ≡ (after_instr code.now instr (flat_of machine.old)).held) }
    ensures cells { OnOk result (length machine.new.held.items ≡ total_size code.now.layout) }
    ensures others { OnOk result (machine.new ≡ record machine.old { held = machine.new.held }) }
{
    if is_put(instr) {
        machine.held = written(alloc, code, instr, machine)?;
    }
    Ok(())
}

/// What an instruction does to the machine.
pub fn instruct(
    alloc: Global,
    code: &Code,
    instr: Instr,
    machine: &mut Machine,
) -> Result<(), AllocError>
    requires sized { IsSized code.now machine.old }
    requires room { HasRoom instr machine.old.uniform.count }
    ensures sized { OnOk result (IsSized code.now machine.new) }
    ensures same { OnOk result (AreSame (flat_of machine.new) (after_instr code.now instr (flat_of machine.old))) }
{
    let key = least(machine.key, noted(code, instr, machine));
    hold(alloc, code, instr, machine)?;
    machine.key = key;
    step_parts(
        alloc,
        code,
        instr,
        &mut machine.uniform,
        &mut machine.processors,
    )?;
    Ok(())
}
