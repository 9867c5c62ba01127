//! A processor, and what an instruction does to it.

ghost use Rattle.std.specs.Prelude.{◌≡◌, ◌<◌, ◌++◌, ◌∷◌, [], ◌&&◌, None, OnOk, reverse};
ghost use Rattle.pram_values.specs.Truth.{is_nonzero};
ghost use Rattle.superstep_machine.specs.Parts.{fresh as spec_fresh};
ghost use Rattle.superstep_machine.specs.Steps as spec;
ghost use Rattle.instruction_steps.specs.Views.{uniform_of};
ghost use Rattle.flat_run.specs.Views.{part_of};

use instruction_steps::{
    UniformState, computed_on, index_of, register, set_number, set_result, zero_without,
};
use pram_values::is_true;
use std::alloc::{AllocError, Global};
use superstep_instructions::{Code, Instr, Side};

/// The part of one processor: its registers; for each mask, the last one at the end, whether it is
/// active under it; and for each read of the uniform part's lists the cell that it asks for, if it
/// asks for one.
#[derive(Drop)]
pub struct ProcessorState {
    pub registers: Vec<i64>,
    pub masks: Vec<bool>,
    pub asks: Vec<Option<u32>>,
    pub awaited: Vec<Option<u32>>,
}

/// A processor of a new range.
pub fn fresh(alloc: Global) -> ProcessorState
    ensures { part_of result ≡ spec_fresh }
{
    ProcessorState {
        registers: Vec::new(alloc),
        masks: Vec::new(alloc),
        asks: Vec::new(alloc),
        awaited: Vec::new(alloc),
    }
}

// Whether a processor is active under these masks.
fn under(masks: &[bool]) -> bool
    ensures { result ≡ spec.under (reverse masks.now) }
{
    let depth = masks.len();
    if depth == 0 {
        return true;
    }
    masks[depth - 1]
}

/// Whether it is active.
pub fn is_active(x: &ProcessorState) -> bool
    ensures { result ≡ spec.is_active (part_of x.now) }
{
    under(&x.masks)
}

// The last mask is turned round.
fn flip(masks: &mut Vec<bool>) -> Result<(), AllocError>
    ensures { OnOk result (reverse masks.new.items ≡ spec.flipped (reverse masks.old.items)) }
{
    if let Some(active) = masks.pop() {
        let turned = under(masks) && !active;
        masks.push(turned)?;
    }
    Ok(())
}

// The last mask is taken off.
fn unmask(masks: &mut Vec<bool>)
    ensures { reverse masks.new.items ≡ spec.unmasked (reverse masks.old.items) }
{
    let _ = masks.pop();
}

/// The cell that it asks for or writes to.
pub fn cell_for(code: &Code, entry: u16, subscript: u16, x: &ProcessorState) -> Option<u32>
    ensures { result ≡ spec.cell_for code.now entry subscript (part_of x.now) }
{
    code.layout()
        .cell(entry as usize, register(&x.registers, subscript))
}

// A read, of which it has the place in its list.
fn ask(
    code: &Code,
    destination: u16,
    entry: u16,
    subscript: u16,
    x: &mut ProcessorState,
) -> Result<(), AllocError>
    ensures { OnOk result (part_of x.new ≡ record (part_of x.old) {
      registers = spec.zero_without (spec.cell_for code.now entry subscript (part_of x.old)) destination (part_of x.old).registers;
      asks = (part_of x.old).asks ++ spec.cell_for code.now entry subscript (part_of x.old) ∷ [];
    }) }
{
    let cell = cell_for(code, entry, subscript, x);
    zero_without(&mut x.registers, cell, destination)?;
    x.asks.push(cell)?;
    Ok(())
}

// What an instruction does to a processor that is active.
fn step_active(
    code: &Code,
    instr: Instr,
    u: &UniformState,
    v: u32,
    x: &mut ProcessorState,
) -> Result<(), AllocError>
    requires { v < u.now.width }
    ensures { OnOk result (part_of x.new ≡ spec.on_active code.now instr (uniform_of u.now) v (part_of x.old)) }
{
    match instr {
        Instr::CopyUniform {
            destination,
            source,
        } => set_number(
            &mut x.registers,
            destination,
            register(&u.registers, source),
        ),
        Instr::Index { destination } => set_number(&mut x.registers, destination, index_of(u, v)),
        Instr::Ask {
            side: Side::Private,
            destination,
            entry,
            subscript,
            position: _,
        } => ask(code, destination, entry, subscript, x),
        _ => {
            let computed = computed_on(Side::Private, instr, &x.registers);
            set_result(&mut x.registers, computed)
        }
    }
}

// A mask is laid on it.
fn mask(x: &mut ProcessorState, source: u16) -> Result<(), AllocError>
    ensures { OnOk result (part_of x.new ≡ record (part_of x.old) {
      masks =
          (spec.is_active (part_of x.old) && is_nonzero ((part_of x.old).registers source)) ∷ (part_of x.old).masks;
    }) }
{
    let active = is_active(x) && is_true(register(&x.registers, source));
    x.masks.push(active)?;
    Ok(())
}

// It has no part in a read.
fn pass_over(x: &mut ProcessorState) -> Result<(), AllocError>
    ensures { OnOk result (part_of x.new ≡ record (part_of x.old) { asks = (part_of x.old).asks ++ None ∷ [] }) }
{
    x.asks.push(None)?;
    Ok(())
}

/// What an instruction does to the v-th processor. Every read has a place in its list, also where
/// the processor doesn't make it.
pub fn step_own(
    code: &Code,
    instr: Instr,
    u: &UniformState,
    v: u32,
    x: &mut ProcessorState,
) -> Result<(), AllocError>
    requires { v < u.now.width }
    ensures { OnOk result (part_of x.new ≡ spec.on_own code.now instr (uniform_of u.now) v (part_of x.old)) }
{
    match instr {
        Instr::Mask { source } => mask(x, source),
        Instr::Flip => flip(&mut x.masks),
        Instr::Unmask => {
            unmask(&mut x.masks);
            Ok(())
        }
        Instr::Ask {
            side: Side::Uniform,
            ..
        } => pass_over(x),
        Instr::Ask {
            side: Side::Private,
            ..
        } => {
            if is_active(x) {
                step_active(code, instr, u, v, x)
            } else {
                pass_over(x)
            }
        }
        _ => {
            if is_active(x) {
                step_active(code, instr, u, v, x)
            } else {
                Ok(())
            }
        }
    }
}
