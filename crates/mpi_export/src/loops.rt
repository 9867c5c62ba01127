//! Which instructions stand in one loop over the active processors.

ghost use Rattle.std.specs.Prelude.{◌≡◌, ◌<◌, ◌≤◌, ◌+◌, ◌&&◌, not, length, take, IfOk};
ghost use Rattle.mpi_export.specs.Loops as spec;
ghost use Rattle.mpi_export.specs.Parts.{parts_of};
ghost use Rattle.mpi_export.specs.Prepared as shown;

use crate::parts::{Part, parts};
use pram_model::Rule;
use std::alloc::{AllocError, Global};
use superstep_instructions::{Instr, Side};

/// Whether a loop is open, and the first few of a row of registers, which were set in it.
#[derive(Drop)]
pub(crate) struct Loop {
    pub(crate) is_open: bool,
    pub(crate) set: Vec<u16>,
    pub(crate) count: usize,
}

fn is_private(side: Side) -> bool
    ensures { result ≡ spec.is_private side }
{
    matches!(side, Side::Private)
}

/// Whether each active processor does an instruction.
pub(crate) fn is_of_each(instr: Instr) -> bool
    ensures { result ≡ spec.is_of_each instr }
{
    match instr {
        Instr::Set { side, .. }
        | Instr::Copy { side, .. }
        | Instr::Negate { side, .. }
        | Instr::Calculate { side, .. }
        | Instr::Decide { side, .. }
        | Instr::Not { side, .. }
        | Instr::Ask { side, .. }
        | Instr::Put { side, .. } => is_private(side),
        Instr::CopyUniform { .. } | Instr::Index { .. } | Instr::Mask { .. } => true,
        _ => false,
    }
}

// Whether an instruction may stand in a loop.
fn may_stand(instr: Instr) -> bool
    ensures { result ≡ spec.may_stand instr }
{
    match instr {
        Instr::Send | Instr::Reply => true,
        _ => is_of_each(instr),
    }
}

// Whether a loop ends behind an instruction.
fn ends_loop(rule: Rule, instr: Instr) -> bool
    ensures { result ≡ spec.ends_loop rule instr }
{
    match instr {
        Instr::Mask { .. } => true,
        Instr::Put { side, .. } => is_private(side),
        Instr::Ask { side, .. } => is_private(side) && matches!(rule, Rule::Erew),
        _ => false,
    }
}

/// The private register that gets an instruction's result.
pub(crate) fn result_of(instr: Instr) -> Option<u16>
    ensures { result ≡ spec.result_of (parts_of instr) }
{
    let (parts, count) = parts(instr);
    match &parts[..count] {
        [Part::Into(register), ..] => Some(*register),
        _ => None,
    }
}

/// Whether a register is in a list.
pub(crate) fn is_in(register: u16, set: &[u16]) -> bool
    ensures { result ≡ spec.is_in register set.now }
{
    set.contains(&register)
}

/// Whether an instruction stands in the loop that is open.
pub(crate) fn goes_on(is_target: bool, opened: bool, instr: Instr) -> bool
    ensures { result ≡ (opened && (not is_target && spec.may_stand instr)) }
{
    opened && !is_target && may_stand(instr)
}

impl Loop {
    /// No loop, with room for so many registers.
    pub(crate) fn none(alloc: Global, room: usize) -> Result<Loop, AllocError>
        ensures state { IfOk result (λ here. shown.loop_of here ≡ spec.no_loop) }
        ensures room { IfOk result (λ here. (length here.set.items ≡ room) × (here.count ≡ 0)) }
    {
        let set = vec![in alloc; 0; room]?;
        Ok(Loop {
            is_open: false,
            set,
            count: 0,
        })
    }

    /// It becomes the loop that an instruction stands in.
    pub(crate) fn begin(&mut self, is_target: bool, instr: Instr)
        ensures state { shown.loop_of self.new ≡ spec.begun is_target (shown.loop_of self.old) instr }
        ensures room { (self.new.set ≡ self.old.set) × (self.new.count ≤ self.old.count) }
    {
        if !goes_on(is_target, self.is_open, instr) {
            self.is_open = is_of_each(instr);
            self.count = 0;
        }
    }

    // Adds a register, unless it is there.
    fn add(&mut self, register: u16)
        requires { self.old.count < length self.old.set.items }
        ensures set { take self.new.count self.new.set.items ≡ spec.with_register register (take self.old.count self.old.set.items) }
        ensures opened { self.new.is_open ≡ self.old.is_open }
        ensures room { (length self.new.set.items ≡ length self.old.set.items) × (self.new.count ≤ self.old.count + 1) }
    {
        if !is_in(register, &self.set[..self.count]) {
            self.set[self.count] = register;
            self.count += 1;
        }
    }

    /// It becomes the loop behind an instruction that stands in it.
    pub(crate) fn pass(&mut self, rule: Rule, instr: Instr)
        requires { self.old.count < length self.old.set.items }
        ensures state { shown.loop_of self.new ≡ spec.passed rule (shown.loop_of self.old) instr }
        ensures room { (length self.new.set.items ≡ length self.old.set.items) × (self.new.count ≤ self.old.count + 1) }
    {
        self.is_open = self.is_open && !ends_loop(rule, instr);
        if let Some(register) = result_of(instr) {
            self.add(register);
        }
    }
}
