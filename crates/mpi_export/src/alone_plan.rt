//! Plans that are ready to be written for one memory.

ghost use Rattle.std.specs.Prelude.{◌≡◌, ◌<◌, ◌≤◌, ◌^◌, ◌&&◌, ℕ, IfOk, length, take};
ghost use Rattle.std.proofs.Common.{eqb};
ghost use Rattle.superstep_instructions.specs.Code.{SuperstepCode};
ghost use Rattle.mpi_export.specs.Loops as spec;
ghost use Rattle.mpi_export.specs.Prepared.{flag_of, loop_of};

use crate::loops::{Loop, goes_on, is_in, is_of_each, result_of};
use crate::marks::{columns, keeps_index, targets};
use crate::row::Row;
use std::alloc::{AllocError, Global};
use std::marker::Model;
use superstep_instructions::{Code, Instr};

/// A plan with all that its text for one memory needs, so that writing it takes no memory.
#[derive(Drop)]
pub struct AlonePlan {
    pub(crate) code: Code,
    pub(crate) rows: Vec<Row>,
    pub(crate) columns: Vec<bool>,
    pub(crate) index: bool,
}

impl Model for AlonePlan {
    ghost use Rattle.superstep_instructions.specs.Code.{SuperstepCode};
    ghost use Rattle.mpi_export.specs.Prepared.{IsPrepared};

    ghost Value = { SuperstepCode };

    ghost view = { λ p. p.code };

    ghost invariant = { λ p. IsPrepared p.code p.rows.items p.columns.items p.index };
}

// Whether a loop hasn't set a register, where there is one.
fn is_fresh(register: Option<u16>, set: &[u16]) -> bool
    ensures { result ≡ spec.is_fresh register set.now }
{
    match register {
        Some(register) => !is_in(register, set),
        None => false,
    }
}

// The row of an instruction; the loop becomes that which it stands in.
fn row(here: &mut Loop, target: bool, instr: Instr) -> Row
    requires { here.old.count ≤ length here.old.set.items }
    ensures row { result ≡ spec.row_of target (loop_of here.old) instr }
    ensures state { loop_of here.new ≡ spec.begun target (loop_of here.old) instr }
    ensures room { (here.new.set ≡ here.old.set) × (here.new.count ≤ here.old.count) }
{
    let stays = goes_on(target, here.is_open, instr);
    let ends = here.is_open && !stays;
    here.begin(target, instr);
    Row {
        instr,
        ends,
        target,
        begins: is_of_each(instr) && !stays,
        fresh: is_fresh(result_of(instr), &here.set[..here.count]),
    }
}

// The rows of all instructions.
fn rows(alloc: Global, code: &Code, targets: &[bool]) -> Result<Vec<Row>, AllocError>
    requires long { length targets.now ≡ 2 ^ 16 }
    requires flags { (t : ℕ) → flag_of targets.now t ≡ spec.is_target code.now t }
    ensures { IfOk result (λ rows. rows.items ≡ spec.rows_of code.now) }
{
    let instructions = code.instructions();
    let mut here = Loop::none(alloc, instructions.len())?;
    let mut rows = Vec::new(alloc);
    for at in 0..instructions.len() {
        let instr = instructions[at];
        rows.push(row(&mut here, targets[at], instr))?;
        here.pass(code.rule(), instr);
    }
    Ok(rows)
}

impl AlonePlan {
    /// The plan of code; `AllocError` where memory was refused.
    pub fn new(alloc: Global, code: Code) -> Result<AlonePlan, AllocError>
        // The plan is that of this code.
        ensures code { IfOk result (λ plan. plan ≡ code) }
    {
        let targets = targets(alloc, code.instructions())?;
        let columns = columns(alloc, &code, &targets)?;
        let rows = rows(alloc, &code, &targets)?;
        let index = keeps_index(code.instructions());
        Ok(AlonePlan {
            code,
            rows,
            columns,
            index,
        })
    }

    pub(crate) fn rows(&self) -> &[Row]
        ensures rows { result.now ≡ spec.rows_of self.now }
    {
        &self.rows
    }

    /// The code.
    pub fn code(&self) -> &Code
        ensures value { result.now ≡ self.now }
    {
        &self.code
    }
}
