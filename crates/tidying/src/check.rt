//! The check of a certificate, place by place.

ghost use Rattle.std.specs.Prelude.{◌≡◌, ◌+◌, ◌<◌, ◌^◌, ℕ, true, Some, slice_get};
ghost use Rattle.bsp_verify.specs.Control.{Leads};
ghost use Rattle.tidying.specs.Rows.{Refines};
ghost use Rattle.tidying.specs.Certificates.{AreRefined, IsKept, IsLeftOut, rows_then};
ghost use Rattle.tidying.specs.Shown.{number_of, part_of, row_of, rows_behind, rows_of, shown};

use crate::certificate::{Certificate, Constants, Known, item};
use crate::change::{changed, knows};
use crate::rows::{Part, all_behind, behind};
use crate::same::are_same;
use superstep_instructions::{Code, Instr};

// Whether all that a row says is known behind an instruction.
fn is_refined(
    there: &[Option<u16>],
    without: bool,
    part: Part,
    constants: &Constants,
    into: u16,
    known: &Known,
    instr: Instr,
) -> bool
    ensures { result ≡ true → Refines (row_of there.now) (part_of part (rows_behind without (number_of constants.now) into
        (rows_of known.now) instr)) }
{
    if there.len() > 65536 {
        return false;
    }
    for s in 0..there.len() {
        if let Some(place) = there[s] {
            match behind(without, part, constants, into, known, instr, s as u16) {
                Some(other) if place == other => {}
                _ => return false,
            }
        }
    }
    true
}

// Whether all that is known at a place is known behind an instruction.
fn are_refined(
    there: &Known,
    without: bool,
    constants: &Constants,
    into: u16,
    known: &Known,
    instr: Instr,
) -> bool
    ensures { result ≡ true → AreRefined (rows_of there.now) (rows_behind without (number_of constants.now) into
        (rows_of known.now) instr) }
{
    is_refined(
        &there.uniform,
        without,
        Part::Uniform,
        constants,
        into,
        known,
        instr,
    ) && is_refined(
        &there.active,
        without,
        Part::Active,
        constants,
        into,
        known,
        instr,
    ) && is_refined(
        &there.idle,
        without,
        Part::Idle,
        constants,
        into,
        known,
        instr,
    ) && (!there.all || all_behind(without, known.all, instr))
}

// Whether all that is known at a place is known behind the instruction of another.
fn passes(c: &Certificate, without: bool, at: usize, instr: Instr, target: usize) -> bool
    ensures { result ≡ true → AreRefined ((shown c.now).at target) (rows_behind without (number_of c.now.constants)
        ((shown c.now).into at) ((shown c.now).at at) instr) }
{
    match (c.known.get(target), c.known.get(at)) {
        (Some(there), Some(known)) => {
            let into = item(&c.into, at);
            are_refined(there, without, &c.constants, into, known, instr)
        }
        _ => false,
    }
}

// Whether all that is known at the successors of an instruction of both codes is known behind it.
fn all_pass(c: &Certificate, at: usize, instr: Instr) -> bool
    requires { at < 2 ^ 16 }
    ensures { result ≡ true → ((t : ℕ) → Leads instr at t → AreRefined ((shown c.now).at t) (rows_then (number_of c.now.constants)
        ((shown c.now).into at) ((shown c.now).at at) instr)) }
{
    match instr {
        Instr::Halt => true,
        Instr::Jump { target } => passes(c, false, at, instr, target as usize),
        Instr::JumpIfZero { target, .. } => {
            passes(c, false, at, instr, target as usize) && passes(c, false, at, instr, at + 1)
        }
        _ => passes(c, false, at, instr, at + 1),
    }
}

// Whether an instruction stands at a place.
fn stands(instructions: &[Instr], at: usize, instr: Instr) -> bool
    ensures { result ≡ true → slice_get instructions.now at ≡ Some instr }
{
    match instructions.get(at).copied() {
        Some(other) => are_same(other, instr),
        None => false,
    }
}

// Whether both codes have an instruction, as the certificate says, of which this is known at its place.
fn is_kept_where(c: &Certificate, known: &Known, short: &Code, at: usize, instr: Instr) -> bool
    requires few { at < 2 ^ 16 }
    requires known { (shown c.now).at at ≡ rows_of known.now }
    ensures { result ≡ true → IsKept (shown c.now) short.now at instr }
{
    let here = item(&c.moved, at);
    let next = item(&c.moved, at + 1);
    let into = item(&c.into, at);
    let other = changed(&known.uniform, &known.active, into, &c.moved, instr);
    if !knows(&c.constants, &known.uniform, &known.active, instr) {
        return false;
    }
    if !stands(short.instructions(), here as usize, other) {
        return false;
    }
    if next as u32 != here as u32 + 1 {
        return false;
    }
    all_pass(c, at, instr)
}

/// Whether both codes have an instruction, as the certificate says.
pub(crate) fn is_kept(c: &Certificate, short: &Code, at: usize, instr: Instr) -> bool
    requires { at < 2 ^ 16 }
    ensures { result ≡ true → IsKept (shown c.now) short.now at instr }
{
    match c.known.get(at) {
        Some(known) => is_kept_where(c, known, short, at, instr),
        None => false,
    }
}

/// Whether the other code hasn't got an instruction, as the certificate says.
pub(crate) fn is_left_out(c: &Certificate, at: usize, instr: Instr) -> bool
    requires { at < 2 ^ 16 }
    ensures { result ≡ true → IsLeftOut (shown c.now) at instr }
{
    matches!(instr, Instr::Set { .. } | Instr::Copy { .. })
        && item(&c.moved, at + 1) == item(&c.moved, at)
        && passes(c, true, at, instr, at + 1)
}
