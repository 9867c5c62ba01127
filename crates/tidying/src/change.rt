//! The instruction of the other code.

ghost use Rattle.std.specs.Prelude.{◌≡◌};
ghost use Rattle.tidying.specs.Certificates as spec;
ghost use Rattle.tidying.specs.Shown.{item_of, number_of, row_of};

use crate::certificate::{Constants, item, number, place};
use superstep_instructions::{Instr, Side};

// Where a register of a side lies.
fn lies(uniform: &[Option<u16>], active: &[Option<u16>], side: Side, register: u16) -> Option<u16>
    ensures { result ≡ spec.by_side side (row_of uniform.now) (row_of active.now) register }
{
    match side {
        Side::Uniform => place(uniform, register),
        Side::Private => place(active, register),
    }
}

// The register that is read in place of one.
fn source(uniform: &[Option<u16>], active: &[Option<u16>], side: Side, register: u16) -> u16
    ensures { result ≡ spec.place_of side (row_of uniform.now) (row_of active.now) register }
{
    match lies(uniform, active, side, register) {
        Some(place) => place,
        None => 0,
    }
}

/// The instruction that reads where its registers lie, computes into `into`, and leads to where its target went.
pub(crate) fn changed(
    uniform: &[Option<u16>],
    active: &[Option<u16>],
    into: u16,
    moved: &[u16],
    instr: Instr,
) -> Instr
    ensures { result ≡ spec.changed (row_of uniform.now) (row_of active.now) into (item_of moved.now) instr }
{
    match instr {
        Instr::Set { side, value, .. } => Instr::Set {
            side,
            destination: into,
            value,
        },
        Instr::Copy {
            side,
            source: s,
            ..
        } => Instr::Copy {
            side,
            destination: into,
            source: source(uniform, active, side, s),
        },
        Instr::Negate {
            side,
            source: s,
            position,
            ..
        } => Instr::Negate {
            side,
            destination: into,
            source: source(uniform, active, side, s),
            position,
        },
        Instr::Calculate {
            side,
            operation,
            left,
            right,
            position,
            ..
        } => Instr::Calculate {
            side,
            operation,
            destination: into,
            left: source(uniform, active, side, left),
            right: source(uniform, active, side, right),
            position,
        },
        Instr::Decide {
            side,
            operation,
            left,
            right,
            ..
        } => Instr::Decide {
            side,
            operation,
            destination: into,
            left: source(uniform, active, side, left),
            right: source(uniform, active, side, right),
        },
        Instr::Not {
            side,
            source: s,
            ..
        } => Instr::Not {
            side,
            destination: into,
            source: source(uniform, active, side, s),
        },
        Instr::CopyUniform { source: s, .. } => Instr::CopyUniform {
            destination: into,
            source: source(uniform, active, Side::Uniform, s),
        },
        Instr::Index { .. } => Instr::Index { destination: into },
        Instr::Enter {
            low,
            high,
            position,
        } => Instr::Enter {
            low: source(uniform, active, Side::Uniform, low),
            high: source(uniform, active, Side::Uniform, high),
            position,
        },
        Instr::Mask { source: s } => Instr::Mask {
            source: source(uniform, active, Side::Private, s),
        },
        Instr::Ask {
            side,
            destination,
            entry,
            subscript,
            position,
        } => Instr::Ask {
            side,
            destination,
            entry,
            subscript: source(uniform, active, side, subscript),
            position,
        },
        Instr::Put {
            side,
            entry,
            subscript,
            value,
            position,
        } => Instr::Put {
            side,
            entry,
            subscript: source(uniform, active, side, subscript),
            value: source(uniform, active, side, value),
            position,
        },
        Instr::Print { source: s } => Instr::Print {
            source: source(uniform, active, Side::Uniform, s),
        },
        Instr::Jump { target } => Instr::Jump {
            target: item(moved, target as usize),
        },
        Instr::JumpIfZero { source: s, target } => Instr::JumpIfZero {
            source: source(uniform, active, Side::Uniform, s),
            target: item(moved, target as usize),
        },
        _ => instr,
    }
}

// Whether it's known where a register lies.
fn is_known(uniform: &[Option<u16>], active: &[Option<u16>], side: Side, register: u16) -> bool
    ensures { result ≡ spec.is_known side (row_of uniform.now) (row_of active.now) register }
{
    lies(uniform, active, side, register).is_some()
}

// Whether a register lies in its place.
fn is_at(uniform: &[Option<u16>], active: &[Option<u16>], side: Side, register: u16) -> bool
    ensures { result ≡ spec.is_at register (spec.by_side side (row_of uniform.now) (row_of active.now) register) }
{
    match lies(uniform, active, side, register) {
        Some(place) => register == place,
        None => false,
    }
}

/// Whether all is known that has to be to change an instruction: where the registers lie that it reads, and of a read that the
/// register that
/// it's for lies in its place and has no number of its own.
pub(crate) fn knows(
    constants: &Constants,
    uniform: &[Option<u16>],
    active: &[Option<u16>],
    instr: Instr,
) -> bool
    ensures { result ≡ spec.knows (number_of constants.now) (row_of uniform.now) (row_of active.now) instr }
{
    match instr {
        Instr::Copy { side, source, .. }
        | Instr::Negate { side, source, .. }
        | Instr::Not { side, source, .. } => is_known(uniform, active, side, source),
        Instr::Calculate {
            side,
            left,
            right,
            ..
        }
        | Instr::Decide {
            side,
            left,
            right,
            ..
        } => is_known(uniform, active, side, left) && is_known(uniform, active, side, right),
        Instr::CopyUniform { source, .. }
        | Instr::Print { source }
        | Instr::JumpIfZero { source, .. } => is_known(uniform, active, Side::Uniform, source),
        Instr::Enter { low, high, .. } => {
            is_known(uniform, active, Side::Uniform, low)
                && is_known(uniform, active, Side::Uniform, high)
        }
        Instr::Mask { source } => is_known(uniform, active, Side::Private, source),
        Instr::Ask {
            side,
            destination,
            subscript,
            ..
        } => {
            is_known(uniform, active, side, subscript)
                && (is_at(uniform, active, side, destination)
                    && (number(constants, Side::Uniform, destination).is_none()
                        && number(constants, Side::Private, destination).is_none()))
        }
        Instr::Put {
            side,
            subscript,
            value,
            ..
        } => {
            is_known(uniform, active, side, subscript) && is_known(uniform, active, side, value)
        }
        _ => true,
    }
}
