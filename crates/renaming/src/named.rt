//! The registers that an instruction names.

ghost use Rattle.std.specs.Prelude.{◌≡◌};
ghost use Rattle.renaming.specs.Named as spec;

use superstep_instructions::{Instr, Side};

// A register of this side, where one of that is asked for.
fn of(asked: Side, side: Side, register: u16) -> Option<u16>
    ensures { result ≡ spec.of asked side register }
{
    match (asked, side) {
        (Side::Uniform, Side::Uniform) => Some(register),
        (Side::Private, Side::Private) => Some(register),
        _ => None,
    }
}

/// The registers of a side that an instruction names.
pub(crate) fn named(asked: Side, instr: Instr) -> [Option<u16>; 3]
    ensures { result ≡ spec.named asked instr }
{
    match instr {
        Instr::Set {
            side,
            destination,
            ..
        } => [of(asked, side, destination), None, None],
        Instr::Copy {
            side,
            destination,
            source,
        }
        | Instr::Negate {
            side,
            destination,
            source,
            ..
        }
        | Instr::Not {
            side,
            destination,
            source,
        } => [of(asked, side, destination), of(asked, side, source), None],
        Instr::Ask {
            side,
            destination,
            subscript,
            ..
        } => [
            of(asked, side, destination),
            of(asked, side, subscript),
            None,
        ],
        Instr::Put {
            side,
            subscript,
            value,
            ..
        } => [of(asked, side, subscript), of(asked, side, value), None],
        Instr::Calculate {
            side,
            destination,
            left,
            right,
            ..
        }
        | Instr::Decide {
            side,
            destination,
            left,
            right,
            ..
        } => [
            of(asked, side, destination),
            of(asked, side, left),
            of(asked, side, right),
        ],
        Instr::CopyUniform {
            destination,
            source,
        } => [
            of(asked, Side::Private, destination),
            of(asked, Side::Uniform, source),
            None,
        ],
        Instr::Index { destination } => [of(asked, Side::Private, destination), None, None],
        Instr::Mask { source } => [of(asked, Side::Private, source), None, None],
        Instr::Enter { low, high, .. } => [
            of(asked, Side::Uniform, low),
            of(asked, Side::Uniform, high),
            None,
        ],
        Instr::Vote { destination } => [of(asked, Side::Uniform, destination), None, None],
        Instr::Print { source } | Instr::JumpIfZero { source, .. } => [
            of(asked, Side::Uniform, source),
            None,
            None,
        ],
        _ => [None, None, None],
    }
}
