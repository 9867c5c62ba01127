//! Instructions whose registers have their new numbers.

ghost use Rattle.std.specs.Prelude.{◌≡◌};
ghost use Rattle.renaming.specs.Renamed as spec;
ghost use Rattle.renaming.specs.Numbers.{AreNumbers, number_of};

use crate::numbers::Numbers;
use superstep_instructions::Instr;

/// The instruction with the new numbers of its registers.
pub(crate) fn renamed(instr: Instr, numbers: &Numbers) -> Instr
    requires { AreNumbers numbers.now }
    ensures { result ≡ spec.renamed (number_of numbers.now) instr }
{
    match instr {
        Instr::Set {
            side,
            destination,
            value,
        } => Instr::Set {
            side,
            destination: numbers.number(destination),
            value,
        },
        Instr::Copy {
            side,
            destination,
            source,
        } => Instr::Copy {
            side,
            destination: numbers.number(destination),
            source: numbers.number(source),
        },
        Instr::Negate {
            side,
            destination,
            source,
            position,
        } => Instr::Negate {
            side,
            destination: numbers.number(destination),
            source: numbers.number(source),
            position,
        },
        Instr::Calculate {
            side,
            operation,
            destination,
            left,
            right,
            position,
        } => Instr::Calculate {
            side,
            operation,
            destination: numbers.number(destination),
            left: numbers.number(left),
            right: numbers.number(right),
            position,
        },
        Instr::Decide {
            side,
            operation,
            destination,
            left,
            right,
        } => Instr::Decide {
            side,
            operation,
            destination: numbers.number(destination),
            left: numbers.number(left),
            right: numbers.number(right),
        },
        Instr::Not {
            side,
            destination,
            source,
        } => Instr::Not {
            side,
            destination: numbers.number(destination),
            source: numbers.number(source),
        },
        Instr::CopyUniform {
            destination,
            source,
        } => Instr::CopyUniform {
            destination: numbers.number(destination),
            source: numbers.number(source),
        },
        Instr::Index { destination } => Instr::Index {
            destination: numbers.number(destination),
        },
        Instr::Enter {
            low,
            high,
            position,
        } => Instr::Enter {
            low: numbers.number(low),
            high: numbers.number(high),
            position,
        },
        Instr::Mask { source } => Instr::Mask {
            source: numbers.number(source),
        },
        Instr::Ask {
            side,
            destination,
            entry,
            subscript,
            position,
        } => Instr::Ask {
            side,
            destination: numbers.number(destination),
            entry,
            subscript: numbers.number(subscript),
            position,
        },
        Instr::Put {
            side,
            entry,
            subscript,
            value,
            position,
        } => Instr::Put {
            side,
            entry,
            subscript: numbers.number(subscript),
            value: numbers.number(value),
            position,
        },
        Instr::Vote { destination } => Instr::Vote {
            destination: numbers.number(destination),
        },
        Instr::Print { source } => Instr::Print {
            source: numbers.number(source),
        },
        Instr::JumpIfZero { source, target } => Instr::JumpIfZero {
            source: numbers.number(source),
            target,
        },
        _ => instr,
    }
}
