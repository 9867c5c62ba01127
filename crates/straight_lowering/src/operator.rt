//! Operators as instructions.

ghost use Rattle.std.specs.Prelude.{◌≡◌, OnOk};
ghost use Rattle.plain_form.specs.Regions.{before_code, between_code};
ghost use Rattle.straight_lowering.specs.Written.{added};
ghost use Rattle.straight_lowering.specs.Operators as spec;
ghost use Rattle.superstep_instructions.specs.declared.instr.Instr.TheVariants as Instr;

use crate::emitter::Emitter;
use pram_trees::{Binary, Prefix};
use std::alloc::AllocError;
use superstep_instructions::{Arithmetic, Instr, Side, Truth};

/// What an operation works on: the registers of a side, and its position.
#[derive(Clone, Copy)]
pub(crate) struct Operation {
    pub side: Side,
    pub destination: u16,
    pub left: u16,
    pub right: u16,
    pub position: u32,
}

/// An operator before the value of a register.
pub(crate) fn before(
    out: &mut Emitter,
    side: Side,
    operator: Prefix,
    destination: u16,
    source: u16,
    position: u32,
) -> Result<(), AllocError>
    ensures { OnOk result (out.new ≡ added (before_code side operator destination source position) out.old) }
{
    out.push(match operator {
        Prefix::Negate => Instr::Negate {
            side,
            destination,
            source,
            position,
        },
        Prefix::Not => Instr::Not {
            side,
            destination,
            source,
        },
    })
}

impl Operation {
    /// The same with its operands exchanged.
    fn exchanged(self) -> Operation
        ensures { result ≡ record self { left = self.right; right = self.left } }
    {
        Operation {
            side: self.side,
            destination: self.destination,
            left: self.right,
            right: self.left,
            position: self.position,
        }
    }

    fn calculate(self, operation: Arithmetic) -> Instr
        ensures { result ≡ Instr.Calculate self.side operation self.destination self.left self.right self.position }
    {
        Instr::Calculate {
            side: self.side,
            operation,
            destination: self.destination,
            left: self.left,
            right: self.right,
            position: self.position,
        }
    }

    fn decide(self, operation: Truth) -> Instr
        ensures { result ≡ Instr.Decide self.side operation self.destination self.left self.right }
    {
        Instr::Decide {
            side: self.side,
            operation,
            destination: self.destination,
            left: self.left,
            right: self.right,
        }
    }

    // Its result turned round.
    fn negated(self) -> Instr
        ensures { result ≡ Instr.Not self.side self.destination self.destination }
    {
        Instr::Not {
            side: self.side,
            destination: self.destination,
            source: self.destination,
        }
    }

    /// The first of its instructions.
    fn first(self, operator: Binary) -> Instr
        ensures { result ≡ spec.first_between self.side operator self.destination self.left self.right self.position }
    {
        match operator {
            Binary::Or => self.decide(Truth::Or),
            Binary::And => self.decide(Truth::And),
            Binary::Equal => self.decide(Truth::Equal),
            Binary::Unequal => self.decide(Truth::Equal),
            Binary::Less => self.decide(Truth::Less),
            Binary::AtMost => self.decide(Truth::AtMost),
            Binary::Greater => self.exchanged().decide(Truth::Less),
            Binary::AtLeast => self.exchanged().decide(Truth::AtMost),
            Binary::Add => self.calculate(Arithmetic::Add),
            Binary::Subtract => self.calculate(Arithmetic::Subtract),
            Binary::Multiply => self.calculate(Arithmetic::Multiply),
            Binary::Divide => self.calculate(Arithmetic::Divide),
            Binary::Remainder => self.calculate(Arithmetic::Remainder),
        }
    }

    /// An operator between the values of two registers.
    pub(crate) fn between(self, out: &mut Emitter, operator: Binary) -> Result<(), AllocError>
        ensures { OnOk result (out.new ≡ added
            (between_code self.side operator self.destination self.left self.right self.position) out.old) }
    {
        out.push(self.first(operator))?;
        if matches!(operator, Binary::Unequal) {
            out.push(self.negated())?;
        }
        Ok(())
    }
}
