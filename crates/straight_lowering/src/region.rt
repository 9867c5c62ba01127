//! The code of what stands around the reads of an expression, on a stack of registers.

ghost use Rattle.std.specs.Prelude.{◌≡◌, ◌+◌, ◌<◌, ◌^◌, IfOk};
ghost use Rattle.plain_form.specs.Formulas.{formula_of};
ghost use Rattle.plain_form.specs.Registers as registers;
ghost use Rattle.plain_form.specs.Regions as regions;
ghost use Rattle.straight_lowering.specs.Cursors.{behind};
ghost use Rattle.straight_lowering.specs.Room.{HasRoom};
ghost use Rattle.straight_lowering.specs.Written.{added};

use crate::cursor::{Cursor, next_register, passed};
use crate::emitter::{Emitter, short};
use crate::operator::{Operation, before};
use pram_check::Expression;
use std::alloc::AllocError;
use superstep_instructions::{Instr, Side};

pub(crate) const INDEX: u16 = 1;

/// The register with the value of an expression, and how far the evaluation has come behind it.
#[derive(Clone, Copy)]
pub(crate) struct Found {
    pub register: u16,
    pub behind: Cursor,
}

/// The register of a uniform variable.
pub fn variable(number: usize) -> u16
    requires { number + 1 < 2 ^ 16 }
    ensures { result ≡ registers.variable number }
{
    next_register(short(number))
}

/// The private register of a local.
pub fn local(number: usize) -> u16
    requires { number + 2 < 2 ^ 16 }
    ensures { result ≡ registers.local number }
{
    next_register(variable(number))
}

// A uniform variable, which is copied inside pardo, to a register of the stack.
fn uniform(out: &mut Emitter, side: Side, number: usize, base: u16) -> Result<u16, AllocError>
    requires { number + 1 < 2 ^ 16 }
    ensures register { IfOk result (λ r. r ≡ regions.variable_at side number base) }
    ensures written { IfOk result (λ r. out.new ≡ added (regions.variable_code side number base) out.old) }
{
    let source = variable(number);
    match side {
        Side::Uniform => Ok(source),
        Side::Private => {
            out.push(Instr::CopyUniform {
                destination: base,
                source,
            })?;
            Ok(base)
        }
    }
}

/// The code of what stands around the reads of an expression. The stack begins at `base`.
#[tactic(auto, using(crate::proofs::Chains::so_far_none, crate::proofs::Chains::so_far_more, crate::proofs::Chains::so_far_all))]
pub(crate) fn region(
    out: &mut Emitter,
    side: Side,
    e: &Expression,
    at: Cursor,
    base: u16,
) -> Result<Found, AllocError>
    requires room { HasRoom (formula_of e.now) at.read base at.position }
    ensures written { IfOk result (λ r. out.new ≡ added (regions.region side (formula_of e.now) at.read base at.position) out.old) }
    ensures register { IfOk result (λ r. r.register ≡ regions.place side (formula_of e.now) at.read base) }
    ensures behind { IfOk result (λ r. r.behind ≡ behind (formula_of e.now) at) }
{
    match e {
        Expression::Number(value) => {
            out.push(Instr::Set {
                side,
                destination: base,
                value: *value,
            })?;
            Ok(Found {
                register: base,
                behind: at,
            })
        }
        Expression::Uniform(number) => {
            let register = uniform(out, side, *number, base)?;
            Ok(Found {
                register,
                behind: at,
            })
        }
        Expression::Index => Ok(Found {
            register: INDEX,
            behind: at,
        }),
        Expression::Local(number) => {
            let register = local(*number);
            Ok(Found {
                register,
                behind: at,
            })
        }
        Expression::Cell(_) => {
            let behind = at.behind_read();
            Ok(Found {
                register: at.read,
                behind,
            })
        }
        Expression::Element(_, subscript) => {
            let inner = passed(subscript, at);
            let behind = inner.behind_read();
            Ok(Found {
                register: inner.read,
                behind,
            })
        }
        Expression::Prefix(operator, operand) => {
            let value = region(out, side, operand, at, base)?;
            let behind = value.behind.behind_operator();
            before(out, side, *operator, base, value.register, behind.position)?;
            Ok(Found {
                register: base,
                behind,
            })
        }
        Expression::Chain(first, links) => {
            let above = next_register(base);
            let mut left = region(out, side, first, at, base)?;
            for link in links {
                let right = region(out, side, &link.operand, left.behind, above)?;
                let behind = right.behind.behind_operator();
                let operation = Operation {
                    side,
                    destination: base,
                    left: left.register,
                    right: right.register,
                    position: behind.position,
                };
                operation.between(out, link.operator)?;
                left = Found {
                    register: base,
                    behind,
                };
            }
            Ok(left)
        }
    }
}
