//! How far the evaluation of a statement has come.

ghost use Rattle.std.specs.Prelude.{◌≡◌, ◌+◌, ◌<◌, ◌^◌};
ghost use Rattle.straight_lowering.specs.Cursors.{behind};
ghost use Rattle.plain_form.specs.Formulas.{formula_of, reads, positions};

use pram_check::Expression;

/// The register of the next shared read, and the positions gone through.
#[derive(Clone, Copy)]
pub(crate) struct Cursor {
    pub read: u16,
    pub position: u32,
}

/// The register behind one.
pub fn next_register(register: u16) -> u16
    requires { register + 1 < 2 ^ 16 }
    ensures { result ≡ register + 1 }
{
    register + 1
}

/// The number behind one: of a position, or of a level.
pub(crate) fn next_number(number: u32) -> u32
    requires { number + 1 < 2 ^ 32 }
    ensures { result ≡ number + 1 }
{
    number + 1
}

impl Cursor {
    /// Behind an operator.
    pub(crate) fn behind_operator(self) -> Cursor
        requires { self.position + 1 < 2 ^ 32 }
        ensures { result ≡ record { read = self.read; position = self.position + 1 } }
    {
        Cursor {
            read: self.read,
            position: next_number(self.position),
        }
    }

    /// Behind a shared read.
    pub(crate) fn behind_read(self) -> Cursor
        requires register { self.read + 1 < 2 ^ 16 }
        requires position { self.position + 1 < 2 ^ 32 }
        ensures { result ≡ record { read = self.read + 1; position = self.position + 1 } }
    {
        Cursor {
            read: next_register(self.read),
            position: next_number(self.position),
        }
    }
}

/// Behind an expression.
#[tactic(auto, using(crate::proofs::Chains::so_far_none, crate::proofs::Chains::so_far_more, crate::proofs::Chains::so_far_all))]
pub(crate) fn passed(e: &Expression, at: Cursor) -> Cursor
    requires registers { at.read + reads (formula_of e.now) < 2 ^ 16 }
    requires numbers { at.position + positions (formula_of e.now) < 2 ^ 32 }
    ensures { result ≡ behind (formula_of e.now) at }
{
    match e {
        Expression::Number(_) => at,
        Expression::Uniform(_) => at,
        Expression::Index => at,
        Expression::Local(_) => at,
        Expression::Cell(_) => at.behind_read(),
        Expression::Element(_, subscript) => {
            let inner = passed(subscript, at);
            inner.behind_read()
        }
        Expression::Prefix(_, operand) => {
            let inner = passed(operand, at);
            inner.behind_operator()
        }
        Expression::Chain(first, links) => {
            let mut now = passed(first, at);
            for link in links {
                let operand = passed(&link.operand, now);
                now = operand.behind_operator();
            }
            now
        }
    }
}
