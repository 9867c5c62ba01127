//! What the operations of expressions come to.

ghost use Rattle.std.specs.Prelude.{◌≡◌, ◌^◌, ◌<◌};
ghost use Rattle.sized_texts.specs.Values as values;

use crate::reason::Reason;
use pram_tokens::LARGEST;

/// An operation on two numbers.
#[derive(Clone, Copy, Debug, PartialEq, Eq)]
pub enum Operator {
    Add,
    Subtract,
    Multiply,
    Divide,
    Remainder,
    Power,
}

/// What is done with the number in parentheses.
#[derive(Clone, Copy, Debug, PartialEq, Eq)]
pub enum Function {
    /// Nothing.
    Same,
    /// The logarithm to base 2, rounded down.
    Log,
    /// The square root, rounded down.
    Root,
}

// A number, if it is at most the greatest one of a text.
fn checked(number: Option<u64>) -> Result<u64, Reason>
    ensures { result ≡ values.if_small number }
{
    match number {
        Some(n) => {
            if n <= LARGEST {
                Ok(n)
            } else {
                Err(Reason::OutOfRange)
            }
        }
        None => Err(Reason::OutOfRange),
    }
}

// A power.
fn power(a: u64, b: u64) -> Result<u64, Reason>
    ensures { result ≡ values.checked (a ^ b) }
{
    if a <= 1 {
        return Ok(if b == 0 { 1 } else { a });
    }
    if b >= 64 {
        return Err(Reason::OutOfRange);
    }
    checked(a.checked_pow(b as u32))
}

/// What an operation on two numbers comes to.
pub fn applied(operator: Operator, a: u64, b: u64) -> Result<u64, Reason>
    ensures { result ≡ values.applied operator a b }
{
    match operator {
        Operator::Add => checked(a.checked_add(b)),
        Operator::Subtract => {
            if a < b {
                Err(Reason::OutOfRange)
            } else {
                Ok(a - b)
            }
        }
        Operator::Multiply => checked(a.checked_mul(b)),
        Operator::Divide => {
            if b == 0 {
                Err(Reason::ZeroDivisor)
            } else {
                Ok(a / b)
            }
        }
        Operator::Remainder => {
            if b == 0 {
                Err(Reason::ZeroDivisor)
            } else {
                Ok(a % b)
            }
        }
        Operator::Power => power(a, b),
    }
}

// The logarithm to base 2, rounded down.
fn logarithm(n: u64) -> u64
    requires { 0 < n }
    ensures { result ≡ values.log_of n }
{
    u64::from(n.ilog2())
}

// The square root, rounded down.
fn root(n: u64) -> u64
    ensures { result ≡ values.root_of n }
{
    n.isqrt()
}

/// What a function of a number comes to.
pub fn called(function: Function, n: u64) -> Result<u64, Reason>
    ensures { result ≡ values.called function n }
{
    match function {
        Function::Same => Ok(n),
        Function::Log => {
            if n == 0 {
                Err(Reason::LogOfZero)
            } else {
                Ok(logarithm(n))
            }
        }
        Function::Root => Ok(root(n)),
    }
}
