//! Expressions whose value is at most one away from that of a variable.

ghost use Rattle.std.specs.Prelude.{◌≡◌, ℤ, Ok, pos, true, slice_index_or};
ghost use Rattle.pram_meaning.specs.Operation.{operate};
ghost use Rattle.pram_meaning.specs.Store.{View};
ghost use Rattle.abstract_runs.specs.Near.{IsNear};
ghost use Rattle.abstract_runs.specs.Tests.{IsValueOf};

use pram_check::Expression;
use pram_trees::Binary;

// Whether an expression is that variable.
fn is_variable(e: &Expression, x: usize) -> bool
    ensures { result ≡ true → (s : View) (z : ℤ) → IsValueOf s e.now z → z ≡ slice_index_or s.uniforms x (pos 0) }
{
    if let Expression::Uniform(y) = e {
        *y == x
    } else {
        false
    }
}

// Whether an expression is one of the numbers -1, 0 and 1.
fn is_small(e: &Expression) -> bool
    ensures { result ≡ true → (s : View) (z : ℤ) → IsValueOf s e.now z → IsNear 1 (pos 0) z }
{
    if let Expression::Number(number) = e {
        -1 <= *number && *number <= 1
    } else {
        false
    }
}

// Whether the one is that variable, and the other one of these numbers.
fn are_variable_and_small(x: usize, one: &Expression, other: &Expression) -> bool
    ensures { result ≡ true → (s : View) (y r : ℤ) → IsValueOf s one.now y → IsValueOf s other.now r →
        (y ≡ slice_index_or s.uniforms x (pos 0)) × IsNear 1 (pos 0) r }
{
    is_variable(one, x) && is_small(other)
}

// Whether an operator between two expressions makes a step of that variable.
fn is_step_by(x: usize, left: &Expression, operator: Binary, right: &Expression) -> bool
    ensures { result ≡ true → (s : View) (l r z : ℤ) → IsValueOf s left.now l → IsValueOf s right.now r → operate operator l r ≡ Ok z →
        IsNear 1 (slice_index_or s.uniforms x (pos 0)) z }
{
    match operator {
        Binary::Add => {
            are_variable_and_small(x, left, right) || are_variable_and_small(x, right, left)
        }
        Binary::Subtract => are_variable_and_small(x, left, right),
        _ => false,
    }
}

/// Whether an expression is a step of that variable: the variable and a number of -1, 0 or 1, added, or the number taken from it.
pub(crate) fn is_step_of(x: usize, e: &Expression) -> bool
    // The value of such a one is at most one away from the variable's.
    ensures { result ≡ true → (s : View) (z : ℤ) → IsValueOf s e.now z → IsNear 1 (slice_index_or s.uniforms x (pos 0)) z }
{
    let Expression::Chain(first, links) = e else {
        return false;
    };
    if links.len() != 1 {
        return false;
    }
    let link = &links[0];
    is_step_by(x, first, link.operator, &link.operand)
}
