//! The levels of the shared reads of an expression.

ghost use Rattle.std.specs.Prelude.{◌≡◌, ◌+◌, max, IfOk};
ghost use Rattle.exchange_bound.specs.Events as spec;

use crate::too_many::TooMany;
use pram_check::{Expression, StepTarget, Target};

// The level of a read, by those in its subscript.
fn level_above(inner: u64) -> Result<u64, TooMany>
    ensures { IfOk result (λ k. k ≡ inner + 1) }
{
    match inner.checked_add(1) {
        Some(level) => Ok(level),
        None => Err(TooMany),
    }
}

/// The levels of an expression's shared reads: 1 for a read without a read in its subscript, and one
/// more than those in it for any other.
#[tactic(auto, using(crate::proofs::Chains::first_levels, crate::proofs::Chains::more_levels, crate::proofs::Chains::all_levels))]
pub fn levels(e: &Expression) -> Result<u64, TooMany>
    ensures { IfOk result (λ k. k ≡ spec.levels e.now) }
{
    match e {
        Expression::Number(_) => Ok(0),
        Expression::Uniform(_) => Ok(0),
        Expression::Index => Ok(0),
        Expression::Local(_) => Ok(0),
        Expression::Cell(_) => Ok(1),
        Expression::Element(_, subscript) => {
            let inner = levels(subscript)?;
            level_above(inner)
        }
        Expression::Prefix(_, operand) => levels(operand),
        Expression::Chain(first, links) => {
            let mut most = levels(first)?;
            for link in links {
                let operand = levels(&link.operand)?;
                most = most.max(operand);
            }
            Ok(most)
        }
    }
}

/// Those of two expressions of one statement.
pub fn levels_of_both(e: &Expression, f: &Expression) -> Result<u64, TooMany>
    ensures { IfOk result (λ k. k ≡ max (spec.levels e.now) (spec.levels f.now)) }
{
    let first = levels(e)?;
    let second = levels(f)?;
    Ok(first.max(second))
}

/// Those of an assignment outside pardo.
pub fn assignment_levels(target: &Target, e: &Expression) -> Result<u64, TooMany>
    ensures { IfOk result (λ k. k ≡ max (spec.target_levels target.now) (spec.levels e.now)) }
{
    match target {
        Target::Uniform(_) => levels(e),
        Target::Cell(_) => levels(e),
        Target::Element(_, subscript) => levels_of_both(subscript, e),
    }
}

/// Whether an assignment outside pardo writes to shared memory.
pub fn is_shared(target: &Target) -> bool
    ensures { result ≡ spec.is_shared target.now }
{
    match target {
        Target::Uniform(_) => false,
        Target::Cell(_) => true,
        Target::Element(_, _) => true,
    }
}

/// The levels of an assignment inside pardo.
pub fn step_levels(target: &StepTarget, e: &Expression) -> Result<u64, TooMany>
    ensures { IfOk result (λ k. k ≡ max (spec.step_target_levels target.now) (spec.levels e.now)) }
{
    match target {
        StepTarget::Local(_) => levels(e),
        StepTarget::Cell(_) => levels(e),
        StepTarget::Element(_, subscript) => levels_of_both(subscript, e),
    }
}

/// Whether an assignment inside pardo writes to shared memory.
pub fn is_step_shared(target: &StepTarget) -> bool
    ensures { result ≡ spec.is_step_shared target.now }
{
    match target {
        StepTarget::Local(_) => false,
        StepTarget::Cell(_) => true,
        StepTarget::Element(_, _) => true,
    }
}
