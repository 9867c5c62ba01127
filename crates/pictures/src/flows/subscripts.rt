//! The reads of expressions.

ghost use Rattle.std.specs.Prelude.{◌≡◌, ◌++◌, ◌∷◌, [], OnOk};
ghost use Rattle.pictures.specs.Flows.Subscripts as spec;

use pram_check::{Expression, StepTarget, Target};
use std::alloc::AllocError;

// One read more.
fn add(all: &mut Vec<bool>, inside: bool) -> Result<(), AllocError>
    ensures { OnOk result (all.new.items ≡ all.old.items ++ (inside ∷ [])) }
{
    all.push(inside)?;
    Ok(())
}

/// Adds the reads of an expression, which may stand in a subscript itself.
#[tactic(auto, using(crate::proofs::OfFlows::Chains::chain_reads))]
pub(crate) fn add_asides(
    all: &mut Vec<bool>,
    inside: bool,
    e: &Expression,
) -> Result<(), AllocError>
    ensures { OnOk result (all.new.items ≡ all.old.items ++ spec.asides inside e.now) }
{
    match e {
        Expression::Number(_) => Ok(()),
        Expression::Uniform(_) => Ok(()),
        Expression::Index => Ok(()),
        Expression::Local(_) => Ok(()),
        Expression::Cell(_) => add(all, inside),
        Expression::Element(_, subscript) => {
            add_asides(all, true, subscript)?;
            add(all, inside)
        }
        Expression::Prefix(_, operand) => add_asides(all, inside, operand),
        Expression::Chain(first, links) => {
            add_asides(all, inside, first)?;
            for link in links {
                add_asides(all, inside, &link.operand)?;
            }
            Ok(())
        }
    }
}

// Those of what is assigned to.
#[tactic(auto, using(crate::proofs::OfFlows::Chains::no_reads))]
fn add_target(all: &mut Vec<bool>, target: &Target) -> Result<(), AllocError>
    ensures { OnOk result (all.new.items ≡ all.old.items ++ spec.target_asides target.now) }
{
    match target {
        Target::Uniform(_) => Ok(()),
        Target::Cell(_) => Ok(()),
        Target::Element(_, subscript) => add_asides(all, true, subscript),
    }
}

#[tactic(auto, using(crate::proofs::OfFlows::Chains::no_reads))]
fn add_inner_target(all: &mut Vec<bool>, target: &StepTarget) -> Result<(), AllocError>
    ensures { OnOk result (all.new.items ≡ all.old.items ++ spec.inner_asides target.now) }
{
    match target {
        StepTarget::Local(_) => Ok(()),
        StepTarget::Cell(_) => Ok(()),
        StepTarget::Element(_, subscript) => add_asides(all, true, subscript),
    }
}

/// Adds those of an assignment outside pardo.
#[tactic(auto, using(crate::proofs::OfFlows::Chains::behind))]
pub(crate) fn add_assign(
    all: &mut Vec<bool>,
    target: &Target,
    value: &Expression,
) -> Result<(), AllocError>
    ensures { OnOk result (all.new.items ≡ all.old.items ++ spec.assign_asides target.now value.now) }
{
    add_target(all, target)?;
    add_asides(all, false, value)
}

/// Adds those of one inside pardo.
#[tactic(auto, using(crate::proofs::OfFlows::Chains::behind))]
pub(crate) fn add_step_assign(
    all: &mut Vec<bool>,
    target: &StepTarget,
    value: &Expression,
) -> Result<(), AllocError>
    ensures { OnOk result (all.new.items ≡ all.old.items ++ spec.step_assign_asides target.now value.now) }
{
    add_inner_target(all, target)?;
    add_asides(all, false, value)
}

/// Adds those of two bounds.
#[tactic(auto, using(crate::proofs::OfFlows::Chains::behind))]
pub(crate) fn add_bounds(
    all: &mut Vec<bool>,
    low: &Expression,
    high: &Expression,
) -> Result<(), AllocError>
    ensures { OnOk result (all.new.items ≡ all.old.items ++ spec.bounds_asides low.now high.now) }
{
    add_asides(all, false, low)?;
    add_asides(all, false, high)
}
