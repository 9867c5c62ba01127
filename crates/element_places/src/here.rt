//! The elements of the expressions of one statement, if it is the one that is looked for.

ghost use Rattle.std.specs.Prelude.{◌≡◌, ◌++◌, OnOk};
ghost use Rattle.element_places.specs.Elements as spec;

use crate::expressions::{add_elements, add_named};
use pram_trees::{Expr, Location, Name};
use std::alloc::AllocError;

/// Those of the one expression of a statement that begins here.
#[tactic(auto, using(crate::proofs::Joined::nothing))]
pub(crate) fn add_here(
    all: &mut Vec<u32>,
    at: u32,
    word: &[u8],
    begins: Location,
    e: &Expr,
) -> Result<(), AllocError>
    ensures { OnOk result (all.new.items ≡ all.old.items ++ spec.here begins at (spec.elements word.now e.now)) }
{
    if begins.offset == at {
        add_elements(all, word, e)
    } else {
        Ok(())
    }
}

// Those of the one, and then of the other.
#[tactic(auto, using(crate::proofs::Joined::two))]
fn add_both(all: &mut Vec<u32>, word: &[u8], e: &Expr, f: &Expr) -> Result<(), AllocError>
    ensures { OnOk result (all.new.items ≡ all.old.items ++ (spec.elements word.now e.now ++ spec.elements word.now f.now)) }
{
    add_elements(all, word, e)?;
    add_elements(all, word, f)
}

/// Those of the two bounds of one.
#[tactic(auto, using(crate::proofs::Joined::nothing))]
pub(crate) fn add_bounds_here(
    all: &mut Vec<u32>,
    at: u32,
    word: &[u8],
    begins: Location,
    e: &Expr,
    f: &Expr,
) -> Result<(), AllocError>
    ensures { OnOk result (all.new.items
        ≡ all.old.items ++ spec.here begins at (spec.elements word.now e.now ++ spec.elements word.now f.now)) }
{
    if begins.offset == at {
        add_both(all, word, e, f)
    } else {
        Ok(())
    }
}

// Those of an assignment to an element.
#[tactic(auto, using(crate::proofs::Joined::two))]
fn add_assigned(
    all: &mut Vec<u32>,
    word: &[u8],
    target: &Name,
    subscript: &Expr,
    value: &Expr,
) -> Result<(), AllocError>
    ensures { OnOk result (all.new.items ≡ all.old.items ++ spec.assigned word.now target.now subscript.now value.now) }
{
    add_both(all, word, subscript, value)?;
    add_named(all, word, target)
}

/// The same of one that begins here.
#[tactic(auto, using(crate::proofs::Joined::nothing))]
pub(crate) fn add_assigned_here(
    all: &mut Vec<u32>,
    at: u32,
    word: &[u8],
    target: &Name,
    subscript: &Expr,
    value: &Expr,
) -> Result<(), AllocError>
    ensures { OnOk result (all.new.items
        ≡ all.old.items ++ spec.here target.now.location at (spec.assigned word.now target.now subscript.now value.now)) }
{
    if target.location.offset == at {
        add_assigned(all, word, target, subscript, value)
    } else {
        Ok(())
    }
}
