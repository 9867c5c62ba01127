//! The elements in an expression.

ghost use Rattle.std.specs.Prelude.{◌≡◌, ◌++◌, OnOk};
ghost use Rattle.pram_model.specs.Names.{same_text};
ghost use Rattle.element_places.specs.Elements as spec;

use pram_trees::{Binary, Expr, Name};
use std::alloc::AllocError;

fn is_same(a: &[u8], b: &[u8]) -> bool
    ensures { result ≡ same_text a.now b.now }
{
    a == b
}

/// Adds the place of an array's name, if it is spelled so.
#[tactic(auto, using(crate::proofs::Joined::nothing))]
pub(crate) fn add_named(all: &mut Vec<u32>, word: &[u8], x: &Name) -> Result<(), AllocError>
    ensures { OnOk result (all.new.items ≡ all.old.items ++ spec.named word.now x.now) }
{
    if is_same(x.text.as_slice(), word) {
        all.push(x.location.offset)?;
    }
    Ok(())
}

/// Adds the places of the elements in an expression: those in a subscript come before the element that has it.
#[cycle(expressions)]
pub(crate) fn add_elements(all: &mut Vec<u32>, word: &[u8], e: &Expr) -> Result<(), AllocError>
    ensures { OnOk result (all.new.items ≡ all.old.items ++ spec.elements word.now e.now) }
{
    match e {
        Expr::Number(_) => Ok(()),
        Expr::Name(_) => Ok(()),
        Expr::Element(x, subscript) => {
            add_elements(all, word, subscript.get())?;
            add_named(all, word, x)
        }
        Expr::Paren(inner) => add_elements(all, word, inner.get()),
        Expr::Prefix(_, operand) => add_elements(all, word, operand.get()),
        Expr::Chain(first, rest) => {
            add_elements(all, word, first.get())?;
            add_links(all, word, rest.as_slice())
        }
    }
}

// Those in the operands behind the first one.
#[cycle(expressions)]
#[tactic(auto, using(crate::proofs::Joined::links_more, crate::proofs::Joined::links_end))]
fn add_links(all: &mut Vec<u32>, word: &[u8], rest: &[(Binary, Expr)]) -> Result<(), AllocError>
    ensures { OnOk result (all.new.items ≡ all.old.items ++ spec.link_elements word.now rest.now) }
{
    for (_, operand) in rest {
        add_elements(all, word, operand)?;
    }
    Ok(())
}
