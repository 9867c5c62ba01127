//! The elements in the statement at a place.

ghost use Rattle.std.specs.Prelude.{◌≡◌, ◌++◌, IfOk, OnOk};
ghost use Rattle.element_places.specs.Elements as spec;

use crate::here::{add_assigned_here, add_bounds_here, add_here};
use pram_trees::{Stmt, Tree};
use std::alloc::{AllocError, Global};

// Those of the statement at the place, if it is this one or stands in it.
#[cycle(statements)]
fn add_statement(all: &mut Vec<u32>, at: u32, word: &[u8], s: &Stmt) -> Result<(), AllocError>
    ensures { OnOk result (all.new.items ≡ all.old.items ++ spec.statement_elements word.now at s.now) }
{
    match s {
        Stmt::Assign { target, value } => add_here(all, at, word, target.location, value),
        Stmt::AssignElement {
            target,
            subscript,
            value,
        } => add_assigned_here(all, at, word, target, subscript, value),
        Stmt::Print { location, value } => add_here(all, at, word, *location, value),
        Stmt::While {
            location,
            test,
            body,
        } => {
            add_here(all, at, word, *location, test)?;
            add_block(all, at, word, body.as_slice())
        }
        Stmt::If {
            location,
            test,
            then_part,
            else_part,
        } => {
            add_here(all, at, word, *location, test)?;
            add_block(all, at, word, then_part.as_slice())?;
            match else_part {
                None => Ok(()),
                Some(other) => add_block(all, at, word, other.as_slice()),
            }
        }
        Stmt::For {
            location,
            low,
            high,
            body,
            ..
        } => {
            add_bounds_here(all, at, word, *location, low, high)?;
            add_block(all, at, word, body.as_slice())
        }
        Stmt::Pardo {
            location,
            low,
            high,
            body,
            ..
        } => {
            add_bounds_here(all, at, word, *location, low, high)?;
            add_block(all, at, word, body.as_slice())
        }
    }
}

// The same of statements in order.
#[cycle(statements)]
#[tactic(auto, using(crate::proofs::Joined::statements_more, crate::proofs::Joined::statements_end))]
fn add_block(all: &mut Vec<u32>, at: u32, word: &[u8], body: &[Stmt]) -> Result<(), AllocError>
    ensures { OnOk result (all.new.items ≡ all.old.items ++ spec.block_elements word.now at body.now) }
{
    for s in body {
        add_statement(all, at, word, s)?;
    }
    Ok(())
}

/// The offsets at which the statement that begins at an offset of a program's text names elements of the array of that name, in the order
/// in which it comes to them: a subscript before its element, operands from left to right, and the element that is assigned last. No two
/// statements begin at one offset. The error is that memory was refused.
pub fn elements_at(alloc: Global, tree: &Tree, at: u32, word: &[u8]) -> Result<Vec<u32>, AllocError>
    // They are the offsets at which the statement that begins there names elements of the array, in the order in which
    // it comes to them.
    ensures { IfOk result (λ found. found.items ≡ spec.elements_at tree.now at word.now) }
{
    let mut found = Vec::new(alloc);
    add_block(&mut found, at, word, tree.body())?;
    Ok(found)
}
