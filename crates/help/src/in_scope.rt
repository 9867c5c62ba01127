//! Which names are in scope at a place.

ghost use Rattle.std.specs.Prelude.{◌≡◌, ◌++◌, ◌∷◌, [], IfOk, OnOk, map};
ghost use Rattle.std.specs.List.{flat_map};
ghost use Rattle.help.specs.InScope as spec;

use crate::known::{Known, Sort, as_declared, declared_name, declared_sort};
use pram_trees::{Declaration, Location, Name, Stmt, Tree};
use std::alloc::{AllocError, Global};

// Puts a declaration's name behind the others, if it stands before the place.
fn add_declared<'a>(
    names: &mut Vec<Known<'a>>,
    at: u32,
    d: &'a Declaration,
) -> Result<(), AllocError>
    ensures { OnOk result (map spec.known_is names.new.items ≡ map spec.known_is names.old.items ++ spec.declared_before at d.now) }
{
    let x = declared_name(d);
    if x.location.offset < at {
        names.push(as_declared(x, declared_sort(d)))?;
    }
    Ok(())
}

// The names of declarations that stand before the place.
fn add_all_declared<'a>(
    names: &mut Vec<Known<'a>>,
    at: u32,
    declarations: &'a [Declaration],
) -> Result<(), AllocError>
    ensures { OnOk result (map spec.known_is names.new.items
        ≡ map spec.known_is names.old.items ++ flat_map (spec.declared_before at) declarations.now) }
{
    for d in declarations {
        add_declared(names, at, d)?;
    }
    Ok(())
}

// Puts a local behind the others, if it stands before the place.
fn add_local<'a>(names: &mut Vec<Known<'a>>, at: u32, x: &'a Name) -> Result<(), AllocError>
    ensures { OnOk result (map spec.known_is names.new.items ≡ map spec.known_is names.old.items ++ spec.local_before at x.now) }
{
    if x.location.offset < at {
        names.push(as_declared(x, Sort::Local))?;
    }
    Ok(())
}

// The locals that stand before the place.
fn add_locals<'a>(names: &mut Vec<Known<'a>>, at: u32, locals: &'a [Name]) -> Result<(), AllocError>
    ensures { OnOk result (map spec.known_is names.new.items
        ≡ map spec.known_is names.old.items ++ flat_map (spec.local_before at) locals.now) }
{
    for x in locals {
        add_local(names, at, x)?;
    }
    Ok(())
}

// The names that hold in the body of a pardo, of those that stand before the place: the names around it, its index and its locals.
fn pardo_names<'a>(
    alloc: Global,
    at: u32,
    around: &[Known<'a>],
    index: &'a Name,
    locals: &'a [Name],
) -> Result<Vec<Known<'a>>, AllocError>
    ensures { IfOk result (λ names. map spec.known_is names.items
        ≡ spec.pardo_names at (map spec.known_is around.now) index.now locals.now) }
{
    let mut names = Vec::from_slice(alloc, around)?;
    names.push(as_declared(index, Sort::Index))?;
    add_locals(&mut names, at, locals)?;
    Ok(names)
}

// These names in place of the others, if what stands there begins at or before the place.
fn reach<'a>(
    names: &mut Vec<Known<'a>>,
    at: u32,
    begins: Location,
    here: &[Known<'a>],
) -> Result<(), AllocError>
    ensures { OnOk result (map spec.known_is names.new.items
        ≡ spec.reached at begins (map spec.known_is here.now) (map spec.known_is names.old.items)) }
{
    if begins.offset <= at {
        names.clear();
        names.extend_from_slice(here)?;
    }
    Ok(())
}

// The names of a pardo's locals, if these begin at or before the place.
fn reach_locals<'a>(
    names: &mut Vec<Known<'a>>,
    at: u32,
    locals: &'a [Name],
    here: &[Known<'a>],
) -> Result<(), AllocError>
    ensures { OnOk result (map spec.known_is names.new.items
        ≡ spec.reached_locals at locals.now (map spec.known_is here.now) (map spec.known_is names.old.items)) }
{
    match locals.first() {
        None => Ok(()),
        Some(x) => reach(names, at, x.location, here),
    }
}

// The names that hold where a statement, or one within it, begins at or before the place, in place of the others; `here` hold around it.
#[cycle(reaching)]
fn reach_statement<'a>(
    alloc: Global,
    names: &mut Vec<Known<'a>>,
    at: u32,
    statement: &'a Stmt,
    here: &[Known<'a>],
) -> Result<(), AllocError>
    ensures { OnOk result (map spec.known_is names.new.items
        ≡ spec.statement_names at statement.now (map spec.known_is here.now) (map spec.known_is names.old.items)) }
{
    match statement {
        Stmt::Assign { target, .. } => reach(names, at, target.location, here),
        Stmt::AssignElement { target, .. } => reach(names, at, target.location, here),
        Stmt::Print { location, .. } => reach(names, at, *location, here),
        Stmt::While { location, body, .. } => {
            reach(names, at, *location, here)?;
            reach_block(alloc, names, at, body.as_slice(), here)
        }
        Stmt::If {
            location,
            then_part,
            else_part,
            ..
        } => {
            reach(names, at, *location, here)?;
            reach_block(alloc, names, at, then_part.as_slice(), here)?;
            match else_part {
                None => Ok(()),
                Some(other) => reach_block(alloc, names, at, other.as_slice(), here),
            }
        }
        Stmt::For { location, body, .. } => {
            reach(names, at, *location, here)?;
            reach_block(alloc, names, at, body.as_slice(), here)
        }
        Stmt::Pardo {
            location,
            index,
            locals,
            body,
            ..
        } => {
            reach(names, at, *location, here)?;
            let inner = pardo_names(alloc, at, here, index, locals.as_slice())?;
            reach_locals(names, at, locals.as_slice(), &inner)?;
            reach_block(alloc, names, at, body.as_slice(), &inner)
        }
    }
}

#[cycle(reaching)]
fn reach_block<'a>(
    alloc: Global,
    names: &mut Vec<Known<'a>>,
    at: u32,
    body: &'a [Stmt],
    here: &[Known<'a>],
) -> Result<(), AllocError>
    ensures { OnOk result (map spec.known_is names.new.items
        ≡ spec.block_names at body.now (map spec.known_is here.now) (map spec.known_is names.old.items)) }
{
    for statement in body {
        reach_statement(alloc, names, at, statement, here)?;
    }
    Ok(())
}

/// The names that are in scope at an offset of a program's text, in the order of their declaration: the declared names that stand before
/// it, and where it stands in a pardo's locals or body, that pardo's index and those of its locals that stand before it.
pub fn names_at<'a>(alloc: Global, tree: &'a Tree, at: u32) -> Result<Vec<Known<'a>>, AllocError>
    // They are the names in scope at this offset, each with its line and as what it is declared.
    ensures { IfOk result (λ names. map spec.known_is names.items ≡ spec.names_at tree.now at) }
{
    let mut declared = Vec::new(alloc);
    add_all_declared(&mut declared, at, tree.declarations())?;
    let mut names = Vec::new(alloc);
    names.extend_from_slice(&declared)?;
    reach_block(alloc, &mut names, at, tree.body(), &declared)?;
    Ok(names)
}
