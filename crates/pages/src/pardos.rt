//! The pardos of a program, with the names of their locals.

ghost use Rattle.std.specs.Prelude.{◌≡◌, IfOk, OnOk, map};
ghost use Rattle.serde_json.specs.View.{view};
ghost use Rattle.pages.specs.Pardos as spec;

use json_texts::{Object, Value};
use pram_trees::{Location, Name, Stmt};
use std::alloc::{AllocError, Global};

// A name.
fn name_fact(alloc: Global, x: &Name) -> Result<Value, AllocError>
    ensures { IfOk result (λ v. view v ≡ spec.name_fact x.now) }
{
    let text = String::from_utf8_lossy(alloc, x.text.as_slice())?;
    Ok(Value::String(text))
}

// Names, in order.
fn names_facts(alloc: Global, names: &[Name]) -> Result<Vec<Value>, AllocError>
    ensures { IfOk result (λ list. map view list.items ≡ map spec.name_fact names.now) }
{
    let mut list = Vec::new(alloc);
    for x in names {
        list.push(name_fact(alloc, x)?)?;
    }
    Ok(list)
}

// Where a pardo begins, its index and its locals.
#[derive(Clone, Copy)]
struct Pardo<'a> {
    begins: Location,
    index: &'a Name,
    locals: &'a [Name],
}

// As facts.
fn pardo_facts(alloc: Global, pardo: &Pardo<'_>) -> Result<Value, AllocError>
    ensures { IfOk result (λ v. view v ≡ spec.pardo_facts (spec.pardo_is pardo.now)) }
{
    let locals = names_facts(alloc, pardo.locals)?;
    let mut object = Object::new(alloc);
    object.put_count("line", u64::from(pardo.begins.line))?;
    object.put_count("offset", u64::from(pardo.begins.offset))?;
    object.put_letters("index", pardo.index.text.as_slice())?;
    object.put_list("locals", locals)?;
    Ok(object.into_value())
}

// Puts a pardo behind the others.
fn push_pardo<'a>(
    found: &mut Vec<Pardo<'a>>,
    begins: Location,
    index: &'a Name,
    locals: &'a [Name],
) -> Result<(), AllocError>
    ensures { OnOk result (map spec.pardo_is found.new.items
        ≡ spec.with_pardo begins index.now locals.now (map spec.pardo_is found.old.items)) }
{
    found.push(Pardo {
        begins,
        index,
        locals,
    })?;
    Ok(())
}

// Puts the pardos of a statement behind the others.
#[cycle(gathering)]
fn push_of_statement<'a>(found: &mut Vec<Pardo<'a>>, statement: &'a Stmt) -> Result<(), AllocError>
    ensures { OnOk result (map spec.pardo_is found.new.items
        ≡ spec.statement_pardos statement.now (map spec.pardo_is found.old.items)) }
{
    match statement {
        Stmt::Assign { .. } => Ok(()),
        Stmt::AssignElement { .. } => Ok(()),
        Stmt::Print { .. } => Ok(()),
        Stmt::While { body, .. } => push_of_block(found, body.as_slice()),
        Stmt::If {
            then_part,
            else_part,
            ..
        } => {
            push_of_block(found, then_part.as_slice())?;
            match else_part {
                None => Ok(()),
                Some(other) => push_of_block(found, other.as_slice()),
            }
        }
        Stmt::For { body, .. } => push_of_block(found, body.as_slice()),
        Stmt::Pardo {
            location,
            index,
            locals,
            body,
            ..
        } => {
            push_pardo(found, *location, index, locals.as_slice())?;
            push_of_block(found, body.as_slice())
        }
    }
}

#[cycle(gathering)]
fn push_of_block<'a>(found: &mut Vec<Pardo<'a>>, body: &'a [Stmt]) -> Result<(), AllocError>
    ensures { OnOk result (map spec.pardo_is found.new.items
        ≡ spec.block_pardos body.now (map spec.pardo_is found.old.items)) }
{
    for statement in body {
        push_of_statement(found, statement)?;
    }
    Ok(())
}

// Pardos as facts, in order.
fn found_facts(alloc: Global, found: &[Pardo<'_>]) -> Result<Vec<Value>, AllocError>
    ensures { IfOk result (λ list. map view list.items ≡ map spec.pardo_facts (map spec.pardo_is found.now)) }
{
    let mut list = Vec::new(alloc);
    for pardo in found {
        list.push(pardo_facts(alloc, pardo)?)?;
    }
    Ok(list)
}

/// The pardos of some statements, in the order of the text: those in blocks too.
pub(crate) fn pardos_facts(alloc: Global, body: &[Stmt]) -> Result<Vec<Value>, AllocError>
    ensures { IfOk result (λ list. map view list.items ≡ map spec.pardo_facts (spec.pardos_of body.now)) }
{
    let mut found = Vec::new(alloc);
    push_of_block(&mut found, body)?;
    found_facts(alloc, &found)
}
