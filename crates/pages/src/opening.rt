//! What is known of a run before its first statement.

ghost use Rattle.std.specs.Prelude.{◌≡◌, ◌∷◌, ◌++◌, [], IfOk, OnOk, map, string_bytes};
ghost use Rattle.std.specs.List.{flat_map};
ghost use Rattle.serde_json.specs.View.{view};
ghost use Rattle.json_texts.specs.Facts.{letters as letters_of, with_fields};
ghost use Rattle.json_texts.specs.Lines.{IsJson};
ghost use Rattle.json_texts.specs.Shown.{shown};
ghost use Rattle.pages.specs.Opening as spec;

use crate::pardos::pardos_facts;
use json_texts::{Object, Value, line_of};
use pram_trees::{Declaration, Name, Numeral, Rule, Tree};
use std::alloc::{AllocError, Global};

fn single_facts(alloc: Global, x: &Name) -> Result<Value, AllocError>
    ensures { IfOk result (λ v. view v ≡ spec.single_facts x.now) }
{
    let mut object = Object::new(alloc);
    object.put_letters("name", x.text.as_slice())?;
    Ok(object.into_value())
}

fn array_facts(alloc: Global, x: &Name, low: &Numeral, high: &Numeral) -> Result<Value, AllocError>
    ensures { IfOk result (λ v. view v ≡ spec.array_facts x.now low.now high.now) }
{
    let mut object = Object::new(alloc);
    object.put_letters("name", x.text.as_slice())?;
    object.put_value("low", low.value)?;
    object.put_value("high", high.value)?;
    Ok(object.into_value())
}

// Puts what a declaration says of shared memory behind the others.
fn push_cells(alloc: Global, list: &mut Vec<Value>, d: &Declaration) -> Result<(), AllocError>
    ensures { OnOk result (map view list.new.items ≡ map view list.old.items ++ spec.cells_of d.now) }
{
    match d {
        Declaration::Cell(x) => {
            let cell = single_facts(alloc, x)?;
            list.push(cell)?;
            Ok(())
        }
        Declaration::Array(name, low, high) => {
            let cells = array_facts(alloc, name, low, high)?;
            list.push(cells)?;
            Ok(())
        }
        Declaration::Uniform(_) => Ok(()),
    }
}

// The shared declarations, in order.
fn cells_facts(alloc: Global, declarations: &[Declaration]) -> Result<Vec<Value>, AllocError>
    ensures { IfOk result (λ list. map view list.items ≡ flat_map spec.cells_of declarations.now) }
{
    let mut list = Vec::new(alloc);
    for d in declarations {
        push_cells(alloc, &mut list, d)?;
    }
    Ok(list)
}

// A text by its bytes. A program has ASCII alone.
fn letters(alloc: Global, bytes: &[u8]) -> Result<Value, AllocError>
    ensures { IfOk result (λ v. view v ≡ letters_of bytes.now) }
{
    let text = String::from_utf8_lossy(alloc, bytes)?;
    Ok(Value::String(text))
}

// Puts the name of a uniform variable behind the others.
fn push_variable(alloc: Global, list: &mut Vec<Value>, d: &Declaration) -> Result<(), AllocError>
    ensures { OnOk result (map view list.new.items ≡ map view list.old.items ++ spec.variables_of d.now) }
{
    match d {
        Declaration::Uniform(x) => {
            let name = letters(alloc, x.text.as_slice())?;
            list.push(name)?;
            Ok(())
        }
        Declaration::Cell(_) => Ok(()),
        Declaration::Array(_, _, _) => Ok(()),
    }
}

// The names of the uniform variables, in order.
fn variables_facts(alloc: Global, declarations: &[Declaration]) -> Result<Vec<Value>, AllocError>
    ensures { IfOk result (λ list. map view list.items ≡ flat_map spec.variables_of declarations.now) }
{
    let mut list = Vec::new(alloc);
    for d in declarations {
        push_variable(alloc, &mut list, d)?;
    }
    Ok(list)
}

// What the program declares: its shared cells, its uniform variables, and its pardos with their locals.
fn put_names(alloc: Global, object: &mut Object, tree: &Tree) -> Result<(), AllocError>
    ensures { OnOk result (shown object.new ≡ with_fields (spec.names_fields tree.now) (shown object.old)) }
{
    let cells = cells_facts(alloc, tree.declarations())?;
    let variables = variables_facts(alloc, tree.declarations())?;
    let pardos = pardos_facts(alloc, tree.body())?;
    object.put_list("cells", cells)?;
    object.put_list("variables", variables)?;
    object.put_list("pardos", pardos)
}

// What a run is of: its file, its text and rule, its input, and how many statements it has.
fn put_source(
    object: &mut Object,
    file: &[u8],
    text: &[u8],
    rule: Rule,
    input: &[i64],
    statements: u64,
) -> Result<(), AllocError>
    ensures { OnOk result (shown object.new
        ≡ with_fields (spec.source_fields file.now text.now rule input.now statements) (shown object.old)) }
{
    object.put_told("file", file)?;
    object.put_letters("program", text)?;
    object.put_word("rule", rule.word())?;
    object.put_values("input", input)?;
    object.put_count("statements", statements)
}

fn opening_value(
    alloc: Global,
    file: &[u8],
    text: &[u8],
    tree: &Tree,
    input: &[i64],
    statements: u64,
) -> Result<Value, AllocError>
    ensures { IfOk result (λ v. view v ≡ spec.opening_facts file.now text.now tree.now input.now statements) }
{
    let mut object = Object::new(alloc);
    put_source(&mut object, file, text, tree.rule(), input, statements)?;
    put_names(alloc, &mut object, tree)?;
    Ok(object.into_value())
}

/// What a page says before the first statement, on a line: what the program's file is called, its text and its rule, the input, how many
/// statements the run has, the shared declarations with their bounds, the names of the uniform variables, and the pardos with the names of
/// their locals. `AllocError`: memory was refused.
pub(crate) fn opening_line(
    alloc: Global,
    file: &[u8],
    text: &[u8],
    tree: &Tree,
    input: &[i64],
    statements: u64,
) -> Result<String, AllocError>
    // The line is exactly the opening facts: file's name, text, rule, declarations, pardos with locals, input and
    // number of statements; read as JSON it is them again.
    ensures json { IfOk result
        (λ line. IsJson (spec.opening_facts file.now text.now tree.now input.now statements ∷ []) (string_bytes line)) }
{
    let facts = opening_value(alloc, file, text, tree, input, statements)?;
    line_of(alloc, &facts)
}
