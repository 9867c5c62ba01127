//! What is told of a statement that ran beside its cells.

ghost use Rattle.std.specs.Prelude.{◌≡◌, None, take};
ghost use Rattle.text_out.specs.Out.{Writes};
ghost use Rattle.step_text.specs.BesideCells as spec;

use crate::telling::Detail;
use crate::values::write_value;
use help::{local_name, variable_name};
use itoa::Buffer;
use journal::{Change, LocalChange};
use pram_trees::Tree;
use program_texts::write_values;
use text_out::{Out, WriteFault};

fn write_variable_head<W: Out>(out: &mut W, tree: &Tree, number: usize) -> Result<(), WriteFault>
    ensures written { Writes (W.Out.state out.old) (W.Out.state out.new) (spec.variable_head tree.now number) result }
{
    out.write_parts(&[b" ", variable_name(tree, number)])
}

// A uniform variable's change, behind a space.
fn write_variable<W: Out>(out: &mut W, tree: &Tree, change: &Change) -> Result<(), WriteFault>
    ensures written { Writes (W.Out.state out.old) (W.Out.state out.new) (spec.variable_text tree.now change.now) result }
{
    write_variable_head(out, tree, change.cell)?;
    write_value(out, change)
}

fn write_variables<W: Out>(out: &mut W, tree: &Tree, changes: &[Change]) -> Result<(), WriteFault>
    ensures written { Writes (W.Out.state out.old) (W.Out.state out.new) (spec.variables_text tree.now changes.now) result }
{
    for change in changes {
        write_variable(out, tree, change)?;
    }
    Ok(())
}

// A local's name, where the one told before it is another.
fn write_name<W: Out>(
    out: &mut W,
    tree: &Tree,
    at: u32,
    before: Option<usize>,
    number: usize,
) -> Result<(), WriteFault>
    ensures written { Writes (W.Out.state out.old) (W.Out.state out.new) (spec.name_text tree.now at before number) result }
{
    match before {
        Some(other) if other == number => out.write_all(b""),
        _ => out.write_parts(&[b" ", local_name(tree, at, number)]),
    }
}

pub(crate) fn write_processor_head<W: Out>(out: &mut W, processor: &i64) -> Result<(), WriteFault>
    ensures written { Writes (W.Out.state out.old) (W.Out.state out.new) (spec.processor_head processor.now) result }
{
    let mut digits = Buffer::new();
    out.write_parts(&[b" ", digits.format(*processor).as_bytes(), b":"])
}

// A processor's local, behind its index.
fn write_processor<W: Out>(out: &mut W, local: &LocalChange) -> Result<(), WriteFault>
    ensures written { Writes (W.Out.state out.old) (W.Out.state out.new) (spec.processor_text local.now) result }
{
    write_processor_head(out, &local.processor)?;
    write_value(out, &local.change)
}

fn write_local<W: Out>(
    out: &mut W,
    tree: &Tree,
    at: u32,
    before: Option<usize>,
    local: &LocalChange,
) -> Result<(), WriteFault>
    ensures written { Writes (W.Out.state out.old) (W.Out.state out.new) (spec.local_text tree.now at before local.now) result }
{
    write_name(out, tree, at, before, local.change.cell)?;
    write_processor(out, local)
}

// The locals of processors, each behind the local's name or behind the one before it.
fn write_each_local<W: Out>(
    out: &mut W,
    tree: &Tree,
    at: u32,
    locals: &[LocalChange],
) -> Result<(), WriteFault>
    ensures written { Writes (W.Out.state out.old) (W.Out.state out.new) (spec.each_local_text tree.now at None locals.now) result }
{
    let mut before = None;
    for local in locals {
        write_local(out, tree, at, before, local)?;
        before = Some(local.change.cell);
    }
    Ok(())
}

/// So many processors are told each by itself.
pub(crate) const MOST_LOCALS: usize = 8;

// Those that are told each by itself.
fn first_locals(locals: &[LocalChange]) -> &[LocalChange]
    ensures { result.now ≡ take spec.most_locals locals.now }
{
    if locals.len() > MOST_LOCALS {
        &locals[..MOST_LOCALS]
    } else {
        locals
    }
}

/// Writes how many more than those there are.
pub(crate) fn write_more<W: Out>(out: &mut W, count: usize) -> Result<(), WriteFault>
    ensures written { Writes (W.Out.state out.old) (W.Out.state out.new) (spec.more_text count) result }
{
    if count <= MOST_LOCALS {
        return out.write_all(b"");
    }
    let mut digits = Buffer::new();
    let more = count - MOST_LOCALS;
    out.write_parts(&[b" and ", digits.format(more).as_bytes(), b" more"])
}

fn write_locals<W: Out>(
    out: &mut W,
    tree: &Tree,
    at: u32,
    locals: &[LocalChange],
) -> Result<(), WriteFault>
    ensures written { Writes (W.Out.state out.old) (W.Out.state out.new) (spec.locals_text tree.now at locals.now) result }
{
    write_each_local(out, tree, at, first_locals(locals))?;
    write_more(out, locals.len())
}

fn write_printed<W: Out>(out: &mut W, printed: &[i64]) -> Result<(), WriteFault>
    ensures written { Writes (W.Out.state out.old) (W.Out.state out.new) (spec.printed_text printed.now) result }
{
    if printed.is_empty() {
        return Ok(());
    }
    out.write_all(b" prints")?;
    write_values(out, printed)
}

// Variables, locals and printed numbers.
fn write_all_beside<W: Out>(
    out: &mut W,
    tree: &Tree,
    at: u32,
    variables: &[Change],
    locals: &[LocalChange],
    printed: &[i64],
) -> Result<(), WriteFault>
    ensures written { Writes (W.Out.state out.old) (W.Out.state out.new)
        (spec.all_text tree.now at variables.now locals.now printed.now) result }
{
    write_variables(out, tree, variables)?;
    write_locals(out, tree, at, locals)?;
    write_printed(out, printed)
}

/// Writes what is told behind the cells of a statement that stands at this offset of the program's text, where that is asked for.
pub(crate) fn write_beside_cells<W: Out>(
    out: &mut W,
    detail: &Detail<'_>,
    at: u32,
    variables: &[Change],
    locals: &[LocalChange],
    printed: &[i64],
) -> Result<(), WriteFault>
    ensures written { Writes (W.Out.state out.old) (W.Out.state out.new)
        (spec.beside_text detail.now.locals at variables.now locals.now printed.now) result }
{
    match detail.locals {
        None => Ok(()),
        Some(tree) => write_all_beside(out, tree, at, variables, locals, printed),
    }
}
