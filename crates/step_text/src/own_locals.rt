//! The locals at a fault.

ghost use Rattle.std.specs.Prelude.{◌≡◌, ◌<◌, ◌^◌, ◌+◌, ◌&&◌, [], if◌then◌else◌, map, nat_lt};
ghost use Rattle.std.specs.List.{filter};
ghost use Rattle.text_out.specs.Out.{Writes};
ghost use Rattle.journal.specs.Entries.{own_is};
ghost use Rattle.step_text.specs.BesideCells.{most_locals};
ghost use Rattle.step_text.specs.OwnLocals as spec;

use crate::beside_cells::{MOST_LOCALS, write_more, write_processor_head};
use crate::telling::Detail;
use help::local_name;
use itoa::Buffer;
use journal::OwnLocals;
use pram_trees::Tree;
use text_out::{Out, WriteFault};

fn write_own_local<W: Out>(
    out: &mut W,
    tree: &Tree,
    at: u32,
    number: usize,
    value: &i64,
) -> Result<(), WriteFault>
    ensures written { Writes (W.Out.state out.old) (W.Out.state out.new) (spec.local_text tree.now at number value.now) result }
{
    let mut digits = Buffer::new();
    out.write_parts(&[
        b" ",
        local_name(tree, at, number),
        b" ",
        digits.format(*value).as_bytes(),
    ])
}

// The locals of a processor, each behind its name.
fn write_own_values<W: Out>(
    out: &mut W,
    tree: &Tree,
    at: u32,
    values: &[i64],
) -> Result<(), WriteFault>
    ensures written { Writes (W.Out.state out.old) (W.Out.state out.new) (spec.values_text tree.now at 0 values.now) result }
{
    let mut number = 0;
    for value in values {
        write_own_local(out, tree, at, number, value)?;
        number += 1;
    }
    Ok(())
}

fn write_owner<W: Out>(out: &mut W, tree: &Tree, at: u32, own: &OwnLocals) -> Result<(), WriteFault>
    ensures written { Writes (W.Out.state out.old) (W.Out.state out.new) (spec.owner_text tree.now at (own_is own.now)) result }
{
    write_processor_head(out, &own.processor)?;
    write_own_values(out, tree, at, &own.values)
}

fn is_owner(own: &OwnLocals) -> bool
    ensures { result ≡ spec.is_owner (own_is own.now) }
{
    !own.values.is_empty()
}

// A processor behind so many others that have locals, where it is one of the first of these.
fn write_if_first<W: Out>(
    out: &mut W,
    tree: &Tree,
    at: u32,
    count: usize,
    own: &OwnLocals,
) -> Result<(), WriteFault>
    ensures written { Writes (W.Out.state out.old) (W.Out.state out.new)
        (if nat_lt count most_locals && spec.is_owner (own_is own.now) then spec.owner_text tree.now at (own_is own.now) else []) result }
{
    if count < MOST_LOCALS && is_owner(own) {
        write_owner(out, tree, at, own)
    } else {
        out.write_all(b"")
    }
}

// How many have locals, with this one.
fn with_owner(count: usize, own: &OwnLocals) -> usize
    requires { count + 1 < 2 ^ 64 }
    ensures { result ≡ (if spec.is_owner (own_is own.now) then count + 1 else count) }
{
    if is_owner(own) { count + 1 } else { count }
}

fn write_owners<W: Out>(
    out: &mut W,
    tree: &Tree,
    at: u32,
    locals: &[OwnLocals],
) -> Result<(), WriteFault>
    ensures written { Writes (W.Out.state out.old) (W.Out.state out.new)
        (spec.first_text tree.now at (filter spec.is_owner (map own_is locals.now))) result }
{
    let mut count = 0;
    for own in locals {
        write_if_first(out, tree, at, count, own)?;
        count = with_owner(count, own);
    }
    write_more(out, count)
}

/// Writes what the locals of the processors held that a fault is of, at a statement that stands at this offset of the program's text, where
/// that is asked for.
pub(crate) fn write_own_locals<W: Out>(
    out: &mut W,
    detail: &Detail<'_>,
    at: u32,
    locals: &[OwnLocals],
) -> Result<(), WriteFault>
    ensures written { Writes (W.Out.state out.old) (W.Out.state out.new)
        (spec.own_text detail.now.locals at (map own_is locals.now)) result }
{
    match detail.locals {
        None => out.write_all(b""),
        Some(tree) => write_owners(out, tree, at, locals),
    }
}
