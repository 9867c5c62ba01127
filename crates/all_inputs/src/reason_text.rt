//! The text of a reason why a fault may come.

ghost use Rattle.std.specs.Prelude.{◌++◌, codes, slice_get};
ghost use Rattle.text_out.specs.Out.{Writes};
ghost use Rattle.pram_printer.specs.Spelling as spelling;
ghost use Rattle.all_inputs.specs.ReasonText as spec;

use crate::declared_text::write_named;
use crate::interval_text::{write_interval, write_is_in, write_range};
use crate::reason::Reason;
use intervals::Interval;
use pram_printer::{binary_text, prefix_text};
use pram_trees::{Binary, Layout, Prefix};
use text_out::{Out, WriteFault};

fn write_between<W: Out>(out: &mut W, operator: Binary) -> Result<(), WriteFault>
    ensures written { Writes (W.Out.state out.old) (W.Out.state out.new)
        (spec.between_text (spelling.binary_text operator)) result }
{
    out.write_parts(&[b" ", binary_text(operator), b" "])
}

fn write_before<W: Out>(out: &mut W, operator: Prefix) -> Result<(), WriteFault>
    ensures written { Writes (W.Out.state out.old) (W.Out.state out.new)
        (spec.before_text (spelling.prefix_text operator)) result }
{
    out.write_parts(&[prefix_text(operator), b"("])
}

// An operator between two intervals.
fn write_operands<W: Out>(
    out: &mut W,
    operator: Binary,
    left: &Interval,
    right: &Interval,
) -> Result<(), WriteFault>
    ensures written { Writes (W.Out.state out.old) (W.Out.state out.new)
        (spec.operands_text (spelling.binary_text operator) left.now right.now) result }
{
    write_interval(out, left)?;
    write_between(out, operator)?;
    write_interval(out, right)
}

// An operator before an interval.
fn write_operand<W: Out>(
    out: &mut W,
    operator: Prefix,
    operand: &Interval,
) -> Result<(), WriteFault>
    ensures written { Writes (W.Out.state out.old) (W.Out.state out.new)
        (spec.operand_text (spelling.prefix_text operator) operand.now) result }
{
    write_before(out, operator)?;
    write_interval(out, operand)?;
    out.write_all(b")")
}

// A subscript of a declaration.
fn write_subscript<W: Out>(
    out: &mut W,
    layout: &Layout,
    entry: usize,
    subscript: &Interval,
) -> Result<(), WriteFault>
    ensures written { Writes (W.Out.state out.old) (W.Out.state out.new)
        (spec.subscript_text (slice_get layout.now entry) subscript.now) result }
{
    out.write_all(b"the subscript of ")?;
    write_named(out, layout, entry)?;
    write_is_in(out, subscript)
}

// The indices of a pardo.
fn write_width<W: Out>(out: &mut W, first: &i64, last: &i64) -> Result<(), WriteFault>
    ensures written { Writes (W.Out.state out.old) (W.Out.state out.new)
        (codes "the indices are " ++ spec.range_text first.now last.now) result }
{
    out.write_all(b"the indices are ")?;
    write_range(out, first, last)
}

/// Writes why a fault may come, as `0..3 + 1..9`. The error is that the writer failed (E17).
pub(crate) fn write_reason<W: Out>(
    out: &mut W,
    layout: &Layout,
    reason: &Reason,
) -> Result<(), WriteFault>
    // Exactly the text of the reason is written, or a beginning of it and then a failure.
    ensures written { Writes (W.Out.state out.old) (W.Out.state out.new) (spec.reason_text layout.now reason.now) result }
{
    match reason {
        Reason::Operands {
            operator,
            left,
            right,
        } => write_operands(out, *operator, left, right),
        Reason::Operand { operator, operand } => write_operand(out, *operator, operand),
        Reason::Subscript { entry, subscript } => write_subscript(out, layout, *entry, subscript),
        Reason::Width { first, last } => write_width(out, first, last),
        Reason::Shared => out.write_all(b"processors may share a cell"),
        Reason::Single => out.write_all(b"the one input comes to it"),
    }
}
