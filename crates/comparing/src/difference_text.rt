//! The text of what differs.

ghost use Rattle.std.specs.Prelude.{◌≡◌, ◌++◌, codes};
ghost use Rattle.text_out.specs.Out.{Writes};
ghost use Rattle.comparing.specs.ComparisonText as spec;

use crate::{Difference, Ending};
use itoa::Buffer;
use pram_trees::Layout;
use program_texts::{write_cell, write_fault_text};
use text_out::{Out, WriteFault};

/// A value, or that there is none.
pub(crate) fn write_value<W: Out>(out: &mut W, value: Option<i64>) -> Result<(), WriteFault>
    ensures written { Writes (W.Out.state out.old) (W.Out.state out.new) (spec.value_text value) result }
{
    match value {
        None => out.write_all(b"missing"),
        Some(value) => {
            let mut digits = Buffer::new();
            out.write_all(digits.format(value).as_bytes())
        }
    }
}

// Two values, as `3, and 2`.
fn write_values<W: Out>(
    out: &mut W,
    first: Option<i64>,
    second: Option<i64>,
) -> Result<(), WriteFault>
    ensures written { Writes (W.Out.state out.old) (W.Out.state out.new) (spec.values_text first second) result }
{
    write_value(out, first)?;
    out.write_all(b", and ")?;
    write_value(out, second)
}

/// How a run came out.
pub(crate) fn write_ending<W: Out>(
    out: &mut W,
    layout: &Layout,
    ending: Ending,
) -> Result<(), WriteFault>
    ensures written { Writes (W.Out.state out.old) (W.Out.state out.new) (spec.ending_text layout.now ending) result }
{
    match ending {
        Ending::Ended => out.write_all(b"ended"),
        Ending::Faulted(fault) => write_fault_text(out, layout, &fault),
        Ending::GoesOn => out.write_all(b"goes on"),
    }
}

fn write_endings<W: Out>(
    out: &mut W,
    first_layout: &Layout,
    first: Ending,
    second_layout: &Layout,
    second: Ending,
) -> Result<(), WriteFault>
    ensures written { Writes (W.Out.state out.old) (W.Out.state out.new)
        (spec.endings_text first_layout.now first second_layout.now second) result }
{
    write_ending(out, first_layout, first)?;
    out.write_all(b", and ")?;
    write_ending(out, second_layout, second)
}

/// Which item it is that differs, as `output item 1 is `.
pub(crate) fn write_item<W: Out>(out: &mut W, item: u64) -> Result<(), WriteFault>
    ensures written { Writes (W.Out.state out.old) (W.Out.state out.new) (spec.item_text item) result }
{
    let mut digits = Buffer::new();
    out.write_parts(&[b"output item ", digits.format(item).as_bytes(), b" is "])
}

fn write_output<W: Out>(
    out: &mut W,
    item: u64,
    first: Option<i64>,
    second: Option<i64>,
) -> Result<(), WriteFault>
    ensures written { Writes (W.Out.state out.old) (W.Out.state out.new) (spec.output_text item first second) result }
{
    write_item(out, item)?;
    write_values(out, first, second)
}

fn write_unequal_cell<W: Out>(
    out: &mut W,
    layout: &Layout,
    cell: u64,
    first: Option<i64>,
    second: Option<i64>,
) -> Result<(), WriteFault>
    ensures written { Writes (W.Out.state out.old) (W.Out.state out.new) (spec.unequal_cell_text layout.now cell first second) result }
{
    write_cell(out, layout, cell as usize)?;
    out.write_all(b" is ")?;
    write_values(out, first, second)
}

/// What is taken, and the limit that it is above, as `time 43 above 40`.
pub(crate) fn write_excess<W: Out>(
    out: &mut W,
    words: &[u8],
    taken: u64,
    limit: u64,
) -> Result<(), WriteFault>
    ensures written { Writes (W.Out.state out.old) (W.Out.state out.new) (spec.excess_text words.now taken limit) result }
{
    let mut more = Buffer::new();
    let mut most = Buffer::new();
    out.write_parts(&[
        words,
        more.format(taken).as_bytes(),
        b" above ",
        most.format(limit).as_bytes(),
    ])
}

/// Writes what differs between the runs of two programs on an input, without the end of its line: `output item 1 is 3, and 2`,
/// `a[4] is 7, and 0`, `ended, and fault overflow all line 9`, or `time 43 above 40`. Of two values, or of how two runs come out, that of
/// the first program stands first. The layouts are the shared declarations of the two programs, by which cells are named. The error is
/// that the writer failed (E17).
pub(crate) fn write_difference<W: Out>(
    out: &mut W,
    first_layout: &Layout,
    second_layout: &Layout,
    difference: &Difference,
) -> Result<(), WriteFault>
    ensures written { Writes (W.Out.state out.old) (W.Out.state out.new)
        (spec.difference_text first_layout.now second_layout.now difference.now) result }
{
    match *difference {
        Difference::Endings { first, second } => {
            write_endings(out, first_layout, first, second_layout, second)
        }
        Difference::Output {
            item,
            first,
            second,
        } => write_output(out, item, first, second),
        Difference::Cell {
            cell,
            first,
            second,
        } => write_unequal_cell(out, first_layout, cell, first, second),
        Difference::Time { taken, limit } => write_excess(out, b"time ", taken, limit),
        Difference::Work { taken, limit } => write_excess(out, b"work ", taken, limit),
    }
}
