//! The text of a comparison.

ghost use Rattle.std.specs.Prelude.{◌≡◌, Some, map};
ghost use Rattle.text_out.specs.Out.{Writes};
ghost use Rattle.comparing.specs.Found.{differing_is, found_is};
ghost use Rattle.comparing.specs.ComparisonText as spec;

use crate::difference_text::write_difference;
use crate::{Comparison, FoundDifference};
use itoa::Buffer;
use pram_check::Program;
use pram_trees::Layout;
use program_texts::write_values;
use text_out::{Out, WriteFault};

// How many inputs there are, and on how many both programs come to the same.
fn write_all_counts<W: Out>(out: &mut W, comparison: &Comparison) -> Result<(), WriteFault>
    ensures written { Writes (W.Out.state out.old) (W.Out.state out.new) (spec.all_counts (found_is comparison.now)) result }
{
    let mut inputs = Buffer::new();
    let mut same = Buffer::new();
    out.write_parts(&[
        b"inputs ",
        inputs.format(comparison.inputs).as_bytes(),
        b" same ",
        same.format(comparison.same).as_bytes(),
        b"\n",
    ])
}

// How many inputs there are, how many count, and on how many of these both programs come to the same.
fn write_some_counts<W: Out>(out: &mut W, comparison: &Comparison) -> Result<(), WriteFault>
    ensures written { Writes (W.Out.state out.old) (W.Out.state out.new) (spec.some_counts (found_is comparison.now)) result }
{
    let mut inputs = Buffer::new();
    let mut counting = Buffer::new();
    let mut same = Buffer::new();
    out.write_parts(&[
        b"inputs ",
        inputs.format(comparison.inputs).as_bytes(),
        b" counting ",
        counting.format(comparison.counting).as_bytes(),
        b" same ",
        same.format(comparison.same).as_bytes(),
        b"\n",
    ])
}

// The second with a precondition, and else the first.
fn write_counts<W: Out>(
    out: &mut W,
    precondition: &Option<Program>,
    comparison: &Comparison,
) -> Result<(), WriteFault>
    ensures written { Writes (W.Out.state out.old) (W.Out.state out.new)
        (spec.counts_line precondition.now (found_is comparison.now)) result }
{
    match precondition {
        None => write_all_counts(out, comparison),
        Some(_) => write_some_counts(out, comparison),
    }
}

// How many cells are drawn.
fn write_cell_count<W: Out>(out: &mut W, count: u32) -> Result<(), WriteFault>
    ensures written { Writes (W.Out.state out.old) (W.Out.state out.new) (spec.cells_line (Some count)) result }
{
    let mut digits = Buffer::new();
    out.write_parts(&[b"cells ", digits.format(count).as_bytes(), b"\n"])
}

/// Writes how many cells are drawn of each input, as `cells 8`, where inputs are, and else nothing. The error is that the writer failed (E17).
pub fn write_cells<W: Out>(out: &mut W, cells: Option<u32>) -> Result<(), WriteFault>
    // Exactly that line is written, or a beginning of it and then a failure.
    ensures written { Writes (W.Out.state out.old) (W.Out.state out.new) (spec.cells_line cells) result }
{
    match cells {
        None => out.write_all(b""),
        Some(count) => write_cell_count(out, count),
    }
}

// An input, and what differs on it.
fn write_found<W: Out>(
    out: &mut W,
    first: &Layout,
    second: &Layout,
    found: &FoundDifference,
) -> Result<(), WriteFault>
    ensures written { Writes (W.Out.state out.old) (W.Out.state out.new)
        (spec.differing_line first.now second.now (differing_is found.now)) result }
{
    out.write_all(b"input")?;
    write_values(out, found.input.as_slice())?;
    out.write_all(b": ")?;
    write_difference(out, first, second, &found.difference)?;
    out.write_all(b"\n")
}

fn write_first<W: Out>(
    out: &mut W,
    first: &Layout,
    second: &Layout,
    told: &[FoundDifference],
) -> Result<(), WriteFault>
    ensures written { Writes (W.Out.state out.old) (W.Out.state out.new)
        (spec.first_line first.now second.now (map differing_is told.now)) result }
{
    match told {
        [] => out.write_all(b""),
        [found, ..] => write_found(out, first, second, found),
    }
}

/// Writes what is found of two programs: a line as `inputs 625 same 624`, and with a precondition `inputs 625 counting 24 same 20`; where
/// inputs are drawn, how many cells are, as `cells 8`; and, where they differ on an input that counts, a line for the first of those, as
/// `input 2 1: output item 1 is 3, and 2`. The layouts are the shared declarations of the two programs. The error is that the writer failed
/// (E17).
pub fn write_comparison<W: Out>(
    out: &mut W,
    first: &Layout,
    second: &Layout,
    precondition: &Option<Program>,
    cells: Option<u32>,
    comparison: &Comparison,
) -> Result<(), WriteFault>
    // Exactly the text of this comparison is written, or a beginning of it and then a failure.
    ensures written { Writes (W.Out.state out.old) (W.Out.state out.new)
        (spec.comparison_text first.now second.now precondition.now cells (found_is comparison.now)) result }
{
    write_counts(out, precondition, comparison)?;
    write_cells(out, cells)?;
    write_first(out, first, second, &comparison.told)
}
