//! The text of what differs, with the names of both programs.

ghost use Rattle.std.specs.Prelude.{◌≡◌, ◌++◌, codes};
ghost use Rattle.text_out.specs.Out.{Writes};
ghost use Rattle.text_places.specs.Escaped.{escaped};
ghost use Rattle.comparing.specs.WhoseText as spec;

use crate::difference_text::{write_ending, write_excess, write_item, write_value};
use crate::{Difference, Ending};
use pram_trees::Layout;
use program_texts::write_cell;
use text_out::{Out, WriteFault};
use text_places::write_escaped;

// The name of a program's file.
fn write_name<W: Out>(out: &mut W, name: &str) -> Result<(), WriteFault>
    ensures written { Writes (W.Out.state out.old) (W.Out.state out.new) (escaped name.now) result }
{
    write_escaped(out, name.as_bytes())
}

// In which program, as ` in owed.pram`.
fn write_place<W: Out>(out: &mut W, name: &str) -> Result<(), WriteFault>
    ensures written { Writes (W.Out.state out.old) (W.Out.state out.new) (spec.place_text name.now) result }
{
    out.write_all(b" in ")?;
    write_name(out, name)
}

fn write_value_in<W: Out>(out: &mut W, value: Option<i64>, name: &str) -> Result<(), WriteFault>
    ensures written { Writes (W.Out.state out.old) (W.Out.state out.new) (spec.value_in value name.now) result }
{
    write_value(out, value)?;
    write_place(out, name)
}

// `4 in owed.pram, 2 in hard.pram`, the second program's first.
fn write_values_in<W: Out>(
    out: &mut W,
    first_name: &str,
    second_name: &str,
    first: Option<i64>,
    second: Option<i64>,
) -> Result<(), WriteFault>
    ensures written { Writes (W.Out.state out.old) (W.Out.state out.new)
        (spec.values_in first_name.now second_name.now first second) result }
{
    write_value_in(out, second, second_name)?;
    out.write_all(b", ")?;
    write_value_in(out, first, first_name)
}

fn write_ending_in<W: Out>(
    out: &mut W,
    layout: &Layout,
    ending: Ending,
    name: &str,
) -> Result<(), WriteFault>
    ensures written { Writes (W.Out.state out.old) (W.Out.state out.new) (spec.ending_in layout.now ending name.now) result }
{
    write_ending(out, layout, ending)?;
    write_place(out, name)
}

fn write_endings_in<W: Out>(
    out: &mut W,
    first_name: &str,
    second_name: &str,
    first_layout: &Layout,
    second_layout: &Layout,
    first: Ending,
    second: Ending,
) -> Result<(), WriteFault>
    ensures written { Writes (W.Out.state out.old) (W.Out.state out.new)
        (spec.endings_in first_name.now second_name.now first_layout.now second_layout.now first second) result }
{
    write_ending_in(out, second_layout, second, second_name)?;
    out.write_all(b", ")?;
    write_ending_in(out, first_layout, first, first_name)
}

fn write_output_in<W: Out>(
    out: &mut W,
    first_name: &str,
    second_name: &str,
    item: u64,
    first: Option<i64>,
    second: Option<i64>,
) -> Result<(), WriteFault>
    ensures written { Writes (W.Out.state out.old) (W.Out.state out.new)
        (spec.output_in first_name.now second_name.now item first second) result }
{
    write_item(out, item)?;
    write_values_in(out, first_name, second_name, first, second)
}

fn write_cell_in<W: Out>(
    out: &mut W,
    first_name: &str,
    second_name: &str,
    layout: &Layout,
    cell: u64,
    first: Option<i64>,
    second: Option<i64>,
) -> Result<(), WriteFault>
    ensures written { Writes (W.Out.state out.old) (W.Out.state out.new)
        (spec.cell_in first_name.now second_name.now layout.now cell first second) result }
{
    write_cell(out, layout, cell as usize)?;
    out.write_all(b" is ")?;
    write_values_in(out, first_name, second_name, first, second)
}

/// Writes what differs between the runs of two programs on an input with their names, the second program's first and without the end of
/// its line: `output item 1 is 4 in owed.pram, 2 in hard.pram`, `a[4] is 0 in owed.pram, 7 in hard.pram`,
/// `goes on in owed.pram, ended in hard.pram`, or `work 120 above 100`. The layouts are the shared declarations of the two programs, by
/// which cells are named. The error is that the writer failed (E17).
pub fn write_whose<W: Out>(
    out: &mut W,
    first_name: &str,
    second_name: &str,
    first_layout: &Layout,
    second_layout: &Layout,
    difference: &Difference,
) -> Result<(), WriteFault>
    // What differs is written with the names of the programs whose values these are, the second's first; or a beginning of it.
    ensures written { Writes (W.Out.state out.old) (W.Out.state out.new)
        (spec.whose_text first_name.now second_name.now first_layout.now second_layout.now difference.now) result }
{
    match *difference {
        Difference::Endings { first, second } => write_endings_in(
            out,
            first_name,
            second_name,
            first_layout,
            second_layout,
            first,
            second,
        ),
        Difference::Output {
            item,
            first,
            second,
        } => write_output_in(out, first_name, second_name, item, first, second),
        Difference::Cell {
            cell,
            first,
            second,
        } => write_cell_in(
            out,
            first_name,
            second_name,
            first_layout,
            cell,
            first,
            second,
        ),
        Difference::Time { taken, limit } => write_excess(out, b"time ", taken, limit),
        Difference::Work { taken, limit } => write_excess(out, b"work ", taken, limit),
    }
}
