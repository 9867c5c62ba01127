//! What stands below the bands: a fault, and those that met there.

ghost use Rattle.std.specs.Prelude.{◌≡◌, ◌≤◌, ◌+◌, ◌-◌, map, take};
ghost use Rattle.text_out.specs.Out.{Writes};
ghost use Rattle.journal.specs.Entries.{entry_is};
ghost use Rattle.pictures.specs.Steps.Picture as spec;
ghost use Rattle.svg_texts.specs.Shapes.{shape_text, words_text};

use crate::faults::write_fault_line;
use crate::steps::paints::open_plain;
use itoa::Buffer;
use journal::Entry;
use pram_trees::Layout;
use svg_texts::{close_text, write_numbered};
use text_out::{Out, WriteFault};
use write_rules::Fault;

// So many of those that met are named below the bands.
const MOST_NAMED: usize = 8;

// An index, behind a blank.
fn write_index<W: Out>(out: &mut W, index: &i64) -> Result<(), WriteFault>
    ensures written { Writes (W.Out.state out.old) (W.Out.state out.new) (words_text (spec.behind_blank index.now)) result }
{
    let mut digits = Buffer::new();
    out.write_parts(&[b" ", digits.format(*index).as_bytes()])
}

fn write_indices<W: Out>(out: &mut W, indices: &[i64]) -> Result<(), WriteFault>
    ensures written { Writes (W.Out.state out.old) (W.Out.state out.new) (words_text (spec.indices_words indices.now)) result }
{
    for index in indices {
        write_index(out, index)?;
    }
    Ok(())
}

// Those that are named.
fn named(met: &[i64]) -> &[i64]
    ensures { result.now ≡ take 8 met.now }
{
    if met.len() > MOST_NAMED {
        met.split_at(MOST_NAMED).0
    } else {
        met
    }
}

fn write_and_more<W: Out>(out: &mut W, count: usize) -> Result<(), WriteFault>
    ensures written { Writes (W.Out.state out.old) (W.Out.state out.new) (words_text (spec.and_more count)) result }
{
    write_numbered(out, b" and ", count as u128)?;
    out.write_all(b" more")
}

// How many more met.
fn write_more_met<W: Out>(out: &mut W, count: usize) -> Result<(), WriteFault>
    ensures written { Writes (W.Out.state out.old) (W.Out.state out.new) (words_text (spec.more_met count)) result }
{
    if count > MOST_NAMED {
        write_and_more(out, count - MOST_NAMED)
    } else {
        out.write_all(b"")
    }
}

// Who met.
fn write_met_words<W: Out>(out: &mut W, met: &[i64]) -> Result<(), WriteFault>
    ensures written { Writes (W.Out.state out.old) (W.Out.state out.new) (words_text (spec.met_words met.now)) result }
{
    out.write_all(b"met: processors")?;
    write_indices(out, named(met))?;
    write_more_met(out, met.len())
}

fn write_some_met<W: Out>(out: &mut W, y: usize, met: &[i64]) -> Result<(), WriteFault>
    ensures written { Writes (W.Out.state out.old) (W.Out.state out.new) (shape_text (spec.some_met y met.now)) result }
{
    open_plain(out, 12, y)?;
    write_met_words(out, met)?;
    close_text(out)
}

fn write_met_line<W: Out>(out: &mut W, y: usize, met: &[i64]) -> Result<(), WriteFault>
    ensures written { Writes (W.Out.state out.old) (W.Out.state out.new) (shape_text (spec.met_line y met.now)) result }
{
    if met.is_empty() {
        out.write_all(b"")
    } else {
        write_some_met(out, y, met)
    }
}

fn write_fault_lines<W: Out>(
    out: &mut W,
    layout: &Layout,
    y: usize,
    fault: &Fault,
    met: &[i64],
) -> Result<(), WriteFault>
    requires near { y ≤ 20000 }
    ensures written { Writes (W.Out.state out.old) (W.Out.state out.new)
        (shape_text (spec.fault_lines layout.now y fault.now met.now)) result }
{
    write_fault_line(out, layout, y as u128, fault)?;
    write_met_line(out, y + 18, met)
}

fn write_ending_of<W: Out>(
    out: &mut W,
    layout: &Layout,
    y: usize,
    entry: &Entry,
) -> Result<(), WriteFault>
    requires near { y ≤ 20000 }
    ensures written { Writes (W.Out.state out.old) (W.Out.state out.new)
        (shape_text (spec.ending_of layout.now y (entry_is entry.now))) result }
{
    match entry {
        Entry::Ran { .. } => out.write_all(b""),
        Entry::Faulted { fault, met, .. } => write_fault_lines(out, layout, y, fault, met),
    }
}

/// Writes what is said of the last statement, if it faulted.
pub(crate) fn write_ending<W: Out>(
    out: &mut W,
    layout: &Layout,
    y: usize,
    entries: &[Entry],
) -> Result<(), WriteFault>
    requires near { y ≤ 20000 }
    ensures written { Writes (W.Out.state out.old) (W.Out.state out.new)
        (shape_text (spec.ending layout.now y (map entry_is entries.now))) result }
{
    match entries.last() {
        None => out.write_all(b""),
        Some(entry) => write_ending_of(out, layout, y, entry),
    }
}
