//! The text of the runs that go on and of those that end.

ghost use Rattle.std.specs.Prelude.{◌≡◌, slice_get};
ghost use Rattle.text_out.specs.Out.{Writes};
ghost use Rattle.all_inputs.specs.OverallText as spec;

use crate::certainty::only_fault;
use crate::declared_text::write_named;
use crate::ending::Ending;
use crate::faults_text::is_faultless;
use crate::interval_text::write_ends;
use crate::overall::Overall;
use intervals::Interval;
use itoa::Buffer;
use pram_trees::Layout;
use text_out::{Out, WriteFault};

// Whether nothing is told but that a run may go on.
fn surely_goes_on(overall: &Overall) -> bool
    ensures { result ≡ spec.surely_goes_on overall.now }
{
    overall.told.may_go_on() && is_faultless(overall.told.lines()) && overall.end.is_none()
}

// The line of the runs that go on.
fn going_on_line(overall: &Overall) -> &'static [u8]
    ensures { result.now ≡ spec.going_on_line overall.now }
{
    if surely_goes_on(overall) {
        b"goes on\n"
    } else if overall.told.may_go_on() {
        b"may go on\n"
    } else {
        b""
    }
}

/// Writes whether each run goes on, or some may, and nothing where none is told to. The error is that the writer failed (E17).
pub(crate) fn write_going_on<W: Out>(out: &mut W, overall: &Overall) -> Result<(), WriteFault>
    // Exactly that line is written, or a beginning of it and then a failure.
    ensures written { Writes (W.Out.state out.old) (W.Out.state out.new) (spec.going_on_line overall.now) result }
{
    out.write_all(going_on_line(overall))
}

// The line that says that none ends.
fn no_end_line(overall: &Overall) -> &'static [u8]
    ensures { result.now ≡ spec.no_end_line overall.now }
{
    if only_fault(overall).is_some() || surely_goes_on(overall) {
        b""
    } else {
        b"no run ends\n"
    }
}

// How many statements the runs have that end.
fn write_time<W: Out>(out: &mut W, least: u32, most: u32) -> Result<(), WriteFault>
    ensures written { Writes (W.Out.state out.old) (W.Out.state out.new) (spec.time_line least most) result }
{
    let mut from = Buffer::new();
    let mut to = Buffer::new();
    if least == most {
        out.write_parts(&[b"time ", from.format(least).as_bytes(), b"\n"])
    } else {
        out.write_parts(&[
            b"time ",
            from.format(least).as_bytes(),
            b" to ",
            to.format(most).as_bytes(),
            b"\n",
        ])
    }
}

// The interval of the values of a declaration.
fn write_declared_line<W: Out>(
    out: &mut W,
    layout: &Layout,
    entry: usize,
    interval: &Interval,
) -> Result<(), WriteFault>
    ensures written { Writes (W.Out.state out.old) (W.Out.state out.new)
        (spec.declared_line (slice_get layout.now entry) interval.now) result }
{
    write_named(out, layout, entry)?;
    out.write_all(b" in ")?;
    write_ends(out, interval)?;
    out.write_all(b"\n")
}

// Those of each declaration.
fn write_declared_lines<W: Out>(
    out: &mut W,
    layout: &Layout,
    end: &Ending,
) -> Result<(), WriteFault>
    ensures written { Writes (W.Out.state out.old) (W.Out.state out.new)
        (spec.declared_lines layout.now end.now.declared.items) result }
{
    let count = layout.len().min(end.declared.len());
    for i in 0..count {
        write_declared_line(out, layout, i, &end.declared[i])?;
    }
    Ok(())
}

// What is known of the runs that end.
fn write_ending<W: Out>(out: &mut W, layout: &Layout, end: &Ending) -> Result<(), WriteFault>
    ensures written { Writes (W.Out.state out.old) (W.Out.state out.new)
        (spec.ending_text layout.now end.now) result }
{
    write_time(out, end.least, end.most)?;
    write_declared_lines(out, layout, end)
}

/// Writes what is known of the runs that end, a fact a line, or that there is none. The error is that the writer failed (E17).
pub(crate) fn write_end<W: Out>(
    out: &mut W,
    layout: &Layout,
    overall: &Overall,
) -> Result<(), WriteFault>
    // Exactly the text of the runs that end is written, or a beginning of it and then a failure.
    ensures written { Writes (W.Out.state out.old) (W.Out.state out.new)
        (spec.end_text layout.now overall.now overall.now.end) result }
{
    match &overall.end {
        None => out.write_all(no_end_line(overall)),
        Some(end) => write_ending(out, layout, end),
    }
}
