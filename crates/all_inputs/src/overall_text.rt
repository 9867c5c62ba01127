//! The text of what is told of a program's runs on all inputs of a scope.

ghost use Rattle.std.specs.Prelude.{◌++◌};
ghost use Rattle.std.specs.Fmt.{decimal as to_decimal};
ghost use Rattle.text_out.specs.Out.{Writes};
ghost use Rattle.all_inputs.specs.OverallText as spec;

use crate::end_text::{write_end, write_going_on};
use crate::faults_text::write_faults;
use crate::interval_text::decimal;
use crate::overall::Overall;
use crate::scope::Scope;
use crate::undecided::Undecided;
use intervals::Interval;
use itoa::Buffer;
use pram_trees::Layout;
use text_out::{Out, WriteFault};

// A number in decimal.
fn write_count<W: Out>(out: &mut W, count: u32) -> Result<(), WriteFault>
    ensures written { Writes (W.Out.state out.old) (W.Out.state out.new) (to_decimal count) result }
{
    let mut digits = Buffer::new();
    out.write_all(digits.format(count).as_bytes())
}

fn write_many<W: Out>(out: &mut W, count: u32) -> Result<(), WriteFault>
    ensures written { Writes (W.Out.state out.old) (W.Out.state out.new) (spec.many_text count) result }
{
    out.write_all(b"every input of ")?;
    write_count(out, count)?;
    out.write_all(b" values")
}

// How many values an input has.
fn write_values<W: Out>(out: &mut W, count: u32) -> Result<(), WriteFault>
    ensures written { Writes (W.Out.state out.old) (W.Out.state out.new) (spec.values_text count) result }
{
    if count == 1 {
        out.write_all(b"every input of 1 value")
    } else {
        write_many(out, count)
    }
}

// Where they lie.
fn write_from<W: Out>(out: &mut W, interval: &Interval) -> Result<(), WriteFault>
    ensures written { Writes (W.Out.state out.old) (W.Out.state out.new) (spec.from_text interval.now) result }
{
    let least = interval.least();
    let greatest = interval.greatest();
    let mut from = Buffer::new();
    let mut to = Buffer::new();
    out.write_parts(&[
        b" from ",
        decimal(&mut from, &least),
        b" to ",
        decimal(&mut to, &greatest),
        b"\n",
    ])
}

// Which inputs there are.
fn write_scope<W: Out>(out: &mut W, scope: &Scope) -> Result<(), WriteFault>
    ensures written { Writes (W.Out.state out.old) (W.Out.state out.new) (spec.scope_line scope.now) result }
{
    write_values(out, scope.values)?;
    write_from(out, &scope.of)
}

/// Writes what is told, one fact a line: which inputs there are; each kind of fault that a line may have, with its reason, of 100 lines at
/// most, or that there is none; whether a run may go on behind the bound; and, where one may end, the least and the greatest time and the
/// interval of each declaration's values, or else that none ends, unless that is told by then. A fault that every run has is told as one.
/// The error is that the writer failed (E17).
pub fn write_overall<W: Out>(
    out: &mut W,
    layout: &Layout,
    scope: Scope,
    overall: &Overall,
) -> Result<(), WriteFault>
    // Exactly the text of what is told is written, or a beginning of it and then a failure.
    ensures written { Writes (W.Out.state out.old) (W.Out.state out.new) (spec.overall_text layout.now scope overall.now) result }
{
    write_scope(out, &scope)?;
    write_faults(out, layout, overall)?;
    write_going_on(out, overall)?;
    write_end(out, layout, overall)
}

fn write_undecided_head<W: Out>(out: &mut W, line: u32) -> Result<(), WriteFault>
    ensures written { Writes (W.Out.state out.old) (W.Out.state out.new) (spec.undecided_head line) result }
{
    out.write_all(b"undecided line ")?;
    write_count(out, line)?;
    out.write_all(b": ")
}

// At which line too little is known, and these words.
fn write_why<W: Out>(out: &mut W, line: u32, words: &[u8]) -> Result<(), WriteFault>
    ensures written { Writes (W.Out.state out.old) (W.Out.state out.new) (spec.undecided_head line ++ words.now) result }
{
    write_undecided_head(out, line)?;
    out.write_all(words)
}

// At which line too little is known, and of what.
fn write_undecided_line<W: Out>(out: &mut W, undecided: Undecided) -> Result<(), WriteFault>
    ensures written { Writes (W.Out.state out.old) (W.Out.state out.new) (spec.undecided_line undecided) result }
{
    match undecided {
        Undecided::OpenBounds { line } => {
            write_why(out, line, b"the bounds aren't known as numbers\n")
        }
        Undecided::Restless { line } => write_why(out, line, b"the loop comes to no rest\n"),
    }
}

/// Writes which inputs there are, and where too little is known of their runs to go on. The error is that the writer failed (E17).
pub fn write_undecided<W: Out>(
    out: &mut W,
    scope: Scope,
    undecided: Undecided,
) -> Result<(), WriteFault>
    // Exactly that text is written, or a beginning of it and then a failure.
    ensures written { Writes (W.Out.state out.old) (W.Out.state out.new) (spec.undecided_text scope undecided) result }
{
    write_scope(out, &scope)?;
    write_undecided_line(out, undecided)
}
