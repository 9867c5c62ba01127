//! The text of an outcome with the chosen declarations.

ghost use Rattle.std.specs.Prelude.{◌≡◌, ◌++◌, codes, drop, take};
ghost use Rattle.program_texts.specs.Shown.{item_lines, line};
ghost use Rattle.text_out.specs.Out.{Writes};
ghost use Rattle.write_rules.specs.Verdict.{Ended, verdict_of};
ghost use Rattle.memory_texts.specs.Chosen as spec;

use crate::choice::{Choice, is_chosen};
use pram_model::Layout;
use program_texts::{show, write_entry, write_items};
use text_out::{Out, WriteFault};
use write_rules::Outcome;

// The line of a declaration, if it is chosen.
fn write_if_chosen<W: Out>(
    out: &mut W,
    choice: Choice<'_>,
    name: &[u8],
    bounds: &Option<(i64, i64)>,
    values: &[i64],
) -> Result<(), WriteFault>
    ensures written { Writes (W.Out.state out.old) (W.Out.state out.new)
        (spec.line_if_chosen choice.entry record { name = name.now; bounds = bounds.now } values.now) result }
{
    if !is_chosen(choice, name) {
        return Ok(());
    }
    write_entry(out, name, bounds, values)
}

// The first values, as many as that, and the others.
fn parted(values: &[i64], count: usize) -> (&[i64], &[i64])
    ensures first { result.0.now ≡ take count values.now }
    ensures others { result.1.now ≡ drop count values.now }
{
    if count < values.len() {
        values.split_at(count)
    } else {
        (values, &[])
    }
}

// The lines of the chosen declarations.
fn write_chosen<W: Out>(
    out: &mut W,
    layout: &Layout,
    choice: Choice<'_>,
    memory: &[i64],
) -> Result<(), WriteFault>
    ensures written { Writes (W.Out.state out.old) (W.Out.state out.new) (spec.chosen_lines choice.entry layout.now memory.now) result }
{
    let mut rest = memory;
    for i in 0..layout.len() {
        let (values, behind) = parted(rest, layout.size(i) as usize);
        let bounds = layout.bounds(i);
        write_if_chosen(out, choice, layout.name(i), &bounds, values)?;
        rest = behind;
    }
    Ok(())
}

// The end of a run, without its memory.
fn write_end<W: Out>(out: &mut W, output: &[i64]) -> Result<(), WriteFault>
    ensures written { Writes (W.Out.state out.old) (W.Out.state out.new) (item_lines output.now ++ line (codes "ended")) result }
{
    write_items(out, output)?;
    out.write_all(b"ended\n")
}

/// Writes the text of an outcome as `show` of `program_texts` does, but of the memory the chosen declarations alone. Where names are
/// given, their lines are all that is written of a run that ended; a fault, and a run that goes on, are written as ever. The error is that
/// the writer failed (E17).
pub fn show_chosen<W: Out>(
    layout: &Layout,
    outcome: &Outcome,
    choice: Choice<'_>,
    out: &mut W,
) -> Result<(), WriteFault>
    // Of an ended run's memory the chosen declarations are written, each with its own cells; or a beginning of the
    // text, and then the writer failed.
    ensures written { Writes (W.Out.state out.old) (W.Out.state out.new)
        (spec.shown_by choice.entry layout.now (verdict_of outcome.now)) result }
{
    match outcome {
        Outcome::Ended { output, memory } => match choice {
            Choice::All => show(layout, outcome, out),
            Choice::Nothing => write_end(out, output),
            Choice::Named(_) => write_chosen(out, layout, choice, memory),
        },
        Outcome::Faulted { .. } | Outcome::GoesOn { .. } => show(layout, outcome, out),
    }
}
