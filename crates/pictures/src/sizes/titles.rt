//! What marks say where they are pointed at.

ghost use Rattle.std.specs.Prelude.{◌≡◌};
ghost use Rattle.text_out.specs.Out.{Writes};
ghost use Rattle.svg_texts.specs.Shapes.{words_text};
ghost use Rattle.pictures.specs.Sizes.Titles as spec;

use svg_texts::{write_letters, write_numbered};
use sweeps::{Counts, Ending, Measure, SizeRow};
use text_out::{Out, WriteFault};

fn word(measure: Measure) -> &'static [u8]
    ensures { result.now ≡ spec.word measure }
{
    match measure {
        Measure::Time => b" time ",
        Measure::Work => b" work ",
    }
}

fn write_told<W: Out>(word: &[u8], number: u64, how: &[u8], out: &mut W) -> Result<(), WriteFault>
    ensures written { Writes (W.Out.state out.old) (W.Out.state out.new) (words_text (spec.told word.now number how.now)) result }
{
    write_numbered(out, word, number as u128)?;
    write_letters(out, how)
}

// A run's number, and how it came out.
fn write_number<W: Out>(
    measure: Measure,
    counts: &Counts,
    how: &[u8],
    out: &mut W,
) -> Result<(), WriteFault>
    ensures written { Writes (W.Out.state out.old) (W.Out.state out.new)
        (words_text (spec.number_words measure counts.now how.now)) result }
{
    write_told(word(measure), measure.number(counts), how, out)
}

fn write_fault<W: Out>(
    measure: Measure,
    counts: &Counts,
    fault: &[u8],
    out: &mut W,
) -> Result<(), WriteFault>
    ensures written { Writes (W.Out.state out.old) (W.Out.state out.new)
        (words_text (spec.fault_words measure counts.now fault.now)) result }
{
    write_number(measure, counts, b" ", out)?;
    write_letters(out, fault)
}

fn write_refusal<W: Out>(refusal: &[u8], out: &mut W) -> Result<(), WriteFault>
    ensures written { Writes (W.Out.state out.old) (W.Out.state out.new) (words_text (spec.refusal_words refusal.now)) result }
{
    write_letters(out, b" ")?;
    write_letters(out, refusal)
}

fn write_ending<W: Out>(measure: Measure, ending: &Ending, out: &mut W) -> Result<(), WriteFault>
    ensures written { Writes (W.Out.state out.old) (W.Out.state out.new) (words_text (spec.ending_words measure ending.now)) result }
{
    match ending {
        Ending::Ended(counts) => write_number(measure, counts, b"", out),
        Ending::GoesOn(counts) => write_number(measure, counts, b" goes on", out),
        Ending::Faulted(counts, fault) => write_fault(measure, counts, fault.as_slice(), out),
        Ending::Refused(refusal) => write_refusal(refusal.as_slice(), out),
    }
}

fn write_row<W: Out>(measure: Measure, row: &SizeRow, out: &mut W) -> Result<(), WriteFault>
    ensures written { Writes (W.Out.state out.old) (W.Out.state out.new) (words_text (spec.row_words measure row.now)) result }
{
    write_numbered(out, b" ", row.size as u128)?;
    write_ending(measure, &row.ending, out)
}

/// Writes the title of a row's mark.
pub(crate) fn write_title<W: Out>(
    name: &[u8],
    measure: Measure,
    row: &SizeRow,
    out: &mut W,
) -> Result<(), WriteFault>
    ensures written { Writes (W.Out.state out.old) (W.Out.state out.new) (words_text (spec.title_words name.now measure row.now)) result }
{
    write_letters(out, name)?;
    write_row(measure, row, out)
}
