//! The program's text of a statement's line, above its column.

ghost use Rattle.std.specs.Prelude.{◌≡◌, ◌≤◌, ◌+◌, length, map};
ghost use Rattle.text_out.specs.Out.{Writes};
ghost use Rattle.journal.specs.Entries.{entry_is};
ghost use Rattle.pictures.specs.Steps.ProgramLines as spec;
ghost use Rattle.svg_texts.specs.Shapes.{shape_text, words_text};

use crate::steps::paints::open_code;
use journal::Entry;
use svg_texts::{close_text, write_letters};
use text_out::{Out, WriteFault};
use text_places::line_text;

// No more letters stand in a row.
const MOST_LETTERS: usize = 36;

/// The text of a line, without blanks at both ends.
pub(crate) fn code_of(text: &[u8], line: u32) -> &[u8]
    ensures { result.now ≡ spec.code_of text.now line }
{
    let bytes = line_text(text, line as usize);
    bytes.trim_ascii()
}

fn write_letters_and_dots<W: Out>(out: &mut W, bytes: &[u8]) -> Result<(), WriteFault>
    ensures written { Writes (W.Out.state out.old) (W.Out.state out.new) (words_text (spec.with_dots bytes.now)) result }
{
    write_letters(out, bytes)?;
    out.write_all(b"..")
}

// What is longer than a row is cut.
fn write_cut<W: Out>(out: &mut W, bytes: &[u8]) -> Result<(), WriteFault>
    ensures written { Writes (W.Out.state out.old) (W.Out.state out.new) (words_text (spec.cut bytes.now)) result }
{
    if bytes.len() > MOST_LETTERS {
        write_letters_and_dots(out, bytes.split_at(MOST_LETTERS - 2).0)
    } else {
        write_letters(out, bytes)
    }
}

// A row that reads upwards.
fn write_code_row<W: Out>(out: &mut W, x: usize, y: usize, bytes: &[u8]) -> Result<(), WriteFault>
    ensures written { Writes (W.Out.state out.old) (W.Out.state out.new) (shape_text (spec.code_row x y bytes.now)) result }
{
    open_code(out, x, y)?;
    write_cut(out, bytes)?;
    close_text(out)
}

// The second row, if there is one.
fn write_more<W: Out>(out: &mut W, x: usize, y: usize, bytes: &[u8]) -> Result<(), WriteFault>
    ensures written { Writes (W.Out.state out.old) (W.Out.state out.new) (shape_text (spec.more_code x y bytes.now)) result }
{
    if bytes.is_empty() {
        out.write_all(b"")
    } else {
        write_code_row(out, x, y, bytes)
    }
}

// What fits into a row, and what doesn't.
fn first_row(bytes: &[u8]) -> &[u8]
    ensures { result.now ≡ spec.first_row bytes.now }
{
    if bytes.len() > MOST_LETTERS {
        bytes.split_at(MOST_LETTERS).0
    } else {
        bytes
    }
}

fn next_row(bytes: &[u8]) -> &[u8]
    ensures { result.now ≡ spec.next_row bytes.now }
{
    if bytes.len() > MOST_LETTERS {
        bytes.split_at(MOST_LETTERS).1
    } else {
        &[]
    }
}

/// Writes the text of a line in two rows that read upwards.
pub(crate) fn write_code<W: Out>(
    out: &mut W,
    x: usize,
    y: usize,
    bytes: &[u8],
) -> Result<(), WriteFault>
    requires near { x ≤ 2000 }
    ensures written { Writes (W.Out.state out.old) (W.Out.state out.new) (shape_text (spec.code_rows x y bytes.now)) result }
{
    write_code_row(out, x + 24, y, first_row(bytes))?;
    write_more(out, x + 38, y, next_row(bytes))
}

/// The line that a statement is told to stand in.
pub(crate) fn line_of(entry: &Entry) -> u32
    ensures { result ≡ spec.line_of (entry_is entry.now) }
{
    match entry {
        Entry::Ran { location, .. } => location.line,
        Entry::Faulted { fault, .. } => fault.line,
    }
}

fn row_length(text: &[u8], entry: &Entry) -> usize
    ensures length { result ≡ spec.row_length text.now (entry_is entry.now) }
    ensures short { result ≤ 36 }
{
    code_of(text, line_of(entry)).len().min(MOST_LETTERS)
}

/// How long the longest row above these columns is.
pub(crate) fn longest(text: &[u8], entries: &[Entry]) -> usize
    ensures longest { result ≡ spec.longest text.now (map entry_is entries.now) }
    ensures short { result ≤ 36 }
{
    let mut most = 0;
    for entry in entries {
        most = most.max(row_length(text, entry));
    }
    most
}
