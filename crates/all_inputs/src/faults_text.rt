//! The text of the faults that may come.

ghost use Rattle.std.specs.Prelude.{◌≡◌, length, take};
ghost use Rattle.text_out.specs.Out.{Writes};
ghost use Rattle.program_texts.specs.Shown.{kind_text};
ghost use Rattle.all_inputs.specs.Faulting.{all_kinds};
ghost use Rattle.all_inputs.specs.OverallText as spec;

use crate::certainty::only_fault;
use crate::faults::KINDS;
use crate::line_faults::LineFaults;
use crate::overall::Overall;
use crate::reason::Reason;
use crate::reason_text::write_reason;
use itoa::Buffer;
use pram_trees::Layout;
use pram_values::Kind;
use program_texts::kind_word;
use text_out::{Out, WriteFault};

// Of no more lines is it told why.
const MOST_LINES: usize = 100;

fn write_kind<W: Out>(out: &mut W, kind: Kind) -> Result<(), WriteFault>
    ensures written { Writes (W.Out.state out.old) (W.Out.state out.new) (kind_text kind) result }
{
    out.write_all(kind_word(kind).as_bytes())
}

fn write_line<W: Out>(out: &mut W, line: u32) -> Result<(), WriteFault>
    ensures written { Writes (W.Out.state out.old) (W.Out.state out.new) (spec.line_text line) result }
{
    let mut digits = Buffer::new();
    out.write_parts(&[b" line ", digits.format(line).as_bytes(), b": "])
}

// Whether every run faults so, or may, which kind and where.
fn write_head<W: Out>(out: &mut W, words: &[u8], kind: Kind, line: u32) -> Result<(), WriteFault>
    ensures written { Writes (W.Out.state out.old) (W.Out.state out.new) (spec.fault_head words.now kind line) result }
{
    out.write_all(words)?;
    out.write_all(b" ")?;
    write_kind(out, kind)?;
    write_line(out, line)
}

// A fault with its reason.
fn write_fault<W: Out>(
    out: &mut W,
    layout: &Layout,
    words: &[u8],
    kind: Kind,
    line: u32,
    reason: &Reason,
) -> Result<(), WriteFault>
    ensures written { Writes (W.Out.state out.old) (W.Out.state out.new)
        (spec.fault_text layout.now words.now kind line reason.now) result }
{
    write_head(out, words, kind, line)?;
    write_reason(out, layout, reason)?;
    out.write_all(b"\n")
}

// The same, where there is a reason.
fn write_fault_of<W: Out>(
    out: &mut W,
    layout: &Layout,
    words: &[u8],
    kind: Kind,
    line: u32,
    reason: &Option<Reason>,
) -> Result<(), WriteFault>
    ensures written { Writes (W.Out.state out.old) (W.Out.state out.new)
        (spec.fault_line layout.now words.now kind line reason.now) result }
{
    match reason {
        None => out.write_all(b""),
        Some(reason) => write_fault(out, layout, words, kind, line, reason),
    }
}

// The faults of a line.
fn write_kinds<W: Out>(
    out: &mut W,
    layout: &Layout,
    words: &[u8],
    entry: &LineFaults,
) -> Result<(), WriteFault>
    ensures written { Writes (W.Out.state out.old) (W.Out.state out.new)
        (spec.kind_lines layout.now words.now entry.now all_kinds) result }
{
    for kind in KINDS {
        let reason = entry.faults.reason(kind);
        write_fault_of(out, layout, words, kind, entry.line, &reason)?;
    }
    Ok(())
}

// The faults of each line.
fn write_lines<W: Out>(
    out: &mut W,
    layout: &Layout,
    words: &[u8],
    entries: &[LineFaults],
) -> Result<(), WriteFault>
    ensures written { Writes (W.Out.state out.old) (W.Out.state out.new)
        (spec.fault_lines layout.now words.now entries.now) result }
{
    for entry in entries {
        write_kinds(out, layout, words, entry)?;
    }
    Ok(())
}

// The lines of which it is told why.
fn told_lines(entries: &[LineFaults]) -> &[LineFaults]
    ensures { result.now ≡ take spec.most_lines entries.now }
{
    if MOST_LINES < entries.len() {
        entries.split_at(MOST_LINES).0
    } else {
        entries
    }
}

// The faults of those.
fn write_told<W: Out>(
    out: &mut W,
    layout: &Layout,
    words: &[u8],
    entries: &[LineFaults],
) -> Result<(), WriteFault>
    ensures written { Writes (W.Out.state out.old) (W.Out.state out.new)
        (spec.fault_lines layout.now words.now (take spec.most_lines entries.now)) result }
{
    write_lines(out, layout, words, told_lines(entries))
}

// How many lines there are beside them.
fn write_more<W: Out>(out: &mut W, entries: &[LineFaults]) -> Result<(), WriteFault>
    ensures written { Writes (W.Out.state out.old) (W.Out.state out.new) (spec.more_line (length entries.now)) result }
{
    let count = entries.len();
    if MOST_LINES < count {
        let mut digits = Buffer::new();
        out.write_parts(&[
            b"and at ",
            digits.format(count - MOST_LINES).as_bytes(),
            b" more lines\n",
        ])
    } else {
        out.write_all(b"")
    }
}

// Both.
fn write_some<W: Out>(
    out: &mut W,
    layout: &Layout,
    words: &[u8],
    entries: &[LineFaults],
) -> Result<(), WriteFault>
    ensures written { Writes (W.Out.state out.old) (W.Out.state out.new)
        (spec.some_text layout.now words.now entries.now) result }
{
    write_told(out, layout, words, entries)?;
    write_more(out, entries)
}

/// Whether no line may fault.
pub(crate) fn is_faultless(entries: &[LineFaults]) -> bool
    // It says whether there is no entry.
    ensures { result ≡ spec.is_faultless entries.now }
{
    entries.is_empty()
}

// Both, or that there is no fault.
fn write_entries<W: Out>(
    out: &mut W,
    layout: &Layout,
    words: &[u8],
    entries: &[LineFaults],
) -> Result<(), WriteFault>
    ensures written { Writes (W.Out.state out.old) (W.Out.state out.new)
        (spec.faults_text layout.now words.now entries.now) result }
{
    if is_faultless(entries) {
        out.write_all(b"no fault\n")
    } else {
        write_some(out, layout, words, entries)
    }
}

// The words that tell a fault.
fn fault_words(overall: &Overall) -> &'static [u8]
    ensures { result.now ≡ spec.fault_words overall.now }
{
    if only_fault(overall).is_some() {
        b"faults"
    } else {
        b"may fault"
    }
}

/// Writes the faults that may come, a line each, or that there is none. The error is that the writer failed (E17).
pub(crate) fn write_faults<W: Out>(
    out: &mut W,
    layout: &Layout,
    overall: &Overall,
) -> Result<(), WriteFault>
    // Exactly the text of the faults is written, or a beginning of it and then a failure.
    ensures written { Writes (W.Out.state out.old) (W.Out.state out.new)
        (spec.faults_text layout.now (spec.fault_words overall.now) overall.now.told.lines.items) result }
{
    write_entries(out, layout, fault_words(overall), overall.told.lines())
}
