//! The text of findings.

ghost use Rattle.std.specs.Prelude.{Some, map};
ghost use Rattle.std.specs.Option.{option_map};
ghost use Rattle.text_out.specs.Out.{Writes};
ghost use Rattle.scopes.specs.Found.{found_is, met_is, values_of};
ghost use Rattle.scopes.specs.FindingsText as spec;

use crate::{Findings, FoundFault, Span, Specification};
use itoa::Buffer;
use pram_check::Program;
use pram_trees::Layout;
use program_texts::{write_fault_text, write_values};
use text_out::{Out, WriteFault};

// A number behind some words, on a line.
fn write_fact<W: Out>(out: &mut W, words: &[u8], number: u64) -> Result<(), WriteFault>
    ensures written { Writes (W.Out.state out.old) (W.Out.state out.new) (spec.fact words.now number) result }
{
    let mut buffer = Buffer::new();
    out.write_parts(&[words, buffer.format(number).as_bytes(), b"\n"])
}

// The same, where there is a program of that kind.
fn write_fact_with<W: Out>(
    out: &mut W,
    program: &Option<Program>,
    words: &[u8],
    number: u64,
) -> Result<(), WriteFault>
    ensures written { Writes (W.Out.state out.old) (W.Out.state out.new) (spec.fact_with program.now words.now number) result }
{
    match program {
        None => out.write_all(b""),
        Some(_) => write_fact(out, words, number),
    }
}

// On how many inputs the run ends, faults and goes on.
fn write_outcomes<W: Out>(out: &mut W, findings: &Findings) -> Result<(), WriteFault>
    ensures written { Writes (W.Out.state out.old) (W.Out.state out.new) (spec.outcomes_text (found_is findings.now)) result }
{
    let mut ended = Buffer::new();
    let mut faulted = Buffer::new();
    let mut go_on = Buffer::new();
    out.write_parts(&[
        b"ended ",
        ended.format(findings.ended).as_bytes(),
        b"\nfaulted ",
        faulted.format(findings.faulted).as_bytes(),
        b"\ngo on ",
        go_on.format(findings.go_on).as_bytes(),
        b"\n",
    ])
}

// How many inputs there are, how many count, and on how many of these the run ends, faults, goes on and fails.
fn write_counts<W: Out>(
    out: &mut W,
    specification: &Specification,
    findings: &Findings,
) -> Result<(), WriteFault>
    ensures written { Writes (W.Out.state out.old) (W.Out.state out.new)
        (spec.counts_text specification.now (found_is findings.now)) result }
{
    write_fact(out, b"inputs ", findings.inputs)?;
    write_fact_with(
        out,
        &specification.precondition,
        b"counting ",
        findings.counting,
    )?;
    write_outcomes(out, findings)?;
    write_fact_with(
        out,
        &specification.postcondition,
        b"failed ",
        findings.failed,
    )
}

// A fault, and the input on which it was met.
fn write_met<W: Out>(out: &mut W, layout: &Layout, found: &FoundFault) -> Result<(), WriteFault>
    ensures written { Writes (W.Out.state out.old) (W.Out.state out.new) (spec.met_line layout.now (met_is found.now)) result }
{
    write_fault_text(out, layout, &found.fault)?;
    out.write_all(b" at input")?;
    write_values(out, found.input.as_slice())?;
    out.write_all(b"\n")
}

fn write_all_met<W: Out>(
    out: &mut W,
    layout: &Layout,
    faults: &[FoundFault],
) -> Result<(), WriteFault>
    ensures written { Writes (W.Out.state out.old) (W.Out.state out.new) (spec.met_lines layout.now (map met_is faults.now)) result }
{
    for found in faults {
        write_met(out, layout, found)?;
    }
    Ok(())
}

// An input behind some words, on a line.
fn write_input<W: Out>(out: &mut W, words: &[u8], input: &[i64]) -> Result<(), WriteFault>
    ensures written { Writes (W.Out.state out.old) (W.Out.state out.new) (spec.input_line words.now (Some input.now)) result }
{
    out.write_all(words)?;
    write_values(out, input)?;
    out.write_all(b"\n")
}

// The same of the first input of a kind, if there is one.
fn write_first<W: Out>(
    out: &mut W,
    words: &[u8],
    input: &Option<Vec<i64>>,
) -> Result<(), WriteFault>
    ensures written { Writes (W.Out.state out.old) (W.Out.state out.new)
        (spec.input_line words.now (option_map values_of input.now)) result }
{
    match input {
        None => out.write_all(b""),
        Some(input) => write_input(out, words, input.as_slice()),
    }
}

// From the least to the greatest, where there are any.
fn write_span<W: Out>(out: &mut W, words: &[u8], span: Option<Span>) -> Result<(), WriteFault>
    ensures written { Writes (W.Out.state out.old) (W.Out.state out.new) (spec.span_line words.now span) result }
{
    match span {
        None => out.write_all(b""),
        Some(span) => write_some_span(out, words, span),
    }
}

fn write_some_span<W: Out>(out: &mut W, words: &[u8], span: Span) -> Result<(), WriteFault>
    ensures written { Writes (W.Out.state out.old) (W.Out.state out.new) (spec.some_span words.now span) result }
{
    let mut least = Buffer::new();
    let mut greatest = Buffer::new();
    out.write_parts(&[
        words,
        least.format(span.least).as_bytes(),
        b" to ",
        greatest.format(span.greatest).as_bytes(),
        b"\n",
    ])
}

// The first inputs on which the run goes on and fails, and the time and work of the runs that end.
fn write_behind<W: Out>(out: &mut W, findings: &Findings) -> Result<(), WriteFault>
    ensures written { Writes (W.Out.state out.old) (W.Out.state out.new) (spec.behind_text (found_is findings.now)) result }
{
    write_first(out, b"goes on at input", &findings.goes_on_at)?;
    write_first(out, b"fails at input", &findings.fails_at)?;
    write_span(out, b"time ", findings.time)?;
    write_span(out, b"work ", findings.work)
}

/// Writes what is found, one fact a line: how many inputs there are, and with a precondition how many count; on how many of these the run
/// ends, faults and goes on, and with a postcondition on how many it fails; each fault that was found, with its first input; the first
/// input on which the run goes on and the first on which it fails, if there are such; and, where any run ends, the least and the greatest
/// time and work of those that do. The error is that the writer failed (E17).
pub fn write_findings<W: Out>(
    out: &mut W,
    layout: &Layout,
    specification: &Specification,
    findings: &Findings,
) -> Result<(), WriteFault>
    // Exactly the text of what is found is written, or a beginning of it and then a failure.
    ensures written { Writes (W.Out.state out.old) (W.Out.state out.new)
        (spec.findings_text layout.now specification.now (found_is findings.now)) result }
{
    write_counts(out, specification, findings)?;
    write_all_met(out, layout, findings.faults.as_slice())?;
    write_behind(out, findings)
}
