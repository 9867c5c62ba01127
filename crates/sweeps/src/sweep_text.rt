//! The text of a sweep.

ghost use Rattle.std.specs.Prelude.{◌≡◌, ◌++◌};
ghost use Rattle.text_out.specs.Out.{Writes};
ghost use Rattle.sweeps.specs.SweepText as spec;

use crate::growths::Growths;
use crate::size_row::{Counts, Ending, SizeRow};
use crate::write_growth;
use itoa::Buffer;
use text_out::{Out, WriteFault};

// The size's name and the size.
fn write_size<W: Out>(name: &[u8], size: u64, out: &mut W) -> Result<(), WriteFault>
    ensures written { Writes (W.Out.state out.old) (W.Out.state out.new) (spec.size_text name.now size) result }
{
    let mut digits = Buffer::new();
    out.write_parts(&[name, b" ", digits.format(size).as_bytes()])
}

// Time, work, width, reads and writes.
fn write_counts<W: Out>(counts: &Counts, out: &mut W) -> Result<(), WriteFault>
    ensures written { Writes (W.Out.state out.old) (W.Out.state out.new) (spec.counts_text counts.now) result }
{
    let mut time = Buffer::new();
    let mut work = Buffer::new();
    let mut width = Buffer::new();
    let mut reads = Buffer::new();
    let mut writes = Buffer::new();
    out.write_parts(&[
        b" time ",
        time.format(counts.time).as_bytes(),
        b" work ",
        work.format(counts.work).as_bytes(),
        b" width ",
        width.format(counts.width).as_bytes(),
        b" reads ",
        reads.format(counts.reads).as_bytes(),
        b" writes ",
        writes.format(counts.writes).as_bytes(),
    ])
}

// The most exchanges, the most words where they are told, and how it came out.
fn write_most<W: Out>(
    most: u128,
    words: Option<u128>,
    how: &[u8],
    out: &mut W,
) -> Result<(), WriteFault>
    ensures written { Writes (W.Out.state out.old) (W.Out.state out.new)
        (spec.most_text most words how.now) result }
{
    let mut digits = Buffer::new();
    match words {
        None => out.write_parts(&[b" exchanges at most ", digits.format(most).as_bytes(), how]),
        Some(words) => {
            let mut sent = Buffer::new();
            out.write_parts(&[
                b" exchanges at most ",
                digits.format(most).as_bytes(),
                b" words at most ",
                sent.format(words).as_bytes(),
                how,
            ])
        }
    }
}

// What a run without a fault costs, and how it came out.
fn write_run<W: Out>(counts: &Counts, how: &[u8], out: &mut W) -> Result<(), WriteFault>
    ensures written { Writes (W.Out.state out.old) (W.Out.state out.new) (spec.run_text counts.now how.now) result }
{
    write_counts(counts, out)?;
    write_most(counts.most_exchanges, counts.most_words, how, out)
}

// A text to the end of its line.
fn write_refusal<W: Out>(text: &[u8], out: &mut W) -> Result<(), WriteFault>
    ensures written { Writes (W.Out.state out.old) (W.Out.state out.new) (spec.refusal_text text.now) result }
{
    out.write_parts(&[b" ", text, b"\n"])
}

// What a run with a fault costs, and the fault.
fn write_fault<W: Out>(counts: &Counts, fault: &[u8], out: &mut W) -> Result<(), WriteFault>
    ensures written { Writes (W.Out.state out.old) (W.Out.state out.new) (spec.fault_text counts.now fault.now) result }
{
    write_counts(counts, out)?;
    write_refusal(fault, out)
}

// What stands behind the size on its line.
fn write_ending<W: Out>(ending: &Ending, out: &mut W) -> Result<(), WriteFault>
    ensures written { Writes (W.Out.state out.old) (W.Out.state out.new) (spec.ending_text ending.now) result }
{
    match ending {
        Ending::Ended(counts) => write_run(counts, b" ended\n", out),
        Ending::GoesOn(counts) => write_run(counts, b" goes on\n", out),
        Ending::Faulted(counts, fault) => write_fault(counts, fault.as_slice(), out),
        Ending::Refused(refusal) => write_refusal(refusal.as_slice(), out),
    }
}

// The line of a size.
fn write_row<W: Out>(name: &[u8], row: &SizeRow, out: &mut W) -> Result<(), WriteFault>
    ensures written { Writes (W.Out.state out.old) (W.Out.state out.new) (spec.row_text name.now row.now) result }
{
    write_size(name, row.size, out)?;
    write_ending(&row.ending, out)
}

fn write_rows<W: Out>(name: &[u8], rows: &[SizeRow], out: &mut W) -> Result<(), WriteFault>
    ensures written { Writes (W.Out.state out.old) (W.Out.state out.new) (spec.rows_text name.now rows.now) result }
{
    for row in rows {
        write_row(name, row, out)?;
    }
    Ok(())
}

// What stands over formulas.
fn write_heading<W: Out>(growths: &Growths, out: &mut W) -> Result<(), WriteFault>
    ensures written { Writes (W.Out.state out.old) (W.Out.state out.new) (spec.heading_text growths.now) result }
{
    if growths.time.is_told() || growths.work.is_told() {
        out.write_all(b"at these sizes\n")
    } else {
        Ok(())
    }
}

// The formulas of time and of work.
fn write_formulas<W: Out>(name: &[u8], growths: &Growths, out: &mut W) -> Result<(), WriteFault>
    ensures written { Writes (W.Out.state out.old) (W.Out.state out.new) (spec.formulas_text name.now growths.now) result }
{
    write_growth(b"time", name, &growths.time, out)?;
    write_growth(b"work", name, &growths.work, out)
}

fn write_growths<W: Out>(name: &[u8], growths: &Growths, out: &mut W) -> Result<(), WriteFault>
    ensures written { Writes (W.Out.state out.old) (W.Out.state out.new) (spec.growths_text name.now growths.now) result }
{
    write_heading(growths, out)?;
    write_formulas(name, growths, out)
}

/// Writes what a program costs at several sizes, a line a size in the order given, as
/// `n 8 time 17 work 28 width 8 reads 23 writes 15 exchanges at most 15 ended`, where the name is the size's, and, where a number of
/// workers is given, with ` words at most 93` behind the exchanges; and behind the lines, where
/// anything is told, how time and work grow, as `time 4 log n + 5`. The name and the texts of faults and refusals are written as they
/// stand: the caller escapes bytes in them that would break the line. The error is that the writer failed (E17).
pub fn write_sweep<W: Out>(
    name: &[u8],
    rows: &[SizeRow],
    growths: &Growths,
    out: &mut W,
) -> Result<(), WriteFault>
    // Exactly the lines of these rows and their growths are written, or a beginning of them and then a failure.
    ensures written { Writes (W.Out.state out.old) (W.Out.state out.new)
        (spec.sweep_text name.now rows.now growths.now) result }
{
    write_rows(name, rows, out)?;
    write_growths(name, growths, out)
}
