//! A sweep as CSV.

ghost use Rattle.std.specs.Prelude.{◌≡◌, ◌∷◌, decimal, map};
ghost use Rattle.text_out.specs.Out.{Writes};
ghost use Rattle.sweeps.specs.CsvText as spec;

use crate::csv_field::write_record;
use crate::size_row::{Counts, Ending, SizeRow};
use itoa::Buffer;
use text_out::{Out, WriteFault};

// The record of a run.
fn write_run<'a, W: Out>(
    size: u64,
    counts: &Counts,
    exchanges: &'a [u8],
    sent: &'a [u8],
    outcome: &'a [u8],
    out: &mut W,
) -> Result<(), WriteFault>
    ensures written { Writes (W.Out.state out.old) (W.Out.state out.new)
        (spec.record_text (decimal size ∷ spec.run_fields counts.now exchanges.now sent.now outcome.now)) result }
{
    let mut digits = Buffer::new();
    let mut time = Buffer::new();
    let mut work = Buffer::new();
    let mut width = Buffer::new();
    let mut reads = Buffer::new();
    let mut writes = Buffer::new();
    write_record(
        digits.format(size).as_bytes(),
        &[
            time.format(counts.time).as_bytes(),
            work.format(counts.work).as_bytes(),
            width.format(counts.width).as_bytes(),
            reads.format(counts.reads).as_bytes(),
            writes.format(counts.writes).as_bytes(),
            exchanges,
            sent,
            outcome,
        ],
        out,
    )
}

// The record of a run of so many exchanges, with the words that are told.
fn write_with<W: Out>(
    size: u64,
    counts: &Counts,
    sent: &[u8],
    outcome: &[u8],
    out: &mut W,
) -> Result<(), WriteFault>
    ensures written { Writes (W.Out.state out.old) (W.Out.state out.new)
        (spec.record_text (decimal size ∷ spec.run_fields counts.now (decimal counts.now.most_exchanges) sent.now outcome.now)) result }
{
    let mut most = Buffer::new();
    write_run(
        size,
        counts,
        most.format(counts.most_exchanges).as_bytes(),
        sent,
        outcome,
        out,
    )
}

// The record of a run without a fault.
fn write_whole<W: Out>(
    size: u64,
    counts: &Counts,
    outcome: &[u8],
    out: &mut W,
) -> Result<(), WriteFault>
    ensures written { Writes (W.Out.state out.old) (W.Out.state out.new)
        (spec.record_text (decimal size ∷ spec.whole_fields counts.now outcome.now)) result }
{
    match counts.most_words {
        None => write_with(size, counts, b"", outcome, out),
        Some(words) => {
            let mut digits = Buffer::new();
            write_with(size, counts, digits.format(words).as_bytes(), outcome, out)
        }
    }
}

// The record of a size with no run.
fn write_refusal<W: Out>(size: u64, refusal: &[u8], out: &mut W) -> Result<(), WriteFault>
    ensures written { Writes (W.Out.state out.old) (W.Out.state out.new)
        (spec.record_text (decimal size ∷ spec.refusal_fields refusal.now)) result }
{
    let mut digits = Buffer::new();
    write_record(
        digits.format(size).as_bytes(),
        &[b"", b"", b"", b"", b"", b"", b"", refusal],
        out,
    )
}

// The record of a size.
fn write_row<W: Out>(row: &SizeRow, out: &mut W) -> Result<(), WriteFault>
    ensures written { Writes (W.Out.state out.old) (W.Out.state out.new) (spec.record_text (spec.row_fields row.now)) result }
{
    match &row.ending {
        Ending::Ended(counts) => write_whole(row.size, counts, b"ended", out),
        Ending::GoesOn(counts) => write_whole(row.size, counts, b"goes on", out),
        Ending::Faulted(counts, fault) => write_run(
            row.size,
            counts,
            b"",
            b"",
            fault.as_slice(),
            out,
        ),
        Ending::Refused(refusal) => write_refusal(row.size, refusal.as_slice(), out),
    }
}

fn write_rows<W: Out>(rows: &[SizeRow], out: &mut W) -> Result<(), WriteFault>
    ensures written { Writes (W.Out.state out.old) (W.Out.state out.new)
        (spec.records_text (map spec.row_fields rows.now)) result }
{
    for row in rows {
        write_row(row, out)?;
    }
    Ok(())
}

// The names of the columns.
fn write_names<W: Out>(name: &[u8], out: &mut W) -> Result<(), WriteFault>
    ensures written { Writes (W.Out.state out.old) (W.Out.state out.new)
        (spec.record_text (name.now ∷ spec.column_names)) result }
{
    write_record(
        name,
        &[
            b"time",
            b"work",
            b"width",
            b"reads",
            b"writes",
            b"exchanges",
            b"words",
            b"outcome",
        ],
        out,
    )
}

/// Writes what a program costs at several sizes as CSV: a record of names,
/// `n,time,work,width,reads,writes,exchanges,words,outcome` for sizes of the name n, and a record a size, in the order given. The words are
/// told where a number of workers is given. The exchanges and words of a run with a fault are not told, and neither is any count of a size
/// with no run; the outcome is the text of the fault or of the refusal. A field with a comma, a quote or a line's end in it stands in
/// quotes, and quotes in it are doubled, so that every field is read back as it was. A line ends with `\n`. The error is that the writer
/// failed (E17).
pub fn write_sweep_csv<W: Out>(name: &[u8], rows: &[SizeRow], out: &mut W) -> Result<(), WriteFault>
    // Exactly the table of these rows is written, with values between commas, or a beginning of it and then a failure.
    ensures written { Writes (W.Out.state out.old) (W.Out.state out.new) (spec.csv_text name.now rows.now) result }
{
    write_names(name, out)?;
    write_rows(rows, out)
}
