//! The text of an interval.

ghost use Rattle.std.specs.Prelude.{◌≡◌};
ghost use Rattle.std.specs.Fmt.{signed_decimal};
ghost use Rattle.text_out.specs.Out.{Writes};
ghost use Rattle.all_inputs.specs.ReasonText as spec;

use intervals::Interval;
use itoa::Buffer;
use text_out::{Out, WriteFault};

/// A number in decimal.
pub(crate) fn decimal<'a>(digits: &'a mut Buffer, number: &i64) -> &'a [u8]
    // Its digits are written as usual.
    ensures { result.now ≡ signed_decimal number.now }
{
    digits.format(*number).as_bytes()
}

// A number in decimal.
fn write_number<W: Out>(out: &mut W, number: &i64) -> Result<(), WriteFault>
    ensures written { Writes (W.Out.state out.old) (W.Out.state out.new) (signed_decimal number.now) result }
{
    let mut digits = Buffer::new();
    out.write_all(decimal(&mut digits, number))
}

/// Writes the numbers from one to another, as `-3..7`. The error is that the writer failed (E17).
pub(crate) fn write_range<W: Out>(out: &mut W, low: &i64, high: &i64) -> Result<(), WriteFault>
    // Exactly the text of the range is written, or a beginning of it and then a failure.
    ensures written { Writes (W.Out.state out.old) (W.Out.state out.new) (spec.range_text low.now high.now) result }
{
    write_number(out, low)?;
    out.write_all(b"..")?;
    write_number(out, high)
}

/// Writes an interval by its ends, as `-3..7`. The error is that the writer failed (E17).
pub(crate) fn write_ends<W: Out>(out: &mut W, interval: &Interval) -> Result<(), WriteFault>
    // Exactly the text of both ends is written, or a beginning of it and then a failure.
    ensures written { Writes (W.Out.state out.old) (W.Out.state out.new) (spec.ends_text interval.now) result }
{
    write_range(out, &interval.least(), &interval.greatest())
}

// Whether an interval is a point.
fn is_one(interval: &Interval) -> bool
    ensures { result ≡ spec.is_one interval.now }
{
    interval.least() == interval.greatest()
}

/// Writes an interval, and a point as its number alone. The error is that the writer failed (E17).
pub(crate) fn write_interval<W: Out>(out: &mut W, interval: &Interval) -> Result<(), WriteFault>
    // Exactly the text of the interval is written, or a beginning of it and then a failure.
    ensures written { Writes (W.Out.state out.old) (W.Out.state out.new) (spec.interval_text interval.now) result }
{
    if is_one(interval) {
        write_number(out, &interval.least())
    } else {
        write_ends(out, interval)
    }
}

// The words before an interval, or before a point.
fn write_is_in_words<W: Out>(out: &mut W, interval: &Interval) -> Result<(), WriteFault>
    ensures written { Writes (W.Out.state out.old) (W.Out.state out.new) (spec.is_in_words interval.now) result }
{
    if is_one(interval) {
        out.write_all(b" is ")
    } else {
        out.write_all(b" is in ")
    }
}

/// Writes in which interval a number is, or which one it is. The error is that the writer failed (E17).
pub(crate) fn write_is_in<W: Out>(out: &mut W, interval: &Interval) -> Result<(), WriteFault>
    // Exactly that text is written, or a beginning of it and then a failure.
    ensures written { Writes (W.Out.state out.old) (W.Out.state out.new) (spec.is_in_text interval.now) result }
{
    write_is_in_words(out, interval)?;
    write_interval(out, interval)
}
