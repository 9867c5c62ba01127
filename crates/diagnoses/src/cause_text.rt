//! Why a statement faults, as it is said.

ghost use Rattle.std.specs.Prelude.{◌≡◌, ◌<◌, ◌-◌, ◌∷◌, IfSome, codes, length, slice_get, take};
ghost use Rattle.pram_model.specs.Layout.{width};
ghost use Rattle.text_out.specs.Out.{Writes};
ghost use Rattle.journal.specs.Causes.{cause_is};
ghost use Rattle.diagnoses.specs.FaultTexts as spec;

use crate::event_text::{MOST_TOLD, kind_sentence, write_event};
use itoa::Buffer;
use journal::Cause;
use pram_printer::{binary_text, prefix_text};
use pram_trees::{Binary, Layout, Prefix, Range};
use pram_values::Kind;
use text_out::{Out, WriteFault};
use write_rules::Write;

// What is wrong with what an operation comes to.
fn verdict_text(kind: Kind) -> &'static [u8]
    ensures { result.now ≡ spec.verdict_text kind }
{
    match kind {
        Kind::Overflow => {
            b" is outside the range from -9223372036854775808 to 9223372036854775807\n"
        }
        Kind::DivideByZero => b": the divisor is 0\n",
        Kind::OutOfRange | Kind::TooWide | Kind::ReadConflict | Kind::WriteConflict => {
            b" has no value\n"
        }
    }
}

fn opening(encloses: bool) -> &'static [u8]
    ensures { result.now ≡ spec.opening encloses }
{
    if encloses { b"(" } else { b"" }
}

fn closing(encloses: bool) -> &'static [u8]
    ensures { result.now ≡ spec.closing encloses }
{
    if encloses { b")" } else { b"" }
}

fn write_between<W: Out>(
    out: &mut W,
    kind: Kind,
    left: i64,
    operator: Binary,
    right: i64,
) -> Result<(), WriteFault>
    ensures written { Writes (W.Out.state out.old) (W.Out.state out.new) (spec.between_text kind left operator right) result }
{
    let mut first = Buffer::new();
    let mut second = Buffer::new();
    let encloses = right < 0;
    out.write_parts(&[
        first.format(left).as_bytes(),
        b" ",
        binary_text(operator),
        b" ",
        opening(encloses),
        second.format(right).as_bytes(),
        closing(encloses),
        verdict_text(kind),
    ])
}

fn write_before<W: Out>(
    out: &mut W,
    kind: Kind,
    operator: Prefix,
    operand: i64,
) -> Result<(), WriteFault>
    ensures written { Writes (W.Out.state out.old) (W.Out.state out.new) (spec.before_text kind operator operand) result }
{
    let mut digits = Buffer::new();
    out.write_parts(&[
        prefix_text(operator),
        b"(",
        digits.format(operand).as_bytes(),
        b")",
        verdict_text(kind),
    ])
}

// The name of an array, with a subscript that it has not.
fn write_named<W: Out>(out: &mut W, name: &[u8], subscript: &i64) -> Result<(), WriteFault>
    ensures written { Writes (W.Out.state out.old) (W.Out.state out.new) (spec.named_text name.now subscript.now) result }
{
    let mut digits = Buffer::new();
    out.write_parts(&[
        name,
        b"[",
        digits.format(*subscript).as_bytes(),
        b"] is outside the bounds of ",
    ])
}

// The name of an array, with its bounds.
fn write_bounds<W: Out>(out: &mut W, name: &[u8], range: &Range) -> Result<(), WriteFault>
    ensures written { Writes (W.Out.state out.old) (W.Out.state out.new)
        (spec.bounds_text name.now range.now.low range.now.high) result }
{
    let mut low = Buffer::new();
    let mut high = Buffer::new();
    out.write_parts(&[
        name,
        b", which go from ",
        low.format(range.low).as_bytes(),
        b" to ",
        high.format(range.high).as_bytes(),
        b"\n",
    ])
}

// A subscript outside the bounds of an array of this name.
fn write_outside<W: Out>(
    out: &mut W,
    name: &[u8],
    subscript: &i64,
    range: &Range,
) -> Result<(), WriteFault>
    ensures written { Writes (W.Out.state out.old) (W.Out.state out.new)
        (spec.outside_text name.now subscript.now range.now.low range.now.high) result }
{
    write_named(out, name, subscript)?;
    write_bounds(out, name, range)
}

// A subscript of a declaration that has none such.
fn write_subscript<W: Out>(
    out: &mut W,
    layout: &Layout,
    entry: usize,
    subscript: &i64,
) -> Result<(), WriteFault>
    requires entry { entry < length layout.now }
    ensures written { IfSome (slice_get layout.now entry) (λ e. Writes (W.Out.state out.old) (W.Out.state out.new)
        (spec.subscript_text subscript.now e) result) }
{
    let range = layout.range(entry);
    write_outside(out, layout.name(entry), subscript, &range)
}

#[tactic(auto, using(crate::proofs::CauseLemmas::none_beyond))]
fn write_beyond<W: Out>(
    out: &mut W,
    layout: &Layout,
    entry: usize,
    subscript: &i64,
) -> Result<(), WriteFault>
    ensures written { Writes (W.Out.state out.old) (W.Out.state out.new)
        (spec.beyond_text subscript.now (slice_get layout.now entry)) result }
{
    if entry < layout.len() {
        write_subscript(out, layout, entry, subscript)
    } else {
        out.write_all(b"a subscript is outside the bounds of its array\n")
    }
}

// How many indices go from one to the other.
fn indices(low: i64, high: i64) -> u128
    ensures { result ≡ width low high }
{
    if low <= high {
        u128::from(high.abs_diff(low)) + 1
    } else {
        0
    }
}

fn write_wide<W: Out>(out: &mut W, low: i64, high: i64, procs: u32) -> Result<(), WriteFault>
    ensures written { Writes (W.Out.state out.old) (W.Out.state out.new) (spec.wide_text low high procs) result }
{
    let mut first = Buffer::new();
    let mut last = Buffer::new();
    let mut count = Buffer::new();
    let mut most = Buffer::new();
    out.write_parts(&[
        first.format(low).as_bytes(),
        b"..",
        last.format(high).as_bytes(),
        b" are ",
        count.format(indices(low, high)).as_bytes(),
        b" indices, and procs is ",
        most.format(procs).as_bytes(),
        b"\n",
    ])
}

// A write, behind this mark.
fn write_one<W: Out>(out: &mut W, mark: &[u8], write: &Write) -> Result<(), WriteFault>
    ensures written { Writes (W.Out.state out.old) (W.Out.state out.new) (spec.write_text mark.now write.now) result }
{
    let mut processor = Buffer::new();
    let mut value = Buffer::new();
    out.write_parts(&[
        mark,
        b" processor ",
        processor.format(write.processor).as_bytes(),
        b" writes ",
        value.format(write.value).as_bytes(),
    ])
}

// Writes, each behind a comma.
fn write_others<W: Out>(out: &mut W, writes: &[Write]) -> Result<(), WriteFault>
    ensures written { Writes (W.Out.state out.old) (W.Out.state out.new) (spec.writes_text (codes ",") writes.now) result }
{
    for write in writes {
        write_one(out, b",", write)?;
    }
    Ok(())
}

// A first write behind a semicolon, and those behind it.
fn write_first<W: Out>(out: &mut W, first: &Write, rest: &[Write]) -> Result<(), WriteFault>
    ensures written { Writes (W.Out.state out.old) (W.Out.state out.new) (spec.writes_text (codes ";") (first.now ∷ rest.now)) result }
{
    write_one(out, b";", first)?;
    write_others(out, rest)
}

// Writes, the first behind a semicolon.
fn write_listed<W: Out>(out: &mut W, writes: &[Write]) -> Result<(), WriteFault>
    ensures written { Writes (W.Out.state out.old) (W.Out.state out.new) (spec.writes_text (codes ";") writes.now) result }
{
    match writes.split_first() {
        None => Ok(()),
        Some((first, rest)) => write_first(out, first, rest),
    }
}

// How many writes there are more.
fn write_more<W: Out>(out: &mut W, more: usize) -> Result<(), WriteFault>
    ensures written { Writes (W.Out.state out.old) (W.Out.state out.new) (spec.more_text more) result }
{
    if more == 0 {
        out.write_all(b"\n")
    } else {
        let mut count = Buffer::new();
        out.write_parts(&[b" and ", count.format(more).as_bytes(), b" more\n"])
    }
}

// The first of the writes, as many as are told.
#[tactic(auto, using(std::proofs::lemmas::List::take_min))]
fn first_writes(writes: &[Write]) -> &[Write]
    ensures { result.now ≡ take spec.most_told writes.now }
{
    let end = MOST_TOLD.min(writes.len());
    &writes[..end]
}

// How many writes are not told.
fn more_writes(writes: &[Write]) -> usize
    ensures { result ≡ length writes.now - spec.most_told }
{
    writes.len().saturating_sub(MOST_TOLD)
}

fn write_writers<W: Out>(out: &mut W, writes: &[Write]) -> Result<(), WriteFault>
    ensures written { Writes (W.Out.state out.old) (W.Out.state out.new) (spec.writers_text writes.now) result }
{
    write_listed(out, first_writes(writes))?;
    write_more(out, more_writes(writes))
}

fn write_writing<W: Out>(out: &mut W, kind: Kind, writes: &[Write]) -> Result<(), WriteFault>
    ensures written { Writes (W.Out.state out.old) (W.Out.state out.new) (spec.writing_text kind writes.now) result }
{
    out.write_all(kind_sentence(kind))?;
    write_writers(out, writes)
}

/// Writes why a statement faults; at conflicting reads who met.
pub(crate) fn write_cause<W: Out>(
    out: &mut W,
    layout: &Layout,
    kind: Kind,
    who: &[i64],
    cause: &Cause,
) -> Result<(), WriteFault>
    ensures written { Writes (W.Out.state out.old) (W.Out.state out.new)
        (spec.cause_text layout.now kind who.now (cause_is cause.now)) result }
{
    match cause {
        Cause::Between {
            left,
            operator,
            right,
        } => write_between(out, kind, *left, *operator, *right),
        Cause::Before { operator, operand } => write_before(out, kind, *operator, *operand),
        Cause::Beyond { entry, subscript } => write_beyond(out, layout, *entry, subscript),
        Cause::Wide { low, high, procs } => write_wide(out, *low, *high, *procs),
        Cause::Meeting => write_event(out, kind, who),
        Cause::Writing { writes } => write_writing(out, kind, writes),
    }
}
