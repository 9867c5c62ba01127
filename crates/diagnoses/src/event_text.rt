//! What happened in a fault of some kind, and who met.

ghost use Rattle.std.specs.Prelude.{◌≡◌, ◌-◌, length, take};
ghost use Rattle.text_out.specs.Out.{Writes};
ghost use Rattle.diagnoses.specs.FaultTexts as spec;

use itoa::Buffer;
use pram_values::Kind;
use program_texts::write_values;
use text_out::{Out, WriteFault};

/// So many of those that met, or that write a cell, are told at most.
pub(crate) const MOST_TOLD: usize = 8;

pub(crate) fn kind_sentence(kind: Kind) -> &'static [u8]
    ensures { result.now ≡ spec.kind_sentence kind }
{
    match kind {
        Kind::Overflow => {
            b"a value is outside the range from -9223372036854775808 to 9223372036854775807"
        }
        Kind::DivideByZero => b"the divisor is 0",
        Kind::OutOfRange => b"a subscript is outside the bounds of its array",
        Kind::TooWide => b"the range has more indices than procs allows processors",
        Kind::ReadConflict =>
            b"more than one processor reads this cell at the same moment: erew forbids it, and crew allows it",
        Kind::WriteConflict => {
            b"processors write this cell in one statement: erew and crew forbid it, common where the values differ, and \
            priority and sum allow it"
        }
    }
}

// The first of those that met, as many as are told.
#[tactic(auto, using(std::proofs::lemmas::List::take_min))]
fn first_met(who: &[i64]) -> &[i64]
    ensures { result.now ≡ take spec.most_told who.now }
{
    let end = MOST_TOLD.min(who.len());
    &who[..end]
}

// How many met that are not told.
fn more_met(who: &[i64]) -> usize
    ensures { result ≡ length who.now - spec.most_told }
{
    who.len().saturating_sub(MOST_TOLD)
}

// How many there are more.
fn write_count<W: Out>(out: &mut W, more: usize) -> Result<(), WriteFault>
    ensures written { Writes (W.Out.state out.old) (W.Out.state out.new) (spec.others_text more) result }
{
    if more == 0 {
        out.write_all(b" met there\n")
    } else {
        let mut count = Buffer::new();
        out.write_parts(&[
            b" and ",
            count.format(more).as_bytes(),
            b" more met there\n",
        ])
    }
}

fn write_those<W: Out>(out: &mut W, who: &[i64]) -> Result<(), WriteFault>
    ensures written { Writes (W.Out.state out.old) (W.Out.state out.new) (spec.those_text who.now) result }
{
    write_values(out, first_met(who))?;
    write_count(out, more_met(who))
}

fn write_some<W: Out>(out: &mut W, who: &[i64]) -> Result<(), WriteFault>
    ensures written { Writes (W.Out.state out.old) (W.Out.state out.new) (spec.some_text who.now) result }
{
    out.write_all(b"; processors")?;
    write_those(out, who)
}

// Those that met, if they are known.
fn write_met<W: Out>(out: &mut W, who: &[i64]) -> Result<(), WriteFault>
    ensures written { Writes (W.Out.state out.old) (W.Out.state out.new) (spec.met_text who.now) result }
{
    if who.is_empty() {
        out.write_all(b"\n")
    } else {
        write_some(out, who)
    }
}

/// Writes what happened in a fault of this kind, and who met, if they are known.
pub(crate) fn write_event<W: Out>(out: &mut W, kind: Kind, who: &[i64]) -> Result<(), WriteFault>
    ensures written { Writes (W.Out.state out.old) (W.Out.state out.new) (spec.event_text kind who.now) result }
{
    out.write_all(kind_sentence(kind))?;
    write_met(out, who)
}
