//! The text of an input.

ghost use Rattle.std.specs.Prelude.{◌≡◌, ◌∷◌, IfOk};
ghost use Rattle.std.specs.Fmt.{signed_decimal};
ghost use Rattle.text_out.specs.Out.{Writes};
ghost use Rattle.memory_texts.specs.InputText as spec;

use itoa::Buffer as Digits;
use program_texts::write_values;
use std::alloc::{AllocError, Global};
use text_out::{Buffer, Out, WriteFault};

fn write_value<W: Out>(out: &mut W, value: &i64) -> Result<(), WriteFault>
    ensures written { Writes (W.Out.state out.old) (W.Out.state out.new) (signed_decimal value.now) result }
{
    let mut digits = Digits::new();
    out.write_all(digits.format(*value).as_bytes())
}

// Values, of which there is a first one.
fn write_some<W: Out>(out: &mut W, first: &i64, rest: &[i64]) -> Result<(), WriteFault>
    ensures written { Writes (W.Out.state out.old) (W.Out.state out.new) (spec.input_text (first.now ∷ rest.now)) result }
{
    write_value(out, first)?;
    write_values(out, rest)?;
    out.write_all(b"\n")
}

fn write_input<W: Out>(out: &mut W, values: &[i64]) -> Result<(), WriteFault>
    ensures written { Writes (W.Out.state out.old) (W.Out.state out.new) (spec.input_text values.now) result }
{
    match values {
        [] => out.write_all(b"\n"),
        [first, rest @ ..] => write_some(out, first, rest),
    }
}

/// The text of an input's file with these values: one line, a space between two of them. `AllocError`: memory was refused.
pub fn input_text(alloc: Global, values: &[i64]) -> Result<Vec<u8>, AllocError>
    // It has the values in decimal, one space between two, and the end of a line.
    ensures { IfOk result (λ text. text.items ≡ spec.input_text values.now) }
{
    let mut text = Buffer::new(alloc);
    match write_input(&mut text, values) {
        Ok(()) => Vec::from_slice(alloc, text.bytes()),
        Err(_) => Err(AllocError),
    }
}
