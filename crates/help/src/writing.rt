//! How kinds of tokens are told.

ghost use Rattle.std.specs.Prelude.{◌≡◌};
ghost use Rattle.text_out.specs.Out.{Writes};
ghost use Rattle.pram_printer.specs.Spelling as spelled;
ghost use Rattle.help.specs.Kinds.{fixed_token};
ghost use Rattle.help.specs.ChoiceTexts as spec;

use crate::choice::Choice;
use pram_printer::{binary_text, mark_text, opening_text};
use pram_tokens::Fixed;
use text_out::{Out, WriteFault};

fn fixed_text(fixed: Fixed) -> &'static [u8]
    ensures { result.now ≡ spelled.token_text (fixed_token fixed) }
{
    match fixed {
        Fixed::Binary(op) => binary_text(op),
        Fixed::Not => b"not",
        Fixed::Opening(opening) => opening_text(opening),
        Fixed::Mark(mark) => mark_text(mark),
    }
}

/// Writes a kind of tokens: `a name`, or `"("`. The error is that the writer failed (E17).
pub fn write_choice<W: Out>(out: &mut W, choice: Choice) -> Result<(), WriteFault>
    ensures written { Writes (W.Out.state out.old) (W.Out.state out.new) (spec.choice_text choice) result }
{
    match choice {
        Choice::Name => out.write_all(b"a name"),
        Choice::Rule => out.write_all(b"one of erew, crew, common, priority, sum"),
        Choice::Number => out.write_all(b"a number"),
        Choice::Fixed(fixed) => out.write_parts(&[b"\"", fixed_text(fixed), b"\""]),
    }
}

// What stands behind a kind that so many others follow.
fn gap(others: usize) -> &'static [u8]
    ensures { result.now ≡ spec.gap others }
{
    match others {
        0 => b"",
        1 => b" or ",
        _ => b", ",
    }
}

// A kind, and what stands between it and the others.
fn write_among<W: Out>(out: &mut W, choice: Choice, others: usize) -> Result<(), WriteFault>
    ensures written { Writes (W.Out.state out.old) (W.Out.state out.new) (spec.among choice others) result }
{
    write_choice(out, choice)?;
    out.write_all(gap(others))
}

fn write_listed<W: Out>(out: &mut W, choices: &[Choice]) -> Result<(), WriteFault>
    ensures written { Writes (W.Out.state out.old) (W.Out.state out.new) (spec.listed choices.now) result }
{
    let mut others = choices.len();
    for choice in choices {
        others -= 1;
        write_among(out, *choice, others)?;
    }
    Ok(())
}

/// Writes kinds of tokens as a sentence goes on with them: `a name, a number or "("`, and of none `nothing more`. The error is that the
/// writer failed (E17).
pub fn write_choices<W: Out>(out: &mut W, choices: &[Choice]) -> Result<(), WriteFault>
    // Exactly the text of these kinds is written, or a beginning of it and then a failure.
    ensures written { Writes (W.Out.state out.old) (W.Out.state out.new) (spec.choices_text choices.now) result }
{
    if choices.is_empty() {
        out.write_all(b"nothing more")
    } else {
        write_listed(out, choices)
    }
}
