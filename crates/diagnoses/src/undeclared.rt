//! What is said of a name that is not declared.

ghost use Rattle.std.specs.Prelude.{◌≡◌};
ghost use Rattle.pram_model.specs.Names.{is_one_of};
ghost use Rattle.text_out.specs.Out.{Writes};
ghost use Rattle.diagnoses.specs.Breaches as spec;

use crate::fitting::Role;
use text_out::{Out, WriteFault};

/// What a text tells beside a word: whether a `for` there counts, and whether the text has sizes.
#[derive(Clone, Copy, Debug, PartialEq, Eq)]
pub(crate) struct Around {
    pub(crate) counts: bool,
    pub(crate) sized: bool,
}

fn is_truth(word: &[u8]) -> bool
    ensures { result ≡ is_one_of spec.truth_words word.now }
{
    matches!(
        word,
        b"true" | b"false" | b"True" | b"False" | b"TRUE" | b"FALSE"
    )
}

fn write_array_line<W: Out>(out: &mut W, word: &[u8]) -> Result<(), WriteFault>
    ensures written { Writes (W.Out.state out.old) (W.Out.state out.new) (spec.array_line word.now) result }
{
    out.write_parts(&[
        b" is not declared: write \"shared ",
        word,
        b"[1..8];\" before \"begin\"",
    ])
}

fn write_variable_line<W: Out>(out: &mut W, word: &[u8], sized: bool) -> Result<(), WriteFault>
    ensures written { Writes (W.Out.state out.old) (W.Out.state out.new) (spec.variable_line word.now sized) result }
{
    if sized {
        out.write_parts(&[
            b" is not declared: write \"var ",
            word,
            b";\" before \"begin\", or braces around it if it is a size",
        ])
    } else {
        out.write_parts(&[
            b" is not declared: write \"var ",
            word,
            b";\" before \"begin\"",
        ])
    }
}

fn write_local_line<W: Out>(out: &mut W, word: &[u8], sized: bool) -> Result<(), WriteFault>
    ensures written { Writes (W.Out.state out.old) (W.Out.state out.new) (spec.local_line word.now sized) result }
{
    if sized {
        out.write_parts(&[
            b" is not declared: write \"local ",
            word,
            b";\" first in the body of the pardo, or braces around it if it is a size",
        ])
    } else {
        out.write_parts(&[
            b" is not declared: write \"local ",
            word,
            b";\" first in the body of the pardo",
        ])
    }
}

fn write_plain_line<W: Out>(
    out: &mut W,
    word: &[u8],
    inside: bool,
    sized: bool,
) -> Result<(), WriteFault>
    ensures written { Writes (W.Out.state out.old) (W.Out.state out.new) (spec.plain_line word.now inside sized) result }
{
    if inside {
        write_local_line(out, word, sized)
    } else {
        write_variable_line(out, word, sized)
    }
}

fn write_missing_line<W: Out>(
    out: &mut W,
    word: &[u8],
    role: Role,
    inside: bool,
    sized: bool,
) -> Result<(), WriteFault>
    ensures written { Writes (W.Out.state out.old) (W.Out.state out.new) (spec.missing_line word.now role inside sized) result }
{
    match role {
        Role::Element => write_array_line(out, word),
        Role::Target | Role::Counter | Role::Value => write_plain_line(out, word, inside, sized),
    }
}

/// Writes of a name that is not declared the line that declares it, by its role, and by whether it stands inside pardo and
/// in a text with sizes.
pub(crate) fn write_undeclared<W: Out>(
    out: &mut W,
    word: &[u8],
    role: Role,
    inside: bool,
    sized: bool,
) -> Result<(), WriteFault>
    ensures written { Writes (W.Out.state out.old) (W.Out.state out.new) (spec.undeclared word.now role inside sized) result }
{
    if is_truth(word) {
        out.write_all(b" is not declared: there are no truth values, 1 is true and 0 is false")
    } else {
        write_missing_line(out, word, role, inside, sized)
    }
}
