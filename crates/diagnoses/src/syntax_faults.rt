//! What is said of a token with which no program goes on, or of the end of a text whose program goes on.
ghost use Rattle.text_out.specs.Out.{Writes};
ghost use Rattle.diagnoses.specs.Remarks.{remark_is};
ghost use Rattle.diagnoses.specs.SyntaxFaults as spec;

use crate::places::{token_at, write_quoted};
use crate::remark::Remark;
use help::{Choice, Habit, habit_text, write_choice, write_choices};
use itoa::Buffer;
use text_out::{Out, WriteFault};

fn write_stranger<W: Out>(out: &mut W, token: &[u8]) -> Result<(), WriteFault>
    ensures written { Writes (W.Out.state out.old) (W.Out.state out.new) (spec.stranger token.now) result }
{
    write_quoted(out, token)?;
    out.write_all(b" can't stand here: no program goes on with it")
}

fn write_could_stand<W: Out>(out: &mut W, found: &[Choice]) -> Result<(), WriteFault>
    ensures written { Writes (W.Out.state out.old) (W.Out.state out.new) (spec.could_stand found.now) result }
{
    out.write_all(b"here could stand ")?;
    write_choices(out, found)
}

// What could stand there, if that is known.
fn write_expected<W: Out>(out: &mut W, remark: &Remark) -> Result<(), WriteFault>
    ensures written { Writes (W.Out.state out.old) (W.Out.state out.new) (spec.expected (remark_is remark.now)) result }
{
    match remark {
        Remark::Expected(found, _) => write_could_stand(out, found),
        Remark::Nothing => out.write_all(b""),
        Remark::Nearest(_) => out.write_all(b""),
        Remark::Declared(_, _) => out.write_all(b""),
        Remark::Misplaced(_, _, _) => out.write_all(b""),
        Remark::Elsewhere(_, _) => out.write_all(b""),
        Remark::Undeclared(_, _) => out.write_all(b""),
    }
}

fn write_open_end<W: Out>(out: &mut W, found: &[Choice]) -> Result<(), WriteFault>
    ensures written { Writes (W.Out.state out.old) (W.Out.state out.new) (spec.open_end found.now) result }
{
    out.write_all(b"the text ends here; ")?;
    write_could_stand(out, found)
}

fn write_bare_end<W: Out>(out: &mut W) -> Result<(), WriteFault>
    ensures written { Writes (W.Out.state out.old) (W.Out.state out.new) spec.bare_end result }
{
    out.write_all(b"the text ends here, and the program does not")
}

// The end of a text whose program goes on.
fn write_ended<W: Out>(out: &mut W, remark: &Remark) -> Result<(), WriteFault>
    ensures written { Writes (W.Out.state out.old) (W.Out.state out.new) (spec.ended (remark_is remark.now)) result }
{
    match remark {
        Remark::Expected(found, _) => write_open_end(out, found),
        Remark::Nothing => write_bare_end(out),
        Remark::Nearest(_) => write_bare_end(out),
        Remark::Declared(_, _) => write_bare_end(out),
        Remark::Misplaced(_, _, _) => write_bare_end(out),
        Remark::Elsewhere(_, _) => write_bare_end(out),
        Remark::Undeclared(_, _) => write_bare_end(out),
    }
}

/// Writes of a place that no program goes on with the token there, or that the text ends there.
pub(crate) fn write_bad_sentence<W: Out>(
    out: &mut W,
    text: &[u8],
    at: usize,
    remark: &Remark,
) -> Result<(), WriteFault>
    ensures written { Writes (W.Out.state out.old) (W.Out.state out.new) (spec.bad_sentence text.now at (remark_is remark.now)) result }
{
    if text.len() <= at {
        write_ended(out, remark)
    } else {
        write_stranger(out, token_at(text, at))
    }
}

/// Writes of such a token what could stand in its place.
pub(crate) fn write_bad_more<W: Out>(
    out: &mut W,
    text: &[u8],
    at: usize,
    remark: &Remark,
) -> Result<(), WriteFault>
    ensures written { Writes (W.Out.state out.old) (W.Out.state out.new) (spec.bad_more text.now at (remark_is remark.now)) result }
{
    if text.len() <= at {
        out.write_all(b"")
    } else {
        write_expected(out, remark)
    }
}

/// Writes what is meant by a token that is something else in another language.
pub(crate) fn write_named_habit<W: Out>(
    out: &mut W,
    word: &[u8],
    habit: Habit,
) -> Result<(), WriteFault>
    ensures written { Writes (W.Out.state out.old) (W.Out.state out.new) (spec.named_habit word.now habit) result }
{
    write_quoted(out, word)?;
    out.write_all(habit_text(habit))
}

fn write_kind_here<W: Out>(out: &mut W, choice: Choice) -> Result<(), WriteFault>
    ensures written { Writes (W.Out.state out.old) (W.Out.state out.new) (spec.kind_here choice) result }
{
    write_choice(out, choice)?;
    out.write_all(b" here")
}

/// Writes which kind of token is missing.
pub(crate) fn write_missing_kind<W: Out>(out: &mut W, choice: Choice) -> Result<(), WriteFault>
    ensures written { Writes (W.Out.state out.old) (W.Out.state out.new) (spec.missing_sentence choice) result }
{
    out.write_all(b"expected ")?;
    write_kind_here(out, choice)
}

/// Writes that a block is open at the end of the text.
pub(crate) fn write_open_sentence<W: Out>(
    out: &mut W,
    word: &[u8],
    line: usize,
) -> Result<(), WriteFault>
    ensures written { Writes (W.Out.state out.old) (W.Out.state out.new) (spec.open_sentence word.now line) result }
{
    let mut digits = Buffer::new();
    out.write_parts(&[
        b"the text ends here, and the \"",
        word,
        b"\" of line ",
        digits.format(line).as_bytes(),
        b" has no \"end\"",
    ])
}

/// Writes that the last `end` of the text ends a block.
pub(crate) fn write_taken_sentence<W: Out>(
    out: &mut W,
    word: &[u8],
    line: usize,
    by: usize,
) -> Result<(), WriteFault>
    ensures written { Writes (W.Out.state out.old) (W.Out.state out.new) (spec.taken_sentence word.now line by) result }
{
    let mut ends = Buffer::new();
    let mut begins = Buffer::new();
    out.write_parts(&[
        b"the text ends here, and the program has no \"end\": that of line ",
        ends.format(by).as_bytes(),
        b" ends the \"",
        word,
        b"\" of line ",
        begins.format(line).as_bytes(),
    ])
}

fn write_ended_line<W: Out>(out: &mut W, line: usize) -> Result<(), WriteFault>
    ensures written { Writes (W.Out.state out.old) (W.Out.state out.new) (spec.ended_line line) result }
{
    let mut digits = Buffer::new();
    out.write_parts(&[
        b" can't stand here: the program ended at line ",
        digits.format(line).as_bytes(),
    ])
}

/// Writes of a token behind the program where this ended.
pub(crate) fn write_behind_end<W: Out>(
    out: &mut W,
    word: &[u8],
    line: usize,
) -> Result<(), WriteFault>
    ensures written { Writes (W.Out.state out.old) (W.Out.state out.new) (spec.behind_end word.now line) result }
{
    write_quoted(out, word)?;
    write_ended_line(out, line)
}
