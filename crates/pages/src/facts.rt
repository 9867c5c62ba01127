//! Facts as they stand in the page.

ghost use Rattle.std.specs.Prelude.{◌≡◌, ◌≤◌, ◌&&◌, [], if◌then◌else◌, length, nat_le};
ghost use Rattle.text_out.specs.Out.{Writes};
ghost use Rattle.pages.specs.Facts as spec;

use crate::cut::{STATE_ROOM, width};
use itoa::Buffer;
use text_out::{Out, WriteFault};

// A byte of the facts. A `<` would be a tag, and the end of a line stands between two facts of a list.
fn write_byte<W: Out>(out: &mut W, byte: u8) -> Result<(), WriteFault>
    ensures written { Writes (W.Out.state out.old) (W.Out.state out.new) (spec.embedded_byte byte) result }
{
    match byte {
        b'<' => out.write_all(b"\\u003c"),
        b'\n' => out.write_all(b","),
        _ => out.write_all(&[byte]),
    }
}

// Some lines of facts.
fn write_lines<W: Out>(out: &mut W, facts: &[u8]) -> Result<(), WriteFault>
    ensures written { Writes (W.Out.state out.old) (W.Out.state out.new) (spec.embedded facts.now) result }
{
    for byte in facts {
        write_byte(out, *byte)?;
    }
    Ok(())
}

/// How many lines end in a text.
pub(crate) fn line_count(text: &[u8]) -> usize
    ensures value { result ≡ spec.line_count text.now }
    ensures within { result ≤ length text.now }
{
    let mut count = 0;
    for byte in text {
        if *byte == b'\n' {
            count += 1;
        }
    }
    count
}

// Which lines are left out: behind how many, and how many.
fn write_gap<W: Out>(out: &mut W, behind: usize, left: usize) -> Result<(), WriteFault>
    ensures written { Writes (W.Out.state out.old) (W.Out.state out.new) (spec.gap_text behind left) result }
{
    let mut first = Buffer::new();
    let mut second = Buffer::new();
    out.write_parts(&[
        b"{\"behind\":",
        first.format(behind).as_bytes(),
        b",\"left_out\":",
        second.format(left).as_bytes(),
        b"}]",
    ])
}

// Whether the state behind lines that are left out has room.
fn has_room(state: &[u8]) -> bool
    ensures { result ≡ nat_le (length (spec.embedded state.now)) spec.state_room }
{
    let mut size = 0;
    for byte in state {
        size += width(*byte);
        if STATE_ROOM < size {
            return false;
        }
    }
    true
}

/// The state behind lines that are left out, where some are and it has room.
pub(crate) fn state_shown(state: &[u8], has_gap: bool) -> &[u8]
    ensures { result.now ≡ if has_gap && nat_le (length (spec.embedded state.now)) spec.state_room then state.now else [] }
{
    if has_gap && has_room(state) {
        state
    } else {
        &[]
    }
}

// The last lines, and which are left out before them.
fn write_last<W: Out>(
    out: &mut W,
    last: &[u8],
    behind: usize,
    left: usize,
) -> Result<(), WriteFault>
    ensures written { Writes (W.Out.state out.old) (W.Out.state out.new) (spec.last_text last.now behind left) result }
{
    write_lines(out, last)?;
    write_gap(out, behind, left)
}

// The state behind what is left out, the last lines, and which are left out.
fn write_behind<W: Out>(
    out: &mut W,
    state: &[u8],
    last: &[u8],
    behind: usize,
    left: usize,
) -> Result<(), WriteFault>
    ensures written { Writes (W.Out.state out.old) (W.Out.state out.new) (spec.behind_text state.now last.now behind left) result }
{
    write_lines(out, state)?;
    write_last(out, last, behind, left)
}

/// The first lines, the state and the last lines as a list, and how many are left out.
pub(crate) fn write_both<W: Out>(
    out: &mut W,
    first: &[u8],
    state: &[u8],
    last: &[u8],
    left: usize,
) -> Result<(), WriteFault>
    ensures written { Writes (W.Out.state out.old) (W.Out.state out.new) (spec.both_text first.now state.now last.now left) result }
{
    write_lines(out, first)?;
    write_behind(out, state, last, line_count(first), left)
}
