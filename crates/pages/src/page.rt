//! The page.

ghost use Rattle.std.specs.Prelude.{◌≤◌, ◌+◌, List, length, ℕ};
ghost use Rattle.text_out.specs.Out.{Writes};
ghost use Rattle.pages.specs.Kept.{Holds};
ghost use Rattle.pages.specs.Page as spec;

use crate::facts::{line_count, state_shown, write_both};
use crate::lines::{Kept, KeptLines};
use crate::markup::{BODY, CLOSING};
use crate::page_parts::{write_script, write_style};
use text_out::{Out, WriteFault};

fn write_front<W: Out>(out: &mut W) -> Result<(), WriteFault>
    ensures written { Writes (W.Out.state out.old) (W.Out.state out.new) spec.front result }
{
    write_style(out)?;
    out.write_all(&BODY)
}

fn write_back<W: Out>(out: &mut W) -> Result<(), WriteFault>
    ensures written { Writes (W.Out.state out.old) (W.Out.state out.new) spec.back result }
{
    write_script(out)?;
    out.write_all(&CLOSING)
}

fn write_rest<W: Out>(
    out: &mut W,
    first: &[u8],
    state: &[u8],
    last: &[u8],
    left: usize,
) -> Result<(), WriteFault>
    ensures written { Writes (W.Out.state out.old) (W.Out.state out.new) (spec.rest_of first.now state.now last.now left) result }
{
    write_both(out, first, state, last, left)?;
    write_back(out)
}

fn write_of<W: Out>(
    out: &mut W,
    first: &[u8],
    state: &[u8],
    last: &[u8],
    left: usize,
) -> Result<(), WriteFault>
    ensures written { Writes (W.Out.state out.old) (W.Out.state out.new) (spec.page_of first.now state.now last.now left) result }
{
    write_front(out)?;
    write_rest(out, first, state, last, left)
}

/// Writes the page of a run by its facts, which are lines of JSON: the line of `opening_line`, those of the statements and that of the
/// outcome. Of them those stand in the page that are kept; `kept` says which have room. Where some are left out, the state behind them
/// stands there too if it has room, which is the line of `state_line`, or nothing where it isn't known; and which are left out. The error
/// is that the writer failed (E17).
pub(crate) fn write_page<W: Out>(
    out: &mut W,
    lines: &KeptLines,
    kept: Kept,
    state: &[u8],
) -> Result<(), WriteFault>
    requires front_within { kept.front ≤ length lines.now.first.items }
    requires back_within { kept.back ≤ length lines.now.last.items }
    // Exactly the defined page of the kept lines is written, with the state between them if it has at most 256,000
    // bytes there, or a beginning and then a failure.
    ensures written { (text : List ℕ) → (h : Holds lines.now text) → Writes (W.Out.state out.old) (W.Out.state out.new)
        (spec.page text state.now kept.front (h.offset + kept.back)) result }
{
    let (first, _) = lines.first.as_slice().split_at(kept.front);
    let (_, last) = lines.last.as_slice().split_at(kept.back);
    let rest = lines.count.saturating_sub(line_count(first));
    let left = rest.saturating_sub(line_count(last));
    let shown = state_shown(state, lines.has_gap(kept));
    write_of(out, first, shown, last, left)
}
