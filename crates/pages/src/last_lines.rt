//! The lines of a run's entries, of which the last ones are made when it is over.

ghost use Rattle.std.specs.Prelude.{◌≡◌, ◌+◌, ◌++◌, IfOk, List, OnOk, ℤ, map, take};
ghost use Rattle.json_texts.specs.StepFacts.{step_within, steps_from};
ghost use Rattle.journal.specs.Entries as spec;
ghost use Rattle.pages.specs.Gathered.{AddsLines, AreFirstLines, AreRecent, HoldsFacts, last_told};

use crate::asked::Asked;
use crate::first_lines::{FirstLines, step_line};
use crate::lines::KeptLines;
use crate::recent::Recent;
use journal::Entry;
use std::alloc::{AllocError, Global};

// The line of an entry behind others, if it is asked for.
#[tactic(auto, using(crate::specs::GatheredLaws::adds_none))]
fn add_line(
    alloc: Global,
    asked: Asked<'_>,
    number: usize,
    entry: &Entry,
    lines: &mut KeptLines,
) -> Result<(), AllocError>
    ensures { OnOk result (AddsLines lines.old lines.new (step_within asked.entry.layout.now asked.entry.tree.now asked.entry.source.now
        asked.entry.first asked.entry.last number (spec.entry_is entry.now))) }
{
    if number < asked.first || asked.last < number {
        return Ok(());
    }
    let line = step_line(alloc, asked, number, entry)?;
    lines.push(alloc, line.as_bytes())
}

// The lines of entries that come behind so many.
fn add_lines(
    alloc: Global,
    asked: Asked<'_>,
    before: usize,
    entries: &[Entry],
    lines: &mut KeptLines,
) -> Result<(), AllocError>
    ensures { OnOk result (AddsLines lines.old lines.new (steps_from asked.entry.layout.now asked.entry.tree.now asked.entry.source.now
        asked.entry.first asked.entry.last (before + 1) (map spec.entry_is entries.now))) }
{
    let mut number = before;
    for entry in entries {
        let Some(next) = number.checked_add(1) else {
            return Err(AllocError);
        };
        number = next;
        add_line(alloc, asked, number, entry, lines)?;
    }
    Ok(())
}

// Those of the last ones.
fn recent_lines(alloc: Global, asked: Asked<'_>, recent: &Recent) -> Result<KeptLines, AllocError>
    ensures { IfOk result (λ lines. HoldsFacts lines (steps_from asked.entry.layout.now asked.entry.tree.now asked.entry.source.now
        asked.entry.first asked.entry.last (recent.now.left + 1)
        (map spec.entry_is recent.now.older.items ++ map spec.entry_is recent.now.newer.items))) }
{
    let mut lines = KeptLines::new(alloc);
    add_lines(alloc, asked, recent.left, &recent.older, &mut lines)?;
    let Some(before) = recent.left.checked_add(recent.older.len()) else {
        return Err(AllocError);
    };
    add_lines(alloc, asked, before, &recent.newer, &mut lines)?;
    Ok(lines)
}

/// The lines of all entries that are asked for, by the last ones and the first bytes of the lines. `AllocError`: memory was refused, or
/// there are more bytes than can be counted.
pub(crate) fn lines_of(
    alloc: Global,
    asked: Asked<'_>,
    recent: &Recent,
    first: FirstLines,
) -> Result<KeptLines, AllocError>
    ensures { IfOk result (λ lines. (input : List ℤ) (es : List spec.Entry) → AreRecent input (take (last_told asked.entry) es) recent.now →
        AreFirstLines (steps_from asked.entry.layout.now asked.entry.tree.now asked.entry.source.now asked.entry.first
        asked.entry.last 1 es) first → HoldsFacts lines (steps_from asked.entry.layout.now asked.entry.tree.now asked.entry.source.now
        asked.entry.first asked.entry.last 1 es)) }
{
    let lines = recent_lines(alloc, asked, recent)?;
    let left = recent.left.saturating_sub(asked.first.saturating_sub(1));
    if left == 0 {
        return Ok(lines);
    }
    lines.behind_some(first, left)
}
