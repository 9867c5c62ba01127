//! The facts of a run, of which a page keeps some.

ghost use Rattle.std.specs.Prelude.{◌≡◌, ◌-◌, IfOk, List, ℤ, ℕ, nat_lt, string_bytes};
ghost use Rattle.journal.specs.Entries.{Entry};
ghost use Rattle.write_rules.specs.Verdict.{verdict_of};
ghost use Rattle.pages.specs.Gathered.{IsGathered, IsLineIf};
ghost use Rattle.pages.specs.Paged.{KeepsFacts};

use crate::asked::Asked;
use crate::gathering::Gathered;
use crate::lines::KeptLines;
use crate::opening::opening_line;
use crate::state::{RunState, state_line};
use json_texts::json_outcome;
use memory_texts::Choice;
use pram_check::Program;
use std::alloc::{AllocError, Global};
use write_rules::Outcome;

// The state behind the statements before the first one that is asked for.
fn state_before(alloc: Global, state: &RunState, first: usize) -> Result<String, AllocError>
    ensures stands { IfOk result (λ line. IsLineIf (nat_lt 1 first) state.now (first - 1) (string_bytes line)) }
{
    if 1 < first {
        state_line(alloc, state, first - 1)
    } else {
        Ok(String::new(alloc))
    }
}

/// The facts of a run: what is known before the first statement, the state before the first one that is asked for, the entries that are,
/// and the outcome. Their offsets are of the text that was read as a program.
pub(crate) fn keep_facts(
    alloc: Global,
    file: &[u8],
    text: &[u8],
    program: &Program,
    input: &[i64],
    asked: Asked<'_>,
    outcome: &Outcome,
    gathered: Gathered,
) -> Result<KeptLines, AllocError>
    requires layout { asked.layout.now ≡ program.now.layout }
    requires tree { asked.tree.now ≡ program.now.tree }
    requires source { asked.source.now ≡ text.now }
    ensures facts { IfOk result (λ lines. (entries : List Entry) → IsGathered asked.entry input.now entries gathered →
        KeepsFacts file.now text.now program.now input.now outcome.now entries asked.entry.first asked.entry.last lines) }
{
    let mut head = opening_line(
        alloc,
        file,
        text,
        program.tree(),
        input,
        gathered.count as u64,
    )?;
    let before = state_before(alloc, &gathered.state, asked.first)?;
    let end = json_outcome(alloc, program.layout(), outcome, Choice::All)?;
    head.push_str(&before)?;
    let mut lines = gathered.lines.behind(alloc, head.as_bytes())?;
    lines.push(alloc, end.as_bytes())?;
    Ok(lines)
}
