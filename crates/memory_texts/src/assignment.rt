//! What a line gives: some cells, and their values.

ghost use Rattle.std.specs.Prelude.{◌≡◌, ◌≤◌, IfOk};
ghost use Rattle.pram_tokens.specs.Scanning.{longest};
ghost use Rattle.memory_texts.specs.Assignments as spec;
ghost use Rattle.memory_texts.specs.Assignments.{Answers, assigned, assigned_if};

use crate::cells::cells_of;
use crate::front::past_blanks;
use crate::heading::heading_front;
use crate::memory_fault::MemoryFault;
use pram_model::Layout;
use pram_tokens::{TextFault, read_input};
use std::alloc::Global;

/// The values of cells from that one on.
#[derive(Drop)]
pub(crate) struct Assignment {
    pub(crate) first: u32,
    pub(crate) values: Vec<i64>,
}

// That a line that ends there has no such form, where so many bytes are left.
fn misplaced(end: usize, left: usize) -> MemoryFault
    requires fits { end ≤ longest }
    ensures { result ≡ spec.misplaced end left }
{
    MemoryFault::Text(TextFault::BadToken(end.saturating_sub(left) as u32))
}

// The values behind the `=` of a line that ends there.
fn values_of(alloc: Global, end: usize, text: &[u8]) -> Result<Vec<i64>, MemoryFault>
    requires fits { end ≤ longest }
    ensures { Answers (λ found. found.items) result (spec.in_line end (spec.values_of text.now)) }
{
    match read_input(alloc, text) {
        Ok(values) => Ok(values),
        Err(fault) => match fault {
            TextFault::BadToken(at) => Err(misplaced(end, text.len().saturating_sub(at as usize))),
            // Nothing else is wrong with a part of a plain text.
            _ => Err(MemoryFault::OutOfMemory),
        },
    }
}

// The values of so many cells, from that one on.
fn assignment_of(first: u32, cells: u32, values: Vec<i64>) -> Result<Assignment, MemoryFault>
    ensures { Answers assigned result (spec.assignment_of first cells values.items) }
{
    if values.len() > cells as usize {
        return Err(MemoryFault::TooMany {
            values: values.len(),
            cells,
        });
    }
    Ok(Assignment { first, values })
}

// What a line gives that is not blank.
fn assignment_front(
    alloc: Global,
    layout: &Layout,
    end: usize,
    text: &[u8],
) -> Result<Assignment, MemoryFault>
    requires fits { end ≤ longest }
    ensures { Answers assigned result (spec.assignment_front layout.now end text.now) }
{
    match heading_front(text) {
        Err(left) => Err(misplaced(end, left)),
        Ok((heading, rest)) => {
            let values = values_of(alloc, end, rest)?;
            let (first, cells) = cells_of(layout, end, &heading)?;
            assignment_of(first, cells, values)
        }
    }
}

/// What a line gives, up to its comment, which begins at that offset.
pub(crate) fn line_assignment(
    alloc: Global,
    layout: &Layout,
    end: usize,
    text: &[u8],
) -> Result<Option<Assignment>, MemoryFault>
    requires fits { end ≤ longest }
    ensures { Answers assigned_if result (spec.line_assignment layout.now end text.now) }
{
    let text = past_blanks(text);
    if text.is_empty() {
        return Ok(None);
    }
    let assignment = assignment_front(alloc, layout, end, text)?;
    Ok(Some(assignment))
}
