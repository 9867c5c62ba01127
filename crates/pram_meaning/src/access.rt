//! Accesses of processors to cells.

ghost use Rattle.std.specs.Prelude.{◌≡◌, ◌++◌, IfOk, OnOk, map};
ghost use Rattle.pram_meaning.specs.Accesses.{made_by, writes_made, read_at, reads_at};
ghost use Rattle.pram_meaning.specs.Accesses as spec;
ghost use Rattle.pram_meaning.specs.Judging.{part_is};

use crate::part::Part;
use pram_values::Kind;
use std::alloc::{AllocError, Global};
use write_rules::Write;

/// An access to a cell, at a position counted from 1: a write; or a read, which stands as a write of
/// the reader's own index.
#[derive(Clone, Copy)]
pub struct Access {
    pub at: usize,
    pub cell: u32,
    pub write: Write,
}

/// An access, and what a write rule says to all that go to its cell.
#[derive(Clone, Copy)]
pub struct Judged {
    pub access: Access,
    pub verdict: Result<i64, Kind>,
}

// The write of one attempt, put behind the others.
fn add_write(writes: &mut Vec<Access>, x: &Part) -> Result<(), AllocError>
    ensures { OnOk result (writes.new.items ≡ writes.old.items ++ made_by (part_is x.now).processor (part_is x.now).attempt) }
{
    if let Ok(effect) = x.outcome {
        if let Some(cell) = effect.cell {
            writes.push(Access {
                at: x.trail.len(),
                cell,
                write: Write {
                    processor: x.processor,
                    value: effect.value,
                },
            })?;
        }
    }
    Ok(())
}

/// The writes of a statement.
pub fn collect_writes(alloc: Global, parts: &[Part]) -> Result<Vec<Access>, AllocError>
    ensures { IfOk result (λ writes. writes.items ≡ writes_made (map part_is parts.now)) }
{
    let mut writes = Vec::new(alloc);
    for x in parts {
        add_write(&mut writes, x)?;
    }
    Ok(writes)
}

// The read of one attempt at the position after `at`, put behind the others.
fn add_read(reads: &mut Vec<Access>, at: usize, x: &Part) -> Result<(), AllocError>
    ensures { OnOk result (reads.new.items ≡ reads.old.items ++ read_at at x.now.processor x.now.trail.items) }
{
    if at < x.trail.len() {
        if let Some(cell) = x.trail[at] {
            reads.push(Access {
                at: at + 1,
                cell,
                write: Write {
                    processor: x.processor,
                    value: x.processor,
                },
            })?;
        }
    }
    Ok(())
}

/// The reads of a statement at the position after `at`.
pub fn collect_reads(alloc: Global, parts: &[Part], at: usize) -> Result<Vec<Access>, AllocError>
    ensures { IfOk result (λ reads. reads.items ≡ reads_at at (map part_is parts.now)) }
{
    let mut reads = Vec::new(alloc);
    for x in parts {
        add_read(&mut reads, at, x)?;
    }
    Ok(reads)
}

/// The last position that a processor has come to.
pub fn last_position(parts: &[Part]) -> usize
    ensures { result ≡ spec.last_position (map part_is parts.now) }
{
    let mut last = 0;
    for x in parts {
        last = last.max(x.trail.len());
    }
    last
}
