//! What processors do in a statement.

ghost use Rattle.std.specs.Prelude.{◌≡◌, ◌++◌, IfOk, OnOk, Some, map};
ghost use Rattle.pram_meaning.specs.Attempt.{Attempt};
ghost use Rattle.pram_meaning.specs.Judging.{part_is};
ghost use Rattle.journal.specs.Entries.{act_is};
ghost use Rattle.journal.specs.Acts.{act_before, act_of, reading_at, readings_from, reads_at, reads_in};
ghost use Rattle.journal.specs.Acts as spec;

use crate::{Act, Reading};
use pram_meaning::part::Part;
use pram_meaning::view::number_at;
use std::alloc::{AllocError, Global};

// The cell of one access, put behind the others.
fn add_read(reads: &mut Vec<u32>, access: Option<u32>) -> Result<(), AllocError>
    ensures { OnOk result (reads.new.items ≡ reads.old.items ++ reads_at access) }
{
    if let Some(cell) = access {
        reads.push(cell)?;
    }
    Ok(())
}

// The cells that are read along a trail, in order.
fn reads_of(alloc: Global, trail: &[Option<u32>]) -> Result<Vec<u32>, AllocError>
    ensures { IfOk result (λ reads. reads.items ≡ reads_in trail.now) }
{
    let mut reads = Vec::new(alloc);
    for access in trail {
        add_read(&mut reads, *access)?;
    }
    Ok(reads)
}

// An access at a position, if it is a read, with what its cell holds, put behind the others.
fn add_reading(
    readings: &mut Vec<Reading>,
    cells: &[i64],
    position: usize,
    access: Option<u32>,
) -> Result<(), AllocError>
    ensures { OnOk result (readings.new.items ≡ readings.old.items ++ reading_at cells.now position access) }
{
    if let Some(cell) = access {
        let value = number_at(cells, cell as usize);
        readings.push(Reading { position, value })?;
    }
    Ok(())
}

// The reads along a trail, in cells that hold this, each with its position and what it gave.
fn readings_of(
    alloc: Global,
    cells: &[i64],
    trail: &[Option<u32>],
) -> Result<Vec<Reading>, AllocError>
    ensures { IfOk result (λ readings. readings.items ≡ readings_from cells.now 1 trail.now) }
{
    let mut readings = Vec::new(alloc);
    let mut position = 0;
    for access in trail {
        position += 1;
        add_reading(&mut readings, cells, position, *access)?;
    }
    Ok(readings)
}

// What a processor does that reads along a trail, and writes this.
fn act_along(
    alloc: Global,
    processor: Option<i64>,
    cells: &[i64],
    trail: &[Option<u32>],
    write: Option<u32>,
    written: Option<i64>,
) -> Result<Act, AllocError>
    ensures { IfOk result (λ act. act_is act ≡ spec.act_along processor cells.now trail.now write written) }
{
    let reads = reads_of(alloc, trail)?;
    let readings = readings_of(alloc, cells, trail)?;
    Ok(Act {
        processor,
        reads,
        write,
        readings,
        written,
    })
}

/// A trail's front: what comes before a position, counted from 1.
pub fn front(at: usize, trail: &[Option<u32>]) -> &[Option<u32>]
    ensures { result.now ≡ spec.front at trail.now }
{
    let end = at.saturating_sub(1).min(trail.len());
    &trail[..end]
}

/// What the one processor outside pardo does, before which the cells hold this: its reads, and the cell and the value that it writes.
pub fn alone_acts(
    alloc: Global,
    cells: &[i64],
    trail: &[Option<u32>],
    write: Option<u32>,
    written: Option<i64>,
) -> Result<Vec<Act>, AllocError>
    ensures { IfOk result (λ acts. map act_is acts.items ≡ spec.alone_acts cells.now trail.now write written) }
{
    let act = act_along(alloc, None, cells, trail, write, written)?;
    let mut acts = Vec::new(alloc);
    acts.push(act)?;
    Ok(acts)
}

// The cell that a part writes.
fn write_of(x: &Part) -> Option<u32>
    ensures { result ≡ spec.write_of (part_is x.now).attempt }
{
    match x.outcome {
        Ok(effect) => effect.cell,
        Err(_) => None,
    }
}

// What a part writes there.
fn written_of(x: &Part) -> Option<i64>
    ensures { result ≡ spec.written_of (part_is x.now).attempt }
{
    match x.outcome {
        Ok(effect) => match effect.cell {
            Some(_) => Some(effect.value),
            None => None,
        },
        Err(_) => None,
    }
}

// What a processor of a set does.
fn act_in(alloc: Global, cells: &[i64], x: &Part) -> Result<Act, AllocError>
    ensures { IfOk result (λ act. act_is act ≡ act_of cells.now (part_is x.now)) }
{
    let (write, written) = (write_of(x), written_of(x));
    act_along(alloc, Some(x.processor), cells, &x.trail, write, written)
}

/// What each processor of a set does, before which the cells hold this, in the order of the set.
pub fn acts_of(alloc: Global, cells: &[i64], parts: &[Part]) -> Result<Vec<Act>, AllocError>
    ensures { IfOk result (λ acts. map act_is acts.items ≡ map (act_of cells.now) (map part_is parts.now)) }
{
    let mut acts = Vec::new(alloc);
    for x in parts {
        acts.push(act_in(alloc, cells, x)?)?;
    }
    Ok(acts)
}

// What a processor of a set has done where the statement faults at this position.
fn act_at(alloc: Global, cells: &[i64], at: usize, x: &Part) -> Result<Act, AllocError>
    ensures { IfOk result (λ act. act_is act ≡ act_before cells.now at (part_is x.now)) }
{
    let trail = front(at, &x.trail);
    act_along(alloc, Some(x.processor), cells, trail, None, None)
}

/// What each processor of a set has done where the statement faults at this position, in the order
/// of the set: its reads before it, and no write.
pub fn acts_before(
    alloc: Global,
    cells: &[i64],
    at: usize,
    parts: &[Part],
) -> Result<Vec<Act>, AllocError>
    ensures { IfOk result (λ acts. map act_is acts.items ≡ map (act_before cells.now at) (map part_is parts.now)) }
{
    let mut acts = Vec::new(alloc);
    for x in parts {
        acts.push(act_at(alloc, cells, at, x)?)?;
    }
    Ok(acts)
}
