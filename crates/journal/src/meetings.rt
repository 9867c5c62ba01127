//! The processors that meet at a cell.

ghost use Rattle.std.specs.Prelude.{◌≡◌, ◌++◌, IfOk, OnOk, map};
ghost use Rattle.std.specs.List.{flat_map};
ghost use Rattle.pram_meaning.specs.Judging.{part_is};
ghost use Rattle.journal.specs.Meeting as spec;
ghost use Rattle.journal.specs.Meeting.{has_read, has_written, reader, readers, writer, writers};

use pram_meaning::Key;
use pram_meaning::part::Part;
use pram_values::{Kind, Place};
use std::alloc::{AllocError, Global};

// Whether an access, if there is one, goes to the cell.
fn is_cell(cell: u32, access: Option<u32>) -> bool
    ensures { result ≡ spec.is_cell cell access }
{
    match access {
        Some(other) => cell == other,
        None => false,
    }
}

/// Whether the cell is read at this position, counted from 1.
pub(crate) fn reads(at: usize, cell: u32, trail: &[Option<u32>]) -> bool
    ensures { result ≡ has_read at cell trail.now }
{
    match trail.get(at.saturating_sub(1)) {
        Some(access) => is_cell(cell, *access),
        None => false,
    }
}

/// Whether a part writes the cell.
pub(crate) fn writes(cell: u32, x: &Part) -> bool
    ensures { result ≡ has_written cell (part_is x.now).attempt }
{
    match x.outcome {
        Ok(effect) => is_cell(cell, effect.cell),
        Err(_) => false,
    }
}

// The index of a part that reads the cell at this position, put behind the others.
fn add_reader(indices: &mut Vec<i64>, at: usize, cell: u32, x: &Part) -> Result<(), AllocError>
    ensures { OnOk result (indices.new.items ≡ indices.old.items ++ reader at cell (part_is x.now)) }
{
    if reads(at, cell, &x.trail) {
        indices.push(x.processor)?;
    }
    Ok(())
}

// The index of a part that writes the cell, put behind the others.
fn add_writer(indices: &mut Vec<i64>, cell: u32, x: &Part) -> Result<(), AllocError>
    ensures { OnOk result (indices.new.items ≡ indices.old.items ++ writer cell (part_is x.now)) }
{
    if writes(cell, x) {
        indices.push(x.processor)?;
    }
    Ok(())
}

// The indices of those that read the cell at this position.
fn readers_of(alloc: Global, at: usize, cell: u32, parts: &[Part]) -> Result<Vec<i64>, AllocError>
    ensures { IfOk result (λ who. who.items ≡ readers at cell (map part_is parts.now)) }
{
    let mut indices = Vec::new(alloc);
    for x in parts {
        add_reader(&mut indices, at, cell, x)?;
    }
    Ok(indices)
}

// The indices of those that write the cell.
fn writers_of(alloc: Global, cell: u32, parts: &[Part]) -> Result<Vec<i64>, AllocError>
    ensures { IfOk result (λ who. who.items ≡ writers cell (map part_is parts.now)) }
{
    let mut indices = Vec::new(alloc);
    for x in parts {
        add_writer(&mut indices, cell, x)?;
    }
    Ok(indices)
}

/// The indices of the processors that met at a fault, in the order of the set.
pub fn meeting(alloc: Global, key: Key, parts: &[Part]) -> Result<Vec<i64>, AllocError>
    ensures { IfOk result (λ who. who.items ≡ spec.meeting key (map part_is parts.now)) }
{
    match key.place {
        Place::Cell(cell) => match key.kind {
            Kind::ReadConflict => readers_of(alloc, key.at, cell, parts),
            Kind::WriteConflict
            | Kind::Overflow
            | Kind::DivideByZero
            | Kind::OutOfRange
            | Kind::TooWide => writers_of(alloc, cell, parts),
        },
        Place::Processor(_) | Place::All => Ok(Vec::new(alloc)),
    }
}
