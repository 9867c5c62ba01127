//! What is handed on to a postcondition.

ghost use Rattle.std.specs.Prelude.{◌≡◌, ◌++◌, ◌<◌, ◌≤◌, All, IfNone, IfOk, IfSome, OnOk, Some, length, slice_get, take, drop, true, false};
ghost use Rattle.std.specs.Option.{option_map};
ghost use Rattle.pram_model.specs.Layout.{SharedEntry, size, total_size};
ghost use Rattle.scopes.specs.Handed as spec;

use crate::sources::{Origin, are_same_bounds, source};
use pram_check::Program;
use pram_meaning::run::add_zeros;
use pram_trees::Layout;
use std::alloc::{AllocError, Global};

// So many cells from a number on, or as many as there are.
fn part(cells: &[i64], start: u32, count: u32) -> &[i64]
    ensures { result.now ≡ take count (drop start cells.now) }
{
    let from = (start as usize).min(cells.len());
    let to = (from + count as usize).min(cells.len());
    &cells[from..to]
}

// Hands on the cells of a declaration of these bounds, which has so many.
fn lend(
    handed: &mut Vec<i64>,
    cells: &[i64],
    source: Option<Origin>,
    bounds: Option<(i64, i64)>,
    count: u32,
) -> Result<(), AllocError>
    requires count { count ≡ size bounds }
    ensures { OnOk result (handed.new.items ≡ handed.old.items ++ spec.cells_by cells.now bounds source) }
{
    if let Some(source) = source
        && are_same_bounds(source.bounds, bounds)
    {
        handed.extend_from_slice(part(cells, source.start, count))
    } else {
        add_zeros(handed, count)
    }
}

// Hands on the cells of all declarations of a postcondition.
fn lend_all(
    alloc: Global,
    layout: &Layout,
    cells: &[i64],
    asked: &Layout,
) -> Result<Vec<i64>, AllocError>
    ensures { IfOk result (λ handed. handed.items ≡ spec.handed layout.now cells.now asked.now) }
{
    let mut handed = Vec::new(alloc);
    for i in 0..asked.len() {
        let from = source(layout, asked.name(i));
        lend(&mut handed, cells, from, asked.bounds(i), asked.size(i))?;
    }
    Ok(handed)
}

/// The input of a postcondition, where the run of a program on an input left these cells.
pub(crate) fn hand_on(
    alloc: Global,
    program: &Program,
    postcondition: &Program,
    input: &[i64],
    left: &[i64],
) -> Result<Vec<i64>, AllocError>
    requires fits { length input.now ≤ total_size program.now.layout }
    ensures { IfOk result (λ handed. handed.items ≡ spec.handed_on program.now postcondition.now input.now left.now) }
{
    let mut cells = Vec::from_slice(alloc, left)?;
    cells.extend_from_slice(input)?;
    add_zeros(&mut cells, program.layout().cells() - input.len() as u32)?;
    lend_all(
        alloc,
        program.layout(),
        cells.as_slice(),
        postcondition.layout(),
    )
}
