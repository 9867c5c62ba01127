//! The accesses that conflict at a cell.

ghost use Rattle.std.specs.Prelude.{◌≡◌, ◌++◌, IfOk, OnOk, map};
ghost use Rattle.pram_meaning.specs.Conflict.{writes_by, writes_to};
ghost use Rattle.pram_meaning.specs.Judging.{part_is};
ghost use Rattle.journal.specs.Causes.{cause_is};
ghost use Rattle.journal.specs.FoundCauses as spec;

use crate::Cause;
use pram_meaning::part::Part;
use pram_values::Kind;
use std::alloc::{AllocError, Global};
use write_rules::Write;

// The write of a part to the cell, put behind the others.
fn add_write(writes: &mut Vec<Write>, cell: u32, x: &Part) -> Result<(), AllocError>
    ensures { OnOk result (writes.new.items ≡ writes.old.items
        ++ writes_by cell (part_is x.now).processor (part_is x.now).attempt) }
{
    if let Ok(effect) = x.outcome {
        if let Some(other) = effect.cell {
            if cell == other {
                writes.push(Write {
                    processor: x.processor,
                    value: effect.value,
                })?;
            }
        }
    }
    Ok(())
}

// The writes to the cell, in the order of the set.
#[tactic(auto, using(pram_meaning::proofs::Folds::build_starts, pram_meaning::proofs::Folds::build_goes, pram_meaning::proofs::Folds::build_ends))]
fn collect_writes(alloc: Global, cell: u32, parts: &[Part]) -> Result<Vec<Write>, AllocError>
    ensures { IfOk result (λ writes. writes.items ≡ writes_to cell (map part_is parts.now)) }
{
    let mut writes = Vec::new(alloc);
    for x in parts {
        add_write(&mut writes, cell, x)?;
    }
    Ok(writes)
}

/// Why accesses to a cell conflict in a fault of this kind.
pub fn cause_at_cell(
    alloc: Global,
    kind: Kind,
    cell: u32,
    parts: &[Part],
) -> Result<Cause, AllocError>
    ensures { IfOk result (λ cause. cause_is cause ≡ spec.cause_at_cell kind cell (map part_is parts.now)) }
{
    match kind {
        Kind::ReadConflict => Ok(Cause::Meeting),
        Kind::WriteConflict
        | Kind::Overflow
        | Kind::DivideByZero
        | Kind::OutOfRange
        | Kind::TooWide => {
            let writes = collect_writes(alloc, cell, parts)?;
            Ok(Cause::Writing { writes })
        }
    }
}
