//! Accesses whose cells ascend from processor to processor: no two of them go to one cell, so what is said of them needs no slate.

ghost use Rattle.std.specs.Prelude.{◌≡◌, IsTrue, IfSome, None, map, false, slice_index_or, slice_set};
ghost use Rattle.write_rules.specs.Rule.{is_sum};
ghost use Rattle.pram_meaning.specs.Accesses.{reads_at, writes_made};
ghost use Rattle.pram_meaning.specs.Ascents.{AreApart, AscendFrom, IsPast, with_write};
ghost use Rattle.pram_meaning.specs.Ascents as spec;
ghost use Rattle.pram_meaning.specs.Judging.{part_is};
ghost use Rattle.pram_meaning.specs.Together.{overwritten, value_in};

use crate::part::Part;
use crate::run::set_number;
use pram_trees::Rule;

// The cell behind this one, if this one is not before `least`.
fn past(least: u64, cell: Option<u32>) -> Option<u64>
    ensures { IfSome result (λ next. IsPast least cell next) }
{
    match cell {
        None => Some(least),
        Some(cell) => {
            if u64::from(cell) < least {
                None
            } else {
                Some(u64::from(cell) + 1)
            }
        }
    }
}

// The cell that a processor reads at the position after `at`, if it reads one.
fn cell_read(x: &Part, at: usize) -> Option<u32>
    ensures { result ≡ slice_index_or x.now.trail.items at None }
{
    if at < x.trail.len() {
        x.trail[at]
    } else {
        None
    }
}

// The cell that a processor writes, if it writes one.
fn cell_written(x: &Part) -> Option<u32>
    ensures { result ≡ spec.cell_written (part_is x.now).attempt }
{
    match x.outcome {
        Ok(effect) => effect.cell,
        Err(_) => None,
    }
}

/// Whether the cells ascend that are read at the position after `at`.
pub fn reads_ascend(parts: &[Part], at: usize) -> bool
    ensures { IsTrue result → AscendFrom 0 (reads_at at (map part_is parts.now)) }
{
    let mut least = 0u64;
    for x in parts {
        let Some(next) = past(least, cell_read(x, at)) else {
            return false;
        };
        least = next;
    }
    true
}

// Whether the cells ascend that are written.
fn writes_ascend(parts: &[Part]) -> bool
    ensures { IsTrue result → AscendFrom 0 (writes_made (map part_is parts.now)) }
{
    let mut least = 0u64;
    for x in parts {
        let Some(next) = past(least, cell_written(x)) else {
            return false;
        };
        least = next;
    }
    true
}

fn sums(rule: Rule) -> bool
    ensures { result ≡ is_sum rule }
{
    rule == Rule::Sum
}

/// Whether one sees at the writes of a statement that each leaves its own value: their cells ascend, and nothing is added up.
pub fn are_apart(rule: Rule, parts: &[Part]) -> bool
    ensures { IsTrue result → AreApart rule (writes_made (map part_is parts.now)) }
{
    !sums(rule) && writes_ascend(parts)
}

fn set_cell(cells: &mut Vec<i64>, cell: u32, value: i64)
    ensures { cells.new.items ≡ slice_set cells.old.items cell value }
{
    set_number(cells, cell as usize, value);
}

// The value of a part, if it doesn't fault, goes to its cell.
fn put(cells: &mut Vec<i64>, x: &Part)
    ensures { cells.new.items ≡ with_write (spec.cell_written (part_is x.now).attempt) (value_in (part_is x.now).attempt)
        cells.old.items }
{
    if let Ok(effect) = x.outcome {
        if let Some(cell) = effect.cell {
            set_cell(cells, cell, effect.value);
        }
    }
}

/// Each cell that is written gets the value of its one writer.
#[tactic(auto, using(crate::proofs::Apart::put_starts, crate::proofs::Apart::put_goes, crate::proofs::Apart::put_ends))]
pub fn put_apart(cells: &mut Vec<i64>, parts: &[Part])
    requires { AscendFrom 0 (writes_made (map part_is parts.now)) }
    ensures { (rule : Rule) → is_sum rule ≡ false → cells.new.items ≡ overwritten rule (map part_is parts.now) 0 cells.old.items }
{
    for x in parts {
        put(cells, x);
    }
}
