//! Two programs on inputs of a kind that are drawn.

ghost use Rattle.std.specs.Prelude.{◌≡◌, ◌≢◌, ◌↔◌, ◌+◌, ◌<◌, ◌^◌, ℤ, List, Some, IfOk};
ghost use Rattle.drawn_kinds.specs.Kinds.{IsDrawn};
ghost use Rattle.comparing.specs.Found as spec;
ghost use Rattle.comparing.specs.Found.{found, found_is};
ghost use Rattle.comparing.specs.declared.refusal.Side as rust;

use crate::compared::Compared;
use crate::comparing::try_input;
use crate::comparison::Comparison;
use crate::most::most_told;
use crate::refusal::{ComparisonRefusal, too_long};
use drawn_kinds::{DrawnKind, draw_kind};
use pram_check::Program;
use std::alloc::Global;

// The input that a seed draws.
fn draw_input(
    alloc: Global,
    kind: DrawnKind,
    seed: u64,
    cells: u32,
) -> Result<Vec<i64>, ComparisonRefusal>
    ensures drawn { IfOk result (λ input. IsDrawn kind seed cells input.items) }
    ensures memory { (side : rust.Side) → result ≢ Err (ComparisonRefusal.InputTooLong side) }
{
    match draw_kind(alloc, kind, cells, seed) {
        Ok(input) => Ok(input),
        Err(_) => Err(ComparisonRefusal::OutOfMemory),
    }
}

/// The same on inputs of a kind, each of `cells` values: what the seed draws, what the next seed draws, and so on, as many as `count`. E11
/// where one of the programs has fewer cells, or the precondition.
pub fn compare_kind(
    alloc: Global,
    first: &Program,
    second: &Program,
    precondition: &Option<Program>,
    compared: &Compared,
    kind: DrawnKind,
    seed: u64,
    cells: u32,
    count: u32,
    bound: u32,
) -> Result<Comparison, ComparisonRefusal>
    requires seeds { seed + count < 2 ^ 64 }
    // It tells on how many of the inputs of that kind that these seeds draw and that count the programs come to the
    // same, and the first others.
    ensures found { IfOk result (λ r. (inputs : List (List ℤ)) × spec.AreOfKind kind seed cells count inputs
        × (found_is r ≡ found precondition.now first.now second.now compared.now bound (spec.most_told cells) inputs)) }
    // They are refused exactly where a program has fewer cells than are drawn: the first before the second, then the
    // precondition.
    ensures too_long { (side : rust.Side) → (result ≡ Err (ComparisonRefusal.InputTooLong side))
        ↔ (spec.too_long precondition.now first.now second.now cells ≡ Some side) }
{
    if let Some(side) = too_long(first, second, precondition, cells as usize) {
        return Err(ComparisonRefusal::InputTooLong(side));
    }
    let most = most_told(cells as usize);
    let mut comparison = Comparison::new(alloc);
    for turn in 0..count {
        let input = draw_input(alloc, kind, seed + u64::from(turn), cells)?;
        try_input(
            alloc,
            first,
            second,
            precondition,
            compared,
            &input,
            bound,
            most,
            &mut comparison,
        )?;
    }
    Ok(comparison)
}
