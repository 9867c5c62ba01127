//! The formula of a table.

ghost use Rattle.std.specs.Prelude.{◌≡◌, ◌≢◌, ◌≤◌, ℕ, ℤ, FitsSigned, MatchOption};
ghost use Rattle.std.specs.Int.{w128};
ghost use Rattle.sweeps.specs.declared.formula.Formula.{Formula as TheFormula};
ghost use Rattle.sweeps.specs.declared.growth.Growth.TheVariants.{Nothing};
ghost use Rattle.sweeps.specs.Formulas.{term_count};
ghost use Rattle.sweeps.specs.Tables.{GrowsBy, HasNoFormula, IsCandidate, IsFirst, IsSo, TellsFirst, term_set};

use crate::choice::Choice;
use crate::doubling::doubling;
use crate::fitting::explains;
use crate::formula::Formula;
use crate::growth::Growth;
use crate::row::Row;
use crate::solution::solve;

// The formula that may be told and has just the terms chosen.
fn chosen_formula(table: &[Row], choice: Choice) -> Option<Formula>
    ensures { MatchOption result ((g : TheFormula) → IsCandidate g table.now → term_set g ≢ choice.bits)
        (λ f. IsCandidate f table.now × (term_set f ≡ choice.bits)) }
{
    match solve(table, choice) {
        Some(formula) => {
            if explains(&formula, table) && formula.term_set() == choice.bits {
                Some(formula)
            } else {
                None
            }
        }
        None => None,
    }
}

// The first formula with so many terms, those that grow slower first.
fn formula_of(table: &[Row], count: usize) -> Option<Formula>
    ensures { MatchOption result ((g : TheFormula) → IsCandidate g table.now → term_count g ≢ count)
        (λ f. IsCandidate f table.now × (term_count f ≡ count) ×
        ((g : TheFormula) → IsCandidate g table.now → term_count g ≡ count → term_set f ≤ term_set g)) }
{
    for bits in 0..64usize {
        let choice = Choice { bits };
        if choice.count() == count {
            match chosen_formula(table, choice) {
                Some(formula) => return Some(formula),
                None => {}
            }
        }
    }
    None
}

// The first formula, by fewest terms.
fn first_formula(table: &[Row]) -> Option<Formula>
    ensures { MatchOption result (HasNoFormula table.now) (λ f. IsFirst f table.now) }
{
    for count in 0..7usize {
        match formula_of(table, count) {
            Some(formula) => return Some(formula),
            None => {}
        }
    }
    None
}

/// How the numbers of a table grow with its sizes. A formula is told that gives the number at each size, where there are at least two more
/// different sizes than terms, and where no other formula of its terms does: the first by fewest terms, and among as many those that grow
/// slower. Where a size is 0, which has no logarithm, it has no term with log n. Else, where each of three sizes or more is twice the one
/// before, and the numbers grow by one step, that step. It claims nothing of other sizes.
pub fn fit(table: &[Row]) -> Growth
    // A formula that is told gives the table's number at each size, with at least two terms fewer than different sizes;
    // a step is the difference at each doubling.
    ensures told { IsSo result table.now }
    // Of formulas with 128-bit coefficients that explain the table and alone fit with their terms, the one with fewest,
    // then slowest terms is told; something else only where none exists.
    ensures first { TellsFirst result table.now }
    // Where nothing is told, no step of 128 bits is the table's difference at each doubling.
    ensures nothing { result ≡ Nothing → (step : ℤ) → FitsSigned w128 step → ¬ GrowsBy step table.now }
{
    if let Some(formula) = first_formula(table) {
        return Growth::Formula(formula);
    }
    match doubling(table) {
        Some(step) => Growth::Doubling(step),
        None => Growth::Nothing,
    }
}
