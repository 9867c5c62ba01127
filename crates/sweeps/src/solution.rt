//! The coefficients that solve equations in echelon form.

ghost use Rattle.std.specs.Prelude.{◌≡◌, ◌≢◌, ◌<◌, ℕ, ℤ, neg_ℤ, ◌*ℤ◌, FitsSigned, MatchOption, slice_index_or};
ghost use Rattle.std.specs.Int.{w128};
ghost use Rattle.sweeps.specs.Echelons.{BeginsAt, IsEchelon, IsOfChoice, SolveFirst};
ghost use Rattle.sweeps.specs.Equations.{dot, entry, entry_at, vector};
ghost use Rattle.sweeps.specs.Formulas.{coefficient};
ghost use Rattle.sweeps.specs.Solutions.{HasSmall, column_at};
ghost use Rattle.sweeps.specs.Tables.{Fits, IsCandidate, term_set};
ghost use Rattle.sweeps.specs.declared.formula.Formula.{Formula as TheFormula};

use crate::choice::Choice;
use crate::echelon::echelon;
use crate::equation::Equation;
use crate::formula::Formula;
use crate::quotient::quotient;
use crate::row::Row;

// A formula with a coefficient in a column.
fn with(formula: Formula, column: usize, coefficient: i128) -> Formula
    requires { column < 6 }
    ensures { (i : ℕ) → i < 7 → vector result i ≡ column_at formula column coefficient i }
{
    let mut to = formula;
    match column {
        0 => to.constant = coefficient,
        1 => to.logarithm = coefficient,
        2 => to.linear = coefficient,
        3 => to.linearithmic = coefficient,
        4 => to.square = coefficient,
        _ => to.cube = coefficient,
    }
    to
}

// The coefficient that solves an equation which begins at a column, where those behind it are known and the others are 0.
fn solved(pivot: &Equation, known: &Formula, column: usize) -> Option<i128>
    requires column { column < 6 }
    requires begins { BeginsAt column pivot.now }
    ensures { MatchOption result
        ((x : ℤ) → FitsSigned w128 x → (entry pivot.now column *ℤ x) ≢ neg_ℤ (dot 7 (entry pivot.now) (vector known.now)))
        (λ x. (entry pivot.now column *ℤ x) ≡ neg_ℤ (dot 7 (entry pivot.now) (vector known.now))) }
{
    let sum = pivot.sum(&Equation::of_formula(known));
    quotient(&sum.negated(), &pivot.at(column))
}

// The only formula that solves the equations.
fn solution(pivots: &[Equation; 6]) -> Option<Formula>
    requires { IsEchelon pivots.now 6 }
    ensures { MatchOption result
        ((g : TheFormula) → HasSmall g → ¬ SolveFirst pivots.now 6 (vector g))
        (λ f. (g : TheFormula) → SolveFirst pivots.now 6 (vector g) → f ≡ g) }
{
    let mut known = Formula {
        constant: 0,
        logarithm: 0,
        linear: 0,
        linearithmic: 0,
        square: 0,
        cube: 0,
    };
    for step in 0..6usize {
        let column = 5 - step;
        match solved(&pivots[column], &known, column) {
            Some(coefficient) => known = with(known, column, coefficient),
            None => return None,
        }
    }
    Some(known)
}

/// The only formula with the terms chosen that can fit the table. `None`: no formula that may be told has just these terms.
pub(crate) fn solve(table: &[Row], choice: Choice) -> Option<Formula>
    ensures { MatchOption result
        ((g : TheFormula) → IsCandidate g table.now → term_set g ≢ choice.bits)
        (λ f. (g : TheFormula) → Fits g table.now → IsOfChoice choice.bits (vector g) → f ≡ g) }
{
    match echelon(table, choice) {
        Some(pivots) => solution(&pivots),
        None => None,
    }
}
