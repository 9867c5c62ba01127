//! Equations in echelon form.

ghost use Rattle.std.specs.Prelude.{◌≡◌, ◌↔◌, ◌<◌, ℕ, ℤ, pos, All, MatchOption};
ghost use Rattle.sweeps.specs.Choices.{chosen};
ghost use Rattle.sweeps.specs.Echelons.{BeginsAt, IsDependent, IsEchelon, IsOfChoice, MaySolve, SolveFirst, Solves};
ghost use Rattle.sweeps.specs.Equations.{IsBounded, Vector, dot, entry};

use crate::choice::Choice;
use crate::equation::Equation;
use crate::row::Row;

// An equation without the first columns, by their pivots.
fn reduced(equation: &Equation, pivots: &[Equation; 6], column: usize) -> Equation
    requires column { column < 6 }
    requires bounded { IsBounded 0 equation.now }
    requires pivots { IsEchelon pivots.now column }
    ensures bounded { IsBounded column result }
    ensures zeros { (i : ℕ) → i < column → entry result i ≡ pos 0 }
    // Numbers that solve the pivots solve both equations or none.
    ensures same { (z : Vector) → SolveFirst pivots.now column z → (dot 7 (entry equation.now) z ≡ pos 0) ↔ (dot 7 (entry result) z ≡
        pos 0) }
{
    let mut left = *equation;
    for i in 0..column {
        left = left.without(i, &pivots[i]);
    }
    left
}

// An equation that begins at a column, by the first row that has one.
fn pivot_of(table: &[Row], pivots: &[Equation; 6], column: usize) -> Option<Equation>
    requires column { column < 6 }
    requires pivots { IsEchelon pivots.now column }
    ensures { MatchOption result
        ((z : Vector) → SolveFirst pivots.now column z → ((i : ℕ) → i < 7 → column < i → z i ≡ pos 0) → All (MaySolve z) table.now)
        (λ p. BeginsAt column p × ((z : Vector) → SolveFirst pivots.now column z → All (Solves z) table.now → dot 7 (entry p) z ≡ pos 0)) }
{
    for row in table {
        let left = reduced(&Equation::of_row(row), pivots, column);
        if !left.at(column).is_zero() {
            return Some(left);
        }
    }
    None
}

// The equation that begins at a column: where it isn't chosen, that its coefficient is 0.
fn pivot_by(
    table: &[Row],
    choice: Choice,
    pivots: &[Equation; 6],
    column: usize,
) -> Option<Equation>
    requires column { column < 6 }
    requires pivots { IsEchelon pivots.now column }
    ensures { MatchOption result
        ((chosen choice.bits column ≡ 1) × ((z : Vector) → SolveFirst pivots.now column z →
        ((i : ℕ) → i < 7 → column < i → z i ≡ pos 0) → All (MaySolve z) table.now))
        (λ p. BeginsAt column p × ((z : Vector) → SolveFirst pivots.now column z → All (Solves z) table.now → IsOfChoice choice.bits z →
        dot 7 (entry p) z ≡ pos 0) × (chosen choice.bits column ≡ 0 → (z : Vector) → dot 7 (entry p) z ≡ z column)) }
{
    if choice.has(column) {
        pivot_of(table, pivots, column)
    } else {
        Some(Equation::unit(column))
    }
}

/// For each column an equation that begins there. `None`: the columns chosen depend on one another.
pub(crate) fn echelon(table: &[Row], choice: Choice) -> Option<[Equation; 6]>
    ensures { MatchOption result (IsDependent table.now choice.bits)
        (λ ps. IsEchelon ps 6 × ((z : Vector) → All (Solves z) table.now → IsOfChoice choice.bits z → SolveFirst ps 6 z)) }
{
    let mut pivots = [Equation::unit(0); 6];
    for column in 0..6usize {
        match pivot_by(table, choice, &pivots, column) {
            Some(pivot) => pivots[column] = pivot,
            None => return None,
        }
    }
    Some(pivots)
}
