//! A row as an equation for the coefficients.

ghost use Rattle.std.specs.Prelude.{◌≡◌, ◌<◌, ◌+◌, ◌*◌, ℕ, ℤ, pos, IsTrue};
ghost use Rattle.sweeps.specs.Equations.{IsBounded, Vector, bits, crossed, dot, entry, entry_at, row_entry, unit_entry, vector};
ghost use Rattle.sweeps.specs.Formulas.{IsLog, IsLogFor};
ghost use Rattle.sweeps.specs.Naturals.{limit, number};
ghost use Rattle.sweeps.specs.Wides.{IsWithin, integer};

use crate::formula::Formula;
use crate::row::Row;
use crate::wide::Wide;

/// The sum of the first six entries, each times the unknown coefficient of its column, is the last entry. The columns are 1, log n, n,
/// n log n, n^2 and n^3.
#[derive(Clone, Copy)]
pub(crate) struct Equation {
    entries: [Wide; 7],
}

// A product of two numbers.
fn product(a: u64, b: u64) -> u128
    ensures { result ≡ a * b }
{
    u128::from(a) * u128::from(b)
}

// The third power of a number.
fn cube(n: u64) -> Wide
    ensures value { integer result ≡ pos (n * n * n) }
    ensures within { IsWithin 192 result }
{
    Wide::of(0).with_product(&Wide::of(product(n, n)), &Wide::of(u128::from(n)))
}

// The logarithm of a size other than 0.
fn log_of(size: u64) -> u64
    ensures log { 0 < size → IsLog size result }
    ensures small { result < 64 }
{
    match size.checked_ilog2() {
        Some(log) => u64::from(log),
        None => 0,
    }
}

// 1 at a column, and else 0.
fn one_at(column: usize, i: usize) -> Wide
    ensures value { integer result ≡ unit_entry column i }
    ensures within { IsWithin 1 result }
{
    if i == column {
        Wide::of(1)
    } else {
        Wide::of(0)
    }
}

// Two products, added to nothing.
fn products(a: &Wide, b: &Wide, c: &Wide, d: &Wide) -> Wide
    requires plus { number a.now.plus * number b.now.plus + number a.now.minus * number b.now.minus +
        (number c.now.plus * number d.now.plus + number c.now.minus * number d.now.minus) < limit }
    requires minus { number a.now.plus * number b.now.minus + number a.now.minus * number b.now.plus +
        (number c.now.plus * number d.now.minus + number c.now.minus * number d.now.plus) < limit }
    ensures plus { number result.plus ≡ number a.now.plus * number b.now.plus + number a.now.minus * number b.now.minus +
        (number c.now.plus * number d.now.plus + number c.now.minus * number d.now.minus) }
    ensures minus { number result.minus ≡ number a.now.plus * number b.now.minus + number a.now.minus * number b.now.plus +
        (number c.now.plus * number d.now.minus + number c.now.minus * number d.now.plus) }
{
    Wide::of(0).with_product(a, b).with_product(c, d)
}

impl Equation {
    /// The equation of a row.
    pub(crate) fn of_row(row: &Row) -> Equation
        ensures entries { (log : ℕ) → IsLog row.now.size log → (i : ℕ) → i < 7 → entry result i ≡ row_entry row.now.size log
            row.now.number i }
        ensures sum { (z : Vector) (log : ℕ) → IsLogFor (z 1) (z 3) row.now.size log →
            dot 7 (entry result) z ≡ dot 7 (row_entry row.now.size log row.now.number) z }
        ensures bounded { IsBounded 0 result }
    {
        let log = log_of(row.size);
        Equation {
            entries: [
                Wide::of(1),
                Wide::of(u128::from(log)),
                Wide::of(u128::from(row.size)),
                Wide::of(product(row.size, log)),
                Wide::of(product(row.size, row.size)),
                cube(row.size),
                Wide::of(row.number),
            ],
        }
    }

    /// The coefficients of a formula as entries, and behind them -1.
    pub(crate) fn of_formula(formula: &Formula) -> Equation
        ensures entries { (i : ℕ) → i < 7 → entry result i ≡ vector formula.now i }
        ensures within { (i : ℕ) → i < 7 → IsWithin 128 (entry_at result i) }
    {
        Equation {
            entries: [
                Wide::of_signed(formula.constant),
                Wide::of_signed(formula.logarithm),
                Wide::of_signed(formula.linear),
                Wide::of_signed(formula.linearithmic),
                Wide::of_signed(formula.square),
                Wide::of_signed(formula.cube),
                Wide::of_signed(-1),
            ],
        }
    }

    /// The sum of the entries, each times that of another equation.
    pub(crate) fn sum(&self, other: &Equation) -> Wide
        requires mine { (i : ℕ) → i < 7 → IsWithin 842 (entry_at self.now i) }
        requires other { (i : ℕ) → i < 7 → IsWithin 128 (entry_at other.now i) }
        ensures value { integer result ≡ dot 7 (entry self.now) (entry other.now) }
        ensures within { IsWithin 980 result }
    {
        let mut sum = Wide::of(0);
        for i in 0..7usize {
            sum = sum.with_product(&self.entries[i], &other.entries[i]);
        }
        sum
    }

    /// That the coefficient of a column is 0.
    pub(crate) fn unit(column: usize) -> Equation
        requires { column < 7 }
        ensures entries { (i : ℕ) → i < 7 → entry result i ≡ unit_entry column i }
        ensures bounded { (i : ℕ) → i < 7 → IsWithin 1 (entry_at result i) }
    {
        Equation {
            entries: [
                one_at(column, 0),
                one_at(column, 1),
                one_at(column, 2),
                one_at(column, 3),
                one_at(column, 4),
                one_at(column, 5),
                one_at(column, 6),
            ],
        }
    }

    /// The entry of a column.
    pub(crate) fn at(&self, column: usize) -> Wide
        requires { column < 7 }
        ensures { result ≡ entry_at self.now column }
    {
        self.entries[column]
    }

    /// This equation without a column, by an equation that has it.
    pub(crate) fn without(&self, column: usize, pivot: &Equation) -> Equation
        requires column { column < 5 }
        requires mine { IsBounded column self.now }
        requires pivot { IsBounded column pivot.now }
        ensures entries { (i : ℕ) → i < 7 → entry result i ≡ crossed column (entry self.now) (entry pivot.now) i }
        ensures bounded { IsBounded (column + 1) result }
    {
        let mine = self.entries[column].negated();
        let other = pivot.entries[column];
        let mut entries = [Wide::of(0); 7];
        for i in 0..7usize {
            entries[i] = products(&other, &self.entries[i], &mine, &pivot.entries[i]);
        }
        Equation { entries }
    }
}
