//! Formulas in the size n.

ghost use Rattle.std.specs.Prelude.{◌≡◌, ◌≤◌};
ghost use Rattle.sweeps.specs.Formulas as spec;
ghost use Rattle.sweeps.specs.Tables.{term_set};

use crate::term::Term;

/// An integer combination of the terms: `cube` n^3 + `square` n^2 + `linearithmic` n log n + `linear` n + `logarithm` log n + `constant`,
/// where log n is the logarithm to base 2, rounded down.
#[derive(Clone, Copy, Debug, PartialEq, Eq)]
pub struct Formula {
    pub constant: i128,
    pub logarithm: i128,
    pub linear: i128,
    pub linearithmic: i128,
    pub square: i128,
    pub cube: i128,
}

impl Formula {
    /// The coefficient of a term.
    pub(crate) fn coefficient(&self, term: Term) -> i128
        ensures { result ≡ spec.coefficient self.now term }
    {
        match term {
            Term::Constant => self.constant,
            Term::Logarithm => self.logarithm,
            Term::Linear => self.linear,
            Term::Linearithmic => self.linearithmic,
            Term::Square => self.square,
            Term::Cube => self.cube,
        }
    }

    /// How many terms have a coefficient other than 0.
    pub(crate) fn term_count(&self) -> usize
        ensures { result ≡ spec.term_count self.now }
    {
        counted(self.constant)
            + counted(self.logarithm)
            + counted(self.linear)
            + counted(self.linearithmic)
            + counted(self.square)
            + counted(self.cube)
    }

    /// The terms that have a coefficient other than 0, as a number.
    pub(crate) fn term_set(&self) -> usize
        ensures { result ≡ term_set self.now }
    {
        counted(self.constant)
            + 2 * counted(self.logarithm)
            + 4 * counted(self.linear)
            + 8 * counted(self.linearithmic)
            + 16 * counted(self.square)
            + 32 * counted(self.cube)
    }
}

// 1 for a coefficient other than 0.
fn counted(coefficient: i128) -> usize
    ensures value { result ≡ spec.counted coefficient }
    ensures few { result ≤ 1 }
{
    if coefficient == 0 { 0 } else { 1 }
}
