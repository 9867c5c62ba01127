//! The terms of a formula.

/// A term of a formula, from the one that grows slowest.
#[derive(Clone, Copy, Debug, PartialEq, Eq)]
pub(crate) enum Term {
    Constant,
    Logarithm,
    Linear,
    Linearithmic,
    Square,
    Cube,
}

/// The terms as they are written, from the one that grows fastest.
pub(crate) const WRITTEN: [Term; 6] = [
    Term::Cube,
    Term::Square,
    Term::Linearithmic,
    Term::Linear,
    Term::Logarithm,
    Term::Constant,
];
