//! The lines of the grammar of expressions.

/// A line of the grammar of expressions, from the loosest to the tightest.
#[derive(Clone, Copy, Debug, PartialEq, Eq)]
pub enum Level {
    /// Operands joined by `or`.
    Expression,
    /// Operands joined by `and`.
    Conjunction,
    /// A `not` before a negation, or a comparison.
    Negation,
    /// A sum, or two sums and a comparing operator.
    Comparison,
    /// Operands joined by `+` and `-`.
    Sum,
    /// Operands joined by `*`, `div` and `mod`.
    Term,
    /// A minus sign before a unary, or an atom.
    Unary,
    /// A number, a name, a cell of an array or what stands in parentheses.
    Atom,
}
