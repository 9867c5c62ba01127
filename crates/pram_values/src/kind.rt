//! Kinds of faults.

/// What is wrong in a statement that faults.
#[derive(Clone, Copy, Debug, PartialEq, Eq)]
pub enum Kind {
    /// A result of an operation that no `i64` has.
    Overflow,
    /// A zero divisor.
    DivideByZero,
    /// A subscript outside the bounds of its array.
    OutOfRange,
    /// A pardo with more indices than the program may have processors.
    TooWide,
    /// Two processors that read one cell at one position under exclusive reads.
    ReadConflict,
    /// Writers of one cell that the write rule does not allow.
    WriteConflict,
}
