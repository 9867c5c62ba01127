//! Operands of an operation of the processors.

/// A private register, or the processor's number in the range.
#[derive(Clone, Copy, Debug, PartialEq, Eq)]
pub enum Operand {
    Register(u16),
    Number,
}
