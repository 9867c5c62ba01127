//! The lines of the grammar of expressions that have operators between operands.

/// Sums stand on products, and products on operands.
#[derive(Clone, Copy, Debug, PartialEq, Eq)]
pub enum Line {
    Sum,
    Product,
}
