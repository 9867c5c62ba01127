//! The processors that take part.

/// A processor of a set, by its number among the members: one that is surely active, or may be.
#[derive(Clone, Copy, Debug, PartialEq, Eq)]
pub struct Active {
    pub member: u32,
    pub is_sure: bool,
}
