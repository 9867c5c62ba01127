//! The locals of a processor.

/// What the locals of a processor hold.
#[derive(Drop)]
pub struct OwnLocals {
    /// The processor's index.
    pub processor: i64,
    /// The value of each local of its pardo, in the order of declaration.
    pub values: Vec<i64>,
}
