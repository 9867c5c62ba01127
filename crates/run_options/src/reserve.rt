//! What a worker takes the memory for in advance.

/// So many items of output, those that a fault drops counted, and so many exchanges. A worker that was given a reserve takes no memory on
/// the way, and stops where its run comes past one of the two.
#[derive(Clone, Copy, Debug, PartialEq, Eq)]
pub struct Reserve {
    pub items: u32,
    pub exchanges: u32,
}
