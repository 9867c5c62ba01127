//! What a panel is drawn by.

use sweeps::Measure;

/// What a panel tells, the most of it, the places of the least and the greatest size on the doubling scale, and where its axis stands.
#[derive(Clone, Copy)]
pub(crate) struct Frame {
    pub(crate) measure: Measure,
    pub(crate) most: u64,
    pub(crate) low: u32,
    pub(crate) high: u32,
    pub(crate) base: u32,
}
