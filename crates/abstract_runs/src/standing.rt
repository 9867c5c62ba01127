//! What is known of a run between two statements.

use intervals::Interval;

/// What is known of a run between two statements: how many have run, from `least` to `most`, and an interval for each uniform variable and
/// each cell. Each uniform variable also has an origin, one more interval: it is at most as far from some number there as statements have
/// run.
#[derive(Drop)]
pub struct Standing {
    pub least: u32,
    pub most: u32,
    pub uniforms: Vec<Interval>,
    pub cells: Vec<Interval>,
    pub origins: Vec<Interval>,
}

/// A processor of a pardo: its index, and an interval for each of its locals.
#[derive(Drop)]
pub struct Member {
    pub index: i64,
    pub locals: Vec<Interval>,
}
