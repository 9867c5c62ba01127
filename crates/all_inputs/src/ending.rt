//! What is known of the runs that end.

use intervals::Interval;

/// What is known of the runs that end: how many statements they have, from `least` to `most`, and in which interval each cell's value lies,
/// and those of all cells of each declaration, in the order of the declarations.
#[derive(Drop)]
pub struct Ending {
    pub least: u32,
    pub most: u32,
    pub cells: Vec<Interval>,
    pub declared: Vec<Interval>,
}
