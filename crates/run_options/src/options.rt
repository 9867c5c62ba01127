//! How a program is run.

use crate::map_choice::MapChoice;

/// How a program is run: by so many workers, 1 to 32, by which map of its cells to their modules, and for how many statements at
/// most.
#[derive(Clone, Copy, Debug)]
pub struct Options {
    pub workers: u32,
    pub map: MapChoice,
    pub bound: u32,
}
