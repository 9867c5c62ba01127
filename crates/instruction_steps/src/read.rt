//! Reads that are held.

use superstep_instructions::Side;

/// When something is done: in which statement, by its count and its line, and at which position.
#[derive(Clone, Copy, Debug, PartialEq, Eq)]
pub struct Moment {
    pub count: u32,
    pub line: u32,
    pub position: u32,
}

/// A read: the side and the number of its register, its moment, and the cell of a uniform read.
#[derive(Clone, Copy, Debug, PartialEq, Eq)]
pub struct Read {
    pub side: Side,
    pub destination: u16,
    pub moment: Moment,
    pub cell: Option<u32>,
}

// What stands in a place that holds no read.
impl Default for Read {
    fn default() -> Read {
        let moment = Moment {
            count: 0,
            line: 0,
            position: 0,
        };
        Read {
            side: Side::Uniform,
            destination: 0,
            moment,
            cell: None,
        }
    }
}
