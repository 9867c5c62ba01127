//! Forms of pictures.

/// A form where it stands, in pixels from the left and the upper edge.
#[derive(Clone, Copy, Drop, PartialEq, Eq)]
pub enum Form {
    Rectangle {
        left: u128,
        top: u128,
        wide: u128,
        tall: u128,
    },
    /// Of four pixels around its middle.
    Circle {
        x: u128,
        y: u128,
    },
    /// From one point to another.
    Line {
        x: u128,
        y: u128,
        to_x: u128,
        to_y: u128,
    },
}
