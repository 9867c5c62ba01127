//! How forms are painted.

use crate::Colour;

/// What a form is filled with.
#[derive(Clone, Copy, Drop, PartialEq, Eq)]
pub enum Fill {
    Hollow,
    Plain(Colour),
    /// Stripes of orange and white.
    Striped,
}

/// How wide a line is: a pixel, one and a half, or three.
#[derive(Clone, Copy, Drop, PartialEq, Eq)]
pub enum Weight {
    Thin,
    Firm,
    Heavy,
}

/// A line, or that around a form.
#[derive(Clone, Copy, Drop, PartialEq, Eq)]
pub struct Stroke {
    pub colour: Colour,
    pub weight: Weight,
    pub dashed: bool,
}

/// How a form is painted.
#[derive(Clone, Copy, Drop, PartialEq, Eq)]
pub struct Paint {
    pub fill: Fill,
    pub stroke: Option<Stroke>,
}
