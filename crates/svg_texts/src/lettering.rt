//! How texts of pictures stand.

use crate::Colour;

/// Which part of a text stands at its point.
#[derive(Clone, Copy, Drop, PartialEq, Eq)]
pub enum Anchor {
    Start,
    Middle,
    End,
}

/// How letters look: plain ones of 12 pixels, bold ones, those of 10 and of 6 pixels, and those of a program's text.
#[derive(Clone, Copy, Drop, PartialEq, Eq)]
pub enum Face {
    Plain,
    Bold,
    Small,
    Tiny,
    Code,
}

/// How a text stands at a point. It is black where no ink is named.
#[derive(Clone, Copy, Drop, PartialEq, Eq)]
pub struct Lettering {
    pub anchor: Anchor,
    pub face: Face,
    pub ink: Option<Colour>,
    pub upwards: bool,
}
