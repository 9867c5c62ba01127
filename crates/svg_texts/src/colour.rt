//! Colours of pictures.

/// A colour. Blue and orange differ in grey too.
#[derive(Clone, Copy, Drop, PartialEq, Eq)]
pub enum Colour {
    Black,
    White,
    Blue,
    Orange,
    Brown,
    /// From here on greys, from the lightest.
    Pale,
    Light,
    Silver,
    Grey,
}
