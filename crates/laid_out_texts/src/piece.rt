//! Pieces of a text.

/// Where a piece stands behind the piece before it.
#[derive(Clone, Copy, Debug, PartialEq, Eq)]
pub enum Place {
    /// In the same line.
    Beside,
    /// In the next line.
    Below,
    /// Behind one empty line or more.
    Apart,
}

/// A comment, word, number, brace or sign of a text, and where it stands.
#[derive(Clone, Copy)]
pub struct Piece<'a> {
    pub place: Place,
    pub bytes: &'a [u8],
}
