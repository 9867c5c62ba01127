//! In which form the statements of a run are told.

/// In which form the statements of a run are told.
#[derive(Clone, Copy, Debug, Drop, PartialEq, Eq)]
pub enum Form {
    /// In words.
    Words,
    /// Drawn, as SVG.
    Picture,
    /// The flow of data between the shared cells, drawn, as SVG.
    Flow,
    /// As a page that steps through the statements.
    Page,
}
