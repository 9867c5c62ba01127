//! Where columns and rows stand.

ghost use Rattle.std.specs.Prelude.{◌≡◌, ◌≤◌, ◌<◌, ◌+◌, map};
ghost use Rattle.journal.specs.Entries.{entry_is};
ghost use Rattle.pictures.specs.Steps.Measures as spec;
ghost use Rattle.pictures.specs.Steps.Measures.{frame_is};

use crate::steps::drawn::{first_drawn, last_drawn};
use crate::steps::frame::Frame;
use crate::steps::program_lines::longest;
use journal::Entry;

// So many columns stand in a band.
const BAND: usize = 16;

/// How many letters stand above a column at most.
pub(crate) fn letters_of(text: &[u8], entries: &[Entry]) -> usize
    ensures letters { result ≡ spec.letters_of text.now (map entry_is entries.now) }
    ensures short { result ≤ 36 }
{
    longest(text, first_drawn(entries)).max(longest(text, last_drawn(entries)))
}

/// Where the column behind so many others begins.
pub(crate) fn column_left(before: usize) -> usize
    ensures left { result ≡ spec.column_left before }
    ensures near { result ≤ 2000 }
{
    160 + 64 * (before % BAND)
}

// How tall a band is.
fn band_height(frame: &Frame<'_>) -> usize
    ensures height { result ≡ spec.band_height (frame_is frame.now) }
    ensures small { result ≤ 1636 }
{
    7 * frame.letters + 20 * frame.rows.len() + 104
}

/// Where so many bands end.
pub(crate) fn bands_end(frame: &Frame<'_>, bands: usize) -> usize
    requires few { bands ≤ 7 }
    ensures end { result ≡ spec.bands_end (frame_is frame.now) bands }
    ensures near { result ≤ 11532 }
{
    80 + bands * band_height(frame)
}

/// Where the rows of the band of a column begin, behind so many others.
pub(crate) fn rows_top(frame: &Frame<'_>, before: usize) -> usize
    requires few { before < 112 }
    ensures top { result ≡ spec.rows_top (frame_is frame.now) before }
    ensures some { 42 ≤ result }
    ensures near { result ≤ 20000 }
{
    bands_end(frame, before / BAND) + 7 * frame.letters + 50
}

/// Where a row begins.
pub(crate) fn row_top(top: usize, row: usize) -> usize
    requires near { top ≤ 20000 }
    requires few { row ≤ 65 }
    ensures top { result ≡ spec.row_top top row }
    ensures near { result ≤ 30000 }
{
    top + 20 * row
}

/// How many bands so many columns have.
pub(crate) fn bands_of(columns: usize) -> usize
    requires few { columns ≤ 112 }
    ensures bands { result ≡ spec.bands_of columns }
    ensures few { result ≤ 7 }
{
    (columns + 15) / BAND
}

/// How wide the picture of so many columns is.
pub(crate) fn picture_width(columns: usize) -> usize
    ensures { result ≡ spec.picture_width columns }
{
    (172 + 64 * columns.min(BAND)).max(720)
}

/// How tall the picture of so many columns is.
pub(crate) fn picture_height(frame: &Frame<'_>, columns: usize) -> usize
    requires few { columns ≤ 112 }
    ensures { result ≡ spec.picture_height (frame_is frame.now) columns }
{
    bands_end(frame, bands_of(columns)) + 40
}
