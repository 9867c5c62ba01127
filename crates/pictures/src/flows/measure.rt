//! Where rows and columns stand.

ghost use Rattle.std.specs.Prelude.{◌≡◌, ◌<◌, ◌^◌, length};
ghost use Rattle.std.specs.Fmt.{signed_decimal};
ghost use Rattle.pictures.specs.Flows.Places as spec;
ghost use Rattle.pictures.specs.Flows.MarkShapes as marks;

use itoa::Buffer;

// The row of a cell, counted from 0.
fn row_of(rows: &[u32], cell: u32) -> usize
    ensures { result ≡ spec.row_of rows.now cell }
{
    let mut row = 0;
    while row < rows.len() && rows[row] != cell {
        row += 1;
    }
    row
}

/// Where a row stands.
pub(crate) fn y_at(row: usize) -> u128
    ensures y { result ≡ spec.y_at row }
    ensures near { result < 2 ^ 100 }
{
    310 + 24 * row as u128
}

/// Where the row of a cell stands.
pub(crate) fn y_of(rows: &[u32], cell: u32) -> u128
    ensures y { result ≡ spec.y_of rows.now cell }
    ensures near { result < 2 ^ 100 }
{
    y_at(row_of(rows, cell))
}

/// Where a column stands.
pub(crate) fn x_of(column: usize) -> u128
    ensures x { result ≡ spec.x_of column }
    ensures near { result < 2 ^ 100 }
{
    168 + 100 * column as u128
}

/// How wide the picture of so many columns is.
pub(crate) fn picture_width(columns: usize) -> u128
    ensures { result ≡ spec.picture_width columns }
{
    (x_of(columns) + 44).max(640)
}

/// How tall the picture of so many rows is.
pub(crate) fn picture_height(rows: usize) -> u128
    ensures { result ≡ spec.picture_height rows }
{
    y_at(rows) + 44
}

// A value in decimal.
pub(crate) fn decimal<'a>(digits: &'a mut Buffer, value: &i64) -> &'a [u8]
    ensures { result.now ≡ signed_decimal value.now }
{
    digits.format(*value).as_bytes()
}

// How many letters a value has.
fn letter_count(value: &i64) -> usize
    ensures count { result ≡ length (signed_decimal value.now) }
    ensures few { result < 64 }
{
    let mut digits = Buffer::new();
    digits.format(*value).as_bytes().len()
}

/// How wide a value is.
pub(crate) fn value_width(value: &i64) -> u128
    ensures { result ≡ marks.value_width value.now }
{
    7 * letter_count(value) as u128 + 8
}
