//! Lines and columns.

ghost use Rattle.std.specs.Prelude.{◌≡◌, ◌+◌, ◌<◌, ◌^◌, take};
ghost use Rattle.text_places.specs.Places as spec;

/// A place of a text: its line and its column, both counted from 1. A column counts bytes.
#[derive(Clone, Copy, Debug, PartialEq, Eq)]
pub struct Place {
    pub line: usize,
    pub column: usize,
}

// The place behind a byte.
fn behind(place: Place, byte: u8) -> Place
    requires line { place.line + 1 < 2 ^ 64 }
    requires column { place.column + 1 < 2 ^ 64 }
    ensures { result ≡ spec.behind place byte }
{
    if byte == b'\n' {
        Place {
            line: place.line + 1,
            column: 1,
        }
    } else {
        Place {
            line: place.line,
            column: place.column + 1,
        }
    }
}

// The first bytes of a text, as many as that, or all of them.
pub(crate) fn front(text: &[u8], count: usize) -> &[u8]
    ensures { result.now ≡ take count text.now }
{
    if count < text.len() {
        &text[..count]
    } else {
        text
    }
}

/// The place of the byte at an offset, and behind the last byte where there are no more.
pub fn place_of(text: &[u8], at: usize) -> Place
    // The place is the line and the column of the offset, both counted from 1.
    ensures value { result ≡ spec.place_of text.now at }
    ensures counted { 0 < result.column }
{
    let mut place = Place { line: 1, column: 1 };
    let before = front(text, at);
    for byte in before {
        place = behind(place, *byte);
    }
    place
}
