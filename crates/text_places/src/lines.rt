//! Lines of a text.

ghost use Rattle.std.specs.Prelude.{◌≡◌, ◌≤◌, length};
ghost use Rattle.std.specs.List.{after_first, before_first, position_or_len};
ghost use Rattle.text_places.specs.Places as spec;

// The length of the first line, without its line feed.
fn first_end(text: &[u8]) -> usize
    ensures value { result ≡ position_or_len spec.ends_line text.now }
    ensures within { result ≤ length text.now }
{
    let mut end = 0;
    while end < text.len() && text[end] != b'\n' {
        end += 1;
    }
    end
}

// What stands behind the first line.
fn behind_line(text: &[u8]) -> &[u8]
    ensures { result.now ≡ after_first spec.ends_line text.now }
{
    let end = first_end(text);
    if end < text.len() {
        &text[end + 1..]
    } else {
        &[]
    }
}

// The first line, without its line feed.
fn first_line(text: &[u8]) -> &[u8]
    ensures { result.now ≡ before_first spec.ends_line text.now }
{
    &text[..first_end(text)]
}

/// The bytes of the line of that number, counted from 1, without its line feed; none where there are not so many lines.
pub fn line_text(text: &[u8], line: usize) -> &[u8]
    // It is the text's line of this number, without the end of the line.
    ensures { result.now ≡ spec.line_text text.now line }
{
    let mut rest = text;
    for _ in 1..line {
        rest = behind_line(rest);
    }
    first_line(rest)
}
