//! What stands near a place of a text.

ghost use Rattle.std.specs.Prelude.{◌≡◌, ◌≤◌, ◌<◌, drop, length, slice_index, IfSome};
ghost use Rattle.pram_model.specs.Names.{is_word as is_word_byte};
ghost use Rattle.help.specs.Strays as spec;

/// The byte at a place, and 0 behind the text.
pub(crate) fn byte_at(text: &[u8], at: usize) -> u8
    ensures { result ≡ slice_index text.now at }
{
    if at < text.len() { text[at] } else { 0 }
}

/// The byte before a place, and 0 at the front.
pub(crate) fn byte_before(text: &[u8], at: usize) -> u8
    ensures { result ≡ spec.byte_before text.now at }
{
    if at == 0 { 0 } else { byte_at(text, at - 1) }
}

fn is_word(byte: u8) -> bool
    ensures { result ≡ is_word_byte byte }
{
    byte.is_ascii_alphabetic() || byte.is_ascii_digit() || byte == b'_'
}

fn is_closing(byte: u8) -> bool
    ensures { result ≡ spec.is_closing byte }
{
    byte == b')' || byte == b']'
}

fn is_opening(byte: u8) -> bool
    ensures { result ≡ spec.is_opening byte }
{
    byte == b'(' || byte == b'['
}

fn is_break(byte: u8) -> bool
    ensures { result ≡ spec.is_break byte }
{
    byte == b';' || byte == b'\n'
}

/// The place of the innermost bracket that is open before a place, in the statement and on the line.
pub(crate) fn open_before(text: &[u8], at: usize) -> Option<usize>
    requires within { at ≤ length text.now }
    ensures value { result ≡ spec.open_before text.now at 0 }
    ensures inside { IfSome result (λ i. i ≤ length text.now) }
{
    let mut i = at;
    let mut closed: usize = 0;
    while 0 < i {
        i -= 1;
        let byte = text[i];
        if is_closing(byte) {
            closed += 1;
        } else if is_opening(byte) {
            if closed == 0 {
                return Some(i);
            }
            closed -= 1;
        } else if is_break(byte) {
            return None;
        }
    }
    None
}

// Where the word begins that ends before a place.
fn word_start(text: &[u8], at: usize) -> usize
    requires within { at ≤ length text.now }
    ensures value { result ≡ spec.word_start text.now at }
    ensures inside { result ≤ at }
{
    let mut i = at;
    while 0 < i && is_word(text[i - 1]) {
        i -= 1;
    }
    i
}

/// The letters, digits and `_` at once before a place.
pub fn word_before(text: &[u8], at: usize) -> &[u8]
    requires within { at ≤ length text.now }
    ensures { result.now ≡ spec.word_before text.now at }
{
    &text[word_start(text, at)..at]
}
