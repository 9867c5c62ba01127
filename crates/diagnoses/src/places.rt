//! What stands at a place of a text.

ghost use Rattle.std.specs.Prelude.{◌≡◌, ◌≤◌, drop, length, slice_index, take};
ghost use Rattle.std.specs.List.{prefix_len};
ghost use Rattle.pram_model.specs.Names.{is_word as is_word_byte, same_text};
ghost use Rattle.text_out.specs.Out.{Writes};
ghost use Rattle.diagnoses.specs.Places as spec;

use text_out::{Out, WriteFault};
use text_places::write_shown;

/// Whether two texts are the same.
pub(crate) fn is_same(a: &[u8], b: &[u8]) -> bool
    ensures { result ≡ same_text a.now b.now }
{
    a == b
}

/// The byte at a place, and 0 behind the text.
pub(crate) fn byte_at(text: &[u8], at: usize) -> u8
    ensures { result ≡ slice_index text.now at }
{
    if at < text.len() { text[at] } else { 0 }
}

/// What stands from a place on.
pub(crate) fn behind(text: &[u8], at: usize) -> &[u8]
    ensures { result.now ≡ drop at text.now }
{
    if at < text.len() { &text[at..] } else { &[] }
}

fn is_word(byte: u8) -> bool
    ensures { result ≡ is_word_byte byte }
{
    byte.is_ascii_alphabetic() || byte.is_ascii_digit() || byte == b'_'
}

// Whether two bytes are a symbol.
fn is_wide(first: u8, second: u8) -> bool
    ensures { result ≡ spec.is_wide first second }
{
    match second {
        b'=' => first == b':' || first == b'<' || first == b'>',
        b'.' => first == b'.',
        b'>' => first == b'<',
        _ => false,
    }
}

// How many letters, digits and `_` stand at the front.
fn word_len(text: &[u8]) -> usize
    ensures value { result ≡ prefix_len is_word_byte text.now }
    ensures within { result ≤ length text.now }
{
    let mut end = 0;
    while end < text.len() && is_word(text[end]) {
        end += 1;
    }
    end
}

/// The first bytes of a text, as many as that, or all of them.
pub(crate) fn front(text: &[u8], count: usize) -> &[u8]
    ensures { result.now ≡ take count text.now }
{
    if count < text.len() {
        &text[..count]
    } else {
        text
    }
}

// The word or symbol at the front.
fn first_token(text: &[u8]) -> &[u8]
    ensures { result.now ≡ spec.first_token text.now }
{
    if is_word(byte_at(text, 0)) {
        front(text, word_len(text))
    } else if is_wide(byte_at(text, 0), byte_at(text, 1)) {
        front(text, 2)
    } else {
        front(text, 1)
    }
}

/// The word or symbol that begins at a place.
pub(crate) fn token_at(text: &[u8], at: usize) -> &[u8]
    ensures { result.now ≡ spec.token_at text.now at }
{
    first_token(behind(text, at))
}

// A text behind a quotation mark.
fn write_opened<W: Out>(out: &mut W, text: &[u8]) -> Result<(), WriteFault>
    ensures written { Writes (W.Out.state out.old) (W.Out.state out.new) (spec.opened text.now) result }
{
    out.write_all(b"\"")?;
    write_shown(out, text)
}

/// A text in quotation marks.
pub(crate) fn write_quoted<W: Out>(out: &mut W, text: &[u8]) -> Result<(), WriteFault>
    ensures written { Writes (W.Out.state out.old) (W.Out.state out.new) (spec.quoted text.now) result }
{
    write_opened(out, text)?;
    out.write_all(b"\"")
}
