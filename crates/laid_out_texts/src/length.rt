//! How long a piece is.

ghost use Rattle.std.specs.Prelude.{◌≡◌, ◌<◌, ◌≤◌, true, false, length, slice_index, take};
ghost use Rattle.pram_tokens.specs.Lexemes as lexemes;
ghost use Rattle.sized_texts.specs.SizeLines.{comment_length};
ghost use Rattle.laid_out_texts.specs.Pieces as spec;

/// White space: space, tab, LF, CR.
pub(crate) fn is_blank(b: u8) -> bool
    ensures { result ≡ lexemes.is_blank b }
{
    matches!(b, b' ' | b'\t' | b'\n' | b'\r')
}

/// The byte at that place, or 0 past the end.
pub(crate) fn byte_at(text: &[u8], at: usize) -> u8
    ensures value { result ≡ slice_index text.now at }
    ensures inside { 0 < result → at < length text.now }
{
    if at < text.len() { text[at] } else { 0 }
}

/// Whether a word begins with that byte.
pub(crate) fn begins_word(b: u8) -> bool
    ensures { result ≡ spec.begins_word b }
{
    b.is_ascii_alphabetic() || b.is_ascii_digit() || b == b'_' || b == b'{'
}

// Whether what follows a byte is in a brace.
fn in_brace(brace: bool, b: u8) -> bool
    ensures { result ≡ spec.in_brace brace b }
{
    if brace { b != b'}' } else { b == b'{' }
}

// How many bytes are left of a line.
fn comment_len(text: &[u8]) -> usize
    ensures value { result ≡ comment_length text.now }
    ensures within { result ≤ length text.now }
{
    let mut end = 0;
    while end < text.len() && text[end] != b'\n' {
        end += 1;
    }
    end
}

// The length of the word at the front.
fn word_len(text: &[u8]) -> usize
    ensures value { result ≡ spec.word_length false text.now }
    ensures within { result ≤ length text.now }
{
    let mut end = 0;
    let mut brace = false;
    while end < text.len() && (brace || begins_word(text[end])) {
        brace = in_brace(brace, text[end]);
        end += 1;
    }
    end
}

// Whether two bytes are one sign.
fn is_wide(first: u8, second: u8) -> bool
    ensures value { result ≡ spec.is_wide first second }
    ensures some { result ≡ true → 0 < second }
{
    (second == b'=' && (first == b':' || (first == b'<' || first == b'>')))
        || ((first == b'.' && second == b'.') || (first == b'<' && second == b'>'))
}

/// The length of the piece at the front of a text that begins with no white space.
pub(crate) fn piece_len(text: &[u8]) -> usize
    requires some { 0 < length text.now }
    ensures value { result ≡ spec.piece_length text.now }
    ensures within { result ≤ length text.now }
    ensures moves { 0 < result }
{
    let first = byte_at(text, 0);
    if first == b'#' {
        comment_len(text).max(1)
    } else if begins_word(first) {
        word_len(text).max(1)
    } else if is_wide(first, byte_at(text, 1)) {
        2
    } else {
        1
    }
}

/// Bytes without the white space at their end.
pub(crate) fn trimmed(bytes: &[u8]) -> &[u8]
    ensures { result.now ≡ spec.trimmed bytes.now }
{
    let mut kept = 0;
    for at in 0..bytes.len() {
        if !is_blank(bytes[at]) {
            kept = at + 1;
        }
    }
    &bytes[..kept]
}
