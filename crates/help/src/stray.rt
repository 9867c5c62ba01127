//! What is said of a byte that begins no token.

ghost use Rattle.std.specs.Prelude.{◌≡◌, ◌≤◌, ◌<◌, drop, length, slice_index};
ghost use Rattle.help.specs.Strays as spec;

use crate::near_bytes::{byte_at, byte_before, open_before, word_before};

const NUMBER: &[u8] = b"a number is at most 9223372036854775807, and no letter follows it at once";

const NOTHING: &[u8] = b"nothing of the language begins so";

const NO_COMMAS: &[u8] =
    b"there are no commas: a declaration has one name, an array one subscript, a print one number";

const NO_BRACES: &[u8] =
    b"there are no braces: a block goes up to its \"end\", and a comment begins with \"#\"";

fn of_exclamation(next: u8) -> &'static [u8]
    ensures { result.now ≡ spec.of_exclamation next }
{
    if next == b'=' {
        b"\"<>\" compares what differs"
    } else {
        b"\"not\" turns a condition around"
    }
}

fn of_dot(before: u8) -> &'static [u8]
    ensures { result.now ≡ spec.of_dot before }
{
    if before.is_ascii_digit() {
        b"there are no fractions: values are whole numbers"
    } else {
        NOTHING
    }
}

// Among the arguments of what has that name.
fn of_call(word: &[u8]) -> &'static [u8]
    ensures { result.now ≡ spec.of_call word.now }
{
    match word {
        b"min" | b"max" | b"abs" =>
            b"there are no functions min, max and abs: write \"if a < b then m := a; else m := b; end\"",
        b"pow" => b"pow stands between braces alone, with numbers and sizes in it, as {pow(2, 3)}",
        _ => NO_COMMAS,
    }
}

fn of_bracket(text: &[u8], at: usize) -> &'static [u8]
    requires within { at ≤ length text.now }
    ensures { result.now ≡ spec.of_bracket text.now at }
{
    if byte_at(text, at) == b'[' {
        b"an array has one subscript: a[(i - 1) * n + j] is row i, column j of n columns"
    } else {
        of_call(word_before(text, at))
    }
}

fn of_comma(text: &[u8], at: usize) -> &'static [u8]
    requires within { at ≤ length text.now }
    ensures { result.now ≡ spec.of_comma text.now at }
{
    match open_before(text, at) {
        None => NO_COMMAS,
        Some(i) => of_bracket(text, i),
    }
}

fn ends_brace(byte: u8) -> bool
    ensures { result ≡ spec.ends_brace byte }
{
    matches!(byte, b'}' | b';' | b'\n' | b'{')
}

// Whether a brace is closed, as one of an expression of sizes is.
fn closes(behind: &[u8]) -> bool
    ensures { result ≡ spec.closes behind.now }
{
    for byte in behind {
        if ends_brace(*byte) {
            return *byte == b'}';
        }
    }
    false
}

fn of_open_brace(behind: &[u8]) -> &'static [u8]
    ensures { result.now ≡ spec.of_open_brace behind.now }
{
    if closes(behind) {
        b"braces hold sizes: write a line \"# size n = 8\" above the program, before its first word"
    } else {
        NO_BRACES
    }
}

fn of_symbol(byte: u8) -> &'static [u8]
    ensures { result.now ≡ spec.of_symbol byte }
{
    match byte {
        b'/' => b"division is \"div\", and its remainder \"mod\"; a comment begins with \"#\"",
        b'%' => b"the remainder of a division is \"mod\"",
        b'&' => b"\"and\" joins two conditions",
        b'|' => b"\"or\" joins two conditions",
        b'^' => b"there is no power: x * x is the square of x",
        b'}' => NO_BRACES,
        b'"' | b'\'' => b"there are no texts: \"print\" prints numbers",
        b':' => b"\":=\" assigns, and names have no types",
        b'_' => b"a name begins with a letter",
        _ => NOTHING,
    }
}

fn sentence_of(text: &[u8], at: usize, byte: u8) -> &'static [u8]
    requires within { at < length text.now }
    ensures { result.now ≡ spec.sentence_of text.now at byte }
{
    if byte.is_ascii_digit() {
        NUMBER
    } else if byte == b'!' {
        of_exclamation(byte_at(text, at + 1))
    } else if byte == b'.' {
        of_dot(byte_before(text, at))
    } else if byte == b',' {
        of_comma(text, at)
    } else if byte == b'{' {
        of_open_brace(&text[at + 1..])
    } else {
        of_symbol(byte)
    }
}

/// What is said of the byte at a place of a text that begins no token: the word of the language for what other languages write so.
pub fn stray_sentence(text: &[u8], at: u32) -> &'static [u8]
    // It is exactly the sentence for that byte, by what stands before it and behind it.
    ensures { result.now ≡ spec.stray_sentence text.now at }
{
    let at = at as usize;
    if at < text.len() {
        sentence_of(text, at, text[at])
    } else {
        NOTHING
    }
}
