//! What stands at the front of an expression: white space, a token, a number.

ghost use Rattle.std.specs.Prelude.{◌≡◌, ◌≤◌, ◌<◌, length};
ghost use Rattle.std.specs.List.{prefix_len};
ghost use Rattle.pram_model.specs.Names.{is_word};
ghost use Rattle.pram_tokens.specs.Input.{are_digits};
ghost use Rattle.pram_tokens.specs.Lexemes.{value_after, largest};
ghost use Rattle.std.specs.Prelude.{MatchOption};
ghost use Rattle.sized_texts.specs.Front as spec;

use crate::reason::Reason;
use pram_tokens::LARGEST;

// White space within a line: space, tab and CR.
fn is_space(b: u8) -> bool
    ensures { result ≡ spec.is_space b }
{
    matches!(b, b' ' | b'\t' | b'\r')
}

/// What names and numbers go on with.
pub(crate) fn goes_on(b: u8) -> bool
    ensures { result ≡ is_word b }
{
    b.is_ascii_alphabetic() || b.is_ascii_digit() || b == b'_'
}

// How many bytes at the front are white space.
fn space_len(text: &[u8]) -> usize
    ensures value { result ≡ prefix_len spec.is_space text.now }
    ensures within { result ≤ length text.now }
{
    let mut end = 0;
    while end < text.len() && is_space(text[end]) {
        end += 1;
    }
    end
}

/// The text behind white space at its front.
pub(crate) fn past_spaces(text: &[u8]) -> &[u8]
    ensures value { result.now ≡ spec.past_spaces text.now }
    ensures shorter { length result.now ≤ length text.now }
{
    let (_, rest) = text.split_at(space_len(text));
    rest
}

/// How many bytes at the front are letters, digits and `_`.
pub(crate) fn word_len(text: &[u8]) -> usize
    ensures value { result ≡ prefix_len is_word text.now }
    ensures within { result ≤ length text.now }
{
    let mut end = 0;
    while end < text.len() && goes_on(text[end]) {
        end += 1;
    }
    end
}

// The length of the token at the front.
fn token_len(text: &[u8]) -> usize
    ensures value { result ≡ spec.token_length text.now }
    ensures within { result ≤ length text.now }
    ensures some { 0 < length text.now → 0 < result }
{
    if text.is_empty() {
        return 0;
    }
    word_len(text).max(1)
}

/// The token at the front, and what is behind it.
pub(crate) fn split_token(text: &[u8]) -> (&[u8], &[u8])
    ensures token { result.0.now ≡ spec.front text.now }
    ensures rest { result.1.now ≡ spec.behind text.now }
    ensures shorter { length result.1.now ≤ length text.now }
    ensures less { 0 < length text.now → length result.1.now < length text.now }
{
    text.split_at(token_len(text))
}

// Whether there are digits alone.
fn all_digits(token: &[u8]) -> bool
    ensures { result ≡ are_digits token.now }
{
    for b in token {
        if !b.is_ascii_digit() {
            return false;
        }
    }
    true
}

// The value of digits, if it is at most the greatest number of a text.
fn value(digits: &[u8]) -> Option<u64>
    ensures { MatchOption result (largest < value_after 0 digits.now)
        (λ n. (n ≡ value_after 0 digits.now) × (n ≤ largest)) }
{
    let mut n: u64 = 0;
    for b in digits {
        let digit = u64::from(b.saturating_sub(b'0'));
        // Without this test a long run of digits would wrap.
        if n > (LARGEST - digit) / 10 {
            return None;
        }
        n = n * 10 + digit;
    }
    Some(n)
}

/// The number that a token is.
pub(crate) fn number(token: &[u8]) -> Result<u64, Reason>
    ensures { result ≡ spec.number_of token.now }
{
    if !all_digits(token) {
        return Err(Reason::Unexpected);
    }
    match value(token) {
        Some(n) => Ok(n),
        None => Err(Reason::OutOfRange),
    }
}
