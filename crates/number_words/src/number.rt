//! Words that are whole numbers of 64 bits.

ghost use Rattle.std.specs.Prelude.{◌≡◌, ◌≤◌, ◌<◌, MatchOption, false, true};
ghost use Rattle.pram_tokens.specs.Input as input;
ghost use Rattle.pram_tokens.specs.Lexemes.{value_after};

use pram_tokens::LARGEST;

// Whether there are digits alone.
fn are_digits(text: &[u8]) -> bool
    ensures { result ≡ input.are_digits text.now }
{
    for b in text {
        if !b.is_ascii_digit() {
            return false;
        }
    }
    true
}

// The value of digits, if it is at most that.
fn value(digits: &[u8], most: u64) -> Option<u64>
    requires wide { 255 ≤ most }
    ensures value { MatchOption result (most < value_after 0 digits.now)
        (λ n. (n ≡ value_after 0 digits.now) × (n ≤ most)) }
{
    let mut n: u64 = 0;
    for b in digits {
        let digit = u64::from(b.saturating_sub(b'0'));
        // Without this test a long run of digits would wrap.
        if n > (most - digit) / 10 {
            return None;
        }
        n = n * 10 + digit;
    }
    Some(n)
}

// The value of a word of digits, if it is at most that.
fn digits(word: &[u8], most: u64) -> Option<u64>
    requires wide { 255 ≤ most }
    ensures value { MatchOption result (input.is_value most word.now ≡ false)
        (λ n. (input.is_value most word.now ≡ true) × (n ≡ value_after 0 word.now) × (n ≤ most)) }
{
    if word.is_empty() || !are_digits(word) {
        return None;
    }
    value(word, most)
}

/// The number that a word is: an optional `-` and one or more decimal digits, of a value from -9223372036854775808 to
/// 9223372036854775807. `None`: it is no such word.
pub fn read_number(word: &[u8]) -> Option<i64>
    ensures { result ≡ input.number_of word.now }
{
    match word {
        [b'-', magnitude @ ..] => match digits(magnitude, LARGEST + 1) {
            Some(n) => Some((-i128::from(n)) as i64),
            None => None,
        },
        _ => match digits(word, LARGEST) {
            Some(n) => Some(n as i64),
            None => None,
        },
    }
}
