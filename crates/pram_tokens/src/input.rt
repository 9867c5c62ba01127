//! Input texts: whole numbers with white space between them.

ghost use Rattle.std.specs.Prelude.{◌≡◌, ℤ, List, neg_ℤ, suc, ◌↔◌, ◌≤◌, ◌<◌, Err, Some, false, true, length, not, IfErr, IfOk};
ghost use Rattle.std.specs.Prelude.{MatchOption};
ghost use Rattle.std.specs.List.{prefix_len};
ghost use Rattle.pram_tokens.specs.declared.error.TextFault.TheVariants.{TextTooLong};
ghost use Rattle.pram_tokens.specs.Input as spec;
ghost use Rattle.pram_tokens.specs.Lexemes as lexemes;
ghost use Rattle.pram_tokens.specs.Scanning.{longest};

use crate::error::{LexError, TextFault};
use crate::lexer::{LARGEST, is_blank, value};
use crate::plain::{LONGEST, first_other};
use std::alloc::Global;

/// How many bytes at the front are no white space.
fn word_len(text: &[u8]) -> usize
    ensures value { result ≡ prefix_len (λ b. not (lexemes.is_blank b)) text.now }
    ensures within { result ≤ length text.now }
{
    let mut end = 0;
    while end < text.len() && !is_blank(text[end]) {
        end += 1;
    }
    end
}

/// Whether there are digits alone.
fn are_digits(text: &[u8]) -> bool
    ensures value { result ≡ spec.are_digits text.now }
{
    for b in text {
        if !b.is_ascii_digit() {
            return false;
        }
    }
    true
}

/// The value of a word of digits, if it is at most that.
fn digits(word: &[u8], most: u64) -> Option<u64>
    requires wide { 255 ≤ most }
    ensures value { MatchOption result (spec.is_value most word.now ≡ false)
        (λ n. (spec.is_value most word.now ≡ true) × (n ≡ lexemes.value_after 0 word.now) × (n ≤ most)) }
{
    if word.is_empty() || !are_digits(word) {
        return None;
    }
    value(word, most)
}

/// The number of a word, if it is one.
fn number(word: &[u8]) -> Option<i64>
    ensures value { result ≡ spec.number_of word.now }
{
    match word {
        [b'-', magnitude @ ..] => match digits(magnitude, LARGEST + 1) {
            Some(n) => Some((-i128::from(n)) as i64),
            None => None,
        },
        _ => match digits(word, LARGEST) {
            Some(n) => Some(n as i64),
            None => None,
        },
    }
}

/// The numbers of a text's words.
fn numbers(alloc: Global, text: &[u8]) -> Result<Vec<i64>, LexError>
    requires fits { length text.now ≤ longest }
    ensures numbers { IfOk result (λ found. spec.AreNumbers (spec.words 0 text.now) found.items) }
    ensures wrong { IfErr result (λ fault. spec.IsWrong text.now fault) }
{
    let mut found = Vec::new(alloc);
    let mut at = 0;
    while at < text.len() {
        let (_, rest) = text.split_at(at);
        let len = word_len(rest);
        if len == 0 {
            at += 1;
        } else {
            let (word, _) = rest.split_at(len);
            match number(word) {
                Some(value) => found.push(value)?,
                None => return Err(LexError::BadToken(at as u32)),
            }
            at += len;
        }
    }
    Ok(found)
}

/// The numbers of an input: each word between white space (space, tab, LF, CR) is an optional `-`
/// and at least one digit, with a value from -9223372036854775808 to 9223372036854775807.
///
/// A text of more than 1,048,576 bytes is `TextFault::TextTooLong` (E2), whatever it says. Then
/// the first byte of 128 or more is `TextFault::NotAscii` (E1), then the first word that is no
/// such number `TextFault::BadToken` (E3), with the offset of its first byte.
/// `TextFault::OutOfMemory` (E16) says that memory was refused.
pub fn read_input(alloc: Global, text: &[u8]) -> Result<Vec<i64>, TextFault>
    // The answer is the numbers of the text's words, in order.
    ensures found { IfOk result (λ values. spec.IsInputOf text.now values.items) }
    // Whatever numbers the words are, those are the answer, unless memory was refused.
    ensures only { (values : List ℤ) →
        spec.IsInputOf text.now values → spec.AreAnswer (λ found. found.items) values result }
    // TextTooLong is answered exactly for a text of more than 1,048,576 bytes.
    ensures too_long { (result ≡ Err TextTooLong) ↔ (longest < length text.now) }
    // A refusal tells the first of these at its offset: length, non-ASCII byte, word that is no number of 64 bits.
    // Memory is refused only past the first two.
    ensures refused { spec.IsInputFault text.now result }
{
    if text.len() > LONGEST {
        return Err(TextFault::TextTooLong);
    }
    if let Some(at) = first_other(text) {
        return Err(TextFault::NotAscii(at as u32));
    }
    match numbers(alloc, text) {
        Ok(found) => Ok(found),
        Err(fault) => match fault {
            LexError::OutOfMemory => Err(TextFault::OutOfMemory),
            LexError::BadToken(at) => Err(TextFault::BadToken(at)),
        },
    }
}
