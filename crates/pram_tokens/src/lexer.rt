//! The tokenizer: the longest token at each place of a text.

ghost use Rattle.std.specs.Prelude.{◌≡◌, ℕ, ◌+◌, ◌≤◌, ◌<◌, true, false, Some, None, Ok, Err, take, drop, length, slice_index, IfOk};
ghost use Rattle.std.specs.Prelude.{MatchOption};
ghost use Rattle.pram_tokens.specs.Lexemes as lexemes;
ghost use Rattle.pram_tokens.specs.Scanning as scanning;
ghost use Rattle.pram_model.specs.Names.{is_digit, is_letter};
ghost use Rattle.pram_tokens.specs.Tokens.{AreReal};

use crate::error::LexError;
use crate::token::{Location, Name, Numeral, Token};
use crate::words::{keyword, narrow_symbol, token, wide_symbol};
use sqlite_items::Items;
use std::alloc::{AllocError, Global};

/// The bytes that a number, a word or a comment goes on with.
#[derive(Clone, Copy, Debug, PartialEq, Eq)]
pub enum Class {
    /// Decimal digits.
    Digit,
    /// Letters, digits and `_`.
    Word,
    /// Whatever is not the end of a line.
    Comment,
}

/// What stands at the front of a text, with its length.
#[derive(Drop)]
pub enum Lexeme {
    /// White space or a comment.
    Blank(usize),
    /// The longest token at the front.
    Token(Token, usize),
    /// Neither: nothing that begins so is a token.
    Bad,
}

/// The greatest number of a text.
pub const LARGEST: u64 = 9_223_372_036_854_775_807;

/// White space: space, tab, LF, CR.
pub(crate) fn is_blank(b: u8) -> bool
    ensures value { result ≡ lexemes.is_blank b }
{
    matches!(b, b' ' | b'\t' | b'\n' | b'\r')
}

fn is_in(class: Class, b: u8) -> bool
    ensures value { result ≡ lexemes.is_in class b }
{
    match class {
        Class::Digit => b.is_ascii_digit(),
        Class::Word => b.is_ascii_alphabetic() || b.is_ascii_digit() || b == b'_',
        Class::Comment => b != b'\n',
    }
}

/// The byte at that place, or 0 past the end: no token has a byte 0.
fn byte_at(text: &[u8], at: usize) -> u8
    ensures value { result ≡ slice_index text.now at }
{
    if at < text.len() { text[at] } else { 0 }
}

/// How many bytes at the front are of the class.
fn span(class: Class, text: &[u8]) -> usize
    ensures value { result ≡ lexemes.span class text.now }
    ensures within { result ≤ length text.now }
    ensures moves { 0 < length text.now → lexemes.is_in class (slice_index text.now 0) ≡ true → 0 < result }
{
    let mut end = 0;
    while end < text.len() && is_in(class, text[end]) {
        end += 1;
    }
    end
}

/// The value of digits, if it is at most that.
pub(crate) fn value(digits: &[u8], most: u64) -> Option<u64>
    requires wide { 255 ≤ most }
    ensures value { MatchOption result (most < lexemes.value_after 0 digits.now)
        (λ n. (n ≡ lexemes.value_after 0 digits.now) × (n ≤ most)) }
{
    let mut n: u64 = 0;
    for b in digits {
        let digit = u64::from(b.saturating_sub(b'0'));
        // Without this test a long run of digits would wrap.
        if n > (most - digit) / 10 {
            return None;
        }
        n = n * 10 + digit;
    }
    Some(n)
}

/// The number at the front.
fn number(location: Location, text: &[u8]) -> Lexeme
    requires some { 0 < length text.now }
    requires digit { is_digit (slice_index text.now 0) ≡ true }
    ensures within { lexemes.IsWithin result text.now }
    ensures value { result ≡ lexemes.number_lexeme location (take (lexemes.span Class.Digit text.now) text.now)
        (drop (lexemes.span Class.Digit text.now) text.now) }
{
    let (digits, rest) = text.split_at(span(Class::Digit, text));
    if is_in(Class::Word, byte_at(rest, 0)) {
        return Lexeme::Bad;
    }
    match value(digits, LARGEST) {
        Some(value) => {
            let value = value as i64;
            Lexeme::Token(Token::Number(Numeral { value, location }), digits.len())
        }
        None => Lexeme::Bad,
    }
}

/// The keyword or name at the front.
fn word(alloc: Global, location: Location, text: &[u8]) -> Result<Lexeme, AllocError>
    requires some { 0 < length text.now }
    requires letter { is_letter (slice_index text.now 0) ≡ true }
    ensures within { IfOk result (λ x. lexemes.IsWithin x text.now) }
    ensures value { IfOk result (λ x. x ≡ lexemes.word_lexeme location (take (lexemes.span Class.Word text.now) text.now)
        (lexemes.keyword (take (lexemes.span Class.Word text.now) text.now))) }
{
    let word = &text[..span(Class::Word, text)];
    Ok(match keyword(word) {
        Some(fixed) => Lexeme::Token(token(fixed, location), word.len()),
        None => Lexeme::Token(
            Token::Name(Name {
                text: Items::from_slice(alloc, word)?,
                location,
            }),
            word.len(),
        ),
    })
}

/// The symbol at the front.
fn symbol(location: Location, text: &[u8]) -> Lexeme
    requires some { 0 < length text.now }
    ensures within { lexemes.IsWithin result text.now }
    ensures value { result ≡ lexemes.symbol_lexeme location (slice_index text.now 0) (slice_index text.now 1) }
{
    let first = byte_at(text, 0);
    match wide_symbol(first, byte_at(text, 1)) {
        Some(fixed) => Lexeme::Token(token(fixed, location), 2),
        None => match narrow_symbol(first) {
            Some(fixed) => Lexeme::Token(token(fixed, location), 1),
            None => Lexeme::Bad,
        },
    }
}

/// What stands at the front of a text that is not empty.
#[tactic(auto, unfolding(crate::specs::Lexemes::lexeme_at))]
fn read_lexeme(alloc: Global, location: Location, text: &[u8]) -> Result<Lexeme, AllocError>
    requires some { 0 < length text.now }
    ensures within { IfOk result (λ x. lexemes.IsWithin x text.now) }
    ensures value { IfOk result (λ x. x ≡ lexemes.lexeme_at location text.now) }
{
    let first = byte_at(text, 0);
    if is_blank(first) {
        return Ok(Lexeme::Blank(1));
    }
    if first == b'#' {
        return Ok(Lexeme::Blank(span(Class::Comment, text)));
    }
    if first.is_ascii_digit() {
        return Ok(number(location, text));
    }
    if first.is_ascii_alphabetic() {
        return word(alloc, location, text);
    }
    Ok(symbol(location, text))
}

/// The line behind so many bytes of a text.
fn line_behind(line: u32, text: &[u8], count: usize) -> u32
    requires within { count ≤ length text.now }
    requires fits { line + count < 4294967296 }
    ensures value { result ≡ scanning.line_after line (take count text.now) }
    ensures bounded { result ≤ line + count }
{
    let (front, _) = text.split_at(count);
    let mut line = line;
    for b in front {
        if *b == b'\n' {
            line += 1;
        }
    }
    line
}

/// The tokens of a text and the offset of each.
///
/// `LexError::BadToken` (E3) stands at the first thing that is no token. `LexError::OutOfMemory` says
/// that memory was refused.
pub fn tokenize(alloc: Global, text: &[u8]) -> Result<(Vec<Token>, Vec<u32>), LexError>
    requires fits { length text.now ≤ scanning.longest }
    // The answer is what the text is cut into, unless memory was refused.
    ensures cut { scanning.Finds (λ found. scanning.cut found.0.items found.1.items) result (scanning.cut_of text.now) }
    // Each token has an offset.
    ensures even { IfOk result (λ found. length found.0.items ≡ length found.1.items) }
    // Each name has the form of a name, and each number is at most 9223372036854775807.
    ensures real { IfOk result (λ found. AreReal found.0.items) }
{
    let mut tokens = Vec::new(alloc);
    let mut offsets = Vec::new(alloc);
    let mut at = 0;
    let mut line = 1;
    while at < text.len() {
        let offset = at as u32;
        let (_, rest) = text.split_at(at);
        match read_lexeme(alloc, Location { offset, line }, rest)? {
            Lexeme::Blank(len) => {
                line = line_behind(line, rest, len);
                at += len;
            }
            Lexeme::Token(token, len) => {
                tokens.push(token)?;
                offsets.push(offset)?;
                line = line_behind(line, rest, len);
                at += len;
            }
            Lexeme::Bad => return Err(LexError::BadToken(offset)),
        }
    }
    Ok((tokens, offsets))
}
