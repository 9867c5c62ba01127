//! One size line: `# size NAME = VALUE`.

ghost use Rattle.std.specs.Prelude.{◌≡◌, ◌≤◌, codes, length};
ghost use Rattle.std.specs.Option.{option_map};
ghost use Rattle.pram_model.specs.Names.{same_text};
ghost use Rattle.sized_texts.specs.SizeLines as spec;

use crate::atom::function_atom;
use crate::front::{goes_on, number, past_spaces, split_token};
use crate::reason::Reason;
use crate::size_table::SizeTable;
use pram_model::is_keyword;

/// The first token behind white space, and what is behind it and white space.
pub(crate) fn token_then(text: &[u8]) -> (&[u8], &[u8])
    ensures token { result.0.now ≡ spec.first_token text.now }
    ensures rest { result.1.now ≡ spec.then_text text.now }
    ensures within { length result.1.now ≤ length text.now }
{
    let (token, rest) = split_token(past_spaces(text));
    (token, past_spaces(rest))
}

/// Whether it is the word `size`.
pub(crate) fn is_size(word: &[u8]) -> bool
    ensures { result ≡ same_text (codes "size") word.now }
{
    matches!(word, b"size")
}

/// Whether it begins as a word.
pub(crate) fn begins_word(token: &[u8]) -> bool
    ensures { result ≡ spec.begins_word token.now }
{
    match token {
        [b, ..] => goes_on(*b),
        [] => false,
    }
}

fn begins_name(token: &[u8]) -> bool
    ensures { result ≡ spec.begins_name token.now }
{
    match token {
        [b, ..] => b.is_ascii_alphabetic(),
        [] => false,
    }
}

// A word and what is behind the `=` behind it.
fn before_equals<'a>(word: &'a [u8], rest: &'a [u8]) -> Option<(&'a [u8], &'a [u8])>
    ensures { option_map (λ f. (f.0.now, f.1.now)) result ≡ spec.before_equals word.now rest.now }
{
    match rest {
        [b, text @ ..] => { if *b == b'=' { Some((word, text)) } else { None } }
        [] => None,
    }
}

/// The word of a size line, and what is behind its `=`.
pub(crate) fn line_of(comment: &[u8]) -> Option<(&[u8], &[u8])>
    ensures { option_map (λ f. (f.0.now, f.1.now)) result ≡ spec.line_of comment.now }
{
    let (size, rest) = token_then(comment);
    if !is_size(size) {
        return None;
    }
    let (word, rest) = token_then(rest);
    if !begins_word(word) {
        return None;
    }
    before_equals(word, rest)
}

// The number that is all of a text but white space.
fn number_in(text: &[u8]) -> Result<u64, Reason>
    ensures { result ≡ spec.number_in text.now }
{
    let (token, rest) = token_then(text);
    if token.is_empty() || !rest.is_empty() {
        return Err(Reason::BadLine);
    }
    number(token)
}

/// The number of a size line, behind these sizes.
pub(crate) fn declaration(sizes: &SizeTable<'_>, word: &[u8], text: &[u8]) -> Result<u64, Reason>
    ensures { result ≡ spec.declaration sizes.now word.now text.now }
{
    if !begins_name(word) {
        return Err(Reason::BadLine);
    }
    if is_keyword(word) || function_atom(word).is_some() {
        return Err(Reason::Keyword);
    }
    if sizes.value_of(word).is_some() {
        return Err(Reason::Repeated);
    }
    number_in(text)
}
