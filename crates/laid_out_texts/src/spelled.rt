//! The tokens of a text with its sizes put in.

ghost use Rattle.std.specs.Prelude.{◌≡◌, ◌≤◌, ◌++◌, ◌∷◌, [], length, IfOk, OnOk};
ghost use Rattle.std.specs.Option.{option_map};
ghost use Rattle.pram_tokens.specs.Scanning.{cut_of, longest};
ghost use Rattle.pram_printer.specs.Spelling.{mark_end as mark_end_of, spelling, token_end as token_end_of, token_text};
ghost use Rattle.laid_out_texts.specs.Spelled as spec;

use itoa::Buffer;
use pram_printer::{binary_text, mark_text, opening_text};
use pram_tokens::{LONGEST, LexError, Mark, Token, tokenize};
use sized_texts::{SizeFault, expand};
use std::alloc::{AllocError, Global};

// Puts a token behind a text.
fn add_token(to: &mut Vec<u8>, token: &Token) -> Result<(), AllocError>
    ensures { OnOk result (to.new.items ≡ to.old.items ++ token_text token.now) }
{
    match token {
        Token::Name(name) => to.extend_from_slice(name.text.as_slice()),
        Token::Number(number) => {
            let mut buffer = Buffer::new();
            to.extend_from_slice(buffer.format(number.value).as_bytes())
        }
        Token::Binary(op) => to.extend_from_slice(binary_text(*op)),
        Token::Not => to.extend_from_slice(b"not"),
        Token::Opening(opening, _) => to.extend_from_slice(opening_text(*opening)),
        Token::Mark(mark) => to.extend_from_slice(mark_text(*mark)),
    }
}

// The byte behind a mark: the end of a line or a space.
fn mark_end(mark: Mark) -> u8
    ensures { result ≡ mark_end_of mark }
{
    match mark {
        Mark::Semicolon
        | Mark::Begin
        | Mark::Do
        | Mark::Then
        | Mark::Else
        | Mark::Pardo
        | Mark::End => b'\n',
        _ => b' ',
    }
}

// The byte behind a token.
fn token_end(token: &Token) -> u8
    ensures { result ≡ token_end_of token.now }
{
    match token {
        Token::Mark(mark) => mark_end(*mark),
        _ => b' ',
    }
}

// The canonical spelling of tokens.
fn spelling_of(alloc: Global, tokens: &[Token]) -> Result<Vec<u8>, AllocError>
    ensures { IfOk result (λ to. to.items ≡ spelling tokens.now) }
{
    let mut to = Vec::new(alloc);
    for token in tokens {
        add_token(&mut to, token)?;
        to.push(token_end(token))?;
    }
    Ok(to)
}

// The tokens of a text of the language.
fn spelled_cut(alloc: Global, text: &[u8]) -> Result<Option<Vec<u8>>, AllocError>
    requires { length text.now ≤ longest }
    ensures { IfOk result (λ found. option_map (λ to. to.items) found ≡ spec.spelled_cut (cut_of text.now)) }
{
    match tokenize(alloc, text) {
        Ok((tokens, _)) => Ok(Some(spelling_of(alloc, &tokens)?)),
        Err(LexError::BadToken(_)) => Ok(None),
        Err(LexError::OutOfMemory) => Err(AllocError),
    }
}

/// The canonical spelling of the tokens of a text with its sizes put in; none where it isn't cut into tokens.
pub(crate) fn spelled(alloc: Global, text: &[u8]) -> Result<Option<Vec<u8>>, AllocError>
    requires { length text.now ≤ longest }
    ensures { IfOk result (λ found. option_map (λ to. to.items) found ≡ spec.spelled text.now) }
{
    match expand(alloc, text, &[]) {
        Ok(expanded) => {
            if expanded.text.len() > LONGEST {
                return Ok(None);
            }
            spelled_cut(alloc, &expanded.text)
        }
        Err(SizeFault::OutOfMemory) => Err(AllocError),
        Err(_) => Ok(None),
    }
}
