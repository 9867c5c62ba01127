//! Keywords and symbols: the tokens that are always spelled in one way.

ghost use Rattle.std.specs.Prelude.{◌≡◌, ◌<◌, ◌∷◌, [], IfSome};
ghost use Rattle.pram_tokens.specs.Lexemes as lexemes;

use crate::token::{Binary, Location, Mark, Opening, Token};

/// What a keyword or a symbol stands for.
#[derive(Clone, Copy, Debug, PartialEq, Eq)]
pub enum Fixed {
    /// An operation on two operands.
    Binary(Binary),
    /// The connective `not`.
    Not,
    /// A token of which the place is kept.
    Opening(Opening),
    /// Any other keyword or symbol.
    Mark(Mark),
}

/// The keyword of this spelling.
pub(crate) fn keyword(word: &[u8]) -> Option<Fixed>
    ensures value { result ≡ lexemes.keyword word.now }
{
    program_word(word)
        .or(statement_word(word))
        .or(operator_word(word))
}

/// The keyword of this spelling, if it stands around or between declarations and statements.
fn program_word(word: &[u8]) -> Option<Fixed>
    ensures value { result ≡ lexemes.lookup lexemes.program_words word.now }
{
    match word {
        b"rule" => Some(Fixed::Mark(Mark::Rule)),
        b"procs" => Some(Fixed::Mark(Mark::Procs)),
        b"shared" => Some(Fixed::Mark(Mark::Shared)),
        b"var" => Some(Fixed::Mark(Mark::Var)),
        b"local" => Some(Fixed::Mark(Mark::Local)),
        b"begin" => Some(Fixed::Mark(Mark::Begin)),
        b"end" => Some(Fixed::Mark(Mark::End)),
        _ => None,
    }
}

/// The keyword of this spelling, if it stands in statements alone.
fn statement_word(word: &[u8]) -> Option<Fixed>
    ensures value { result ≡ lexemes.lookup lexemes.statement_words word.now }
{
    match word {
        b"for" => Some(Fixed::Opening(Opening::For)),
        b"to" => Some(Fixed::Mark(Mark::To)),
        b"do" => Some(Fixed::Mark(Mark::Do)),
        b"pardo" => Some(Fixed::Mark(Mark::Pardo)),
        b"while" => Some(Fixed::Opening(Opening::While)),
        b"if" => Some(Fixed::Opening(Opening::If)),
        b"then" => Some(Fixed::Mark(Mark::Then)),
        b"else" => Some(Fixed::Mark(Mark::Else)),
        b"print" => Some(Fixed::Opening(Opening::Print)),
        _ => None,
    }
}

/// The keyword of this spelling, if it is an operator.
fn operator_word(word: &[u8]) -> Option<Fixed>
    ensures value { result ≡ lexemes.lookup lexemes.operator_words word.now }
{
    match word {
        b"and" => Some(Fixed::Binary(Binary::And)),
        b"or" => Some(Fixed::Binary(Binary::Or)),
        b"not" => Some(Fixed::Not),
        b"div" => Some(Fixed::Binary(Binary::Divide)),
        b"mod" => Some(Fixed::Binary(Binary::Remainder)),
        _ => None,
    }
}

/// The symbol of these two bytes.
pub(crate) fn wide_symbol(first: u8, second: u8) -> Option<Fixed>
    ensures value { result ≡ lexemes.wide_symbol (first ∷ (second ∷ [])) }
    ensures some { IfSome result (λ _. 0 < second) }
{
    match (first, second) {
        (b':', b'=') => Some(Fixed::Mark(Mark::Becomes)),
        (b'.', b'.') => Some(Fixed::Mark(Mark::Range)),
        (b'<', b'>') => Some(Fixed::Binary(Binary::Unequal)),
        (b'<', b'=') => Some(Fixed::Binary(Binary::AtMost)),
        (b'>', b'=') => Some(Fixed::Binary(Binary::AtLeast)),
        _ => None,
    }
}

/// The symbol of this one byte.
pub(crate) fn narrow_symbol(first: u8) -> Option<Fixed>
    ensures value { result ≡ lexemes.narrow_symbol (first ∷ []) }
{
    match first {
        b';' => Some(Fixed::Mark(Mark::Semicolon)),
        b'[' => Some(Fixed::Mark(Mark::OpenBracket)),
        b']' => Some(Fixed::Mark(Mark::CloseBracket)),
        b'(' => Some(Fixed::Mark(Mark::OpenParen)),
        b')' => Some(Fixed::Mark(Mark::CloseParen)),
        b'+' => Some(Fixed::Binary(Binary::Add)),
        b'-' => Some(Fixed::Binary(Binary::Subtract)),
        b'*' => Some(Fixed::Binary(Binary::Multiply)),
        b'=' => Some(Fixed::Binary(Binary::Equal)),
        b'<' => Some(Fixed::Binary(Binary::Less)),
        b'>' => Some(Fixed::Binary(Binary::Greater)),
        _ => None,
    }
}

/// The token that stands for it there.
pub(crate) fn token(fixed: Fixed, location: Location) -> Token
    ensures value { result ≡ lexemes.token_of fixed location }
{
    match fixed {
        Fixed::Binary(op) => Token::Binary(op),
        Fixed::Not => Token::Not,
        Fixed::Opening(opening) => Token::Opening(opening, location),
        Fixed::Mark(mark) => Token::Mark(mark),
    }
}
