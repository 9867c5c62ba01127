//! The spelling of words and symbols.

ghost use Rattle.std.specs.Prelude.{◌≡◌};
ghost use Rattle.pram_printer.specs.Spelling as spec;

use pram_tokens::{Binary, Mark, Opening};
use pram_trees::Prefix;

/// The word or the symbol of an operation between two operands, as a text spells it.
pub fn binary_text(op: Binary) -> &'static [u8]
    ensures text { result.now ≡ spec.binary_text op }
{
    match op {
        Binary::Or => b"or",
        Binary::And => b"and",
        Binary::Equal => b"=",
        Binary::Unequal => b"<>",
        Binary::Less => b"<",
        Binary::AtMost => b"<=",
        Binary::Greater => b">",
        Binary::AtLeast => b">=",
        Binary::Add => b"+",
        Binary::Subtract => b"-",
        Binary::Multiply => b"*",
        Binary::Divide => b"div",
        Binary::Remainder => b"mod",
    }
}

/// The word or the symbol of an operation on the operand behind it.
pub fn prefix_text(op: Prefix) -> &'static [u8]
    ensures text { result.now ≡ spec.prefix_text op }
{
    match op {
        Prefix::Negate => b"-",
        Prefix::Not => b"not",
    }
}

/// The word with which such a statement begins.
pub fn opening_text(opening: Opening) -> &'static [u8]
    ensures text { result.now ≡ spec.opening_text opening }
{
    match opening {
        Opening::Print => b"print",
        Opening::While => b"while",
        Opening::If => b"if",
        Opening::For => b"for",
    }
}

/// The word or the symbol of a mark.
pub fn mark_text(mark: Mark) -> &'static [u8]
    ensures text { result.now ≡ spec.mark_text mark }
{
    match mark {
        Mark::OpenParen => b"(",
        Mark::CloseParen => b")",
        Mark::OpenBracket => b"[",
        Mark::CloseBracket => b"]",
        Mark::Becomes => b":=",
        Mark::Semicolon => b";",
        Mark::Range => b"..",
        Mark::Rule => b"rule",
        Mark::Procs => b"procs",
        Mark::Shared => b"shared",
        Mark::Var => b"var",
        Mark::Begin => b"begin",
        Mark::Do => b"do",
        Mark::End => b"end",
        Mark::Then => b"then",
        Mark::Else => b"else",
        Mark::To => b"to",
        Mark::Pardo => b"pardo",
        Mark::Local => b"local",
    }
}

/// The byte behind a mark: the end of a line or a space.
pub(crate) fn mark_end(mark: Mark) -> u8
    ensures end { result ≡ spec.mark_end mark }
{
    match mark {
        Mark::Semicolon
        | Mark::Begin
        | Mark::Do
        | Mark::Then
        | Mark::Else
        | Mark::Pardo
        | Mark::End => b'\n',
        _ => b' ',
    }
}
