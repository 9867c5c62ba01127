//! What a token is as the beginning of an operand, and as an operator.

ghost use Rattle.std.specs.Prelude.{◌≡◌};
ghost use Rattle.sized_texts.specs.Expressions as spec;

use crate::front::number;
use crate::line::Line;
use crate::operation::{Function, Operator};
use crate::reason::Reason;
use crate::size_table::SizeTable;
use pram_model::is_keyword;
use pram_tokens::LARGEST;

/// The beginning of an operand.
#[derive(Clone, Copy, Debug, PartialEq, Eq)]
pub enum Atom {
    /// A number, or the number that a size stands for.
    Value(u64),
    /// An opening parenthesis.
    Paren,
    /// A function of one number.
    Call(Function),
    /// The function `pow`.
    Power,
    /// Nothing with which an operand begins.
    Bad(Reason),
}

// An operator of sums.
fn sum_operator(token: &[u8]) -> Option<Operator>
    ensures { result ≡ spec.operator_of Line.Sum token.now }
{
    match token {
        b"+" => Some(Operator::Add),
        b"-" => Some(Operator::Subtract),
        _ => None,
    }
}

// An operator of products.
fn product_operator(token: &[u8]) -> Option<Operator>
    ensures { result ≡ spec.operator_of Line.Product token.now }
{
    match token {
        b"*" => Some(Operator::Multiply),
        b"div" => Some(Operator::Divide),
        b"mod" => Some(Operator::Remainder),
        _ => None,
    }
}

/// The operator of a line that a token is.
pub(crate) fn operator_of(line: Line, token: &[u8]) -> Option<Operator>
    ensures { result ≡ spec.operator_of line token.now }
{
    match line {
        Line::Sum => sum_operator(token),
        Line::Product => product_operator(token),
    }
}

// A number as an operand.
fn value_atom(found: Result<u64, Reason>) -> Atom
    ensures { result ≡ spec.value_atom found }
{
    match found {
        Ok(value) => Atom::Value(value),
        Err(reason) => Atom::Bad(reason),
    }
}

// A word that is no function as an operand.
fn size_atom(word: &[u8], found: Option<u64>) -> Atom
    ensures { result ≡ spec.size_atom word.now found }
{
    match found {
        Some(value) => {
            if value <= LARGEST {
                Atom::Value(value)
            } else {
                Atom::Bad(Reason::OutOfRange)
            }
        }
        None => {
            if is_keyword(word) {
                Atom::Bad(Reason::Unexpected)
            } else {
                Atom::Bad(Reason::UnknownName)
            }
        }
    }
}

/// A word that is a function.
pub(crate) fn function_atom(word: &[u8]) -> Option<Atom>
    ensures { result ≡ spec.function_atom word.now }
{
    match word {
        b"log" => Some(Atom::Call(Function::Log)),
        b"root" => Some(Atom::Call(Function::Root)),
        b"pow" => Some(Atom::Power),
        _ => None,
    }
}

// A word as an operand.
fn word_atom(sizes: &SizeTable<'_>, word: &[u8]) -> Atom
    ensures { result ≡ spec.word_atom sizes.now word.now }
{
    match function_atom(word) {
        Some(atom) => atom,
        None => size_atom(word, sizes.value_of(word)),
    }
}

/// What a token is as the beginning of an operand.
pub(crate) fn atom_of(sizes: &SizeTable<'_>, token: &[u8]) -> Atom
    ensures { result ≡ spec.atom_of sizes.now token.now }
{
    if token.is_empty() {
        return Atom::Bad(Reason::NotClosed);
    }
    let first = token[0];
    if first.is_ascii_digit() {
        return value_atom(number(token));
    }
    if first.is_ascii_alphabetic() {
        return word_atom(sizes, token);
    }
    match first {
        b'(' => Atom::Paren,
        b'\n' => Atom::Bad(Reason::NotClosed),
        _ => Atom::Bad(Reason::Unexpected),
    }
}
