//! Kinds of tokens.

ghost use Rattle.std.specs.Prelude.{◌≡◌, IfOk};
ghost use Rattle.help.specs.Kinds as spec;

use pram_tokens::{Binary, Fixed, Location, Mark, Name, Numeral, Opening, Token};
use sqlite_items::Items;
use std::alloc::{AllocError, Global};

/// A kind of tokens, of which one could stand at a place.
#[derive(Clone, Copy, Debug, PartialEq, Eq)]
pub enum Choice {
    /// A name, whichever it is.
    Name,
    /// A rule's word, where no other name could stand.
    Rule,
    /// A number, whichever it is.
    Number,
    /// This keyword or symbol.
    Fixed(Fixed),
}

const CHOICES: [Choice; 40] = [
    Choice::Name,
    Choice::Rule,
    Choice::Number,
    Choice::Fixed(Fixed::Mark(Mark::Rule)),
    Choice::Fixed(Fixed::Mark(Mark::Procs)),
    Choice::Fixed(Fixed::Mark(Mark::Shared)),
    Choice::Fixed(Fixed::Mark(Mark::Var)),
    Choice::Fixed(Fixed::Mark(Mark::Local)),
    Choice::Fixed(Fixed::Mark(Mark::Begin)),
    Choice::Fixed(Fixed::Mark(Mark::End)),
    Choice::Fixed(Fixed::Opening(Opening::For)),
    Choice::Fixed(Fixed::Mark(Mark::To)),
    Choice::Fixed(Fixed::Mark(Mark::Do)),
    Choice::Fixed(Fixed::Mark(Mark::Pardo)),
    Choice::Fixed(Fixed::Opening(Opening::While)),
    Choice::Fixed(Fixed::Opening(Opening::If)),
    Choice::Fixed(Fixed::Mark(Mark::Then)),
    Choice::Fixed(Fixed::Mark(Mark::Else)),
    Choice::Fixed(Fixed::Opening(Opening::Print)),
    Choice::Fixed(Fixed::Binary(Binary::And)),
    Choice::Fixed(Fixed::Binary(Binary::Or)),
    Choice::Fixed(Fixed::Not),
    Choice::Fixed(Fixed::Binary(Binary::Divide)),
    Choice::Fixed(Fixed::Binary(Binary::Remainder)),
    Choice::Fixed(Fixed::Mark(Mark::Becomes)),
    Choice::Fixed(Fixed::Mark(Mark::Range)),
    Choice::Fixed(Fixed::Binary(Binary::Unequal)),
    Choice::Fixed(Fixed::Binary(Binary::AtMost)),
    Choice::Fixed(Fixed::Binary(Binary::AtLeast)),
    Choice::Fixed(Fixed::Mark(Mark::Semicolon)),
    Choice::Fixed(Fixed::Mark(Mark::OpenBracket)),
    Choice::Fixed(Fixed::Mark(Mark::CloseBracket)),
    Choice::Fixed(Fixed::Mark(Mark::OpenParen)),
    Choice::Fixed(Fixed::Mark(Mark::CloseParen)),
    Choice::Fixed(Fixed::Binary(Binary::Add)),
    Choice::Fixed(Fixed::Binary(Binary::Subtract)),
    Choice::Fixed(Fixed::Binary(Binary::Multiply)),
    Choice::Fixed(Fixed::Binary(Binary::Equal)),
    Choice::Fixed(Fixed::Binary(Binary::Less)),
    Choice::Fixed(Fixed::Binary(Binary::Greater)),
];

/// All kinds, in the order in which they are told.
pub(crate) fn all_choices() -> &'static [Choice]
    ensures { result.now ≡ spec.all_choices }
{
    &CHOICES
}

const START: Location = Location { offset: 0, line: 1 };

fn name_token(alloc: Global, text: &[u8]) -> Result<Token, AllocError>
    ensures { IfOk result (λ t. t ≡ spec.name_token text.now) }
{
    Ok(Token::Name(Name {
        text: Items::from_slice(alloc, text)?,
        location: START,
    }))
}

fn fixed_token(fixed: Fixed) -> Token
    ensures { result ≡ spec.fixed_token fixed }
{
    match fixed {
        Fixed::Binary(op) => Token::Binary(op),
        Fixed::Not => Token::Not,
        Fixed::Opening(opening) => Token::Opening(opening, START),
        Fixed::Mark(mark) => Token::Mark(mark),
    }
}

/// A token of that kind. The error is that memory was refused.
pub(crate) fn sample(alloc: Global, choice: Choice) -> Result<Token, AllocError>
    ensures { IfOk result (λ t. t ≡ spec.sample choice) }
{
    match choice {
        Choice::Name => name_token(alloc, b"x"),
        Choice::Rule => name_token(alloc, b"crew"),
        Choice::Number => {
            Ok(Token::Number(Numeral {
                value: 1,
                location: START,
            }))
        }
        Choice::Fixed(fixed) => Ok(fixed_token(fixed)),
    }
}
