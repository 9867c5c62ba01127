//! What the tokens that could stand at a place tell of it.

ghost use Rattle.std.specs.Prelude.{◌≡◌};
ghost use Rattle.std.specs.List.{list_any};
ghost use Rattle.help.specs.Signs as spec;

use crate::Choice;
use pram_tokens::{Binary, Fixed, Mark, Opening};

/// A kind of tokens that tells what a place is.
#[derive(Clone, Copy, Debug, PartialEq, Eq)]
pub(crate) enum Sign {
    Becomes,
    Do,
    Then,
    Pardo,
    End,
    And,
    /// A loop: any statement could stand there.
    Statement,
}

fn is_becomes(choice: Choice) -> bool
    ensures { result ≡ spec.is_becomes choice }
{
    match choice {
        Choice::Fixed(Fixed::Mark(Mark::Becomes)) => true,
        _ => false,
    }
}

fn is_do(choice: Choice) -> bool
    ensures { result ≡ spec.is_do choice }
{
    match choice {
        Choice::Fixed(Fixed::Mark(Mark::Do)) => true,
        _ => false,
    }
}

fn is_then(choice: Choice) -> bool
    ensures { result ≡ spec.is_then choice }
{
    match choice {
        Choice::Fixed(Fixed::Mark(Mark::Then)) => true,
        _ => false,
    }
}

fn is_pardo(choice: Choice) -> bool
    ensures { result ≡ spec.is_pardo choice }
{
    match choice {
        Choice::Fixed(Fixed::Mark(Mark::Pardo)) => true,
        _ => false,
    }
}

fn is_end(choice: Choice) -> bool
    ensures { result ≡ spec.is_end choice }
{
    match choice {
        Choice::Fixed(Fixed::Mark(Mark::End)) => true,
        _ => false,
    }
}

fn is_and(choice: Choice) -> bool
    ensures { result ≡ spec.is_and choice }
{
    match choice {
        Choice::Fixed(Fixed::Binary(Binary::And)) => true,
        _ => false,
    }
}

fn is_statement(choice: Choice) -> bool
    ensures { result ≡ spec.is_statement choice }
{
    match choice {
        Choice::Fixed(Fixed::Opening(Opening::While)) => true,
        _ => false,
    }
}

fn shows(sign: Sign, choice: Choice) -> bool
    ensures { result ≡ spec.shows sign choice }
{
    match sign {
        Sign::Becomes => is_becomes(choice),
        Sign::Do => is_do(choice),
        Sign::Then => is_then(choice),
        Sign::Pardo => is_pardo(choice),
        Sign::End => is_end(choice),
        Sign::And => is_and(choice),
        Sign::Statement => is_statement(choice),
    }
}

/// Whether a token of that kind could stand there.
pub(crate) fn could(found: &[Choice], sign: Sign) -> bool
    ensures { result ≡ spec.could sign found.now }
{
    for choice in found {
        if shows(sign, *choice) {
            return true;
        }
    }
    false
}
