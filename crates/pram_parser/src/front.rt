//! What stands at the front of a list of tokens, with what is behind it.

ghost use Rattle.std.specs.Prelude.{◌≡◌, true, false, [], ◌∷◌, IfOk, MatchOption};
ghost use Rattle.pram_trees.specs.Grammar as grammar;
ghost use Rattle.pram_trees.specs.Machine as machine;
ghost use Rattle.pram_trees.specs.Symbols as symbol;
ghost use Rattle.pram_trees.specs.Follows.{Follows, IsOperatorAt, NoOperatorAt, Skips};

use pram_tokens::{Binary, Mark, Name, Numeral, Token};
use pram_trees::{Level, ParseError};
use sqlite_items::Items;
use std::alloc::{AllocError, Global};

/// The line on which an operator joins operands.
fn level_of(op: Binary) -> Level
    ensures joins { grammar.joins result op ≡ true }
{
    match op {
        Binary::Or => Level::Expression,
        Binary::And => Level::Conjunction,
        Binary::Equal
        | Binary::Unequal
        | Binary::Less
        | Binary::AtMost
        | Binary::Greater
        | Binary::AtLeast => Level::Comparison,
        Binary::Add | Binary::Subtract => Level::Sum,
        Binary::Multiply | Binary::Divide | Binary::Remainder => Level::Term,
    }
}

/// Whether the operator joins operands on that line.
fn joins(level: Level, op: Binary) -> bool
    ensures value { result ≡ grammar.joins level op }
{
    level_of(op) == level
}

/// The operator of that line at the front, and what is behind it.
pub(crate) fn operator_at(tokens: &[Token], level: Level) -> Option<(Binary, &[Token])>
    ensures front { MatchOption result (NoOperatorAt level tokens.now)
        (λ f. IsOperatorAt level tokens.now f.0 f.1.now) }
{
    match tokens {
        [Token::Binary(op), rest @ ..] => {
            if joins(level, *op) {
                Some((*op, rest))
            } else {
                None
            }
        }
        _ => None,
    }
}

/// The first token, and the ones behind it.
pub(crate) fn next(tokens: &[Token]) -> Option<(&Token, &[Token])>
    ensures front { MatchOption result (tokens.now ≡ []) (λ f. tokens.now ≡ f.0.now ∷ f.1.now) }
{
    match tokens {
        [first, rest @ ..] => Some((first, rest)),
        [] => None,
    }
}

/// Whether two marks are one.
pub(crate) fn same_mark(a: Mark, b: Mark) -> bool
    ensures value { result ≡ symbol.same_mark a b }
{
    a == b
}

/// What is behind a minus sign at the front.
#[tactic(auto, unfolding(pram_trees::specs::Symbols::enter))]
pub(crate) fn behind_minus(tokens: &[Token]) -> Option<&[Token]>
    ensures front { MatchOption result (Skips Level.Unary Level.Atom tokens.now)
        (λ rest. tokens.now ≡ Token.Binary Binary.Subtract ∷ rest.now) }
{
    match tokens {
        [Token::Binary(Binary::Subtract), rest @ ..] => Some(rest),
        _ => None,
    }
}

/// What is behind a `not` at the front.
#[tactic(auto, unfolding(pram_trees::specs::Symbols::enter))]
pub(crate) fn behind_not(tokens: &[Token]) -> Option<&[Token]>
    ensures front { MatchOption result (Skips Level.Negation Level.Comparison tokens.now)
        (λ rest. tokens.now ≡ Token.Not ∷ rest.now) }
{
    match tokens {
        [Token::Not, rest @ ..] => Some(rest),
        _ => None,
    }
}

/// What is behind that mark at the front.
pub(crate) fn behind_mark(tokens: &[Token], mark: Mark) -> Option<&[Token]>
    ensures front { MatchOption result (symbol.begins_with mark tokens.now ≡ false)
        (λ rest. tokens.now ≡ Token.Mark mark ∷ rest.now) }
{
    match tokens {
        [Token::Mark(found), rest @ ..] => { if *found == mark { Some(rest) } else { None } }
        _ => None,
    }
}

/// What is behind that mark, which has to be at the front.
pub(crate) fn expect(tokens: &[Token], mark: Mark) -> Result<&[Token], ParseError>
    ensures found { IfOk result (λ rest. tokens.now ≡ Token.Mark mark ∷ rest.now) }
    ensures follows { Follows (λ k. machine.verdict tokens.now (symbol.Want mark ∷ k))
        (λ rest. rest.now) result }
{
    match tokens {
        [Token::Mark(found), rest @ ..] => {
            if *found == mark {
                Ok(rest)
            } else {
                Err(ParseError::Syntax(tokens.len()))
            }
        }
        _ => Err(ParseError::Syntax(tokens.len())),
    }
}

/// What is behind the symbol `<=`, which has to be at the front.
pub(crate) fn at_most(tokens: &[Token]) -> Result<&[Token], ParseError>
    ensures found { IfOk result (λ rest. tokens.now ≡ Token.Binary Binary.AtMost ∷ rest.now) }
    ensures follows { Follows (λ k. machine.verdict tokens.now (symbol.WantAtMost ∷ k))
        (λ rest. rest.now) result }
{
    match tokens {
        [Token::Binary(Binary::AtMost), rest @ ..] => Ok(rest),
        _ => Err(ParseError::Syntax(tokens.len())),
    }
}

/// The name that has to be at the front.
pub(crate) fn a_name(tokens: &[Token]) -> Result<(&Name, &[Token]), ParseError>
    ensures found { IfOk result (λ f. tokens.now ≡ Token.Name f.0.now ∷ f.1.now) }
    ensures follows { Follows (λ k. machine.verdict tokens.now (symbol.WantName ∷ k))
        (λ f. f.1.now) result }
{
    match tokens {
        [Token::Name(name), rest @ ..] => Ok((name, rest)),
        _ => Err(ParseError::Syntax(tokens.len())),
    }
}

/// The number that has to be at the front.
pub(crate) fn a_number(tokens: &[Token]) -> Result<(Numeral, &[Token]), ParseError>
    ensures found { IfOk result (λ f. tokens.now ≡ Token.Number f.0 ∷ f.1.now) }
    ensures follows { Follows (λ k. machine.verdict tokens.now (symbol.WantNumber ∷ k))
        (λ f. f.1.now) result }
{
    match tokens {
        [Token::Number(number), rest @ ..] => Ok((*number, rest)),
        _ => Err(ParseError::Syntax(tokens.len())),
    }
}

/// A name of the tree, with the same text and place.
pub(crate) fn copied(alloc: Global, name: &Name) -> Result<Name, AllocError>
    ensures same { IfOk result (λ n. n ≡ name.now) }
{
    Ok(Name {
        text: Items::from_slice(alloc, name.text.as_slice())?,
        location: name.location,
    })
}
