//! The parser of what stands between `for` and the statements of its body.

ghost use Rattle.std.specs.Prelude.{◌≡◌, true, false, [], ◌∷◌, ◌++◌, IfOk, MatchOption};
ghost use Rattle.pram_trees.specs.Blocks as grammar;
ghost use Rattle.pram_trees.specs.Machine as machine;
ghost use Rattle.pram_trees.specs.Symbols as symbol;
ghost use Rattle.pram_trees.specs.Follows.{Follows, FoundBounds, FoundHigh, FoundLow, FoundTurns, IsRange};

use crate::front::{a_name, at_most, behind_mark, copied, expect, next};
use crate::parse_expr::{expression_then, operand};
use pram_tokens::{Mark, Name, Token};
use pram_trees::{Expr, Level, ParseError};
use sqlite_items::Items;
use std::alloc::Global;

/// A name and `:=` at the front, with what is behind them.
#[tactic(auto, unfolding(pram_trees::specs::Symbols::enter))]
pub(crate) fn loop_name(tokens: &[Token]) -> Option<(&Name, &[Token])>
    ensures front { MatchOption result (IsRange tokens.now)
        (λ f. tokens.now ≡ Token.Name f.0.now ∷ (Token.Mark Mark.Becomes ∷ f.1.now)) }
{
    let Some((first, rest)) = next(tokens) else {
        return None;
    };
    match first {
        Token::Name(name) => {
            let Some(behind) = behind_mark(rest, Mark::Becomes) else {
                return None;
            };
            Some((name, behind))
        }
        Token::Number(_) => None,
        Token::Binary(_) => None,
        Token::Not => None,
        Token::Opening(_, _) => None,
        Token::Mark(_) => None,
    }
}

/// `low to high do` of a loop, behind its name and `:=`.
pub(crate) fn loop_head(
    alloc: Global,
    tokens: &[Token],
    depth: u8,
) -> Result<(Expr, Expr, &[Token]), ParseError>
    ensures found { IfOk result (λ f. FoundTurns depth tokens.now f.0 f.1 f.2.now) }
    ensures follows { Follows (λ k. machine.verdict tokens.now (symbol.loop_head depth k))
        (λ f. f.2.now) result }
{
    let (low, rest) = expression_then(alloc, tokens, Mark::To, depth)?;
    let (high, rest) = expression_then(alloc, rest, Mark::Do, depth)?;
    Ok((low, high, rest))
}

/// The bounds, the index and the locals of a pardo.
#[derive(Drop)]
pub(crate) struct Bounds {
    pub(crate) low: Expr,
    pub(crate) index: Name,
    pub(crate) high: Expr,
    pub(crate) locals: Items<Name>,
}

/// `high pardo` and locals, behind the second `<=`.
fn high_and_locals(
    alloc: Global,
    tokens: &[Token],
    depth: u8,
) -> Result<(Expr, Items<Name>, &[Token]), ParseError>
    ensures found { IfOk result (λ f. FoundHigh depth tokens.now f.0 f.1 f.2.now) }
    ensures follows { Follows (λ k. machine.verdict tokens.now (symbol.pardo_high depth k))
        (λ f. f.2.now) result }
{
    let (high, rest) = operand(alloc, tokens, Level::Sum, depth)?;
    let rest = expect(rest, Mark::Pardo)?;
    let (names, rest) = locals(alloc, rest)?;
    Ok((high, names, rest))
}

/// `low <= name <=` behind `for`.
fn low_and_index(
    alloc: Global,
    tokens: &[Token],
    depth: u8,
) -> Result<(Expr, Name, &[Token]), ParseError>
    ensures found { IfOk result (λ f. FoundLow depth tokens.now f.0 f.1 f.2.now) }
    ensures follows { Follows (λ k. machine.verdict tokens.now (symbol.pardo_low depth k))
        (λ f. f.2.now) result }
{
    let (low, rest) = operand(alloc, tokens, Level::Sum, depth)?;
    let rest = at_most(rest)?;
    let (name, rest) = a_name(rest)?;
    let rest = at_most(rest)?;
    Ok((low, copied(alloc, name)?, rest))
}

/// `low <= name <= high pardo` and locals, behind `for`.
pub(crate) fn pardo_head(
    alloc: Global,
    tokens: &[Token],
    depth: u8,
) -> Result<(Bounds, &[Token]), ParseError>
    ensures found { IfOk result
        (λ f. FoundBounds depth tokens.now f.0.low f.0.index f.0.high f.0.locals f.1.now) }
    ensures follows { Follows (λ k. machine.verdict tokens.now (symbol.pardo_head depth k))
        (λ f. f.1.now) result }
{
    let (low, index, rest) = low_and_index(alloc, tokens, depth)?;
    let (high, locals, rest) = high_and_locals(alloc, rest, depth)?;
    let found = Bounds {
        low,
        index,
        high,
        locals,
    };
    Ok((found, rest))
}

/// Locals up to something else.
fn locals(alloc: Global, tokens: &[Token]) -> Result<(Items<Name>, &[Token]), ParseError>
    ensures found { IfOk result (λ f. tokens.now ≡ grammar.local_tokens f.0 ++ f.1.now) }
    ensures follows { Follows (λ k. machine.verdict tokens.now (symbol.Locals ∷ k))
        (λ f. f.1.now) result }
{
    let mut names = Items::new(alloc);
    let mut rest = tokens;
    'more: while let Some(behind) = behind_mark(rest, Mark::Local) {
        let (name, behind) = a_name(behind)?;
        let behind = expect(behind, Mark::Semicolon)?;
        names.push(copied(alloc, name)?)?;
        rest = behind;
    }
    Ok((names, rest))
}
