//! The parser of expressions: a function for each kind of line of the grammar.

ghost use Rattle.std.specs.Prelude.{◌≡◌, ℕ, true, false, [], ◌∷◌, ◌++◌, IfOk};
ghost use Rattle.pram_trees.specs.Grammar as grammar;
ghost use Rattle.pram_trees.specs.Machine as machine;
ghost use Rattle.pram_trees.specs.Symbols as symbol;
ghost use Rattle.pram_trees.specs.Follows.{Follows, Found, FoundInside, FoundNamed, FoundFurther, FoundThen, inside, further};

use crate::front::{
    behind_mark, behind_minus, behind_not, copied, expect, next, operator_at, same_mark,
};
use pram_tokens::{Binary, Mark, Name, Token};
use pram_trees::{Expr, Level, ParseError, Prefix};
use sqlite_items::{Boxed, Items};
use std::alloc::{AllocError, Global};

/// The line that the operands of a line stand on.
fn tighter(level: Level) -> Level
    ensures value { result ≡ symbol.tighter level }
{
    match level {
        Level::Expression => Level::Conjunction,
        Level::Conjunction => Level::Negation,
        Level::Negation => Level::Comparison,
        Level::Comparison => Level::Sum,
        Level::Sum => Level::Term,
        Level::Term => Level::Unary,
        Level::Unary | Level::Atom => Level::Atom,
    }
}

/// One operand by itself, or several as a chain.
fn chain(alloc: Global, first: Expr, steps: Items<(Binary, Expr)>) -> Result<Expr, AllocError>
    ensures value { IfOk result (λ e. e ≡ grammar.chain first steps) }
{
    if steps.is_empty() {
        return Ok(first);
    }
    Ok(Expr::Chain(Boxed::new(alloc, first)?, steps))
}

/// What stands before a closing mark, one level further in. Its opening mark was the first of
/// `left` tokens.
#[cycle(expr)]
fn nested(
    alloc: Global,
    left: usize,
    tokens: &[Token],
    close: Mark,
    depth: u8,
) -> Result<(Expr, &[Token]), ParseError>
    ensures found { IfOk result (λ f. FoundInside close depth tokens.now f.0 f.1.now) }
    ensures follows { Follows (inside close depth left tokens.now) (λ f. f.1.now) result }
{
    if depth == 0 {
        return Err(ParseError::TooDeep(left));
    }
    let (inner, rest) = operand(alloc, tokens, Level::Expression, depth - 1)?;
    let rest = expect(rest, close)?;
    Ok((inner, rest))
}

/// A name, with what may be its subscript.
#[cycle(expr)]
fn named<'a>(
    alloc: Global,
    name: &Name,
    tokens: &'a [Token],
    depth: u8,
) -> Result<(Expr, &'a [Token]), ParseError>
    ensures found { IfOk result (λ f. FoundNamed name.now depth tokens.now f.0 f.1.now) }
    ensures follows { Follows (λ k. machine.verdict tokens.now (symbol.Subscript depth ∷ k))
        (λ f. f.1.now) result }
{
    let Some(inside) = behind_mark(tokens, Mark::OpenBracket) else {
        return Ok((Expr::Name(copied(alloc, name)?), tokens));
    };
    let (inner, rest) = nested(alloc, tokens.len(), inside, Mark::CloseBracket, depth)?;
    let name = copied(alloc, name)?;
    Ok((Expr::Element(name, Boxed::new(alloc, inner)?), rest))
}

/// A number, a name, a cell of an array or what stands in parentheses.
#[cycle(expr)]
#[tactic(auto, unfolding(pram_trees::specs::Symbols::enter))]
fn atom(alloc: Global, tokens: &[Token], depth: u8) -> Result<(Expr, &[Token]), ParseError>
    ensures found { IfOk result (λ f. Found Level.Atom depth tokens.now f.0 f.1.now) }
    ensures follows { Follows (λ k. machine.verdict tokens.now
        (symbol.Operand Level.Atom depth ∷ k))
        (λ f. f.1.now) result }
{
    let Some((first, rest)) = next(tokens) else {
        return Err(ParseError::Syntax(0));
    };
    match first {
        Token::Number(n) => Ok((Expr::Number(*n), rest)),
        Token::Name(name) => named(alloc, name, rest, depth),
        Token::Mark(mark) => {
            if !same_mark(Mark::OpenParen, *mark) {
                return Err(ParseError::Syntax(tokens.len()));
            }
            let (inner, rest) = nested(alloc, tokens.len(), rest, Mark::CloseParen, depth)?;
            Ok((Expr::Paren(Boxed::new(alloc, inner)?), rest))
        }
        Token::Binary(_) => Err(ParseError::Syntax(tokens.len())),
        Token::Not => Err(ParseError::Syntax(tokens.len())),
        Token::Opening(_, _) => Err(ParseError::Syntax(tokens.len())),
    }
}

/// An operand behind a prefix, one level further in. The prefix was the first of `left` tokens.
#[cycle(expr)]
fn prefixed(
    alloc: Global,
    left: usize,
    tokens: &[Token],
    level: Level,
    depth: u8,
) -> Result<(Expr, &[Token]), ParseError>
    ensures found { IfOk result (λ f. FoundFurther level depth tokens.now f.0 f.1.now) }
    ensures follows { Follows (further level depth left tokens.now) (λ f. f.1.now) result }
{
    if depth == 0 {
        return Err(ParseError::TooDeep(left));
    }
    operand(alloc, tokens, level, depth - 1)
}

/// A minus sign before a unary, or an atom.
#[cycle(expr)]
#[tactic(auto, unfolding(pram_trees::specs::Symbols::enter))]
fn unary(alloc: Global, tokens: &[Token], depth: u8) -> Result<(Expr, &[Token]), ParseError>
    ensures found { IfOk result (λ f. Found Level.Unary depth tokens.now f.0 f.1.now) }
    ensures follows { Follows (λ k. machine.verdict tokens.now
        (symbol.Operand Level.Unary depth ∷ k))
        (λ f. f.1.now) result }
{
    let Some(rest) = behind_minus(tokens) else {
        return atom(alloc, tokens, depth);
    };
    let (inner, rest) = prefixed(alloc, tokens.len(), rest, Level::Unary, depth)?;
    Ok((
        Expr::Prefix(Prefix::Negate, Boxed::new(alloc, inner)?),
        rest,
    ))
}

/// A `not` before a negation, or a comparison.
#[cycle(expr)]
#[tactic(auto, unfolding(pram_trees::specs::Symbols::enter))]
fn negation(alloc: Global, tokens: &[Token], depth: u8) -> Result<(Expr, &[Token]), ParseError>
    ensures found { IfOk result (λ f. Found Level.Negation depth tokens.now f.0 f.1.now) }
    ensures follows { Follows (λ k. machine.verdict tokens.now
        (symbol.Operand Level.Negation depth ∷ k))
        (λ f. f.1.now) result }
{
    let Some(rest) = behind_not(tokens) else {
        return comparison(alloc, tokens, depth);
    };
    let (inner, rest) = prefixed(alloc, tokens.len(), rest, Level::Negation, depth)?;
    Ok((Expr::Prefix(Prefix::Not, Boxed::new(alloc, inner)?), rest))
}

/// A sum, or two sums and a comparing operator.
#[cycle(expr)]
fn comparison(alloc: Global, tokens: &[Token], depth: u8) -> Result<(Expr, &[Token]), ParseError>
    ensures found { IfOk result (λ f. Found Level.Comparison depth tokens.now f.0 f.1.now) }
    ensures follows { Follows (λ k. machine.verdict tokens.now
        (symbol.Operand Level.Comparison depth ∷ k))
        (λ f. f.1.now) result }
{
    let (first, rest) = operand(alloc, tokens, Level::Sum, depth)?;
    let Some((op, rest)) = operator_at(rest, Level::Comparison) else {
        return Ok((first, rest));
    };
    let (second, rest) = operand(alloc, rest, Level::Sum, depth)?;
    let mut steps = Items::new(alloc);
    steps.push((op, second))?;
    Ok((Expr::Chain(Boxed::new(alloc, first)?, steps), rest))
}

/// Operands and the operators of that line between them.
#[cycle(expr)]
fn chained(
    alloc: Global,
    tokens: &[Token],
    level: Level,
    depth: u8,
) -> Result<(Expr, &[Token]), ParseError>
    requires chain { grammar.IsChainLevel level }
    ensures found { IfOk result (λ f. Found level depth tokens.now f.0 f.1.now) }
    ensures follows { Follows (λ k. machine.verdict tokens.now (symbol.Operand level depth ∷ k))
        (λ f. f.1.now) result }
{
    let (first, mut rest) = operand(alloc, tokens, tighter(level), depth)?;
    let mut steps = Items::new(alloc);
    while let Some((op, behind)) = operator_at(rest, level) {
        let (next, after) = operand(alloc, behind, tighter(level), depth)?;
        steps.push((op, next))?;
        rest = after;
    }
    Ok((chain(alloc, first, steps)?, rest))
}

/// An expression of that line of the grammar.
#[cycle(expr)]
pub(crate) fn operand(
    alloc: Global,
    tokens: &[Token],
    level: Level,
    depth: u8,
) -> Result<(Expr, &[Token]), ParseError>
    ensures found { IfOk result (λ f. Found level depth tokens.now f.0 f.1.now) }
    ensures follows { Follows (λ k. machine.verdict tokens.now (symbol.Operand level depth ∷ k))
        (λ f. f.1.now) result }
{
    match level {
        Level::Atom => atom(alloc, tokens, depth),
        Level::Unary => unary(alloc, tokens, depth),
        Level::Comparison => comparison(alloc, tokens, depth),
        Level::Negation => negation(alloc, tokens, depth),
        Level::Term | Level::Sum | Level::Conjunction | Level::Expression => {
            chained(alloc, tokens, level, depth)
        }
    }
}

/// An expression and the mark behind it.
pub(crate) fn expression_then(
    alloc: Global,
    tokens: &[Token],
    mark: Mark,
    depth: u8,
) -> Result<(Expr, &[Token]), ParseError>
    ensures found { IfOk result
        (λ f. FoundThen Level.Expression mark depth tokens.now f.0 f.1.now) }
    ensures follows { Follows (λ k. machine.verdict tokens.now
        (symbol.Operand Level.Expression depth ∷ (symbol.Want mark ∷ k)))
        (λ f. f.1.now) result }
{
    let (found, rest) = operand(alloc, tokens, Level::Expression, depth)?;
    let rest = expect(rest, mark)?;
    Ok((found, rest))
}
