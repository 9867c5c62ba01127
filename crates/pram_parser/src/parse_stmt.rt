//! The parser of statements.

ghost use Rattle.std.specs.Prelude.{◌≡◌, ◌≢◌, ℕ, true, false, [], ◌∷◌, ◌++◌, ◌-◌, IfOk};
ghost use Rattle.pram_trees.specs.Machine as machine;
ghost use Rattle.pram_trees.specs.Symbols as symbol;
ghost use Rattle.pram_trees.specs.Follows.{Follows, FoundBlock, FoundBody, FoundStatement};

use crate::front::{behind_mark, copied, expect, next};
use crate::parse_expr::expression_then;
use crate::parse_for::{loop_head, loop_name, pardo_head};
use pram_tokens::{Location, Mark, Name, Opening, Token};
use pram_trees::{ParseError, Stmt};
use sqlite_items::Items;
use std::alloc::Global;

/// Whether a statement begins at the front.
fn begins_statement(tokens: &[Token]) -> bool
    ensures value { result ≡ machine.begins_statement tokens.now }
{
    match tokens {
        [Token::Name(_), ..] => true,
        [Token::Opening(_, _), ..] => true,
        _ => false,
    }
}

/// Statements up to something that begins none.
#[cycle(block)]
pub(crate) fn block(
    alloc: Global,
    tokens: &[Token],
    blocks: u8,
    depth: u8,
) -> Result<(Items<Stmt>, &[Token]), ParseError>
    ensures found { IfOk result (λ f. FoundBlock blocks depth tokens.now f.0 f.1.now) }
    ensures follows { Follows (λ k. machine.verdict tokens.now (symbol.Statements blocks depth ∷ k))
        (λ f. f.1.now) result }
{
    let mut body = Items::new(alloc);
    let mut rest = tokens;
    'more: while begins_statement(rest) {
        let (found, after) = statement(alloc, rest, blocks, depth)?;
        body.push(found)?;
        rest = after;
    }
    Ok((body, rest))
}

/// Statements and the `end` behind them.
#[cycle(block)]
pub(crate) fn body(
    alloc: Global,
    tokens: &[Token],
    blocks: u8,
    depth: u8,
) -> Result<(Items<Stmt>, &[Token]), ParseError>
    ensures found { IfOk result (λ f. FoundBody blocks depth tokens.now f.0 f.1.now) }
    ensures follows { Follows (λ k. machine.verdict tokens.now
        (symbol.Statements blocks depth ∷ (symbol.Want Mark.End ∷ k)))
        (λ f. f.1.now) result }
{
    let (found, rest) = block(alloc, tokens, blocks, depth)?;
    let rest = expect(rest, Mark::End)?;
    Ok((found, rest))
}

/// A statement.
#[cycle(block)]
fn statement(
    alloc: Global,
    tokens: &[Token],
    blocks: u8,
    depth: u8,
) -> Result<(Stmt, &[Token]), ParseError>
    ensures found { IfOk result (λ f. FoundStatement blocks depth [] tokens.now f.0 f.1.now) }
    ensures follows { Follows (machine.statement_verdict blocks depth tokens.now)
        (λ f. f.1.now) result }
{
    let Some((first, rest)) = next(tokens) else {
        return Err(ParseError::Syntax(0));
    };
    match first {
        Token::Opening(opening, location) => {
            opened(
                alloc,
                tokens.len(),
                *opening,
                *location,
                rest,
                blocks,
                depth,
            )
        }
        Token::Name(name) => assignment(alloc, name, rest, blocks, depth),
        Token::Number(_) => Err(ParseError::Syntax(tokens.len())),
        Token::Binary(_) => Err(ParseError::Syntax(tokens.len())),
        Token::Not => Err(ParseError::Syntax(tokens.len())),
        Token::Mark(_) => Err(ParseError::Syntax(tokens.len())),
    }
}

/// `[ subscript ] := value ;` behind the name of an array, where `inside` is behind the bracket.
fn element_assignment<'a>(
    alloc: Global,
    name: &Name,
    tokens: &'a [Token],
    inside: &'a [Token],
    depth: u8,
) -> Result<(Stmt, &'a [Token]), ParseError>
    requires front { tokens.now ≡ Token.Mark Mark.OpenBracket ∷ inside.now }
    ensures found { (b : ℕ) → IfOk result
        (λ f. FoundStatement b depth (Token.Name name.now ∷ []) tokens.now f.0 f.1.now) }
    ensures follows { (b : ℕ) → Follows (λ k. machine.verdict tokens.now (symbol.AfterName b depth ∷ k))
        (λ f. f.1.now) result }
{
    if depth == 0 {
        return Err(ParseError::TooDeep(tokens.len()));
    }
    let (subscript, rest) = expression_then(alloc, inside, Mark::CloseBracket, depth - 1)?;
    let rest = expect(rest, Mark::Becomes)?;
    let (value, rest) = expression_then(alloc, rest, Mark::Semicolon, depth)?;
    let target = copied(alloc, name)?;
    let found = Stmt::AssignElement {
        target,
        subscript,
        value,
    };
    Ok((found, rest))
}

/// What follows the name at the head of an assignment.
fn assignment<'a>(
    alloc: Global,
    name: &Name,
    tokens: &'a [Token],
    blocks: u8,
    depth: u8,
) -> Result<(Stmt, &'a [Token]), ParseError>
    ensures found { IfOk result
        (λ f. FoundStatement blocks depth (Token.Name name.now ∷ []) tokens.now f.0 f.1.now) }
    ensures follows { Follows (λ k. machine.verdict tokens.now (symbol.AfterName blocks depth ∷ k))
        (λ f. f.1.now) result }
{
    if let Some(inside) = behind_mark(tokens, Mark::OpenBracket) {
        return element_assignment(alloc, name, tokens, inside, depth);
    }
    let rest = expect(tokens, Mark::Becomes)?;
    let (value, rest) = expression_then(alloc, rest, Mark::Semicolon, depth)?;
    let target = copied(alloc, name)?;
    Ok((Stmt::Assign { target, value }, rest))
}

/// What follows the first word of a statement, which was the first of `left` tokens.
#[cycle(block)]
fn opened(
    alloc: Global,
    left: usize,
    opening: Opening,
    location: Location,
    tokens: &[Token],
    blocks: u8,
    depth: u8,
) -> Result<(Stmt, &[Token]), ParseError>
    ensures found { IfOk result
        (λ f. FoundStatement blocks depth (Token.Opening opening location ∷ [])
        tokens.now f.0 f.1.now) }
    ensures follows { Follows (machine.opened_verdict blocks depth left opening tokens.now)
        (λ f. f.1.now) result }
{
    match opening {
        Opening::Print => {
            let (value, rest) = expression_then(alloc, tokens, Mark::Semicolon, depth)?;
            Ok((Stmt::Print { location, value }, rest))
        }
        Opening::While => {
            if blocks == 0 {
                return Err(ParseError::TooDeep(left));
            }
            while_loop(alloc, location, tokens, blocks, depth)
        }
        Opening::If => {
            if blocks == 0 {
                return Err(ParseError::TooDeep(left));
            }
            choice(alloc, location, tokens, blocks, depth)
        }
        Opening::For => {
            if blocks == 0 {
                return Err(ParseError::TooDeep(left));
            }
            for_loop(alloc, location, tokens, blocks, depth)
        }
    }
}

/// What follows `if`.
#[cycle(block)]
fn choice(
    alloc: Global,
    location: Location,
    tokens: &[Token],
    blocks: u8,
    depth: u8,
) -> Result<(Stmt, &[Token]), ParseError>
    requires room { blocks ≢ 0 }
    ensures found { IfOk result
        (λ f. FoundStatement blocks depth (Token.Opening Opening.If location ∷ [])
        tokens.now f.0 f.1.now) }
    ensures follows { Follows (machine.opened_verdict blocks depth 0 Opening.If tokens.now)
        (λ f. f.1.now) result }
{
    let (test, rest) = expression_then(alloc, tokens, Mark::Then, depth)?;
    let (then_part, rest) = block(alloc, rest, blocks - 1, depth)?;
    if let Some(behind) = behind_mark(rest, Mark::Else) {
        let (second, rest) = body(alloc, behind, blocks - 1, depth)?;
        let found = Stmt::If {
            location,
            test,
            then_part,
            else_part: Some(second),
        };
        return Ok((found, rest));
    }
    let rest = expect(rest, Mark::End)?;
    let found = Stmt::If {
        location,
        test,
        then_part,
        else_part: None,
    };
    Ok((found, rest))
}

/// What follows `for`: a loop if a name and `:=` follow, and else a range.
#[cycle(block)]
fn for_loop(
    alloc: Global,
    location: Location,
    tokens: &[Token],
    blocks: u8,
    depth: u8,
) -> Result<(Stmt, &[Token]), ParseError>
    requires room { blocks ≢ 0 }
    ensures found { IfOk result
        (λ f. FoundStatement blocks depth (Token.Opening Opening.For location ∷ [])
        tokens.now f.0 f.1.now) }
    ensures follows { Follows (machine.opened_verdict blocks depth 0 Opening.For tokens.now)
        (λ f. f.1.now) result }
{
    let Some((name, rest)) = loop_name(tokens) else {
        return range(alloc, location, tokens, blocks, depth);
    };
    let (low, high, rest) = loop_head(alloc, rest, depth)?;
    let (turn, rest) = body(alloc, rest, blocks - 1, depth)?;
    let found = Stmt::For {
        location,
        variable: copied(alloc, name)?,
        low,
        high,
        body: turn,
    };
    Ok((found, rest))
}

/// `low <= name <= high pardo`, locals, statements and `end`.
#[cycle(block)]
fn range(
    alloc: Global,
    location: Location,
    tokens: &[Token],
    blocks: u8,
    depth: u8,
) -> Result<(Stmt, &[Token]), ParseError>
    requires room { blocks ≢ 0 }
    ensures found { IfOk result
        (λ f. FoundStatement blocks depth (Token.Opening Opening.For location ∷ [])
        tokens.now f.0 f.1.now) }
    ensures follows { Follows (λ k. machine.verdict tokens.now (symbol.ranged (blocks - 1) depth k))
        (λ f. f.1.now) result }
{
    let (bounds, rest) = pardo_head(alloc, tokens, depth)?;
    let (each, rest) = body(alloc, rest, blocks - 1, depth)?;
    let found = Stmt::Pardo {
        location,
        low: bounds.low,
        index: bounds.index,
        high: bounds.high,
        locals: bounds.locals,
        body: each,
    };
    Ok((found, rest))
}

/// What follows `while`.
#[cycle(block)]
fn while_loop(
    alloc: Global,
    location: Location,
    tokens: &[Token],
    blocks: u8,
    depth: u8,
) -> Result<(Stmt, &[Token]), ParseError>
    requires room { blocks ≢ 0 }
    ensures found { IfOk result
        (λ f. FoundStatement blocks depth (Token.Opening Opening.While location ∷ [])
        tokens.now f.0 f.1.now) }
    ensures follows { Follows (machine.opened_verdict blocks depth 0 Opening.While tokens.now)
        (λ f. f.1.now) result }
{
    let (test, rest) = expression_then(alloc, tokens, Mark::Do, depth)?;
    let (turn, rest) = body(alloc, rest, blocks - 1, depth)?;
    let found = Stmt::While {
        location,
        test,
        body: turn,
    };
    Ok((found, rest))
}
