//! The parser of a program's header and declarations.

ghost use Rattle.std.specs.Prelude.{◌≡◌, true, false, [], ◌∷◌, ◌++◌, IfOk, MatchOption};
ghost use Rattle.pram_trees.specs.Machine as machine;
ghost use Rattle.pram_model.specs.Rules as rules;
ghost use Rattle.pram_trees.specs.Program as grammar;
ghost use Rattle.pram_trees.specs.Symbols as symbol;
ghost use Rattle.pram_model.specs.Names.{is_one_of};
ghost use Rattle.pram_trees.specs.Follows.{Follows};

use crate::front::{a_name, a_number, behind_mark, copied, expect};
use pram_model::Rule;
use pram_tokens::{Location, Mark, Name, Numeral, Token};
use pram_trees::{Declaration, ParseError};
use sqlite_items::Items;
use std::alloc::Global;

/// The rule whose word has to be at the front, and where the word stands.
fn a_rule(tokens: &[Token]) -> Result<(Rule, Location, &[Token]), ParseError>
    ensures found { IfOk result (λ f. tokens.now ≡ grammar.rule_token f.0 f.1 ∷ f.2.now) }
    ensures follows { Follows (λ k. machine.verdict tokens.now (symbol.WantRule ∷ k))
        (λ f. f.2.now) result }
{
    match tokens {
        [Token::Name(name), rest @ ..] => match Rule::of_word(name.text.as_slice()) {
            Some(rule) => Ok((rule, name.location, rest)),
            None => Err(ParseError::Syntax(tokens.len())),
        },
        _ => Err(ParseError::Syntax(tokens.len())),
    }
}

/// What stands before the declarations.
#[derive(Clone, Copy)]
pub(crate) struct Heading {
    pub(crate) rule: Rule,
    pub(crate) rule_location: Location,
    pub(crate) procs: Numeral,
}

/// The rule and the number of processors.
pub(crate) fn header(tokens: &[Token]) -> Result<(Heading, &[Token]), ParseError>
    ensures found { IfOk result
        (λ f. tokens.now ≡ grammar.header_tokens f.0.rule f.0.rule_location f.0.procs f.1.now) }
    ensures follows { Follows (λ k. machine.verdict tokens.now (symbol.header k))
        (λ f. f.1.now) result }
{
    let rest = expect(tokens, Mark::Rule)?;
    let (rule, rule_location, rest) = a_rule(rest)?;
    let rest = expect(rest, Mark::Semicolon)?;
    let rest = expect(rest, Mark::Procs)?;
    let (procs, rest) = a_number(rest)?;
    let rest = expect(rest, Mark::Semicolon)?;
    let found = Heading {
        rule,
        rule_location,
        procs,
    };
    Ok((found, rest))
}

/// What follows `shared` and a name.
fn shared<'a>(
    alloc: Global,
    name: &Name,
    tokens: &'a [Token],
) -> Result<(Declaration, &'a [Token]), ParseError>
    ensures found { IfOk result
        (λ f. Token.Mark Mark.Shared ∷ (Token.Name name.now ∷ tokens.now)
        ≡ grammar.declaration_tokens f.0 ++ f.1.now) }
    ensures follows { Follows (λ k. machine.verdict tokens.now (symbol.AfterShared ∷ k))
        (λ f. f.1.now) result }
{
    let name = copied(alloc, name)?;
    if let Some(behind) = behind_mark(tokens, Mark::Semicolon) {
        return Ok((Declaration::Cell(name), behind));
    }
    let rest = expect(tokens, Mark::OpenBracket)?;
    let (low, rest) = a_number(rest)?;
    let rest = expect(rest, Mark::Range)?;
    let (high, rest) = a_number(rest)?;
    let rest = expect(rest, Mark::CloseBracket)?;
    let rest = expect(rest, Mark::Semicolon)?;
    Ok((Declaration::Array(name, low, high), rest))
}

/// A declaration.
fn declaration(alloc: Global, tokens: &[Token]) -> Result<(Declaration, &[Token]), ParseError>
    ensures found { IfOk result (λ f. tokens.now ≡ grammar.declaration_tokens f.0 ++ f.1.now) }
    ensures follows { Follows (machine.declaration_verdict tokens.now) (λ f. f.1.now) result }
{
    if let Some(behind) = behind_mark(tokens, Mark::Shared) {
        let (name, rest) = a_name(behind)?;
        return shared(alloc, name, rest);
    }
    let rest = expect(tokens, Mark::Var)?;
    let (name, rest) = a_name(rest)?;
    let rest = expect(rest, Mark::Semicolon)?;
    Ok((Declaration::Uniform(copied(alloc, name)?), rest))
}

/// Whether a declaration begins at the front.
fn begins_declaration(tokens: &[Token]) -> bool
    ensures value { result ≡ machine.begins_declaration tokens.now }
{
    match tokens {
        [Token::Mark(mark), ..] => matches!(mark, Mark::Shared | Mark::Var),
        _ => false,
    }
}

/// Declarations up to something that begins none.
pub(crate) fn declarations(
    alloc: Global,
    tokens: &[Token],
) -> Result<(Items<Declaration>, &[Token]), ParseError>
    ensures found { IfOk result (λ f. tokens.now ≡ grammar.declarations_tokens f.0 ++ f.1.now) }
    ensures follows { Follows (λ k. machine.verdict tokens.now (symbol.Declarations ∷ k))
        (λ f. f.1.now) result }
{
    let mut declared = Items::new(alloc);
    let mut rest = tokens;
    'more: while begins_declaration(rest) {
        let (found, after) = declaration(alloc, rest)?;
        declared.push(found)?;
        rest = after;
    }
    Ok((declared, rest))
}
