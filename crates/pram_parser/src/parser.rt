//! The parser of whole programs.

ghost use Rattle.std.specs.Prelude.{◌≡◌, true, false, [], ◌∷◌, ◌++◌, IfOk};
ghost use Rattle.pram_trees.specs.Blocks.{block_tokens, IsBlock};
ghost use Rattle.pram_trees.specs.Faults.{Answers, IsRefusedRightly};
ghost use Rattle.pram_trees.specs.Follows.{Follows};
ghost use Rattle.pram_trees.specs.Machine as machine;
ghost use Rattle.pram_trees.specs.Program.{ProgramTree, IsTree, declarations_tokens, header_tokens, limit, program_tokens};
ghost use Rattle.pram_trees.specs.Symbols as symbol;
ghost use Rattle.pram_tokens.specs.Tokens.{AreReal};

use crate::front::expect;
use crate::parse_decl::{Heading, declarations, header};
use crate::parse_stmt::body;
use pram_tokens::{Mark, Token};
use pram_trees::{Declaration, ParseError, Stmt, Tree};
use sqlite_items::Items;
use std::alloc::Global;

/// How deep blocks and expressions may nest.
const LIMIT: u8 = 64;

/// The parts of a program.
#[derive(Drop)]
struct Parts {
    header: Heading,
    declarations: Items<Declaration>,
    body: Items<Stmt>,
}

/// A program at the front, and what is behind it.
fn program(alloc: Global, tokens: &[Token]) -> Result<(Parts, &[Token]), ParseError>
    ensures within { IfOk result (λ f. IsBlock limit limit f.0.body) }
    ensures found { IfOk result
        (λ f. tokens.now ≡ header_tokens f.0.header.rule f.0.header.rule_location f.0.header.procs
        (declarations_tokens f.0.declarations
        ++ (Token.Mark Mark.Begin ∷ (block_tokens f.0.body ++ (Token.Mark Mark.End ∷ f.1.now))))) }
    ensures follows { Follows (λ k. machine.verdict tokens.now (symbol.program limit limit k))
        (λ f. f.1.now) result }
{
    let (header, rest) = header(tokens)?;
    let (declarations, rest) = declarations(alloc, rest)?;
    let rest = expect(rest, Mark::Begin)?;
    let (body, rest) = body(alloc, rest, LIMIT, LIMIT)?;
    let found = Parts {
        header,
        declarations,
        body,
    };
    Ok((found, rest))
}

/// The tree of a program's tokens.
///
/// `ParseError::Syntax` (E4) stands at the first token with which no program begins, whatever its
/// nesting, or at the end of the tokens where they run out. `ParseError::TooDeep` (E5) stands at
/// the token that opens the 65th block or the 65th level of an expression, if no syntax fault
/// stands before it or at it. `ParseError::OutOfMemory` says that memory was refused.
pub fn parse_tokens(alloc: Global, tokens: &[Token]) -> Result<Tree, ParseError>
    requires real { AreReal tokens.now }
    // The tree stands in the grammar, nested at most 64 deep.
    ensures stands { IfOk result (λ tree. IsTree limit limit tree) }
    // The tree's tokens are the ones that were given.
    ensures found { IfOk result (λ tree. tokens.now ≡ program_tokens tree) }
    // Whatever tree of the grammar has these tokens, that tree is the answer, unless memory was
    // refused: no tokens have two trees, and nothing of the grammar is refused.
    ensures only { (other : ProgramTree) →
        IsTree limit limit other → tokens.now ≡ program_tokens other → Answers other result }
    // A refusal stands at the first token with which no program begins, or at the one that opens
    // a level too many.
    ensures refused { IsRefusedRightly tokens.now result }
{
    let (parts, rest) = program(alloc, tokens)?;
    if !rest.is_empty() {
        return Err(ParseError::Syntax(rest.len()));
    }
    let header = parts.header;
    Ok(Tree::new(
        header.rule,
        header.rule_location,
        header.procs,
        parts.declarations,
        parts.body,
        tokens.len(),
    ))
}
