//! Which token is missing.

ghost use Rattle.std.specs.Prelude.{◌≡◌, ◌≤◌, ◌++◌, ◌∷◌, ◌↔◌, drop, take, length, IfOk, IsTrue, OnOk, Some};
ghost use Rattle.pram_tokens.specs.Tokens.{AreReal};
ghost use Rattle.help.specs.Kinds.{sample as sample_of};
ghost use Rattle.help.specs.Missing as spec;

use crate::Choice;
use crate::choice::sample;
use pram_parser::parse_tokens;
use pram_tokens::Token;
use pram_trees::ParseError;
use std::alloc::{AllocError, Global};

// With how many of the tokens a program begins.
fn reach(alloc: Global, tokens: &[Token]) -> Result<usize, AllocError>
    requires real { AreReal tokens.now }
    ensures { IfOk result (spec.Reaches tokens.now) }
{
    match parse_tokens(alloc, tokens) {
        Ok(_) => Ok(tokens.len()),
        Err(ParseError::Syntax(left)) => Ok(tokens.len() - left),
        Err(ParseError::TooDeep(left)) => Ok(tokens.len() - left),
        Err(ParseError::OutOfMemory) => Err(AllocError),
    }
}

// With how many it begins where a token of that kind stands between them at a place. They are left as they were.
fn reach_with(
    alloc: Global,
    tokens: &mut Vec<Token>,
    at: usize,
    choice: Choice,
) -> Result<usize, AllocError>
    requires real { AreReal tokens.old.items }
    requires within { at ≤ length tokens.old.items }
    ensures same { OnOk result (tokens.new.items ≡ tokens.old.items) }
    ensures reaches { IfOk result (spec.GoesOn (take at tokens.old.items) (drop at tokens.old.items) choice) }
{
    let token = sample(alloc, choice)?;
    tokens.insert(at, token)?;
    let reached = reach(alloc, tokens)?;
    tokens.remove(at);
    Ok(reached)
}

// Whether that kind is the best so far.
fn is_that(best: Option<Choice>, choice: Choice) -> bool
    ensures { IsTrue result ↔ (best ≡ Some choice) }
{
    best == Some(choice)
}

/// Of some kinds that could stand at a place between the tokens, the one of which a token is missing there, and none only where none is
/// missing. A kind that is given twice counts once.
pub(crate) fn missing_of(
    alloc: Global,
    tokens: &mut Vec<Token>,
    at: usize,
    found: &[Choice],
) -> Result<Option<Choice>, AllocError>
    requires real { AreReal tokens.old.items }
    requires within { at ≤ length tokens.old.items }
    ensures { IfOk result (spec.IsWhatIsMissing (take at tokens.old.items) (drop at tokens.old.items) found.now) }
{
    let mut best = None;
    let mut most = at + 1;
    for choice in found {
        let reached = reach_with(alloc, tokens, at, *choice)?;
        if most < reached {
            best = Some(*choice);
            most = reached;
        } else if reached == most && !is_that(best, *choice) {
            best = None;
        }
    }
    Ok(best)
}
