//! The parser is asked with each token in the place.

ghost use Rattle.std.specs.Prelude.{◌≡◌, ◌≤◌, IfOk, OnOk, length};
ghost use Rattle.pram_tokens.specs.Tokens.{AreReal};
ghost use Rattle.pram_tokens.specs.Scanning.{longest};
ghost use Rattle.pram_trees.specs.Program.{Begins, limit};
ghost use Rattle.help.specs.Choices as spec;
ghost use Rattle.help.specs.Kinds.{sample as sample_of};

use crate::choice::{Choice, all_choices, sample};
use pram_parser::parse_tokens;
use pram_tokens::{LexError, Token, tokenize};
use pram_trees::ParseError;
use std::alloc::{AllocError, Global};

// Whether some program begins with these tokens.
fn begins(alloc: Global, tokens: &[Token]) -> Result<bool, AllocError>
    requires real { AreReal tokens.now }
    ensures { IfOk result (λ b. spec.Decides b (Begins limit limit tokens.now)) }
{
    match parse_tokens(alloc, tokens) {
        Ok(_) => Ok(true),
        Err(ParseError::Syntax(left)) => Ok(left == 0),
        Err(ParseError::TooDeep(_)) => Ok(false),
        Err(ParseError::OutOfMemory) => Err(AllocError),
    }
}

// Whether a token of that kind could stand behind the tokens, which are left as they were.
fn could_stand(alloc: Global, tokens: &mut Vec<Token>, choice: Choice) -> Result<bool, AllocError>
    requires real { AreReal tokens.old.items }
    ensures same { OnOk result (tokens.new.items ≡ tokens.old.items) }
    ensures decides { IfOk result (λ b. spec.Decides b (spec.CouldStand tokens.old.items (sample_of choice))) }
{
    tokens.push(sample(alloc, choice)?)?;
    let answer = begins(alloc, tokens)?;
    tokens.pop();
    Ok(answer)
}

// Whether a rule's word could stand behind the tokens, and no other name.
fn only_rules(alloc: Global, tokens: &mut Vec<Token>) -> Result<bool, AllocError>
    requires real { AreReal tokens.old.items }
    ensures same { OnOk result (tokens.new.items ≡ tokens.old.items) }
    ensures decides { IfOk result (λ b. spec.Decides b (spec.OnlyRules tokens.old.items)) }
{
    if could_stand(alloc, tokens, Choice::Name)? {
        Ok(false)
    } else {
        could_stand(alloc, tokens, Choice::Rule)
    }
}

// Whether that kind is told of a place behind the tokens.
fn is_told(alloc: Global, tokens: &mut Vec<Token>, choice: Choice) -> Result<bool, AllocError>
    requires real { AreReal tokens.old.items }
    ensures same { OnOk result (tokens.new.items ≡ tokens.old.items) }
    ensures decides { IfOk result (λ b. spec.Decides b (spec.IsTold tokens.old.items choice)) }
{
    match choice {
        Choice::Rule => only_rules(alloc, tokens),
        Choice::Name => could_stand(alloc, tokens, Choice::Name),
        Choice::Number => could_stand(alloc, tokens, Choice::Number),
        Choice::Fixed(fixed) => could_stand(alloc, tokens, Choice::Fixed(fixed)),
    }
}

// The kinds that are told of a place behind the tokens.
fn choices_of(alloc: Global, tokens: &mut Vec<Token>) -> Result<Vec<Choice>, AllocError>
    requires real { AreReal tokens.old.items }
    ensures { IfOk result (λ found. spec.AreChoices tokens.old.items found.items) }
{
    let mut found = Vec::new(alloc);
    let all = all_choices();
    for choice in all {
        if is_told(alloc, tokens, *choice)? {
            found.push(*choice)?;
        }
    }
    Ok(found)
}

/// The kinds of tokens that could stand behind a text, each once and in the order of their table: those of which a token makes, with the
/// tokens of the text before it, the beginning of a program within the limits of nesting. `LexError::BadToken` says where the first thing
/// stands that is no token; `LexError::OutOfMemory` that memory was refused. The parser is asked some forty times.
pub fn choices_behind(alloc: Global, text: &[u8]) -> Result<Vec<Choice>, LexError>
    requires fits { length text.now ≤ longest }
    // The kinds are exactly those of which a token could stand behind the text: with it the tokens begin some program
    // within the limits of nesting.
    ensures found { IfOk result (λ found. spec.AreChoicesBehind text.now found.items) }
    // A refusal for what is no token stands at the first such place.
    ensures refused { spec.IsRefusedFor text.now result }
{
    let (mut tokens, _) = tokenize(alloc, text)?;
    Ok(choices_of(alloc, &mut tokens)?)
}
