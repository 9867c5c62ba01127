//! What there is to say of a place.

ghost use Rattle.std.specs.Prelude.{◌≡◌, ◌≤◌, ◌<◌, ◌+◌, ◌-◌, length, slice_index, take, IfOk, Some};
ghost use Rattle.std.specs.List.{position, slice_get};
ghost use Rattle.pram_tokens.specs.Scanning.{cut, longest};
ghost use Rattle.pram_tokens.specs.Tokens.{AreReal};
ghost use Rattle.help.specs.Habits.{only_habit as only_habit_of};
ghost use Rattle.help.specs.Hints as spec;

use crate::Choice;
use crate::blocks::{Block, open_blocks};
use crate::hint::Hint;
use crate::missing::missing_of;
use crate::sign::{Sign, could};
use crate::words::{before_habit, habit_of, only_habit};
use pram_tokens::{LexError, Mark, Token, tokenize};
use std::alloc::{AllocError, Global};

// How many tokens behind a place are tried.
const TRIED: usize = 8;

/// How many tokens stand before a place, by their offsets.
pub fn tokens_before(offsets: &[u32], at: u32) -> usize
    ensures value { result ≡ spec.before at offsets.now }
    ensures within { result ≤ length offsets.now }
{
    let mut count = 0;
    while count < offsets.len() && offsets[count] < at {
        count += 1;
    }
    count
}

fn is_begin(token: &Token) -> bool
    ensures { result ≡ spec.is_begin token.now }
{
    match token {
        Token::Mark(Mark::Begin) => true,
        _ => false,
    }
}

// The number of the program's `begin`.
fn begin_in(tokens: &[Token]) -> Option<usize>
    ensures { result ≡ position spec.is_begin tokens.now }
{
    tokens.iter().position(|token| is_begin(token))
}

// The end of a program that is open.
fn program_hint(offsets: &[u32], begin: Option<usize>) -> Hint
    ensures { result ≡ spec.program_hint offsets.now begin }
{
    match begin {
        None => Hint::Nothing,
        Some(i) => Hint::OpenProgram {
            at: offset_at(offsets, i),
        },
    }
}

// The offset of a token, and 0 where there is none.
fn offset_at(offsets: &[u32], i: usize) -> u32
    ensures { result ≡ slice_index offsets.now i }
{
    if i < offsets.len() { offsets[i] } else { 0 }
}

// The last of some blocks.
fn last_of(blocks: &[Block]) -> Option<Block>
    ensures { result ≡ spec.last_of blocks.now }
{
    match blocks {
        [] => None,
        [.., last] => Some(*last),
    }
}

fn is_end(token: &Token) -> bool
    ensures { result ≡ spec.is_end token.now }
{
    match token {
        Token::Mark(Mark::End) => true,
        _ => false,
    }
}

// The block that the last of the tokens closes.
fn closed_last(alloc: Global, tokens: &[Token]) -> Result<Option<Block>, AllocError>
    ensures { IfOk result (λ block. block ≡ spec.closed_last tokens.now) }
{
    match tokens {
        [] => Ok(None),
        [front @ .., last] => {
            if is_end(last) {
                let blocks = open_blocks(alloc, front)?;
                Ok(last_of(&blocks))
            } else {
                Ok(None)
            }
        }
    }
}

// The end of a text within the program, whose last token closes that block.
fn begin_hint(tokens: &[Token], offsets: &[u32], closed: Option<Block>) -> Hint
    ensures { result ≡ spec.begin_hint (cut tokens.now offsets.now) closed }
{
    match closed {
        Some(block) => Hint::Taken {
            opening: block.opening,
            at: block.at,
            by: offset_at(offsets, tokens.len().saturating_sub(1)),
        },
        None => program_hint(offsets, begin_in(tokens)),
    }
}

// The end of a text within the innermost of these blocks, or else within the program.
fn block_hint(
    alloc: Global,
    tokens: &[Token],
    offsets: &[u32],
    block: Option<Block>,
) -> Result<Hint, AllocError>
    ensures { IfOk result (λ hint. hint ≡ spec.block_hint (cut tokens.now offsets.now) block) }
{
    match block {
        Some(block) => Ok(Hint::Open {
            opening: block.opening,
            at: block.at,
        }),
        None => {
            let closed = closed_last(alloc, tokens)?;
            Ok(begin_hint(tokens, offsets, closed))
        }
    }
}

// At the end of the text.
fn end_hint(
    alloc: Global,
    tokens: &[Token],
    offsets: &[u32],
    found: &[Choice],
) -> Result<Hint, AllocError>
    ensures { IfOk result (λ hint. hint ≡ spec.end_hint (cut tokens.now offsets.now) found.now) }
{
    if !could(found, Sign::End) {
        return Ok(Hint::Nothing);
    }
    let blocks = open_blocks(alloc, tokens)?;
    block_hint(alloc, tokens, offsets, last_of(&blocks))
}

// Leaves those tokens before a place, and of those behind it the ones that are tried.
fn keep_tried(tokens: &mut Vec<Token>, count: usize)
    requires { count ≤ length tokens.old.items }
    ensures { tokens.new.items ≡ take (count + spec.tried) tokens.old.items }
{
    if TRIED < tokens.len() - count {
        tokens.truncate(count + TRIED);
    }
}

// What is missing behind so many tokens.
fn missing_hint(
    alloc: Global,
    tokens: &mut Vec<Token>,
    offsets: &[u32],
    count: usize,
    found: &[Choice],
) -> Result<Hint, AllocError>
    requires real { AreReal tokens.old.items }
    requires within { count ≤ length tokens.old.items }
    requires some { 0 < count }
    ensures { IfOk result (spec.IsMissingHint (cut tokens.old.items offsets.now) count found.now) }
{
    keep_tried(tokens, count);
    match missing_of(alloc, tokens, count, found)? {
        None => Ok(Hint::Nothing),
        Some(choice) => Ok(Hint::Missing {
            choice,
            behind: offset_at(offsets, count - 1),
        }),
    }
}

// Of a token behind another one, with the offsets of both.
fn known(before: &Token, token: &Token, found: &[Choice], at_before: u32, at: u32) -> Option<Hint>
    ensures { result ≡ spec.known before.now token.now found.now at_before at }
{
    if found.is_empty() {
        return Some(Hint::Ended { at: at_before });
    }
    if let Some(habit) = before_habit(before, found, token) {
        return Some(Hint::Habit {
            habit,
            at: at_before,
        });
    }
    match habit_of(before, found, token) {
        Some(habit) => Some(Hint::Habit { habit, at }),
        None => None,
    }
}

// At a token behind others.
fn token_hint(
    alloc: Global,
    tokens: &mut Vec<Token>,
    offsets: &[u32],
    count: usize,
    found: &[Choice],
) -> Result<Hint, AllocError>
    requires real { AreReal tokens.old.items }
    requires within { count < length tokens.old.items }
    requires some { 0 < count }
    ensures { IfOk result (λ hint. (b t : Token) → slice_get tokens.old.items (count - 1) ≡ Some b → slice_get tokens.old.items count
        ≡ Some t →
        spec.IsAmong (cut tokens.old.items offsets.now) count b t found.now hint) }
{
    let (at_before, at) = (offset_at(offsets, count - 1), offset_at(offsets, count));
    match known(&tokens[count - 1], &tokens[count], found, at_before, at) {
        Some(hint) => Ok(hint),
        None => missing_hint(alloc, tokens, offsets, count, found),
    }
}

// Of the first token of a text, which has that offset.
fn first_of(found: &[Choice], at: u32, token: &Token) -> Hint
    ensures { result ≡ spec.habit_at at (only_habit_of found.now token.now) }
{
    match only_habit(found, token) {
        Some(habit) => Hint::Habit { habit, at },
        None => Hint::Nothing,
    }
}

// At the front of a text.
fn first_hint(tokens: &[Token], offsets: &[u32], found: &[Choice]) -> Hint
    ensures { result ≡ spec.first_hint found.now (slice_index offsets.now 0) (slice_get tokens.now 0) }
{
    match tokens {
        [] => Hint::Nothing,
        [first, ..] => first_of(found, offset_at(offsets, 0), first),
    }
}

// By the tokens of a text, of which so many stand before the place.
fn hint_behind(
    alloc: Global,
    tokens: &mut Vec<Token>,
    offsets: &[u32],
    count: usize,
    found: &[Choice],
) -> Result<Hint, AllocError>
    requires real { AreReal tokens.old.items }
    requires within { count ≤ length tokens.old.items }
    ensures { IfOk result (spec.IsBy (cut tokens.old.items offsets.now) found.now count) }
{
    if count == 0 {
        Ok(first_hint(tokens, offsets, found))
    } else if count == tokens.len() {
        end_hint(alloc, tokens, offsets, found)
    } else {
        token_hint(alloc, tokens, offsets, count, found)
    }
}

/// What there is to say of a place at which a program doesn't go on (E4), where tokens of these kinds could stand: what the token there, or
/// the one before it, is in another language; which kind of token is missing before it; which block is open at the end of the text; or that
/// the program has ended before. Nothing is said of a text that isn't made of tokens. The error is that memory was refused.
pub fn hint_at(alloc: Global, text: &[u8], at: u32, found: &[Choice]) -> Result<Hint, AllocError>
    requires fits { length text.now ≤ longest }
    // It is the defined hint; without another, a token is missing exactly if with it the program goes on over the one
    // there, farther than with any other kind.
    ensures { IfOk result (spec.IsHint text.now at found.now) }
{
    match tokenize(alloc, text) {
        Ok((mut tokens, offsets)) => {
            let count = tokens_before(&offsets, at);
            hint_behind(alloc, &mut tokens, &offsets, count, found)
        }
        Err(LexError::BadToken(_)) => Ok(Hint::Nothing),
        Err(LexError::OutOfMemory) => Err(AllocError),
    }
}
