//! From the bytes of a text to its tree.

ghost use Rattle.std.specs.Prelude.{◌≡◌, ◌<◌, ◌↔◌, Err, length, IfOk};
ghost use Rattle.pram_tokens.specs.declared.error.TextFault.TheVariants.{TextTooLong};
ghost use Rattle.pram_trees.specs.Program.{ProgramTree};
ghost use Rattle.pram_tokens.specs.Scanning.{longest};
ghost use Rattle.pram_trees.specs.Text as spec;

use crate::parser::parse_tokens;
use pram_tokens::{LONGEST, LexError, TextFault, first_other, offset_of, tokenize};
use pram_trees::{ParseError, Tree};
use std::alloc::Global;

/// What a refusal of the tokens says of the text that they were cut from.
fn parse_fault(offsets: &[u32], end: u32, fault: ParseError) -> TextFault
    ensures value { result ≡ spec.parse_fault offsets.now end fault }
{
    match fault {
        ParseError::OutOfMemory => TextFault::OutOfMemory,
        ParseError::Syntax(left) => TextFault::Syntax(offset_of(offsets, left, end)),
        ParseError::TooDeep(left) => TextFault::TooDeep(offset_of(offsets, left, end)),
    }
}

/// What a refusal of the tokenizer says of the text.
fn lex_fault(fault: LexError) -> TextFault
    ensures value { result ≡ spec.lex_fault fault }
{
    match fault {
        LexError::OutOfMemory => TextFault::OutOfMemory,
        LexError::BadToken(at) => TextFault::BadToken(at),
    }
}

/// The tree of a program's text.
///
/// A text of more than 1,048,576 bytes is `TextFault::TextTooLong` (E2), whatever it says. Then
/// the first byte of 128 or more is `TextFault::NotAscii` (E1), then the first thing that is no
/// token `TextFault::BadToken` (E3), wherever the grammar is broken. Of the tokens, the first one
/// with which no program begins, or the end of the text where they run out, is
/// `TextFault::Syntax` (E4), and the one that opens the 65th block or the 65th level of an
/// expression `TextFault::TooDeep` (E5), if no syntax fault stands before it or at it.
/// `TextFault::OutOfMemory` (E16) says that memory was refused. It is asked for only where the
/// text is neither too long nor has a byte of 128 or more.
pub fn parse(alloc: Global, text: &[u8]) -> Result<Tree, TextFault>
    // The tree is that of the text, by the grammar.
    ensures found { IfOk result (λ tree. spec.IsTextOf text.now tree) }
    // If the text has a tree by the grammar, that tree is the answer, unless memory was refused.
    ensures only { (tree : ProgramTree) → spec.IsTextOf text.now tree → spec.IsAnswer tree result }
    // TextTooLong is answered exactly for a text of more than 1,048,576 bytes.
    ensures too_long { (result ≡ Err TextTooLong) ↔ (longest < length text.now) }
    // A refusal tells the first of these at its offset: length, non-ASCII byte, non-token, token continuing no program
    // or opening level 65. Memory is refused only past the first two.
    ensures refused { spec.IsFaultOf text.now result }
{
    if text.len() > LONGEST {
        return Err(TextFault::TextTooLong);
    }
    if let Some(at) = first_other(text) {
        return Err(TextFault::NotAscii(at as u32));
    }
    let (tokens, offsets) = match tokenize(alloc, text) {
        Ok(found) => found,
        Err(fault) => return Err(lex_fault(fault)),
    };
    match parse_tokens(alloc, &tokens) {
        Ok(tree) => Ok(tree),
        Err(fault) => Err(parse_fault(&offsets, text.len() as u32, fault)),
    }
}
