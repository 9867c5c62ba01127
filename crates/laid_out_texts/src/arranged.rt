//! A text laid out anew, with nothing in it changed but white space.

ghost use Rattle.std.specs.Prelude.{◌≡◌, ◌≤◌, length, IfOk};
ghost use Rattle.std.specs.Option.{option_map};
ghost use Rattle.pram_model.specs.Names.{same_text};
ghost use Rattle.pram_tokens.specs.Scanning.{longest};
ghost use Rattle.laid_out_texts.specs.Arranged as spec;
ghost use Rattle.laid_out_texts.specs.Layout.{laid_out as laid_out_of};
ghost use Rattle.laid_out_texts.specs.Pieces.{listed as listed_of};
ghost use Rattle.laid_out_texts.specs.Spelled.{spelled as spelled_of};

use crate::layout::laid_out;
use crate::listed::listed;
use crate::same::is_same_text;
use crate::spelled::spelled;
use pram_tokens::LONGEST;
use std::alloc::{AllocError, Global};

// Whether both texts have the same comments, words, numbers, braces and signs.
fn has_same_pieces(alloc: Global, old: &[u8], new: &[u8]) -> Result<bool, AllocError>
    ensures { IfOk result (λ same. same ≡ same_text (listed_of new.now) (listed_of old.now)) }
{
    let was = listed(alloc, old)?;
    let is = listed(alloc, new)?;
    Ok(is_same_text(&is, &was))
}

fn is_same_lines(new: Option<Vec<u8>>, old: Option<Vec<u8>>) -> bool
    ensures { result ≡ spec.same_lines (option_map (λ to. to.items) new) (option_map (λ to. to.items) old) }
{
    match (new, old) {
        (Some(new), Some(old)) => is_same_text(&new, &old),
        _ => false,
    }
}

// Whether both texts have the same tokens.
fn has_same_tokens(alloc: Global, old: &[u8], new: &[u8]) -> Result<bool, AllocError>
    requires old { length old.now ≤ longest }
    requires new { length new.now ≤ longest }
    ensures same { IfOk result (λ same. same ≡ spec.same_lines (spelled_of new.now) (spelled_of old.now)) }
{
    let was = spelled(alloc, old)?;
    let is = spelled(alloc, new)?;
    Ok(is_same_lines(is, was))
}

// Whether a text is laid out already.
fn is_laid_out(alloc: Global, text: &[u8]) -> Result<bool, AllocError>
    ensures { IfOk result (λ same. same ≡ same_text (laid_out_of text.now) text.now) }
{
    let again = laid_out(alloc, text)?;
    Ok(is_same_text(&again, text))
}

fn is_same(alloc: Global, old: &[u8], new: &[u8]) -> Result<bool, AllocError>
    requires { length old.now ≤ longest }
    ensures { IfOk result (λ same. same ≡ spec.is_same old.now new.now) }
{
    if new.len() > LONGEST {
        return Ok(false);
    }
    if !has_same_pieces(alloc, old, new)? {
        return Ok(false);
    }
    if !has_same_tokens(alloc, old, new)? {
        return Ok(false);
    }
    is_laid_out(alloc, new)
}

/// A text laid out anew: two spaces a level, one space between words and signs, and none where none belongs. A line ends where it ended
/// between two statements or declarations, behind a comment, and behind the first word and before the last one of a block that went over
/// several lines; of empty lines one stays.
///
/// A text that would have other tokens then, or more than 1,048,576 bytes, stays as it is, as one does that is cut into no tokens. The
/// error says that memory was refused (E16).
pub fn lay_out(alloc: Global, text: &[u8]) -> Result<Vec<u8>, AllocError>
    requires fits { length text.now ≤ longest }
    // It is the layout that is defined, or the text as it stands where that would change more than white space.
    ensures layout { IfOk result (λ to. to.items ≡ spec.arranged text.now) }
    // Its comments, words, numbers, braces and signs are those of the text, byte for byte and in their order.
    ensures pieces { IfOk result (λ to. listed_of to.items ≡ listed_of text.now) }
    // With its sizes put in it has the tokens of the text in their order, or none where that has none.
    ensures tokens { IfOk result (λ to. spelled_of to.items ≡ spelled_of text.now) }
    // Laid out again it is itself.
    ensures again { IfOk result (λ to. spec.arranged to.items ≡ to.items) }
    // It has at most 1,048,576 bytes.
    ensures fits { IfOk result (λ to. length to.items ≤ longest) }
{
    let new = laid_out(alloc, text)?;
    if is_same(alloc, text, &new)? {
        return Ok(new);
    }
    let kept = Vec::from_slice(alloc, text)?;
    Ok(kept)
}
