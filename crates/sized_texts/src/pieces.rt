//! The pieces of a text: comments and other bytes as they are, and the numbers of expressions in braces.

ghost use Rattle.std.specs.Prelude.{◌≡◌, ◌≤◌, length};
ghost use Rattle.pram_tokens.specs.Scanning.{longest};
ghost use Rattle.sized_texts.specs.Faults.{Answers, in_text, shown};
ghost use Rattle.sized_texts.specs.Faults as faults;
ghost use Rattle.sized_texts.specs.Pieces as spec;

use crate::expanded::{Expanded, add_byte, add_number, nothing};
use crate::expression::braced;
use crate::fault::SizeFault;
use crate::size_table::SizeTable;
use crate::stop::Wrong;
use std::alloc::Global;

// Whether a byte opens a brace.
fn opens(comment: bool, byte: u8) -> bool
    ensures { result ≡ spec.opens comment byte }
{
    !comment && byte == b'{'
}

// Whether what follows a byte is a comment.
fn in_comment(comment: bool, byte: u8) -> bool
    ensures { result ≡ spec.in_comment comment byte }
{
    if byte == b'\n' {
        false
    } else {
        comment || byte == b'#'
    }
}

/// The fault of a text in which so many bytes are left where something is wrong.
pub(crate) fn fault_in(total: usize, wrong: Wrong) -> SizeFault
    requires { total ≤ longest }
    ensures { result ≡ faults.fault_in total wrong }
{
    SizeFault::BadSize(total.saturating_sub(wrong.left) as u32, wrong.reason)
}

/// What a text expands to where these are its sizes.
pub(crate) fn pieces(
    alloc: Global,
    sizes: &SizeTable<'_>,
    text: &[u8],
) -> Result<Expanded, SizeFault>
    requires fits { length text.now ≤ longest }
    ensures answers { Answers shown result (in_text (length text.now) (spec.pieces_of sizes.now text.now)) }
{
    let mut to = nothing(alloc);
    let mut at = 0;
    let mut comment = false;
    while at < text.len() {
        let byte = text[at];
        let place = at as u32;
        let (_, rest) = text.split_at(at + 1);
        if opens(comment, byte) {
            match braced(sizes, rest) {
                Ok((value, behind)) => {
                    add_number(&mut to, value, place)?;
                    at += 1 + (rest.len() - behind.len());
                }
                Err(wrong) => return Err(fault_in(text.len(), wrong)),
            }
        } else {
            add_byte(&mut to, byte, place)?;
            comment = in_comment(comment, byte);
            at += 1;
        }
    }
    Ok(to)
}
