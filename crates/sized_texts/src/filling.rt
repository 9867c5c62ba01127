//! A text with the numbers of its braces put in, without size lines.

ghost use Rattle.sized_texts.specs.Faults.{Answers};
ghost use Rattle.sized_texts.specs.Filling as spec;

use crate::fault::SizeFault;
use crate::pieces::pieces;
use crate::size::Size;
use crate::size_table::table_of;
use pram_tokens::LONGEST;
use std::alloc::Global;

/// A text with the numbers of its braces put in, where these are its sizes, as a file's name `in/{n}.txt`. It is read as a text with sizes
/// is, but has no size lines: what stands behind a `#` in its line stands as it is.
///
/// A text of more than 1,048,576 bytes is `SizeFault::TooLong` (E2). `SizeFault::BadSize` (E19) stands at the first place of an expression
/// that is wrong. `SizeFault::OutOfMemory` (E16) says that memory was refused.
pub fn fill(alloc: Global, sizes: &[Size], text: &[u8]) -> Result<Vec<u8>, SizeFault>
    // The answer is the name with its braces' numbers put in, as in texts with sizes, or why and where that first
    // fails; unless memory was refused.
    ensures answers { Answers (λ filled. filled.items) result (spec.filled sizes.now text.now) }
{
    if text.len() > LONGEST {
        return Err(SizeFault::TooLong);
    }
    let table = table_of(alloc, sizes)?;
    let expanded = pieces(alloc, &table, text)?;
    Ok(expanded.text)
}
