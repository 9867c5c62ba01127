//! All of a text but its white space.

ghost use Rattle.std.specs.Prelude.{◌≡◌, IfOk};
ghost use Rattle.laid_out_texts.specs.Pieces as spec;

use crate::pieces::pieces;
use std::alloc::{AllocError, Global};

/// The comments, words, numbers, braces and signs of a text, each with a line's end behind it.
pub(crate) fn listed(alloc: Global, text: &[u8]) -> Result<Vec<u8>, AllocError>
    ensures { IfOk result (λ to. to.items ≡ spec.listed text.now) }
{
    let found = pieces(alloc, text)?;
    let mut to = Vec::new(alloc);
    for piece in &found {
        to.extend_from_slice(piece.bytes)?;
        to.push(b'\n')?;
    }
    Ok(to)
}
