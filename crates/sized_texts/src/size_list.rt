//! Sizes with commas between them: `4,8,16`.

ghost use Rattle.std.specs.Prelude.{◌≡◌, IfOk};
ghost use Rattle.sized_texts.specs.Sweeps as spec;

use crate::progression::MOST;
use crate::size_word::digits_value;
use std::alloc::{AllocError, Global};

/// The numbers of a text with commas between them, if they are at most 1,000.
pub(crate) fn listed(alloc: Global, text: &str) -> Result<Option<Vec<u64>>, AllocError>
    ensures { IfOk result (spec.IsOf (spec.AreListed text.now)) }
{
    let mut sizes = Vec::new(alloc);
    for part in text.split(',') {
        if sizes.len() == MOST {
            return Ok(None);
        }
        match digits_value(part.as_bytes()) {
            Some(size) => sizes.push(size)?,
            None => return Ok(None),
        }
    }
    Ok(Some(sizes))
}
