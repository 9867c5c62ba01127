//! Where the reading of an expression stopped, and why.

ghost use Rattle.std.specs.Prelude.{◌≡◌, length};
ghost use Rattle.sized_texts.specs.Reading as spec;

use crate::reason::Reason;

/// What is wrong, and how many bytes of the text are left from there on.
#[derive(Clone, Copy, Debug, PartialEq, Eq)]
pub struct Wrong {
    pub reason: Reason,
    pub left: usize,
}

/// That something is wrong at the front of a text.
pub(crate) fn wrong_at(reason: Reason, text: &[u8]) -> Wrong
    ensures reason { result.reason ≡ reason }
    ensures left { result.left ≡ length text.now }
{
    Wrong {
        reason,
        left: text.len(),
    }
}

/// What was found, or that it is wrong with that many bytes left.
pub(crate) fn placed(found: Result<u64, Reason>, left: usize) -> Result<u64, Wrong>
    ensures { result ≡ spec.placed left found }
{
    match found {
        Ok(value) => Ok(value),
        Err(reason) => Err(Wrong { reason, left }),
    }
}
