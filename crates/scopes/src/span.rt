//! The least and the greatest number so far.

ghost use Rattle.std.specs.Prelude.{◌≡◌, min, max, Option, Some};
ghost use Rattle.scopes.specs.Found.{widened};

use crate::findings::Span;

/// A span with a number more.
pub(crate) fn with_number(span: Option<Span>, number: u64) -> Span
    ensures { Some result ≡ widened number span }
{
    match span {
        None => Span {
            least: number,
            greatest: number,
        },
        Some(span) => Span {
            least: span.least.min(number),
            greatest: span.greatest.max(number),
        },
    }
}
