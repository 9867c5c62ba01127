//! What headers tell of their sender's run.

ghost use Rattle.std.specs.Prelude.{◌≡◌};
ghost use Rattle.superstep_machine.specs.Marks as spec;

/// What befell a worker in the stretch before an exchange, as the headers of its messages tell it.
/// Any mark but `Clear` stops all workers at that exchange, before a verdict, and the run has no
/// outcome.
#[derive(Clone, Copy, Debug, PartialEq, Eq)]
pub enum HeaderMark {
    /// Nothing: the run goes on.
    Clear,
    /// A request for memory was refused.
    OutOfMemory,
    /// The run came past the reserve of output items and exchanges that it was given.
    OutOfReserve,
}

/// The mark of two workers together. Refused memory goes first.
pub fn worse(one: HeaderMark, other: HeaderMark) -> HeaderMark
    ensures { result ≡ spec.worse one other }
{
    match one {
        HeaderMark::Clear => other,
        HeaderMark::OutOfMemory => HeaderMark::OutOfMemory,
        HeaderMark::OutOfReserve => match other {
            HeaderMark::OutOfMemory => HeaderMark::OutOfMemory,
            _ => HeaderMark::OutOfReserve,
        },
    }
}
