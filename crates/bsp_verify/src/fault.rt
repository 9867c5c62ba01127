//! Why code is refused.

use thiserror::Error;

/// Why an instruction can't stand where it does. Of several reasons the one told is the first in
/// this order; two states come last.
#[derive(Clone, Copy, Debug, PartialEq, Eq, Error)]
pub enum Reason {
    /// No lower place leads here; or this instruction leads to a place to which a lower one gives
    /// another state.
    #[error("state")]
    State,
    /// It names a register that isn't there.
    #[error("register")]
    Register,
    /// It names a declaration that the layout doesn't have.
    #[error("entry")]
    Entry,
    /// Its target is no instruction, or is neither above it nor a mark.
    #[error("target")]
    Target,
    /// It needs a range of processors where there is none, or none where there is one.
    #[error("mode")]
    Mode,
    /// It would be a 65th mask, turns or takes off a mask where none is on, or ends the range
    /// under a mask.
    #[error("mask")]
    Mask,
    /// It doesn't go with what is held or awaited, or would be a ninth read or a second write.
    #[error("exchange")]
    Exchange,
    /// It is the last one and goes on; or there are no instructions.
    #[error("end")]
    End,
}

/// Why code is refused.
#[derive(Clone, Copy, Debug, PartialEq, Eq, Error)]
pub enum VerifyFault {
    /// The code isn't well formed (E14): `at` is the least instruction that can't be met together
    /// with those before it, or 0 where there are none.
    #[error("E14 NotVerified at {at} {reason}")]
    NotVerified { at: u32, reason: Reason },
    /// Memory was refused (E16). Nothing is said of the code.
    #[error("E16 OutOfMemory")]
    OutOfMemory,
}
