//! What ends a stretch of instructions.

/// Why a worker stops between two instructions: what the code asks for there. It is not yet what the next exchange is for: a run that
/// closes sends first what is held.
#[derive(Clone, Copy, Debug, PartialEq, Eq)]
pub enum StretchEnd {
    /// To send what is held.
    Send,
    /// For the answers to what was sent.
    Reply,
    /// For this uniform register, whether a processor is active.
    Vote { destination: u16 },
    /// The run closes: at its end, or else at the bound on statements.
    Close { ended: bool },
}
