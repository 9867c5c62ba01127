//! How it stands with a worker's run.

use superstep_machine::{HeaderMark, Key};

/// How it stands with a worker's run.
#[derive(Clone, Copy, Debug, PartialEq, Eq)]
pub enum Way {
    /// It goes on at its place.
    On,
    /// It came to the code's end, or else to the bound, and closes once what is held was sent.
    Ending { ended: bool },
    /// It is over: by a key, or else at the code's end, or at the bound.
    Past { key: Option<Key>, ended: bool },
    /// A worker was refused memory, or came past its reserve.
    Stopped { mark: HeaderMark },
}
