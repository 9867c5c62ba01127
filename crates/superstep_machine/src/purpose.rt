//! What an exchange is for.

/// What an exchange is for. It is the one word for that, of workers, of their counts and traces, and of the run on one memory.
#[derive(Clone, Copy, Debug, PartialEq, Eq)]
pub enum Purpose {
    /// What is held goes to the modules.
    Send,
    /// The modules answer what they were asked.
    Reply,
    /// For this uniform register, whether a processor is active.
    Vote { destination: u16 },
    /// The run ends.
    Close,
}
