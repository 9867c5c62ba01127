//! What is known of a place of the code.

ghost use Rattle.std.specs.Prelude.{◌≡◌};
ghost use Rattle.bsp_verify.specs.States as spec;

/// What holds each time that a run comes to a place of the code.
#[derive(Clone, Copy, Debug, PartialEq, Eq)]
pub struct State {
    /// Whether there is a range of processors.
    pub entered: bool,
    /// How many masks are on, at most 64.
    pub masks: u8,
    /// How many reads are held, at most 8.
    pub asks: u8,
    /// Whether a write is held.
    pub put: bool,
    /// Whether reads were sent that have no answer yet.
    pub awaits: bool,
}

impl State {
    /// The state in which a run begins.
    pub fn opening() -> State
        ensures { result ≡ spec.opening }
    {
        State {
            entered: false,
            masks: 0,
            asks: 0,
            put: false,
            awaits: false,
        }
    }
}
