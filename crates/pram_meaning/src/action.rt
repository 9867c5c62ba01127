//! What a statement does that begins.

use pram_check::{Expression, StepTarget, Target};

/// What a statement outside pardo does.
#[derive(Clone, Copy)]
pub enum Action<'a> {
    Assigns {
        target: &'a Target,
        value: &'a Expression,
    },
    Prints {
        value: &'a Expression,
    },
    /// The test of a `while`.
    Turns {
        test: &'a Expression,
    },
    /// The test of an `if`.
    Chooses {
        test: &'a Expression,
    },
    /// The bounds of a `for`.
    Bounds {
        low: &'a Expression,
        high: &'a Expression,
    },
    /// The variable of a `for` is set.
    Sets {
        variable: usize,
    },
    /// The range of a pardo.
    Ranges {
        low: &'a Expression,
        high: &'a Expression,
    },
}

/// What a statement inside pardo does.
#[derive(Clone, Copy)]
pub enum StepAction<'a> {
    Assigns {
        target: &'a StepTarget,
        value: &'a Expression,
    },
    /// The test of a `while`.
    Turns {
        test: &'a Expression,
    },
    /// The test of an `if`.
    Chooses {
        test: &'a Expression,
    },
}
