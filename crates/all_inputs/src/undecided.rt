//! Where too little is known to go on.

/// Where too little is known to go on.
#[derive(Clone, Copy, Debug, PartialEq, Eq)]
pub enum Undecided {
    /// The bounds of the `for` or the pardo at that line aren't known as numbers.
    OpenBounds { line: u32 },
    /// What is known of the loop at that line came to no rest.
    Restless { line: u32 },
}
