//! What is told of a table.

ghost use Rattle.std.specs.Prelude.{◌≡◌};
ghost use Rattle.sweeps.specs.GrowthText as spec;

use crate::formula::Formula;

/// How the numbers of a table grow with its sizes: by a formula; by one step at each doubling of the size; or in no way that is told.
#[derive(Clone, Copy, Debug, PartialEq, Eq)]
pub enum Growth {
    Formula(Formula),
    Doubling(i128),
    Nothing,
}

impl Growth {
    /// Whether anything is told.
    pub fn is_told(&self) -> bool
        ensures { result ≡ spec.is_told self.now }
    {
        match self {
            Growth::Formula(_) => true,
            Growth::Doubling(_) => true,
            Growth::Nothing => false,
        }
    }
}
