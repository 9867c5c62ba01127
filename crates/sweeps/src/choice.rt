//! Which terms a formula may have.

ghost use Rattle.std.specs.Prelude.{◌≡◌, ◌↔◌, ◌<◌, IsTrue};
ghost use Rattle.sweeps.specs.Choices.{chosen, chosen_count};

/// A set of terms: bit j says that the term in column j of an equation is in it. Of two sets of as many terms the lesser number is the one
/// whose fastest terms grow slower.
#[derive(Clone, Copy)]
pub(crate) struct Choice {
    pub(crate) bits: usize,
}

impl Choice {
    /// Whether the term of a column is in it.
    pub(crate) fn has(self, column: usize) -> bool
        requires { column < 6 }
        ensures { IsTrue result ↔ (chosen self.bits column ≡ 1) }
    {
        (self.bits >> column) % 2 == 1
    }

    /// How many terms are in it.
    pub(crate) fn count(self) -> usize
        ensures { result ≡ chosen_count self.bits }
    {
        let bits = self.bits;
        bits % 2 + bits / 2 % 2 + bits / 4 % 2 + bits / 8 % 2 + bits / 16 % 2 + bits / 32 % 2
    }
}
