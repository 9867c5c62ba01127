//! Preconditions and postconditions that are programs.

use pram_check::Program;

/// What is asked of inputs and of runs that end, as programs. A program affirms an input where its run on it ends within the bound and
/// prints last a number that isn't 0. Only an input that the precondition affirms counts, and each where there is none. A run that ends on
/// one that counts fails where the postcondition doesn't affirm what is handed on to it: in its cells of a name of the program what the
/// program left, in those of a name `opening_NAME` what NAME held before, and 0 in all others.
#[derive(Drop)]
pub struct Specification {
    pub precondition: Option<Program>,
    pub postcondition: Option<Program>,
}
