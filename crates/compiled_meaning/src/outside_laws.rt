//! Laws of statements outside pardo on the machine.

ghost use Rattle.compiled_meaning.specs.Statements.{StatementsAreFollowed};

/// The code of statements outside pardo follows their meaning: where the program goes on the run comes to
/// the same state; its fault is the run's outcome, and so is its bound; by no more exchanges and words than
/// the events of the statements have.
pub fn statements_are_followed()
    // On one memory the code of statements outside pardo comes to their state, fault or bound, by at most their events'
    // exchanges, and words of accesses.
    ensures statements { StatementsAreFollowed }
{}
