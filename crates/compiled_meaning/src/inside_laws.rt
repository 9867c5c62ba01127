//! Laws of statements inside pardo on the machine.

ghost use Rattle.compiled_meaning.specs.Steps.{StepsAreFollowed};

/// The code of statements inside pardo follows their meaning, on the set of processors that are active:
/// where the program goes on the run comes to the same state, in the same frame of masks; its
/// fault is the run's outcome, and so is its bound; by no more exchanges and words than the events of the
/// statements have.
pub fn steps_are_followed()
    // On one memory the code of statements inside pardo, on a frame's processors, comes to their state, fault or bound,
    // by at most their events' exchanges and words.
    ensures steps { StepsAreFollowed }
{}
