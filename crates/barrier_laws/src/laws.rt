//! What holds of every list of steps that the barrier allows.

ghost use Rattle.barrier_laws.specs.Progress.{NeverSticks, NobodyIsTwoAhead};

/// Of every list of steps that the barrier allows from the start, whoever makes them in whatever order: while one worker has crossings
/// left, some worker that has some left has a step that is allowed, and what it takes, and behind it something else is known; and no worker
/// is ever more than one crossing ahead of another. Nothing is said of threads: that one runs, or wakes, no contract says.
pub fn the_barrier_never_sticks()
    // While a worker has crossings left, a step is allowed of a worker with some left that has what it takes, and
    // behind it something else is known.
    ensures progress { NeverSticks }
    // No worker is ever more than one crossing ahead of another.
    ensures together { NobodyIsTwoAhead }
{}
