//! A law of costs and of runs by workers.

ghost use Rattle.command_runs.specs.CostLaws.{CostsBoundWords};

/// The words that are told of a program's costs for a number of workers are enough: a run of the program by so many workers, on the same
/// input and within the same bound, sends no more, unless it faults.
pub fn costs_bound_words()
    // A run of the program by so many workers, on the same input and within the same bound, sends no more words than
    // its costs tell, unless it faults.
    ensures { CostsBoundWords }
{}
