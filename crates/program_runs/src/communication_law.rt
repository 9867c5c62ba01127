//! The law of this crate.

ghost use Rattle.program_runs.specs.Law.{CostsTellCommunication, WorkBoundsCommunication};

/// The code of a program, in a run that doesn't fault, by any number p of workers and any lawful map: all words
/// that the workers send in all exchanges together are at most 2 r + 3 w + 2 p u + 3 v, for r shared reads and w
/// shared writes inside pardo and u and v outside, as the run's costs count them; 4 in the place of each 3 where the
/// rule is sum. That number is the one that `costs::cost_of` tells for so many workers.
pub fn work_bounds_communication()
    // Unless it faults, code on p workers sends at most 2r+kw+2pu+kv words for r reads and w writes inside pardo, u and
    // v outside; k is 3, under sum 4.
    ensures words { WorkBoundsCommunication }
    // That number is the one that the program's costs tell for so many workers.
    ensures told { CostsTellCommunication }
{}
