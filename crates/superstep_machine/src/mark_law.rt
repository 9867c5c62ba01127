//! A mark of any worker stops all.

ghost use Rattle.superstep_machine.specs.Refusals.{FirstIsSent, RestIsLeft, AnyMarkCounts, MemoryGoesFirst, MarkIsAWorkers, MarksStopAll};
ghost use Rattle.superstep_machine.specs.Refusals.{MarkedRunsEnd};
ghost use Rattle.superstep_machine.specs.Refusals.{SameBeforeMarks, SameOutcomeBefore, AllStopAtAMark, NoOutcomeAtAMark};

/// Of the marks that a worker's stretches are to have, the first alone befalls the next stretch, and
/// the rest is left to what follows.
pub fn marks_come_one_by_one()
    // Of the marks that a worker is to have, the first alone decides what it sends in the next exchange.
    ensures sent { FirstIsSent }
    // Where neither the first mark nor a header that comes stops a worker, it goes on with the other marks, and nothing
    // else is changed.
    ensures left { RestIsLeft }
{}

/// A mark on any worker in a stretch stops all workers at its exchange, whatever the code and the
/// states of the workers, and there is no outcome.
pub fn any_mark_stops_all()
    // The mark of any worker counts: where all workers together have none in a stretch, no worker has one.
    ensures counts { AnyMarkCounts }
    // Where memory was refused to a worker, that is the mark of all together, whatever others have.
    ensures memory_first { MemoryGoesFirst }
    // The mark of all workers together is one that a worker has.
    ensures of_a_worker { MarkIsAWorkers }
    // Where a worker has a mark in a stretch, all workers stop at its exchange, whatever the code and their states.
    ensures stopped { MarksStopAll }
    // A run that isn't over when a worker has a mark ends without an outcome.
    ensures no_outcome { MarkedRunsEnd }
{}

/// A run from the beginning, for every code: up to the first mark it is the run without marks, and
/// there all workers stop.
pub fn runs_up_to_a_mark()
    // Up to the first mark of any worker the run is the one without marks.
    ensures before { SameBeforeMarks }
    // If the run without marks is over before the first mark, the run has the same outcome.
    ensures outcome { SameOutcomeBefore }
    // At the exchange of the first mark all workers stop with it.
    ensures stopped { AllStopAtAMark }
    // A run that isn't over before the first mark has no outcome, however many exchanges it may make.
    ensures no_outcome { NoOutcomeAtAMark }
{}
