// The law of the turnstile.
ghost use Rattle.turnstile.specs.Interleavings.{FinishesAreTheTables, LooksAreTheTables, ReceivesWhatWasSent, ReceivesFromEach};
ghost use Rattle.turnstile.specs.Interleavings.{HasWholeColumns, StepsKeepTheRule, FinishesByTheRuleAreAllowed};

/// What the workers have received, in whatever order they make their steps: a Finish or a Look of any worker, one at a
/// time. The body is empty: this is a law, for proofs.
pub fn interleaving_law()
    // What a seat may give and take at the table by a Finish leaves the table that the Finish of this law leaves.
    ensures finishes { FinishesAreTheTables }

    // What a seat may give and take at the table by a Look leaves the table that the Look of this law leaves.
    ensures looks { LooksAreTheTables }

    // The barrier's rule holds at the start and behind every list of steps.
    ensures sound { StepsKeepTheRule }

    // A Finish of a worker that leaves the barrier's rule is one of the steps that are allowed.
    ensures allowed { FinishesByTheRuleAreAllowed }

    // In every order of the steps, what a worker has received from another in a crossing is what that one has sent to
    // it.
    ensures sent { ReceivesWhatWasSent }

    // In every order of the steps, where a worker has taken what another gave in a crossing, it has received a message
    // from it.
    ensures taken { ReceivesFromEach }

    // In every order of the steps, each worker has a column for each of its crossings, with an entry for each worker.
    ensures whole { HasWholeColumns }
{}
