//! Laws of the moments of a run.

ghost use Rattle.moment_laws.specs.Following.{BoundOnlyCuts, FinalIsWithin, FinalMomentsStay, GoesOnBefore, GoingOnHasTheBound};
ghost use Rattle.moment_laws.specs.Following.{MomentsLeadToTheOutcome, StatementsAreWithin};

/// The moments of a run lead from its opening state to its outcome: the first statement begins in the opening store, each other one in the
/// store that the one before it left, as the next by its count, and the last one leaves what the outcome tells.
#[tactic(auto, using(crate::proofs::Whole::moments_lead_to_the_outcome))]
pub fn moments_lead_to_the_outcome()
    // Each statement begins, counted next, in the store that the one before left, from opening to any outcome; a fault
    // changes nothing, others keep the numbers of cells and variables.
    ensures { MomentsLeadToTheOutcome }
{}

/// A bound only cuts: a larger one adds statements behind those of a smaller one, and none behind an end or a fault. So a run ends or
/// faults within a bound exactly where it has at most that many statements, and goes on within each smaller one.
#[tactic(auto, using(crate::proofs::Whole::bound_only_cuts, crate::proofs::Whole::final_moments_stay))]
pub fn a_bound_only_cuts()
    // A larger bound adds statements behind those of a smaller one, and changes none.
    ensures cuts { BoundOnlyCuts }
    // Behind an end or a fault a larger bound adds nothing.
    ensures stay { FinalMomentsStay }
    // A run that ends or faults does so within a bound exactly where it has at most that many statements.
    ensures within { FinalIsWithin }
    // A run that ends or faults goes on within a bound exactly where it has more statements than that.
    ensures before { GoesOnBefore }
{}

/// A run has at most as many statements as its bound, and where it goes on as many.
#[tactic(auto, using(crate::proofs::Whole::statements_are_within, crate::proofs::Whole::going_on_has_the_bound))]
pub fn statements_keep_to_the_bound()
    // A run has at most as many statements as its bound.
    ensures within { StatementsAreWithin }
    // A run that goes on has as many statements as its bound.
    ensures goes_on { GoingOnHasTheBound }
{}
