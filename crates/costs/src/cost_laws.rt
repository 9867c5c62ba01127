//! Laws of the costs of a run.

ghost use Rattle.costs.specs.Communication.{AccessesAreCounted, InsideAndOutsideAreAll};
ghost use Rattle.costs.specs.Cost.{BrentsPrinciple};
ghost use Rattle.costs.specs.Time.{GoesOnBeforeTheTime, GoingOnTakesTheBound, TimeIsTheLeastBound, TimeIsWithinTheBound};

/// Brent's scheduling principle: q processors need no more rounds for a run than its work divided by
/// q, and its time.
pub fn brents_principle()
    // Any number of processors needs no more rounds for a run than its work divided by that number, and its time.
    ensures { BrentsPrinciple }
{}

/// The time of a run is at most its bound, and is the bound where the run goes on; and a program that ends or faults does so within a bound
/// exactly where its time is at most that bound, and goes on within each smaller one.
#[tactic(auto, using(crate::proofs::Timed::time_is_within_the_bound, crate::proofs::Timed::going_on_takes_the_bound))]
pub fn time_keeps_to_the_bound()
    // The time of a run is at most its bound.
    ensures within { TimeIsWithinTheBound }
    // Where a run goes on, its time is the bound.
    ensures goes_on { GoingOnTakesTheBound }
    // A program that ends or faults does so within a bound exactly where its time is at most that bound.
    ensures ends { TimeIsTheLeastBound }
    // A program that ends or faults goes on within a bound exactly where its time is greater than that bound.
    ensures before { GoesOnBeforeTheTime }
{}

/// Work bounds communication: in a run that doesn't fault the words of its accesses, with p workers and of so
/// many words a write, are at most 2 r + k w + 2 p u + k v, for r reads and w writes inside pardo and u reads and
/// v writes outside, which together are those that the run's costs count.
pub fn work_bounds_communication()
    // Unless a run faults, its accesses on p workers take at most 2r+kw+2pu+kv words, r reads and w writes inside
    // pardo, u and v outside, k a write.
    ensures accesses { AccessesAreCounted }
    // The reads and writes inside and outside pardo are together those that the run's costs count.
    ensures all { InsideAndOutsideAreAll }
{}
