//! Laws of the meaning.

ghost use Rattle.std.specs.Prelude.{List};
ghost use Rattle.pram_meaning.specs.declared.key.Key.{Key};
ghost use Rattle.pram_meaning.specs.Conflict.{least, IsLeast};
ghost use Rattle.pram_meaning.specs.Computed.{OneOutcome, OutcomeIsComputed, TreeHasOneOutcome};
ghost use Rattle.pram_meaning.specs.Values.{OutcomesHaveValues, StatementsKeepValues, StepsKeepValues};

#[tactic(auto, using(crate::proofs::OneOutcome::one_outcome, crate::proofs::OneOutcome::outcome_is_computed))]
/// Every program has exactly one outcome on every input, within every bound, and the bounded
/// meaning computes it.
pub fn one_outcome()
    // Every program has exactly one outcome on every input, within every bound.
    ensures one { OneOutcome }
    // A verdict is the outcome exactly if the bounded run comes to it.
    ensures computed { OutcomeIsComputed }
{}

/// Two programs that say one tree have the same outcome.
pub fn a_tree_has_one_outcome()
    // Two programs of one tree have the same outcome on an input, within a bound.
    ensures { TreeHasOneOutcome }
{}

/// In a run on an input of values of 64 bits, every cell, uniform variable, index, local and output
/// item has such a value: behind each statement, inside and outside pardo, and in the outcome.
pub fn values_have_64_bits()
    // Behind each statement outside pardo every cell, uniform variable, index, local and output item has 64 bits, where
    // all had before it.
    ensures statements { StatementsKeepValues }
    // Inside pardo too each statement, on any set of its processors, leaves values of 64 bits where all before it had.
    ensures steps { StepsKeepValues }
    // On an input of 64-bit values the outcome of a program within bounds has such values alone, in its output and its
    // memory.
    ensures outcomes { OutcomesHaveValues }
{}

/// The fault that is told is the least of a statement's faults: it is one of them, and none comes
/// before it.
#[tactic(auto, using(crate::proofs::LeastKey::least_is_least))]
pub fn least_fault()
    // The fault that is told is one of the statement's, and none comes before it; none is told only where there is
    // none.
    ensures { (ks : List Key) → IsLeast ks (least ks) }
{}
