//! When the verdict of verified code is fixed, and that there is one.

ghost use Rattle.flat_machine.specs.Verdicts.{AKeyIsForGood, AVerdictMayBeLate, AnyTimeOfVerdict, OneOutcome};

/// Where a run of well-formed code comes to a mark or to a halt, the least key among those noted and those
/// that the held write still owes is the verdict of the run, whatever comes later.
pub fn a_key_is_for_good()
    // Where verified code comes to a mark or a halt, the least key noted, or owed by the held write, is its verdict,
    // whatever comes later.
    ensures { AKeyIsForGood }
{}

/// At any place of a run of well-formed code, the least key that is noted or owed is the verdict where its
/// statement is over, whichever exchanges decided so far, and whichever decide.
pub fn a_verdict_may_be_late()
    // A key that is told, its statement over, is the verdict of verified code at any place, whichever exchanges decided
    // so far, and whichever decide.
    ensures { AVerdictMayBeLate }
{}

/// The outcome is the same whichever exchanges before the close decide, and also where none does.
pub fn any_time_of_verdict()
    // Verified code has the same outcomes whichever exchanges before the close decide, also where none does.
    ensures { AnyTimeOfVerdict }
{}

/// Well-formed code has exactly one outcome for an input and a bound, one for the flat machine and for all
/// maps and numbers of workers. The flat machine comes to it within (bound + 1) * N instructions, N those of
/// the code, and keeps it after any greater number.
pub fn one_outcome()
    // Verified code of N instructions has exactly one outcome, by all maps and on one memory, there within (bound + 1)
    // * N instructions and after any greater number.
    ensures { OneOutcome }
{}
