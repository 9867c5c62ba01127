//! The laws of this crate.

ghost use Rattle.pram_tokens.specs.declared.token.Binary as declared;
ghost use Rattle.intervals.specs.declared.interval.Interval as intervals;
ghost use Rattle.intervals.specs.declared.found.Found as found;
ghost use Rattle.intervals.specs.Intervals.{IsWithin};
ghost use Rattle.intervals.specs.Reaching.{IsFoundFor, IsFoundWithin};

/// The arithmetic of intervals is monotone. `IsFoundFor` is what the contract of `operate` says.
pub fn wider_operands_find_more()
    // What is found of wider operands holds each value that is found of narrower ones, and tells each fault that is told
    // of them.
    ensures { (operator : declared.Binary) (a b c d : intervals.Interval) (r s : found.Found)
        → IsFoundFor operator a b r → IsFoundFor operator c d s → IsWithin a c → IsWithin b d → IsFoundWithin r s }
{}
