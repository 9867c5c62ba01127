//! Well-formed code out of stretches that are judged one by one.

ghost use Rattle.bsp_verify.specs.States.{opening};
ghost use Rattle.bsp_verify.specs.Stretches.{IsStretch, StretchesCompose, StretchesLeave, AStretchIsCode, PartsStand, WhatStandsIsThere};
ghost use Rattle.bsp_verify.specs.WellFormed.{IsWellFormed};
ghost use Rattle.bsp_verify.specs.WorkedStretches.{settings, turns, ending, counting};

/// Stretches of code, of which each is entered with the state that the one before it leaves, are one
/// stretch; and code that is one stretch is well formed, if its last instruction doesn't go on. The states
/// of the places that jumps lead to are those of the scan: what the instructions below leave, one after
/// the other as they stand.
pub fn stretches_make_code()
    // Two stretches of code, the second entered with the state that the first leaves, are one stretch.
    ensures compose { StretchesCompose }
    // A stretch leaves the state that its instructions leave one after the other, and no other.
    ensures leave { StretchesLeave }
    // Code that is one stretch is well formed if its last instruction doesn't go on.
    ensures code { AStretchIsCode }
    // Code stands in itself from its first place on, and both parts of what stands in code stand there, with the states
    // of their places.
    ensures parts { PartsStand }
    // What stands in code has its instructions there, and its places have the states that these leave one after the
    // other.
    ensures there { WhatStandsIsThere }
{}

/// Code of three stretches, one of them a loop, each judged for itself.
pub fn worked_stretches()
    // The first two instructions of the worked code are a stretch by themselves.
    ensures settings { IsStretch counting 0 opening settings opening }
    // The loop of the worked code is a stretch by itself, left with the state with which it is entered.
    ensures turns { IsStretch counting 2 opening turns opening }
    // What stands behind the loop of the worked code is a stretch by itself.
    ensures ending { IsStretch counting 6 opening ending opening }
    // The worked code, these three stretches one behind the other, is well formed.
    ensures well_formed { IsWellFormed counting }
{}
