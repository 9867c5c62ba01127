//! The laws of seats and of reserves.

ghost use Rattle.workers.specs.Exchanged.{SeatsHaveExchanged};
ghost use Rattle.workers.specs.Sizes.{PastIsMore, PastIsMoreOutput};

/// What a turnstile promises of all seats, when it closes, is that their workers exchanged: so their histories make a run, if each
/// is its worker's.
pub fn seats_have_exchanged()
    // The seats of a closed turnstile are workers that exchanged: what one received in each crossing, as words of
    // messages, is what another sent.
    ensures { SeatsHaveExchanged }
{}

/// A run comes past a reserve exactly where it prints more items, or makes more exchanges, than the reserve has: in the words of the
/// outcome that it has and of its list of exchanges.
pub fn past_is_more()
    // A run comes past a reserve exactly if it printed more items, those that a fault drops counted, or made more
    // exchanges, than the reserve has.
    ensures printed { PastIsMore }
    // More output in the outcome, or more exchanges, than a reserve has means coming past it; unless the run faults,
    // nothing else does.
    ensures output { PastIsMoreOutput }
{}
