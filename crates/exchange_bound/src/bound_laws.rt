//! Laws of the bound on exchanges.

ghost use Rattle.exchange_bound.specs.Spent.{HeldJoins, SpentJoins, SpentIsShared};

/// A run that holds each write back up to the next exchange of reads, or a cut, spends what its
/// events have as their shares: with one exchange for a write that is held at its end, and one of a
/// write that it begins with where that goes alone. What is held and what is spent go through a list
/// of events that is put together of two.
pub fn what_is_spent_is_shared()
    // Whether a write is held behind two lists of events is what the second makes of what the first leaves.
    ensures held { HeldJoins }
    // Two lists of events spend what the first spends and what the second spends behind it.
    ensures spent { SpentJoins }
    // What events spend, with one for a write held at the end, is the sum of their shares, with one for a write held
    // before that goes alone.
    ensures shared { SpentIsShared }
{}
