//! All workers are under one control.

ghost use Rattle.flat_machine.specs.OneControl.{OneControlBetween, OneExchange, OneControlAfter};

/// At every moment all workers of a run are at one place, and have the same count, line, uniform
/// registers, range, depth of masks, held and awaited instructions, output, and end: for every code,
/// and after a fault too. They come to the same kind of exchange.
pub fn one_control()
    // At every moment all workers have the same place, count, line, uniform registers, range, mask depth, held and
    // awaited instructions, and output, for every code.
    ensures between { OneControlBetween }
    // All workers come to the next exchange at one place, and for the same purpose, with all that they have in common.
    ensures exchange { OneExchange }
    // Behind each exchange, after a fault too, all workers are at one place, have all of this in common, and have ended
    // alike or go on.
    ensures after { OneControlAfter }
{}
