//! Laws of statements of a program on the machine.

ghost use Rattle.compiled_meaning.specs.Begins.{StatementsGoOn};
ghost use Rattle.compiled_meaning.specs.Costs.{StraightPartsCost};

/// A statement of well-formed code, from a state between two statements of its program: where the bound lets it
/// begin, it comes to the end of its stretch as a fold with each write applied at once, or the key
/// that the stretch notes is the outcome; and where it doesn't, the run is over.
pub fn statements_go_on()
    // A statement that the bound lets begin runs to its end as a fold, or the key that it notes is the outcome;
    // otherwise the run is over.
    ensures on { StatementsGoOn }
{}

/// How many exchanges, and how many words of accesses, the straight parts of statements take, at most.
pub fn straight_parts_cost()
    // A statement's straight part spends at most two exchanges a level of reads, one for a write that has to go and for
    // a vote, and its accesses' words.
    ensures cost { StraightPartsCost }
{}
