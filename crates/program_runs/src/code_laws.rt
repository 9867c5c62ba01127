//! Laws of the code of programs.

ghost use Rattle.program_runs.specs.Compiled.{HasACode, HasOneCode, TextsHaveOneCode};
ghost use Rattle.program_runs.specs.Reserved.{TextsHaveOneList, TextsHaveOneReserve};

/// A program has exactly one code. So `compile_program` can answer no other, and what is said of the
/// code of a program, its exchanges and the reserve that it comes past is said of that one.
pub fn programs_have_one_code()
    // Any two codes of a program are equal.
    ensures one { HasOneCode }
    // Every program within bounds, as an accepted one is, has a code.
    ensures any { HasACode }
{}

/// So has a text: however its names are resolved, the programs that it is of have one code. By the workers of one map its run on an input
/// has one list of exchanges, and with a reserve it is either made or refused for E18. So "the text's code" is one thing.
pub fn texts_have_one_code()
    // Any two codes of the programs that a text is of are equal.
    ensures code { TextsHaveOneCode }
    // Two runs of a text on one input and bound, by the workers of one map, have the same list of exchanges.
    ensures exchanges { TextsHaveOneList }
    // By the workers of one map no run of a text is both made with a reserve and refused for coming past it.
    ensures reserve { TextsHaveOneReserve }
{}
