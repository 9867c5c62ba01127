//! What is true of tidied code, by the definitions alone.

ghost use Rattle.tidying.specs.Tidied.{TidiedCodeRunsAlike};

/// Tidied code runs as the code does.
pub fn tidied_code_runs_alike()
    // Tidied code has the code's outcomes on every map and within every bound, by as many exchanges for the same,
    // and its workers have printed as much before each.
    ensures { TidiedCodeRunsAlike }
{}
