//! The headline, for any map.

ghost use Rattle.program_runs.specs.Headline.{CompiledTextsMeanTheirPrograms};

/// Whatever lawful map lays the cells out, with a place for each, and so for 1 to 32 workers: on every input of values of 64 bits, at most
/// one a cell, and within every bound, the code that `compile` gives for a text has the outcome of the text's program on these workers, and
/// no other. That `run_workers` comes to the outcome of the machine's definition, whatever the map, is its own contract; so what it
/// answers for such code is the program's outcome.
pub fn compiled_texts_mean_their_programs()
    // A verdict is the outcome of a text's code on the workers of any lawful map, for every input that fits and every
    // bound, exactly when it is its program's.
    ensures { CompiledTextsMeanTheirPrograms }
{}
