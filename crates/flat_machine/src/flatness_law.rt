//! Workers with any lawful map are one flat machine.

ghost use Rattle.flat_machine.specs.Flatness.{OutcomesAreSame, PurposesAreSame, RunsAgree, WorkersAreFlat};
ghost use Rattle.flat_machine.specs.OneList.{ExchangesAreOne, ExchangesAreUnique, WorkersMakeListed};

/// The run of p workers with any lawful map is that of the flat machine, which has one memory, no
/// workers and no messages: for every code, well formed or not, every input and every bound. So
/// neither the outcome nor the kinds of the exchanges depend on the number of workers or on the map.
pub fn workers_are_flat()
    // After any number of exchanges the workers' run has an outcome exactly if that on one memory has, and then the
    // same, for every code and map.
    ensures outcomes { OutcomesAreSame }
    // After any number of exchanges those of the workers are for what those of the run on one memory are for, for every
    // code and map.
    ensures purposes { PurposesAreSame }
    // For every code and lawful map, 1 to 32 workers, a verdict is their outcome exactly if it is that of the run on
    // one memory, instruction by instruction.
    ensures flat { WorkersAreFlat }
{}

/// The flat machine's run has the same outcomes exchange by exchange and instruction by instruction, for
/// every code.
pub fn runs_agree()
    // On one memory a verdict is the outcome exchange by exchange exactly if it is the outcome instruction by
    // instruction, for every code.
    ensures { RunsAgree }
{}

/// There is one list of exchanges. The run instruction by instruction makes it, and for verified code the
/// exchanges that the workers of every map make up to its outcome, each with its words, are for the same,
/// one by one. So whoever counts the exchanges of code counts those of its workers.
pub fn one_list_of_exchanges()
    // Of any code, the exchanges of workers up to a verdict are for the same, one by one, as those of the run on one
    // memory that comes to it.
    ensures same { ExchangesAreOne }
    // The workers of a map make one list of exchanges, with their words, up to a verdict.
    ensures unique { ExchangesAreUnique }
    // Of well-formed code the workers of every map make exchanges up to its outcome, and these are for what the code's
    // list says.
    ensures workers { WorkersMakeListed }
{}
