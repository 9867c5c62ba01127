//! The limits that runs of code keep.

ghost use Rattle.machine_limits.specs.Within.{OutcomesFit, ValuesFit, FlatValuesFit, WrittenValuesFit, MessagesCanBeSent};
ghost use Rattle.machine_limits.specs.Within.{MessagesAreReadBack, MessagesAreShort};

/// At every moment of a run from an input of 64-bit values, for every code, well formed or not, all
/// registers and cells and what was printed have values of 64 bits; and so have the output and the memory
/// of its outcome. So it is of the run on one memory, whichever exchanges decide.
pub fn values_fit()
    // From an input of 64-bit values, all registers, cells and printed numbers have 64 bits at every moment of a run of
    // any code by any map.
    ensures moments { ValuesFit }
    // From an input of 64-bit values, the output and the memory of the outcome have values of 64 bits, for every code
    // and map.
    ensures outcomes { OutcomesFit }
    // On one memory all registers, cells, indices and printed numbers have 64 bits after any number of instructions,
    // whichever exchanges decide, for every code.
    ensures flat { FlatValuesFit }
    // What writers leave in a cell that has a value of 64 bits has 64 bits, whatever is held for it.
    ensures written { WrittenValuesFit }
{}

/// Every message of such a run of verified code can be sent, also where memory is refused to workers: its
/// cells are of the module and have 20 bits, its reads are at most eight, and its values and writers'
/// indices have 64 bits, or a sum 128. So it is read back from its words. It has at most 11 of them for
/// each processor that a worker can have, under `sum` 12.
pub fn messages_fit()
    // Every message of a run of verified code can be sent, also where memory is refused to workers.
    ensures sent { MessagesCanBeSent }
    // Every message of a run of verified code is read back from its header and its words, also where memory is refused
    // to workers.
    ensures read { MessagesAreReadBack }
    // A message of verified code on p workers has besides its header at most 11 * ceil(procs / p) words, under the rule
    // sum 12 * ceil(procs / p).
    ensures short { MessagesAreShort }
{}
