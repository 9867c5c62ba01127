//! Laws of runs that are told.

ghost use Rattle.journal.specs.Accesses.{LocalsAreOfThose, ReadersMeet, TwoMeet, WritersMeet};
ghost use Rattle.journal.specs.Costs.{EntriesAreTimeSteps};
ghost use Rattle.journal.specs.RunEntries.{ChangesGiveEachState, ChangesGiveTheMemory, ItemsGiveTheOutput, TheFaultIsLast};

/// The changes that are told of a run, applied in order to its opening memory, give the memory of
/// its outcome.
#[tactic(auto, using(crate::proofs::Laws::changes_give_the_memory))]
pub fn changes_give_the_memory()
    // The changes that are told of a run, applied in order to its opening memory, give the memory of an outcome that
    // has one.
    ensures { ChangesGiveTheMemory }
{}

/// What the first k entries tell, applied in order to the input, gives the state of the run behind its first k statements: its cells, its
/// uniform variables and how many items it has printed, whatever the run comes to.
pub fn changes_give_each_state()
    // What the first k entries tell, applied in order to the input, gives the cells, the uniform variables and the
    // number of printed items behind k statements.
    ensures { ChangesGiveEachState }
{}

/// The items that are told of a run, joined, are the output of its outcome, whatever it comes to.
#[tactic(auto, using(crate::proofs::Laws::items_give_the_output))]
pub fn items_give_the_output()
    // The items that are told of a run as printed, joined, are the output of its outcome, whether it ends, faults or
    // goes on.
    ensures { ItemsGiveTheOutput }
{}

/// The processors that meet at the cell of a statement's fault have accessed it there, and there are
/// two of them at least: at a read conflict they are those that read it at the fault's position, and
/// at every other fault of a cell those that write it. The locals that are told beside them are theirs.
#[tactic(auto, using(crate::proofs::ThoseMet::readers_meet, crate::proofs::ThoseMet::writers_meet, crate::proofs::ThoseMet::two_meet, crate::proofs::MetLocals::locals_are_of_those))]
pub fn those_that_meet_access_the_cell()
    // At a read conflict just those are told to have met that read the cell at the fault's position.
    ensures readers { ReadersMeet }
    // At every other fault of a cell just those are told to have met that write to it.
    ensures writers { WritersMeet }
    // Where the values written have 64 bits, at least two are told to have met.
    ensures two { TwoMeet }
    // The locals that are told of a fault at a cell are those of the processors that met there, in their order.
    ensures locals { LocalsAreOfThose }
{}

/// The last entry that is told of a run is its fault, exactly where its outcome is one, with a cause that has that fault; no other is.
#[tactic(auto, using(crate::proofs::Laws::the_fault_is_last))]
pub fn the_fault_is_last()
    // The last entry is the fault exactly where the outcome is one, with a cause that has it, and no other entry is a
    // fault.
    ensures { TheFaultIsLast }
{}

/// The time steps by which the cost of a run is counted are its entries, one by one: each with its
/// line, its processors and its accesses.
#[tactic(auto, using(crate::proofs::Costed::entries_are_time_steps))]
pub fn entries_are_time_steps()
    // The entries are the run's time steps: each with its line, its processors, its reads and its writes, without those
    // of a statement that faults.
    ensures { EntriesAreTimeSteps }
{}
