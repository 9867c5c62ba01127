//! What the machine gives for worked code, by its definition alone: one law for each thing shown.

ghost use Rattle.std.specs.Prelude.{[], ◌∷◌, pos};
ghost use Rattle.pram_model.specs.declared.rule.Rule.TheVariants.{Erew};
ghost use Rattle.pram_values.specs.declared.kind.Kind.TheVariants.{DivideByZero, TooWide, WriteConflict};
ghost use Rattle.pram_values.specs.declared.place.Place.TheVariants.{All, Processor, Cell};
ghost use Rattle.write_rules.specs.Verdict.{Ended, Faulted, GoesOn};
ghost use Rattle.superstep_machine.specs.Run.{IsBspOutcome, Sends, Replies, Votes, Closes};
ghost use Rattle.superstep_machine.specs.Trace.{AreBspExchanges};
ghost use Rattle.machine_examples.specs.Examples.{in_turn};
ghost use Rattle.machine_examples.specs.WorkedExamples.{three_turns, crossed_reads, added_up, counting_down, uniform_puts, three_parts};
ghost use Rattle.machine_examples.specs.SmallExamples.{inactive_division, wide_writes, vote_behind, second_range, send_behind_fault};
ghost use Rattle.machine_examples.specs.SmallExamples.{vote_behind_fault, vote_beside_fault, conflict_read};

/// Each range begins with registers of 0, and behind it there is none.
pub fn ranges_begin_anew()
    // The registers of a new range are 0.
    ensures fresh { IsBspOutcome three_turns (in_turn 2 2) [] 9 (Ended [] (pos 3 ∷ pos 6 ∷ [])) }
    // So they are where a range follows another at once.
    ensures at_once { IsBspOutcome second_range (in_turn 1 1) (pos 9 ∷ []) 9 (Ended [] (pos 0 ∷ [])) }
    // Behind the end of a range nobody is active.
    ensures over { IsBspOutcome vote_behind (in_turn 1 1) [] 9 (Ended (pos 0 ∷ []) []) }
    // A range that is too wide is empty, so nothing is written in it.
    ensures empty { AreBspExchanges wide_writes (in_turn 2 1) [] 9
        (Faulted (record { kind = TooWide; line = 1; place = All }) [])
        (record { purpose = Sends; sent = 0 ∷ []; received = 0 ∷ [] }
        ∷ record { purpose = Closes; sent = 0 ∷ []; received = 0 ∷ [] }
        ∷ []) }
{}

/// Processors that aren't active do nothing, and note no fault.
pub fn inactive_processors_do_nothing()
    // A mask turns round the processors that were active before it, and the others do nothing.
    ensures turned { IsBspOutcome three_parts (in_turn 8 2) [] 9
        (Ended [] (pos 1 ∷ pos 1 ∷ pos 3 ∷ pos 4 ∷ pos 0 ∷ pos 0 ∷ pos 4 ∷ pos 4 ∷ [])) }
    // A processor that isn't active and divides by zero notes no fault.
    ensures no_fault { IsBspOutcome inactive_division (in_turn 1 2) [] 9 (Ended [] []) }
{}

/// Which reads of one cell are no conflict under exclusive reads.
pub fn reads_that_are_no_conflict()
    // Under exclusive reads two processors that read one cell by different reads of a statement have no conflict, on
    // two workers.
    ensures apart { IsBspOutcome crossed_reads (in_turn 4 2) (pos 1 ∷ pos 2 ∷ []) 9
        (Ended [] (pos 1 ∷ pos 2 ∷ pos 12 ∷ pos 21 ∷ [])) }
    // So it is on one worker.
    ensures apart_alone { IsBspOutcome crossed_reads (in_turn 4 1) (pos 1 ∷ pos 2 ∷ []) 9
        (Ended [] (pos 1 ∷ pos 2 ∷ pos 12 ∷ pos 21 ∷ [])) }
    // A uniform read under exclusive reads is no conflict, though both workers ask for the cell.
    ensures uniform_read { IsBspOutcome (record uniform_puts { rule = Erew }) (in_turn 1 2) [] 9 (Ended (pos 7 ∷ []) (pos 7 ∷ [])) }
{}

/// A sum of what is written takes the place of the cell's old value.
pub fn sums_replace_the_old_value()
    // The sum of what four processors write takes the place of the cell's old value, and each worker's put has four
    // words.
    ensures added { AreBspExchanges added_up (in_turn 1 2) (pos 5 ∷ []) 2 (Ended [] (pos 10 ∷ []))
        (record { purpose = Sends; sent = 4 ∷ 4 ∷ []; received = 8 ∷ 0 ∷ [] }
        ∷ record { purpose = Closes; sent = 0 ∷ 0 ∷ []; received = 0 ∷ 0 ∷ [] }
        ∷ []) }
{}

/// A loop by votes.
pub fn votes_of_all_workers()
    // A loop on two workers goes on as long as a processor of any worker is active.
    ensures voted { IsBspOutcome counting_down (in_turn 4 2) [] 12 (Ended [] (pos 0 ∷ pos 2 ∷ pos 5 ∷ pos 9 ∷ [])) }
    // So does a loop on three workers, with the same memory.
    ensures voted_by_three { IsBspOutcome counting_down (in_turn 4 3) [] 12 (Ended [] (pos 0 ∷ pos 2 ∷ pos 5 ∷ pos 9 ∷ [])) }
    // Within 11 statements the loop's run goes on, which ends within 12.
    ensures bounded { IsBspOutcome counting_down (in_turn 4 2) [] 11 (GoesOn []) }
{}

/// A uniform write is one write.
pub fn uniform_writes_are_made_once()
    // A uniform write is made once: of two workers only one sends its four words.
    ensures once { AreBspExchanges uniform_puts (in_turn 1 2) (pos 1 ∷ []) 9 (Ended (pos 7 ∷ []) (pos 7 ∷ []))
        (record { purpose = Sends; sent = 4 ∷ 0 ∷ []; received = 4 ∷ 0 ∷ [] }
        ∷ record { purpose = Sends; sent = 1 ∷ 1 ∷ []; received = 2 ∷ 0 ∷ [] }
        ∷ record { purpose = Replies; sent = 2 ∷ 0 ∷ []; received = 1 ∷ 1 ∷ [] }
        ∷ record { purpose = Sends; sent = 4 ∷ 0 ∷ []; received = 4 ∷ 0 ∷ [] }
        ∷ record { purpose = Closes; sent = 0 ∷ 0 ∷ []; received = 0 ∷ 0 ∷ [] }
        ∷ []) }
{}

/// Which exchanges tell a fault: a send and a vote in a later statement are the last exchange, a vote
/// in the same statement isn't.
pub fn exchanges_that_decide()
    // A send in a statement behind one that faulted is the last exchange, and tells the fault.
    ensures by_a_send { AreBspExchanges send_behind_fault (in_turn 1 1) [] 9
        (Faulted (record { kind = DivideByZero; line = 1; place = All }) [])
        (record { purpose = Sends; sent = 0 ∷ []; received = 0 ∷ [] } ∷ []) }
    // A vote in a statement behind one that faulted is the last exchange, and tells the fault.
    ensures by_a_vote { AreBspExchanges vote_behind_fault (in_turn 1 1) [] 9
        (Faulted (record { kind = DivideByZero; line = 1; place = Processor (pos 0) }) [])
        (record { purpose = Votes 0; sent = 0 ∷ []; received = 0 ∷ [] } ∷ []) }
    // A vote in the statement that faults doesn't tell the fault, and the closing exchange does.
    ensures not_yet { AreBspExchanges vote_beside_fault (in_turn 1 1) [] 9
        (Faulted (record { kind = DivideByZero; line = 1; place = Processor (pos 0) }) [])
        (record { purpose = Votes 0; sent = 0 ∷ []; received = 0 ∷ [] }
        ∷ record { purpose = Closes; sent = 0 ∷ []; received = 0 ∷ [] }
        ∷ []) }
{}

/// A cell in conflict keeps its value, also for a read before the verdict: were it another than 7, a
/// division by zero at a lower position would be told.
pub fn a_cell_in_conflict_keeps_its_value()
    // A cell with a write conflict keeps its value for a read before the verdict, so the conflict is the fault that is
    // told.
    ensures { IsBspOutcome conflict_read (in_turn 1 2) (pos 7 ∷ []) 9
        (Faulted (record { kind = WriteConflict; line = 1; place = Cell 0 }) []) }
{}
