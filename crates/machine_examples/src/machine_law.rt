//! What the machine that superstep code runs on gives for worked code, by its definition alone.

ghost use Rattle.std.specs.Prelude.{◌≡◌, [], ◌∷◌, map, Some, None, pos};
ghost use Rattle.pram_model.specs.declared.rule.Rule.TheVariants.{Erew};
ghost use Rattle.pram_values.specs.declared.kind.Kind.TheVariants.{DivideByZero, OutOfRange, TooWide, ReadConflict, WriteConflict};
ghost use Rattle.pram_values.specs.declared.place.Place.TheVariants.{All, Processor, Cell};
ghost use Rattle.write_rules.specs.Verdict.{Ended, Faulted, GoesOn};
ghost use Rattle.superstep_machine.specs.declared.mark.HeaderMark.TheVariants.{OutOfMemory, OutOfReserve};
ghost use Rattle.superstep_machine.specs.Run.{IsBspOutcome, Sends, Replies, Closes, setting};
ghost use Rattle.superstep_machine.specs.Trace.{AreBspExchanges, exchanges_by, relation_of};
ghost use Rattle.machine_examples.specs.Examples.{broadcast, too_wide, refused_run, in_turn};
ghost use Rattle.machine_examples.specs.FaultExamples.{late_conflict, two_levels, zero_at_once, out_of_range, late_output};

/// Four processors on two workers read one cell and write it to a cell each: how the run comes out,
/// and what words its exchanges have. With exclusive reads it faults.
pub fn broadcast_on_two_workers()
    // Four processors on two workers copy one cell to a cell each, and the run ends with that memory.
    ensures ended { IsBspOutcome broadcast (in_turn 8 2) (pos 9 ∷ pos 8 ∷ []) 2
        (Ended [] (pos 9 ∷ pos 8 ∷ pos 9 ∷ pos 9 ∷ pos 9 ∷ pos 9 ∷ [])) }
    // Within a bound of one statement that run goes on.
    ensures bounded { IsBspOutcome broadcast (in_turn 8 2) (pos 9 ∷ pos 8 ∷ []) 1 (GoesOn []) }
    // That run has four exchanges: two sends with a reply between them, and the close, each with the words that each
    // worker sent and received.
    ensures exchanges { AreBspExchanges broadcast (in_turn 8 2) (pos 9 ∷ pos 8 ∷ []) 2
        (Ended [] (pos 9 ∷ pos 8 ∷ pos 9 ∷ pos 9 ∷ pos 9 ∷ pos 9 ∷ []))
        (record { purpose = Sends; sent = 1 ∷ 1 ∷ []; received = 2 ∷ 0 ∷ [] }
        ∷ record { purpose = Replies; sent = 2 ∷ 0 ∷ []; received = 1 ∷ 1 ∷ [] }
        ∷ record { purpose = Sends; sent = 6 ∷ 6 ∷ []; received = 6 ∷ 6 ∷ [] }
        ∷ record { purpose = Closes; sent = 0 ∷ 0 ∷ []; received = 0 ∷ 0 ∷ [] }
        ∷ []) }
    // The most words that one worker sends or receives in them are 2, 2, 6 and 0.
    ensures relations { map relation_of (exchanges_by (setting broadcast (in_turn 8 2) 2 20) 9 (pos 9 ∷ pos 8 ∷ [])) ≡ 2 ∷ 2 ∷ 6 ∷ 0 ∷ [] }
    // Where a worker receives more words than any sends, that number counts.
    ensures most_received { relation_of (record { purpose = Sends; sent = 1 ∷ 1 ∷ []; received = 2 ∷ 0 ∷ [] }) ≡ 2 }
    // Where a worker sends more words than any receives, that number counts.
    ensures most_sent { relation_of (record { purpose = Replies; sent = 2 ∷ 5 ∷ 0 ∷ []; received = 3 ∷ 3 ∷ 1 ∷ [] }) ≡ 5 }
    // With exclusive reads the run by one worker faults with a read conflict at the cell.
    ensures exclusive_alone { IsBspOutcome (record broadcast { rule = Erew }) (in_turn 8 1) (pos 9 ∷ pos 8 ∷ []) 2
        (Faulted (record { kind = ReadConflict; line = 8; place = Cell 0 }) []) }
    // A worker that is refused memory ends the run of all without an outcome.
    ensures refused { refused_run OutOfMemory ≡ Some None }
    // So does a worker that comes past its reserve.
    ensures past_reserve { refused_run OutOfReserve ≡ Some None }
    // With exclusive reads the run by two workers faults with a read conflict at the cell.
    ensures exclusive { IsBspOutcome (record broadcast { rule = Erew }) (in_turn 8 2) (pos 9 ∷ pos 8 ∷ []) 2
        (Faulted (record { kind = ReadConflict; line = 8; place = Cell 0 }) []) }
{}

/// Which fault of several is told, and when.
pub fn faults_that_are_told()
    // A write conflict is told as of the statement that writes, though a later one faulted before the write was sent;
    // the reply that tells it is the last exchange.
    ensures of_the_put { AreBspExchanges late_conflict (in_turn 1 2) [] 9
        (Faulted (record { kind = WriteConflict; line = 5; place = Cell 0 }) [])
        (record { purpose = Sends; sent = 4 ∷ 4 ∷ []; received = 8 ∷ 0 ∷ [] }
        ∷ record { purpose = Replies; sent = 2 ∷ 0 ∷ []; received = 1 ∷ 1 ∷ [] }
        ∷ []) }
    // One worker alone comes to the same write conflict.
    ensures of_the_put_alone { IsBspOutcome late_conflict (in_turn 1 1) [] 9
        (Faulted (record { kind = WriteConflict; line = 5; place = Cell 0 }) []) }
    // Of the faults of one statement that of least position is told, though it is noted last.
    ensures of_least_position { IsBspOutcome two_levels (in_turn 2 2) (pos 5 ∷ pos 1 ∷ []) 9
        (Faulted (record { kind = OutOfRange; line = 4; place = Processor (pos 1) }) []) }
    // A fault of any worker's processor ends the run of all, at the line and the place of that fault.
    ensures of_any_worker { IsBspOutcome two_levels (in_turn 2 2) (pos 2 ∷ pos 5 ∷ []) 9
        (Faulted (record { kind = OutOfRange; line = 4; place = Processor (pos 2) }) []) }
    // The register of a read out of range is 0 at once, so a division by it before any exchange is the fault that is
    // told.
    ensures at_once { IsBspOutcome zero_at_once (in_turn 1 2) [] 9
        (Faulted (record { kind = DivideByZero; line = 0; place = All }) []) }
    // The reply to a read out of range leaves a register alone that was set again, and that read is the fault that is
    // told.
    ensures at_the_reply { IsBspOutcome out_of_range (in_turn 1 2) [] 9
        (Faulted (record { kind = OutOfRange; line = 0; place = All }) []) }
    // The output at a fault is that of the statements before the one that faulted.
    ensures output { IsBspOutcome late_output (in_turn 1 2) [] 9
        (Faulted (record { kind = DivideByZero; line = 2; place = All }) (pos 4 ∷ [])) }
    // A range of more processors than there may be faults as too wide, at its line.
    ensures too_wide { IsBspOutcome too_wide (in_turn 8 2) [] 9
        (Faulted (record { kind = TooWide; line = 7; place = All }) []) }
{}
