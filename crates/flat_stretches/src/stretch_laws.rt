//! Laws of stretches of code on the flat machine.

ghost use Rattle.flat_stretches.specs.Applied.{InstructionsApply, WritesApply, SendsAreSame, SendsLeaveMemory, SendsOfWritesApply};
ghost use Rattle.flat_stretches.specs.Applied.{RepliesApply, VotesApply, BareIsApplied, EmptySendsAreNothing};
ghost use Rattle.flat_stretches.specs.Along.{RunsBegin, WorkGoesOn, MarksGoOn, SendsGoOn, RepliesGoOn, VotesGoOn, JumpsGoOn};
ghost use Rattle.flat_stretches.specs.Along.{ForksGoOn, NothingDecides, MoreMayBeSpent};
ghost use Rattle.flat_stretches.specs.Folds.{StretchesAreFolds, CostsAreCounted, AccessesAlone, FoldsStayBare, NothingCostsNothing};
ghost use Rattle.flat_stretches.specs.Leaving.{FoldsLeave};
ghost use Rattle.flat_stretches.specs.Joins.{StandsSplit, StandsJoin, FineJoins, ActsJoin};
ghost use Rattle.flat_stretches.specs.Joins.{ActsAtOnceJoin, CostsJoin, CountsJoin, WordsJoin};
ghost use Rattle.flat_stretches.specs.Statements.{RunsBeginAtRest, MarksBegin, MarksHold, StatementsFinish, StatementsFault};
ghost use Rattle.flat_stretches.specs.Described.{PlacesAreAsSaid, JudgedAreFine, WhatStandsIsAt, FoldsHoldReads};
ghost use Rattle.flat_stretches.specs.Reads.{ReadsAreAnswered, ReadsArrive, OthersStay, NoReadsStay};
ghost use Rattle.flat_stretches.specs.Notes.{FoldsTellNotes, NotesJoin, NotesForgetKeys, FoldsForgetKeys};
ghost use Rattle.flat_stretches.specs.Tells.{EndsTell, QuietPlacesTell, QuietStretchesTell, JumpsTell, ForksTell, CalmPlacesTell};
ghost use Rattle.flat_stretches.specs.Tells.{QuietBeforeCalm};
ghost use Rattle.flat_stretches.specs.Closes.{HaltsEnd, BoundsEnd};
ghost use Rattle.flat_stretches.specs.Frames.{PresentAreActive, SetsNarrow, EverybodyIsPresent, RangesBegin};
ghost use Rattle.flat_stretches.specs.Frames.{MasksNarrow, FlipsTurn, UnmasksWiden, VotesSay};
ghost use Rattle.flat_stretches.specs.Frames.{FoldsStay, FoldsAtOnceStay, IdleStay, LoopsOpen, LoopsTurn, LoopsClose};

/// The machine may be seen with the write that it holds applied at once: each instruction, a send, a
/// reply and a vote do the same to that state, and a write is applied where it stands. This holds for every
/// code and every state.
pub fn held_writes_apply()
    // An instruction that is no write does the same whether the held write is still to be sent or is applied, its
    // conflicts noted.
    ensures instructions { InstructionsApply }
    // A write where none is held is, seen applied, one at once: each cell has what the rule gives, and conflicts are
    // noted.
    ensures writes { WritesApply }
    // A send does the same whether the held write is still to be sent or is applied already.
    ensures sends { SendsAreSame }
    // A send leaves the memory in which the held write is applied.
    ensures memory { SendsLeaveMemory }
    // A send where no read is held or awaited applies the held write and does nothing else.
    ensures lone_sends { SendsOfWritesApply }
    // A reply where no write is held leaves the same, whether or not the state is seen with held writes applied.
    ensures replies { RepliesApply }
    // A vote does the same whether the held write is still to be sent or is applied already.
    ensures votes { VotesApply }
    // Where no write is held, the state is the one that is seen with held writes applied.
    ensures bare { BareIsApplied }
    // A send where no write is held, and no read is held or awaited, does nothing.
    ensures empty_sends { EmptySendsAreNothing }
{}

/// Where a run comes to, one instruction after another, and what that spends: the words of its accesses, by
/// the weight of the run, for an instruction on registers, nothing for a mark below the bound and a jump;
/// one exchange for a reply, a vote, and a send at which anything is held. An exchange goes on that
/// decides nothing, and none does while each key that is told is of the running statement.
pub fn runs_go_on()
    // A run begins at its opening, and nothing is spent.
    ensures begin { RunsBegin }
    // What a run spends up to a state may be bounded by any greater number.
    ensures more { MoreMayBeSpent }
    // An instruction about registers, the range or what is held leads to the next, and spends the run's weight for each
    // word of its accesses.
    ensures work { WorkGoesOn }
    // A mark below the bound leads to the next instruction and spends nothing.
    ensures marks { MarksGoOn }
    // A send that doesn't decide leads to the next instruction and spends an exchange, or nothing where nothing is
    // held.
    ensures sends { SendsGoOn }
    // A reply that doesn't decide leads to the next instruction and spends an exchange.
    ensures replies { RepliesGoOn }
    // A vote that doesn't decide leads to the next instruction and spends an exchange.
    ensures votes { VotesGoOn }
    // A jump leads to its target and spends nothing.
    ensures jumps { JumpsGoOn }
    // A jump where a register is zero leads to its target there, else to the next instruction, and spends nothing.
    ensures forks { ForksGoOn }
    // No exchange decides while what is told is of the running statement.
    ensures undecided { NothingDecides }
{}

/// A stretch of code without marks and jumps, in which a write or a reply stands only where no write is
/// held, is run as a fold over its instructions, while what is told is of the running statement; and
/// with each write applied at once the fold gives the same. It spends at most the exchanges that stand in
/// it, and the words of its accesses by as many processors as are active before it.
pub fn stretches_are_folds()
    // A stretch without marks and jumps, writing and replying only with no write held, runs as a fold, also with writes
    // at once, while no earlier statement's key is told.
    ensures folds { StretchesAreFolds }
    // A stretch that makes no further processor active spends at most its exchanges, and the words of its accesses by
    // those active before it.
    ensures counted { CostsAreCounted }
    // A stretch without accesses spends at most its exchanges.
    ensures alone { AccessesAlone }
    // A fold with each write applied at once holds no write behind it if none before.
    ensures bare { FoldsStayBare }
    // A send where nothing is held costs nothing.
    ensures free { NothingCostsNothing }
    // A stretch that only evaluates, into registers from a number on, leaves statement, range, output, memory and
    // lesser uniform registers as they were.
    ensures leaves { FoldsLeave }
{}

/// Stretches that stand behind one another are one stretch, and what they leave and cost is put together.
pub fn stretches_join()
    // Where two stretches stand in code one behind the other, each stands there.
    ensures split { StandsSplit }
    // Two stretches that stand in code one behind the other stand there as one.
    ensures stand { StandsJoin }
    // Two stretches that run as folds are one such stretch, if a write may be held behind the first exactly where it
    // may before the second.
    ensures fine { FineJoins }
    // The fold over two stretches is that over the second from what the first leaves.
    ensures acts { ActsJoin }
    // With each write applied at once, the fold over two stretches is that over the second from what the first leaves.
    ensures at_once { ActsAtOnceJoin }
    // Two stretches one behind the other spend what the first spends and what the second spends from there.
    ensures costs { CostsJoin }
    // Two stretches together have the exchanges of both.
    ensures counts { CountsJoin }
    // The accesses of two stretches together take the words of both.
    ensures words { WordsJoin }
{}

/// When a fault of the running statement is the outcome, once it is told and no read is held: at a mark
/// and at a halt of well-formed code; and at each place before them from which nothing is noted on the
/// way there, whatever the registers hold.
pub fn faults_are_told()
    // From each mark and halt of verified code on, a key of the running statement, noted or owed by the held write, is
    // the outcome.
    ensures ends { EndsTell }
    // A place whose instruction notes nothing in any state tells such a key, if the next place does, for every code.
    ensures quiet { QuietPlacesTell }
    // A place from which instructions stand that note nothing tells such a key, if the place behind them does, for
    // every code.
    ensures stretches { QuietStretchesTell }
    // The place of a jump tells such a key, if its target does, for every code.
    ensures jumps { JumpsTell }
    // The place of a conditional jump tells such a key, if its target and the next place do, whatever the register
    // holds.
    ensures forks { ForksTell }
    // In verified code a place tells such a key, if nothing is noted on any way from it to the next mark or halt.
    ensures calm { CalmPlacesTell }
    // Before a place from which nothing is noted up to the next mark or halt, instructions that note nothing keep it
    // so.
    ensures before_calm { QuietBeforeCalm }
{}

/// How a run of well-formed code comes out that comes to a halt, or to a mark at its bound, with no
/// fault told: with the output, at a halt with the memory in which the held write is applied, and with
/// one exchange more, or two where a write is held.
pub fn runs_close()
    // Verified code at a halt, no key told, ends with its output and the memory with the held write applied, by one
    // exchange more, or two if one is held.
    ensures halt { HaltsEnd }
    // Verified code at a mark at its bound, no key told, has its output as outcome, by one exchange more, or two where
    // a write is held.
    ensures bound { BoundsEnd }
{}

/// A statement of well-formed code, whatever it is: a mark below the bound begins it where no key is told; a
/// stretch of it comes to its end as a fold with each write applied at once, if that notes no key; and
/// a key that it notes is the outcome, with the output of the statements before, if the place
/// behind the stretch tells.
pub fn statements_run()
    // A run begins with no key told, no write held, and no read held or awaited.
    ensures start { RunsBeginAtRest }
    // A mark below the bound begins a statement of verified code where no key is told.
    ensures begin { MarksBegin }
    // No write is held behind a mark that isn't held before it.
    ensures hold { MarksHold }
    // A stretch of a statement whose fold, with each write applied at once, notes no key is run to its end, and seen
    // there as that fold.
    ensures finish { StatementsFinish }
    // A key that a stretch's fold notes is the outcome, with the output of the statements before, if the place behind
    // it tells and no read is held.
    ensures fault { StatementsFault }
{}

/// The verifier's states of places describe the runs that come there: how many reads are held, whether a
/// write is, and whether answers are awaited. And a stretch without marks and jumps that is judged
/// with states is one that is run as a fold, from and to what these say of a held write.
pub fn states_describe_runs()
    // Whichever states code can be met with, they tell of each run that comes to their place how many reads are held,
    // whether a write, and whether answers are awaited.
    ensures places { PlacesAreAsSaid }
    // A stretch without marks and jumps that is judged with states may be run as a fold, a write held before and behind
    // as they say.
    ensures judged { JudgedAreFine }
    // Where a stretch stands, by its states, the code has its instructions.
    ensures there { WhatStandsIsAt }
    // A fold holds as many reads as the states say.
    ensures reads { FoldsHoldReads }
{}

/// The processors that are active, as sets: a mask, a flip and an unmask go from one frame of masks to
/// another, whose set is a filter of the set below; a vote says whether the set has a member; a
/// stretch that sets no flag stays in its frame, and a processor that isn't active keeps its
/// registers. A loop's flag lets all of the set in, those stay
/// whose test is true, and behind it the set is present again.
pub fn masks_are_sets()
    // As many processors are active as the set of the frame of masks has members.
    ensures active { PresentAreActive }
    // One more mask leaves of the set those that pass its test.
    ensures narrow { SetsNarrow }
    // Without masks all processors of the range are in the set.
    ensures everybody { EverybodyIsPresent }
    // A range begins without masks.
    ensures begin { RangesBegin }
    // A mask goes to the frame whose set has, of the set below, those whose register is true.
    ensures mask { MasksNarrow }
    // A flip goes to the frame whose set has, of the set below, those that the mask kept out.
    ensures flip { FlipsTurn }
    // An unmask goes back to the frame below.
    ensures unmask { UnmasksWiden }
    // A vote says whether the set has a member.
    ensures vote { VotesSay }
    // A stretch that changes no range or mask and sets no flag stays in its frame.
    ensures folds { FoldsStay }
    // A stretch that changes no range or mask and sets no flag stays in its frame also with each write applied at once.
    ensures at_once { FoldsAtOnceStay }
    // A processor that isn't active, and awaits nothing, keeps its registers and stays inactive along a stretch that
    // changes no mask.
    ensures idle { IdleStay }
    // The flag of a loop, set and masked by, lets all of the set in.
    ensures opens { LoopsOpen }
    // At a loop's turn those of its set stay whose test is true.
    ensures turns { LoopsTurn }
    // Behind a loop the set around it is present again.
    ensures closes { LoopsClose }
{}

/// Reads that are held, where no write is, are answered by a send and a reply: the register of each gets
/// its cell, all others stay, and the conflicts of the reads are noted.
pub fn reads_are_answered()
    // Where no write is held, a send and a reply give the held reads their cells and note their conflicts, and change
    // nothing else.
    ensures answered { ReadsAreAnswered }
    // The register of a read gets its cell, if no later read is for it.
    ensures arrive { ReadsArrive }
    // A register that no read is for stays.
    ensures others { OthersStay }
    // The register of a read by which nothing is asked stays, if no other read is for it.
    ensures none { NoReadsStay }
{}

/// The keys of a stretch are collected apart from what it leaves: the fold adds the least of what its
/// instructions note to the key before, on which nothing else depends.
pub fn notes_are_collected()
    // A fold adds to the key the least that its instructions note.
    ensures told { FoldsTellNotes }
    // What two stretches note is the least of what the first notes and what the second notes behind it.
    ensures join { NotesJoin }
    // What a stretch notes doesn't depend on the key before it.
    ensures notes { NotesForgetKeys }
    // Nothing that a stretch leaves depends on the key before it, but the key.
    ensures folds { FoldsForgetKeys }
{}
