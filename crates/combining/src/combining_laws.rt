//! What is held is what the machine holds, and what was packed is read back.

ghost use Rattle.std.specs.Prelude.{◌≡◌, ℕ, List, [], map, None};
ghost use Rattle.std.specs.List.{AllByRecursion, filter_map, flat_map};
ghost use Rattle.pram_values.specs.Total.{total};
ghost use Rattle.pram_model.specs.declared.rule.Rule.{Rule as RuleName};
ghost use Rattle.address_map.specs.Lawful.{Shape};
ghost use Rattle.superstep_machine.specs.Words.{CellPut, CellAsk, Message, put_words, ask_words};
ghost use Rattle.superstep_machine.specs.WordReading.{puts_in, asks_in, entry_read, askers_read};
ghost use Rattle.superstep_machine.specs.Fitting.{FitsPut, FitsWrite, IsPutFor, IsAskFor};
ghost use Rattle.superstep_machine.specs.Worker.{HeldWrite, Worker};
ghost use Rattle.superstep_machine.specs.Sending.{join, entry_to, put_of, firsts, puts_held, entry_came, askers_came};
ghost use Rattle.combining.specs.Adding.{AddedAsksAreTheMachines, AsksCanBeAdded, FittingAsksAreTheMachines, CellsStayBelow};
ghost use Rattle.combining.specs.Answers.{AnswersAreTheReply};
ghost use Rattle.combining.specs.Asked.{ValueStandsAtItsPlace, AsksMoveNothing, RepliesMoveNothing};
ghost use Rattle.combining.specs.ByTheRule.{MergesByTheRule};
ghost use Rattle.combining.specs.Came.{ValuesAreTheMachines, AddedAsksGetTheirValues};
ghost use Rattle.combining.specs.ModuleLaws.{MergedCells, MergedConflict, SharedConflict};
ghost use Rattle.combining.specs.Held.{held_after, packed_puts, puts_for, IsPutBelow};

/// Writes that are added one by one to nothing are held as the machine's definition holds them: by cell in the order first held,
/// each with what its writers come to. They fit in words if the writes do.
pub fn held_puts_are_the_machines()
    // Writes added one by one to nothing are held cell by cell, in the order first held, each with what its writers
    // come to.
    ensures held { (rule : RuleName) (writes : List HeldWrite)
        → held_after rule writes [] ≡ filter_map (λ c. put_of c (total None (join rule) (entry_to rule c) writes))
        (firsts (map (λ (w : HeldWrite). w.cell) writes)) }
    // The writes of a worker, added one by one to nothing, are held as the machine's worker holds them.
    ensures worker { (rule : RuleName) (s : Worker) → held_after rule s.held [] ≡ puts_held rule s }
    // What is held of writes that fit in words fits in words.
    ensures fit { (rule : RuleName) (writes : List HeldWrite) → AllByRecursion FitsWrite writes →
        AllByRecursion (FitsPut rule) (held_after rule writes []) }
{}

/// What the reads of a worker ask for, added read by read to nothing, each time first the uniform part's cell and then those of the
/// processors in order, is held as the machine's definition holds it: by read the cells in the order first asked for, marked where two
/// processors ask. All asks of a worker that fits can be added, and cells below a number stay below it.
pub fn held_asks_are_the_machines()
    // A worker's asks, added read by read, are held as by the machine's worker, where each read is of one side and
    // cells have 20 bits.
    ensures held { AddedAsksAreTheMachines }
    // Each ask of a worker whose values fit is by one of eight reads and for a cell of the map.
    ensures fit { AsksCanBeAdded }
    // The asks of a worker whose values fit, and whose reads are each of one side, are held as the machine's worker
    // holds them.
    ensures fitting { FittingAsksAreTheMachines }
    // Asks for cells below a number leave only asks for such cells held, if only such were.
    ensures below { CellsStayBelow }
{}

/// The words that were packed for a module are read as the puts and the asks that they were packed from; so what is read from columns
/// of messages for a module comes to what the machine's definition makes of these messages.
pub fn packed_words_are_read_back()
    // The words packed for a module are read as the puts that are held for it.
    ensures puts { (rule : RuleName) (m : Shape) (j : ℕ) (held : List CellPut) → AllByRecursion (FitsPut rule) held →
        AllByRecursion (IsPutBelow m.count) held
        → puts_in rule m j (packed_puts rule m.part j held) ≡ puts_for m.part j held }
    // The words of asks for a module are read as these asks.
    ensures asks { (m : Shape) (j : ℕ) (asks : List CellAsk) → AllByRecursion (IsAskFor m j) asks → asks_in m j (ask_words asks) ≡ asks }
    // The words of messages for a module say of each cell's writers what the machine makes of these messages.
    ensures entries { (rule : RuleName) (m : Shape) (j : ℕ) (column : List Message) →
        AllByRecursion (λ (x : Message). AllByRecursion (IsPutFor rule m j) x.puts) column
        → (c : ℕ) → entry_read rule m j (map (λ (x : Message). flat_map (put_words rule) x.puts) column) c ≡ entry_came rule column c }
    // The words of messages for a module say of those who ask for a cell what the machine makes of these messages.
    ensures askers { (m : Shape) (j : ℕ) (column : List Message) →
        AllByRecursion (λ (x : Message). AllByRecursion (IsAskFor m j) x.asks) column
        → (k c : ℕ) → askers_read m j (map (λ (x : Message). ask_words x.asks) column) k c ≡ askers_came column k c }
{}

/// What a module's merge leaves and tells of any headers and words are the cells and the conflict of the machine's worker after its
/// send, where the map is lawful and its values are as many as the module's cells; what is told of a private read is the conflict that the
/// machine notes of it.
pub fn modules_are_the_machines()
    // Of any headers and words, a merge leaves the cells of the machine's worker after its send, by a lawful map.
    ensures cells { MergedCells }
    // Of any headers and words, the conflict that a merge tells is the least key that the machine's module notes of the
    // puts.
    ensures conflict { MergedConflict }
    // The cell told of a private read is the conflict that the machine notes of it; of a uniform read it notes none.
    ensures shared { SharedConflict }
{}

/// A merge of what all workers packed gives each cell of the module what the write rule gives for the set of the cell's writers, and tells
/// the least cell for whose writers it gives a conflict: the writers of a cell are different processors, on whichever workers they are.
pub fn merges_give_what_the_rule_gives()
    // Of what all workers packed, each cell gets what the rule gives for its writers, different processors; those in
    // conflict keep their values, and the least is told.
    ensures { MergesByTheRule }
{}

/// What a module answers to the ask words of a send, by the values after it, are the words of the machine's reply.
pub fn answers_are_the_machines()
    // Of any headers and words that came in a send, the answers to a worker's asks are the words of the machine's reply
    // to it.
    ensures { AnswersAreTheReply }
{}

/// The value of a held ask stands at the place that `Asks::add` told, whatever asks and replies come.
pub fn held_asks_keep_their_places()
    // The value for a read and a cell stands at the place of their ask.
    ensures value { ValueStandsAtItsPlace }
    // No later ask moves one that is held.
    ensures asks { AsksMoveNothing }
    // No reply moves an ask that is held.
    ensures replies { RepliesMoveNothing }
{}

/// When the replies of all modules were taken, one after the other, the value for a read and a cell is the one that the machine's worker
/// takes for them: for any asks that it sent, and for those that were added read by read.
pub fn taken_values_are_the_machines()
    // When all modules' replies were taken, the value for a read and a cell is the one that the machine's worker takes,
    // for any asks that it sent.
    ensures wanted { ValuesAreTheMachines }
    // So it is for the asks of a worker whose values fit that were added read by read and sent.
    ensures added { AddedAsksGetTheirValues }
{}
