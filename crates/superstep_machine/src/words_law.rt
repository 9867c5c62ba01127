//! Words of messages, and reading them back.

ghost use Rattle.std.specs.Prelude.{◌≡◌, ◌∷◌, [], ◌+◌, ◌-◌, ◌^◌, pos, negsuc, true, false};
ghost use Rattle.pram_model.specs.declared.rule.Rule.TheVariants.{Common, Sum};
ghost use Rattle.superstep_machine.specs.Words.{words, blank};
ghost use Rattle.superstep_machine.specs.WordLaws.{WordsReadBack, SentIsReadBack, RepliedIsReadBack, VotedIsReadBack, ClosingIsReadBack};
ghost use Rattle.superstep_machine.specs.WordLaws.{EntriesOfWords, AskersOfWords};

/// The words of a message and its header give it back, at the module that it is for.
pub fn words_read_back()
    // A message that fits in words is given back, at the module that it is for, by its header and its words.
    ensures back { WordsReadBack }
{}

/// The messages of a worker are read back: always those of a vote and a close, and those of a send
/// and a reply where its values fit in words.
pub fn machine_words_read_back()
    // A message of a send, by a worker whose values fit in words, is given back by its header and its words.
    ensures sent { SentIsReadBack }
    // A message of a reply, by a worker whose values fit in words, is given back by its header and its words.
    ensures replied { RepliedIsReadBack }
    // Every message of a vote is given back by its header and its words.
    ensures voted { VotedIsReadBack }
    // Every message of a close is given back by its header and its words.
    ensures closing { ClosingIsReadBack }
{}

/// What the machine's definition makes of messages that are read from any headers and words, is what
/// these words say: for the writers of a cell, and for those who ask for it.
pub fn words_are_what_came()
    // Of messages read from any headers and words, the writers of a cell come to what the words for the module say, the
    // rest passed over.
    ensures entries { EntriesOfWords }
    // Of messages read from any headers and words, whether none, one or more ask for a cell is what the words for the
    // module say.
    ensures askers { AskersOfWords }
{}

/// The order of the words: of each put the cell with the mark of a conflict, the least writer and
/// its value, and behind the puts the asks. A sum has its low and its high 64 bits.
pub fn worked_words()
    ensures values { words Common (record blank {
      puts = record { cell = 5; entry = record { owner = pos 3; value = negsuc 0; clash = true } } ∷ [];
      asks = record { read = 2; cell = 7; twice = true } ∷ [];
    }) ≡ (5 + 2 ^ 20) ∷ 3 ∷ (2 ^ 64 - 1) ∷ (7 + 2 ^ 21 + 2 ^ 23) ∷ [] }
    ensures sums { words Sum (record blank {
      puts = record { cell = 5; entry = record { owner = pos 3; value = pos (2 ^ 64 + 9); clash = false } } ∷ [];
    }) ≡ 5 ∷ 3 ∷ 9 ∷ 1 ∷ [] }
{}
