//! The laws of histories.

ghost use Rattle.superstep_machine.specs.Setting.{Setting};
ghost use Rattle.superstep_machine.specs.Run.{bsp};
ghost use Rattle.worker_exchange.specs.Rows.{words_in};
ghost use Rattle.worker_histories.specs.Growing.{HistoriesGrow, SharesGrow};
ghost use Rattle.worker_histories.specs.Shares.{purpose_of, words_of};
ghost use Rattle.worker_histories.specs.Joined.{HistoriesMakeARun};
ghost use Rattle.worker_histories.specs.InWords.{in_words, HistoriesInWordsMakeARun, HistoriesInWordsAreTheRunSoFar};
ghost use Rattle.worker_histories.specs.Marked.{AllStopOrNone, ClearGrows, MarksEndAllOrNone};

/// A history grows by an exchange at its end: by a row from the worker's last state, and to the state behind the column.
pub fn histories_grow()
    // One exchange more adds to a history a row from the worker's last state, and leads to the state behind the column.
    ensures messages { (t : Setting) → HistoriesGrow (bsp t) }
    // So it is of a history whose messages are words.
    ensures words { (t : Setting) → HistoriesGrow (in_words t) }
    // One exchange more adds what it was for and the words sent and received to the worker's parts in the exchanges.
    ensures parts { (t : Setting) → SharesGrow (bsp t) (purpose_of t) (words_of t.code.rule) }
    // So it is of the parts of a history whose messages are words.
    ensures parts_in_words { (t : Setting) → SharesGrow (in_words t) (purpose_of t) words_in }
    // A history without a mark stays one by an exchange more, or is cut short there by a mark.
    ensures clear { ClearGrows }
{}

/// The histories of workers that exchanged, each of its own steps from the opening, are the run of the machine's definition: their ends
/// are its states, its outcome is theirs, and its exchanges are those at which they sent and received so many words. So it is where
/// messages are words that give them back, and each worker reads those that come by what the exchange is for itself. Histories that
/// aren't at their end are the run up to there.
pub fn histories_make_a_run()
    // Histories of workers' own steps to their end, which exchanged, are the machine's run: its states, its outcome,
    // and its exchanges with their words, for every code and map.
    ensures messages { HistoriesMakeARun }
    // So it is where the messages are words that give them back, and each worker reads them by what the exchange is for
    // itself.
    ensures words { HistoriesInWordsMakeARun }
    // Histories that aren't at their end are the run up to there.
    ensures so_far { HistoriesInWordsAreTheRunSoFar }
{}

/// Where each worker marks its whole last row or nothing of it, and stops where its row or a message that came has a mark, all
/// stop or none: so one history that came to the end of its run says that all did.
pub fn marks_end_all_or_none()
    // Of workers that exchanged, and that stop exactly where their whole row or a message that came was marked, all
    // stop or none.
    ensures exchange { AllStopOrNone }
    // The histories of workers that exchanged were all ended by a mark, or none was.
    ensures histories { MarksEndAllOrNone }
{}
