//! What a run of a text is.

ghost use Rattle.program_texts.specs.Report.{HasOneRunAtMost};

/// A text has one run at most on an input, within a bound: by the clauses of `meaning_of_text`
/// alone its answer is the only one, want of memory aside.
pub fn one_run_at_most()
    // Two runs of one text on one input, within one bound, have the same shared declarations and the same outcome.
    ensures { HasOneRunAtMost }
{}
