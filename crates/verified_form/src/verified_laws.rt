//! Laws of the code of programs within bounds.

ghost use Rattle.verified_form.specs.FormedCode.{FormsAreWellFormed, FormsAreCode};
ghost use Rattle.verified_form.specs.Calm.{StatementsBeginCalm, PartsEndCalm, BranchesAreCalm, LoopsAreCalm};
ghost use Rattle.verified_form.specs.Calm.{TurnsAreCalm, RangesAreCalm, MasksAreCalm, ExitsAreCalm};
ghost use Rattle.verified_form.specs.Straight.{MarksComeFirst, StraightPartsAreFine, EvaluationsStay};

/// The code of a program within bounds is well formed, with empty sends and without: so the
/// verifier accepts it.
pub fn forms_are_well_formed()
    // The code of every program within bounds is well formed, with its empty sends and without.
    ensures formed { FormsAreWellFormed }
{}

/// It keeps the limits of a listing: each register, each declaration, each position and the target of each
/// jump has a number there, if each line has.
pub fn forms_are_code()
    // The code of a checked program within bounds keeps the limits of a listing, if each of its lines has a number of
    // 32 bits.
    ensures limits { FormsAreCode }
{}

/// What stands behind the mark of a statement, up to where control parts or the statement ends, is
/// run as a fold, with a write held before and behind it or not; and what is evaluated there sets
/// no register below the statement's own.
pub fn straight_parts_are_fine()
    // The code of each statement is a mark and its straight part, but for a send before the mark of a write.
    ensures marks { MarksComeFirst }
    // What stands behind a statement's mark, up to where control parts, is run as a fold, a write held before and
    // behind it or not.
    ensures fine { StraightPartsAreFine }
    // What a statement evaluates sets no register below its own and no uniform one inside pardo, and leaves range,
    // masks, output, memory and statement.
    ensures stay { EvaluationsStay }
{}

/// Where the place behind a statement is calm, so is the place behind each of its straight parts and
/// behind each of its blocks: a fault that is noted there is told before anything else happens.
pub fn parts_are_calm()
    // From where a statement begins, or a part with such a place behind it, nothing is noted up to the next mark or
    // halt.
    ensures begin { StatementsBeginCalm }
    // If nothing is noted from behind the send of what a part holds, up to the next mark or halt, nothing is from
    // before it.
    ensures end { PartsEndCalm }
    // Behind the test and the first part of an `if` outside pardo nothing is noted up to the next mark or halt, if
    // nothing is behind it all.
    ensures branches { BranchesAreCalm }
    // Behind the test and the body of a `while` outside pardo nothing is noted up to the next mark or halt, if nothing
    // is behind it all.
    ensures loops { LoopsAreCalm }
    // Behind the bounds, the setting and the body of a `for` nothing is noted up to the next mark or halt, if nothing
    // is behind it all.
    ensures turns { TurnsAreCalm }
    // Behind the bounds and the body of a pardo nothing is noted up to the next mark or halt, if nothing is behind it
    // all.
    ensures ranges { RangesAreCalm }
    // Behind the test and each part of an `if` inside pardo nothing is noted up to the next mark or halt, if nothing is
    // behind it all.
    ensures masks { MasksAreCalm }
    // Behind the loop of a `while` inside pardo nothing is noted up to the next mark or halt, if nothing is behind it
    // all.
    ensures exits { ExitsAreCalm }
{}
