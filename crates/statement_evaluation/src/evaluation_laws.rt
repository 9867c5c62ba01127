//! Laws of whole evaluation.

ghost use Rattle.statement_evaluation.specs.Attempts.{ExpressionsAreWhole, ValuesAreWhole, AssignmentsAreWhole};
ghost use Rattle.statement_evaluation.specs.Attempts.{InnerAssignmentsAreWhole, BoundsAreWhole, RangesAreWhole};
ghost use Rattle.statement_evaluation.specs.Attempts.{TestPartsAreCut, AssignmentPartsAreCut};
ghost use Rattle.std.specs.Prelude.{ℕ, ℤ};
ghost use Rattle.pram_meaning.specs.Attempt.{Effect};
ghost use Rattle.statement_evaluation.specs.Effects.{PartsAreWhole, TestsAreValues, LocalsAreValues};
ghost use Rattle.statement_evaluation.specs.Effects.{CellsAreSettled, NoCellIsLost, EntriesAreTheRule, OneWriterIsTheRule};
ghost use Rattle.statement_evaluation.specs.LeastFaults.{LeastFaultIsNoted, TogetherIsNoted, AloneIsNoted, AreToldInOneOrder};
ghost use Rattle.statement_evaluation.specs.LeastFaults.{NoneDifferInKindAlone};

/// A processor's attempt at a statement is its whole evaluation, in which it goes on after a fault
/// with 0, cut off at the first thing noted: for an expression, for each kind of statement outside
/// and inside pardo, and for the bounds of a `for` and of a pardo. So are the parts of a set of
/// processors at a test and at an assignment.
pub fn attempts_are_whole()
    // An attempt at an expression, behind whatever came before, is its whole evaluation, which goes on after a fault
    // with 0, cut off at the first thing noted.
    ensures expressions { ExpressionsAreWhole }
    // An attempt at a print, a test, or a value for a variable or local is its whole evaluation, cut off at the first
    // thing noted.
    ensures values { ValuesAreWhole }
    // An attempt at an assignment outside pardo is its whole evaluation, cut off at the first thing noted.
    ensures assignments { AssignmentsAreWhole }
    // An attempt at an assignment inside pardo is its whole evaluation, cut off at the first thing noted.
    ensures inner_assignments { InnerAssignmentsAreWhole }
    // An attempt at the bounds of a `for` is their whole evaluation, cut off at the first thing noted.
    ensures bounds { BoundsAreWhole }
    // An attempt at the bounds of a pardo is their whole evaluation, cut off at the first thing noted.
    ensures ranges { RangesAreWhole }
    // At a test inside pardo each processor's part is its whole evaluation, cut off at the first thing noted.
    ensures test_parts { TestPartsAreCut }
    // At an assignment inside pardo each processor's part is its whole evaluation, cut off at the first thing noted.
    ensures assignment_parts { AssignmentPartsAreCut }
{}

/// The fault of a statement: on a set of processors with different indices, the least of the
/// faults of the attempts, with the conflicts between them, is the least key that is noted where
/// all processors go on after their faults; outside pardo it is the first note. The meaning's order
/// of faults is the machine's order of keys, since no two faults of a statement differ in their
/// kind alone.
pub fn least_fault_is_noted()
    // Under each rule the least fault of a statement, on processors with different indices, is the least key noted
    // where all of them go on.
    ensures least { LeastFaultIsNoted }
    // On processors with different indices a statement's parts come out, or the fault of the least key noted where all
    // of them go on.
    ensures together { TogetherIsNoted }
    // Where one processor alone evaluates an expression, its value comes out, or the fault of the first note.
    ensures values_alone { AloneIsNoted ℤ }
    // Where one processor alone prints, tests or assigns, the effect comes out, or the fault of the first note.
    ensures effects_alone { AloneIsNoted Effect }
    // Of a `for` the bounds come out, or the fault of the first note.
    ensures bounds_alone { AloneIsNoted (ℤ × ℤ) }
    // Of a pardo the range comes out, or the fault of the first note.
    ensures ranges_alone { AloneIsNoted (ℤ × ℕ) }
    // Faults that differ in more than their kind are in the order of the machine's keys.
    ensures order { AreToldInOneOrder }
    // No two faults of a statement, on processors with different indices, differ in their kind alone.
    ensures kinds { NoneDifferInKindAlone }
{}

/// Where no processor notes a fault of its own, a statement does what the values of the whole
/// evaluations say: each part is whole; a test splits the set by them; each local gets its own; each
/// cell has what the rule gives for its writers, and none is lost. What the machine combines for a
/// cell has the rule's value as its verdict, and a single writer leaves its value.
pub fn effects_are_values()
    // Where no processor notes a fault of its own, each one's part gives its whole value.
    ensures parts { PartsAreWhole }
    // Where no processor notes a fault of its own, a test leaves the members whose values are true, or false.
    ensures tests { TestsAreValues }
    // Where no processor notes a fault of its own, each gets its value in the local that is assigned.
    ensures locals { LocalsAreValues }
    // Where no processor notes a fault of its own, each cell gets what the rule gives for its writers, or keeps its
    // value without any.
    ensures cells { CellsAreSettled }
    // A statement leaves as many cells as there were.
    ensures length { NoCellIsLost }
    // The machine's verdict on a cell's writers with different indices, combined two by two, is the rule's value on
    // them.
    ensures entries { EntriesAreTheRule }
    // A single writer leaves its value, if that has 64 bits, under every rule.
    ensures one_writer { OneWriterIsTheRule }
{}
