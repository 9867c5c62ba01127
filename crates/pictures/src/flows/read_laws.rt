//! The law of reads in subscripts.

ghost use Rattle.pictures.specs.Flows.Told.{EachOfAssignments, EachOfBounds, EachOfExpressions, EachOfSteps};

/// One read is told for each that a processor makes who comes to a value: of an expression, of two bounds, and of an assignment
/// outside pardo and inside.
pub fn each_read_is_told()
    // One read is told for each that a processor makes in an expression that comes to a value.
    ensures expressions { EachOfExpressions }
    // One read is told for each that is made in two bounds that come to values.
    ensures bounds { EachOfBounds }
    // One read is told for each that is made in an assignment outside pardo that comes to a value.
    ensures assignments { EachOfAssignments }
    // One read is told for each that a processor makes in an assignment inside pardo that comes to a value.
    ensures steps { EachOfSteps }
{}
