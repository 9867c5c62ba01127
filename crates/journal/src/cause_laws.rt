//! Laws of causes.

ghost use Rattle.journal.specs.Faults.{AloneExplained, SetExplained, ValuesAgree};

/// What is told as the cause of a fault has that fault: of an expression, whose value is that of its attempt; of a statement outside pardo,
/// which has a cause exactly where its attempt fails; and of the least fault of a set's statement.
#[tactic(auto, using(crate::proofs::Explained::values_agree, crate::proofs::Explained::alone_explained, crate::proofs::SetFaults::set_explained))]
pub fn a_cause_has_the_fault()
    // An expression has the value of its attempt, and where this fails the cause that is told comes to a fault of that
    // kind.
    ensures values { ValuesAgree }
    // A statement outside pardo has a cause exactly where its attempt fails, and the cause comes to a fault of that
    // kind.
    ensures alone { AloneExplained }
    // The least fault of a set's statement has a cause, and it comes to a fault of that kind.
    ensures sets { SetExplained }
{}
