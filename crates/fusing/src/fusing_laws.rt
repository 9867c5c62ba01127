//! What fused code is, and what fusing changes in the runs of worked code, by the definitions alone.

ghost use Rattle.std.specs.Prelude.{◌≡◌, [], ◌∷◌, Some, None, true, false};
ghost use Rattle.pram_values.specs.declared.kind.Kind.TheVariants.{DivideByZero};
ghost use Rattle.pram_values.specs.declared.place.Place.TheVariants.{All};
ghost use Rattle.write_rules.specs.Verdict.{Faulted};
ghost use Rattle.superstep_machine.specs.Run.{Sends, Closes};
ghost use Rattle.flat_machine.specs.ByInstructions.{everywhere, outcome_within};
ghost use Rattle.flat_machine.specs.Exchanges.{exchanges_of};
ghost use Rattle.fusing.specs.Fusing.{FusedCodeFuses, HasAFusedCode, HasOneFusedCode};
ghost use Rattle.fusing.specs.Worked.{dividing, dividing_fused, writing, writing_fused};

/// Well-formed code has exactly one fused code. Whether something is held at a place has one answer:
/// each place is a successor of a lower one, which has left its state there.
pub fn one_code_is_fused()
    // Any two fused codes of one code are equal.
    ensures one { HasOneFusedCode }
    // Well-formed code has a fused code.
    ensures any { HasAFusedCode }
{}

/// That code has the outcomes of the code on the workers of every map, and no other, and its
/// exchanges but for the empty ones where it doesn't fault.
pub fn fused_code_is_right()
    // Fused code is well formed, with the code's header, no empty send, and its outcomes on every map; unless it
    // faults, its other exchanges and words too.
    ensures right { FusedCodeFuses }
{}

/// A fault that an empty send would have told is told at the close, and is the same.
pub fn a_fault_is_told_later()
    ensures told { outcome_within dividing 9 everywhere 4 [] ≡ Some (Faulted (record { kind = DivideByZero; line = 4; place = All }) []) }
    ensures goes_on { outcome_within dividing_fused 9 everywhere 4 [] ≡ None }
    ensures told_later { outcome_within dividing_fused 9 everywhere 5 [] ≡ Some
        (Faulted (record { kind = DivideByZero; line = 4; place = All }) []) }
    ensures exchanges { exchanges_of dividing 2 [] ≡ record { purpose = Sends; held = false } ∷ [] }
    ensures exchanges_later { exchanges_of dividing_fused 2 [] ≡ record { purpose = Closes; held = false } ∷ [] }
{}

/// The exchanges of a run that writes twice.
pub fn exchanges_of_two_writes()
    ensures all { exchanges_of writing 2 [] ≡ record { purpose = Sends; held = true } ∷ record { purpose = Sends; held = false }
        ∷ record { purpose = Sends; held = true } ∷ record { purpose = Closes; held = false } ∷ [] }
    ensures fused { exchanges_of writing_fused 2 [] ≡ record { purpose = Sends; held = true }
        ∷ record { purpose = Sends; held = true } ∷ record { purpose = Closes; held = false } ∷ [] }
{}
