//! The laws of this crate: what a precondition and a postcondition say of inputs and of runs.

ghost use Rattle.std.specs.Prelude.{◌≡◌, ◌↔◌, ◌++◌, ℕ, ℤ, List, Option, Some, None, true, length};
ghost use Rattle.std.specs.List.{Contains};
ghost use Rattle.pram_check.specs.Checked.{Checked};
ghost use Rattle.scopes.specs.declared.specification.Specification as given;
ghost use Rattle.scopes.specs.Found.{found, of_so_many};
ghost use Rattle.scopes.specs.Specified.{affirms, counting, fails};
ghost use Rattle.scopes.specs.Told.{HasFailed, IsAffirmed};

/// What affirms an input is a run that ends and prints last a number that isn't 0; and a run fails that ends, and whose end the
/// postcondition doesn't affirm.
pub fn affirming_is_by_the_outcome()
    // A program affirms an input exactly where its outcome on it is an end and the last number that it printed isn't 0.
    ensures affirms { (q : Checked) (n : ℕ) (input : List ℤ) → (affirms q n input ≡ true) ↔ IsAffirmed q n input }
    // A run fails exactly where its outcome is an end and the postcondition doesn't affirm what is handed on.
    ensures fails { (p q : Checked) (n : ℕ) (input : List ℤ) → (fails (Some q) p n input ≡ true) ↔ HasFailed p q n input }
{}

/// Just the inputs that the precondition affirms count, in their order; and all where there is none.
pub fn just_what_is_affirmed_counts()
    // With a precondition just the inputs that it affirms count.
    ensures affirmed { (q : Checked) (n : ℕ) (inputs : List (List ℤ)) (input : List ℤ) →
        Contains (counting (Some q) n inputs) input ↔ Contains inputs input × (affirms q n input ≡ true) }
    // Without one all count.
    ensures all { (n : ℕ) (inputs : List (List ℤ)) → counting None n inputs ≡ inputs }
    // Of inputs and others behind them those that count stand in that order.
    ensures order { (q : Option Checked) (n : ℕ) (before behind : List (List ℤ)) →
        counting q n (before ++ behind) ≡ counting q n before ++ counting q n behind }
{}

/// With a precondition that is found which is found without one of the inputs that count, but for how many inputs there are.
pub fn a_precondition_leaves_inputs_out()
    // What is found is what is found without a precondition of the inputs that count, but for the number of inputs.
    ensures { (s : given.Specification) (p : Checked) (n : ℕ) (inputs : List (List ℤ)) →
        found s p n inputs ≡ of_so_many (length inputs)
        (found (record { precondition = None; postcondition = s.postcondition }) p n (counting s.precondition n inputs)) }
{}

/// Where there is no precondition all inputs are counted, and where there is no postcondition no run fails.
pub fn without_a_specification_nothing_is_left_out()
    // Without a precondition as many inputs count as there are.
    ensures counting { (s : given.Specification) (p : Checked) (n : ℕ) (inputs : List (List ℤ)) → s.precondition ≡ None →
        (found s p n inputs).counting ≡ length inputs }
    // Without a postcondition no run fails.
    ensures failed { (s : given.Specification) (p : Checked) (n : ℕ) (inputs : List (List ℤ)) → s.postcondition ≡ None →
        (found s p n inputs).failed ≡ 0 }
{}
