//! The laws of this crate: what findings say of the runs on the inputs.

ghost use Rattle.std.specs.Prelude.{◌≡◌, ◌↔◌, ◌≤◌, ◌+◌, ◌∷◌, ◌++◌, ℕ, ℤ, List, [], Some, None, true, false, length};
ghost use Rattle.std.specs.List.{All, AllPairs, Contains, list_any};
ghost use Rattle.pram_check.specs.Checked.{Checked};
ghost use Rattle.write_rules.specs.Verdict.{Verdict};
ghost use Rattle.write_rules.specs.declared.fault.Fault.{Fault};
ghost use Rattle.pram_meaning.specs.Outcome.{IsOutcome};
ghost use Rattle.scopes.specs.declared.findings.Span as rust;
ghost use Rattle.scopes.specs.declared.specification.Specification as given;
ghost use Rattle.scopes.specs.Firsts.{are_alike};
ghost use Rattle.scopes.specs.Found.{found, span_of};
ghost use Rattle.scopes.specs.Merged.{merged};
ghost use Rattle.scopes.specs.Runs.{fault_of, verdict_on};
ghost use Rattle.scopes.specs.Specified.{counting, counts};
ghost use Rattle.scopes.specs.Told.{IsFirstFailing, IsFirstGoingOn};

/// What a run comes to is its outcome; and each run on an input that counts is counted once, as one that ends, faults or goes on.
pub fn every_run_is_counted()
    // What is found of a run on an input is its outcome, and nothing else is.
    ensures outcome { (p : Checked) (n : ℕ) (input : List ℤ) (v : Verdict) → IsOutcome p input n v ↔ (v ≡ verdict_on p n input) }
    // Each run on an input that counts is counted once, as one that ends, faults or goes on.
    ensures once { (s : given.Specification) (p : Checked) (n : ℕ) (inputs : List (List ℤ)) →
        (found s p n inputs).ended + ((found s p n inputs).faulted + (found s p n inputs).go_on)
        ≡ length (counting s.precondition n inputs) }
{}

/// Each fault that is told is that of the run on its input, which is one of those that count. For each run on one that counts that faults,
/// one of its kind at its line is told, and no two that are told are alike. The first input that counts whose run has a fault of its kind
/// at its line is told with it.
pub fn the_first_faults_are_told()
    // Each fault that is told is that of the run on its input, which is one of the inputs that count.
    ensures occur { (s : given.Specification) (p : Checked) (n : ℕ) (inputs : List (List ℤ)) →
        All (λ m. Contains (counting s.precondition n inputs) m.input × (fault_of (verdict_on p n m.input) ≡ Some m.fault))
        (found s p n inputs).faults }
    // For each run on an input that counts that faults a fault of its kind at its line is told.
    ensures all { (s : given.Specification) (p : Checked) (n : ℕ) (inputs : List (List ℤ)) (input : List ℤ) (f : Fault) →
        Contains (counting s.precondition n inputs) input → fault_of (verdict_on p n input) ≡ Some f →
        list_any (λ m. are_alike m.fault f) (found s p n inputs).faults ≡ true }
    // No two faults that are told have one kind and one line.
    ensures once { (s : given.Specification) (p : Checked) (n : ℕ) (inputs : List (List ℤ)) →
        AllPairs (λ a b. are_alike a.fault b.fault ≡ false) (found s p n inputs).faults }
    // The first input that counts whose run has a fault of its kind at its line is told with it.
    ensures first { (s : given.Specification) (p : Checked) (n : ℕ) (before behind : List (List ℤ)) (input : List ℤ) (f : Fault) →
        counts s.precondition n input ≡ true → fault_of (verdict_on p n input) ≡ Some f →
        All (λ x. counts s.precondition n x ≡ true → (g : Fault) → fault_of (verdict_on p n x) ≡ Some g → are_alike g f ≡ false) before →
        Contains (found s p n (before ++ input ∷ behind)).faults (record { fault = f; input = input }) }
{}

/// The input that is told as one on which the run goes on is the first of these that counts, and none is told exactly where there is none.
pub fn the_first_that_goes_on_is_told()
    // The run goes on on the input that is told so, and on none before it that counts.
    ensures first { (s : given.Specification) (p : Checked) (n : ℕ) (inputs : List (List ℤ)) (input : List ℤ) →
        (found s p n inputs).goes_on_at ≡ Some input → IsFirstGoingOn p n (counting s.precondition n inputs) input }
    // None is told exactly where on no input that counts the run goes on.
    ensures none { (s : given.Specification) (p : Checked) (n : ℕ) (inputs : List (List ℤ)) →
        ((found s p n inputs).goes_on_at ≡ None) ↔ ((found s p n inputs).go_on ≡ 0) }
{}

/// The input that is told as one on which the run fails is the first of these that counts, and none is told exactly where there is none.
pub fn the_first_that_fails_is_told()
    // The run fails on the input that is told so, and on none before it that counts.
    ensures first { (s : given.Specification) (p : Checked) (n : ℕ) (inputs : List (List ℤ)) (input : List ℤ) →
        (found s p n inputs).fails_at ≡ Some input → IsFirstFailing s.postcondition p n (counting s.precondition n inputs) input }
    // None is told exactly where on no input that counts the run fails.
    ensures none { (s : given.Specification) (p : Checked) (n : ℕ) (inputs : List (List ℤ)) →
        ((found s p n inputs).fails_at ≡ None) ↔ ((found s p n inputs).failed ≡ 0) }
{}

/// A span is of the least and the greatest of the numbers, which are among them; there is none of no numbers.
pub fn spans_are_of_the_numbers()
    // The least and the greatest that are told of some numbers are among them.
    ensures among { (ks : List ℕ) (s : rust.Span) → span_of ks ≡ Some s → Contains ks s.least × Contains ks s.greatest }
    // None of the numbers is below the least or above the greatest.
    ensures bounds { (ks : List ℕ) (s : rust.Span) → span_of ks ≡ Some s → All (λ k. (s.least ≤ k) × (k ≤ s.greatest)) ks }
    // Nothing is told exactly where there are no numbers.
    ensures none { (ks : List ℕ) → (span_of ks ≡ None) ↔ (ks ≡ []) }
{}

/// What is found of inputs is what is found of any first ones and of those behind, merged: so blocks of inputs may be run apart.
#[tactic(auto, using(crate::proofs::Merges::blocks_are_merged))]
pub fn blocks_are_merged()
    // What is found of inputs is what is found of any first ones and of those behind, merged.
    ensures { (s : given.Specification) (p : Checked) (n : ℕ) (before behind : List (List ℤ)) →
        found s p n (before ++ behind) ≡ merged (found s p n before) (found s p n behind) }
{}
