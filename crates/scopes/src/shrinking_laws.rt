//! The laws of this crate: what a list shrinks to, and what is told with smaller inputs.

ghost use Rattle.std.specs.Prelude.{◌≡◌, ◌↔◌, ◌≤◌, ℕ, ℤ, Bool, List, Some, None, true, false, length};
ghost use Rattle.std.specs.List.{All, Contains};
ghost use Rattle.pram_check.specs.Checked.{Checked};
ghost use Rattle.scopes.specs.declared.scope.Scope as scope;
ghost use Rattle.scopes.specs.declared.specification.Specification as given;
ghost use Rattle.scopes.specs.declared.wrong.Wrong as rust;
ghost use Rattle.scopes.specs.declared.wrong.Wrong.TheVariants.{Faults};
ghost use Rattle.scopes.specs.Firsts.{Met, are_alike};
ghost use Rattle.scopes.specs.Found.{Found, found};
ghost use Rattle.scopes.specs.Runs.{fault_of, is_going_on, verdict_on};
ghost use Rattle.scopes.specs.Scopes.{inputs_of};
ghost use Rattle.scopes.specs.Shrunk.{AreShrunk, IsShrunkMet, ShrinksTo, distance, smaller};
ghost use Rattle.scopes.specs.Specified.{counting, fails};
ghost use Rattle.scopes.specs.Wrong.{goes_wrong, is_wrong};

/// Each list shrinks to just one, whatever is wanted.
pub fn each_list_shrinks_to_one()
    // Each list shrinks to some list.
    ensures some { (wanted : List ℤ → Bool) (xs : List ℤ) → (zs : List ℤ) × ShrinksTo wanted xs zs }
    // A list shrinks to no two lists.
    ensures one { (wanted : List ℤ → Bool) (xs ys zs : List ℤ) → ShrinksTo wanted xs ys → ShrinksTo wanted xs zs → ys ≡ zs }
{}

/// What a list that is wanted shrinks to is wanted, none of the smaller lists is, and it is no further from 0.
pub fn what_it_shrinks_to_is_wanted()
    // What a list that is wanted shrinks to is wanted.
    ensures wanted { (wanted : List ℤ → Bool) (xs zs : List ℤ) → ShrinksTo wanted xs zs → wanted xs ≡ true → wanted zs ≡ true }
    // None of the lists that are smaller than what a list shrinks to is wanted.
    ensures last { (wanted : List ℤ → Bool) (xs zs : List ℤ) → ShrinksTo wanted xs zs → All (λ ys. wanted ys ≡ false) (smaller zs) }
    // What a list shrinks to has as many values as it.
    ensures count { (wanted : List ℤ → Bool) (xs zs : List ℤ) → ShrinksTo wanted xs zs → length zs ≡ length xs }
    // The values of what a list shrinks to are no further from 0 than its own, all together.
    ensures near { (wanted : List ℤ → Bool) (xs zs : List ℤ) → ShrinksTo wanted xs zs → distance zs ≤ distance xs }
{}

/// It goes wrong just on inputs of the scope that count, and an input of the scope shrinks to one of the scope.
pub fn inputs_shrink_within_the_scope()
    // It goes wrong in a way exactly on the scope's inputs that count and whose run is wrong in this way.
    ensures inputs { (s : scope.Scope) (t : given.Specification) (p : Checked) (n : ℕ) (wrong : rust.Wrong) (xs : List ℤ) →
        (goes_wrong s t p n wrong xs ≡ true)
        ↔ Contains (counting t.precondition n (inputs_of s)) xs × (is_wrong wrong t.postcondition p n xs (verdict_on p n xs) ≡ true) }
    // An input of the scope shrinks to one of the scope.
    ensures within { (s : scope.Scope) (t : given.Specification) (p : Checked) (n : ℕ) (wrong : rust.Wrong) (xs zs : List ℤ) →
        ShrinksTo (goes_wrong s t p n wrong) xs zs → Contains (inputs_of s) xs → Contains (inputs_of s) zs }
{}

/// What is told with smaller inputs goes wrong as it is told: on inputs of the scope that count, with the fault of the run, which is of the
/// kind and the line of the one before.
pub fn what_is_told_goes_wrong()
    // Each fault that is told is that of the run on its input, which is one of the scope's that count.
    ensures faults { (s : scope.Scope) (t : given.Specification) (p : Checked) (n : ℕ) (g : Found) →
        AreShrunk s t p n (found t p n (inputs_of s)) g →
        All (λ m. Contains (counting t.precondition n (inputs_of s)) m.input × (fault_of (verdict_on p n m.input) ≡ Some m.fault))
        g.faults }
    // A fault that is told with a smaller input has the kind and the line of the one before.
    ensures alike { (s : scope.Scope) (t : given.Specification) (p : Checked) (n : ℕ) (m q : Met) →
        goes_wrong s t p n (Faults m.fault) m.input ≡ true → IsShrunkMet s t p n m q → are_alike m.fault q.fault ≡ true }
    // The run goes on on the input that is told so, which is one of the scope's that count.
    ensures goes_on { (s : scope.Scope) (t : given.Specification) (p : Checked) (n : ℕ) (g : Found) (input : List ℤ) →
        AreShrunk s t p n (found t p n (inputs_of s)) g → g.goes_on_at ≡ Some input →
        Contains (counting t.precondition n (inputs_of s)) input × (is_going_on (verdict_on p n input) ≡ true) }
    // The run fails on the input that is told so, which is one of the scope's that count.
    ensures fails { (s : scope.Scope) (t : given.Specification) (p : Checked) (n : ℕ) (g : Found) (input : List ℤ) →
        AreShrunk s t p n (found t p n (inputs_of s)) g → g.fails_at ≡ Some input →
        Contains (counting t.precondition n (inputs_of s)) input × (fails t.postcondition p n input ≡ true) }
{}
