//! The laws of this crate: of the inputs of a scope.

ghost use Rattle.std.specs.Prelude.{◌≡◌, ◌≢◌, ◌↔◌, ◌^◌, ◌+ℤ◌, ℕ, ℤ, List, pos, true, false, length};
ghost use Rattle.std.specs.List.{AllPairs, Contains};
ghost use Rattle.scopes.specs.Lists.{AreWithin, IsBefore, factorial, falling};
ghost use Rattle.scopes.specs.Scopes.{inputs_of};
ghost use Rattle.scopes.specs.declared.scope.Scope as specification;

/// The inputs of a scope are just the lists of so many values of its interval, and where they are to be apart just those in which no
/// value stands twice; each is there once, in lexicographic order.
pub fn inputs_are_all_once_in_order()
    // The inputs are just the lists of so many values of the interval; where they are to be apart, just those in which
    // no value stands twice.
    ensures all { (s : specification.Scope) (xs : List ℤ) → Contains (inputs_of s) xs ↔
        (length xs ≡ s.count) × AreWithin s.low s.high xs × (s.apart ≡ true → AllPairs (λ x y. x ≢ y) xs) }
    // They stand in lexicographic order.
    ensures ascend { (s : specification.Scope) → AllPairs IsBefore (inputs_of s) }
    // Each of them is there once.
    ensures once { (s : specification.Scope) → AllPairs (λ xs ys. xs ≢ ys) (inputs_of s) }
{}

/// Of n values in each of k places there are n to the k. Where they are to be apart there are n in the first place, one fewer in the next,
/// and so on: k! where there are just k values.
pub fn inputs_are_so_many()
    // Of n values in k places there are n to the k inputs, where they needn't be apart.
    ensures values { (s : specification.Scope) (n : ℕ) → s.apart ≡ false → s.high +ℤ pos 1 ≡ s.low +ℤ pos n →
        length (inputs_of s) ≡ n ^ s.count }
    // Where they are to be apart, there are n in the first place, one fewer in the next, and so on.
    ensures apart { (s : specification.Scope) (n : ℕ) → s.apart ≡ true → s.high +ℤ pos 1 ≡ s.low +ℤ pos n →
        length (inputs_of s) ≡ falling n s.count }
    // Of the values 1 to k, apart in k places, there are k! orders.
    ensures orders { (s : specification.Scope) → s.apart ≡ true → s.low ≡ pos 1 → s.high ≡ pos s.count →
        length (inputs_of s) ≡ factorial s.count }
{}
