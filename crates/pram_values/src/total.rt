//! Sums in commutative monoids.

ghost use Rattle.std.specs.Prelude.{◌≡◌, ℕ, ◌<◌, List};
ghost use Rattle.std.specs.List.{AllByRecursion, range_with_len};
ghost use Rattle.pram_values.specs.Total.{IsMonoid, total, in_class};

/// Where each item of a list is in one of p classes, the sum over the classes of their sums is the
/// sum over the list, in any commutative monoid on `M`.
pub fn classes_add_up<A, M>()
    // In any commutative monoid, the sums over the classes of a list's items add up to the sum over the list.
    ensures parts { (unit : M) (op : M → M → M) → IsMonoid M unit op → (f : A → M) (class : A → ℕ) (p : ℕ) (xs : List A)
        → AllByRecursion (λ x. class x < p) xs
        → total unit op (λ k. total unit op f (in_class class k xs)) (range_with_len 0 p) ≡ total unit op f xs }
{}
