//! Truth of values, and comparisons.

ghost use Rattle.std.specs.Prelude.{◌≡◌, ◌&&◌, ◌||◌, not, int_lt, int_le};
ghost use Rattle.pram_values.specs.Truth as spec;

/// 1 for a test that holds, else 0.
pub fn truth(holds: bool) -> i64
    ensures { result ≡ spec.truth holds }
{
    if holds { 1 } else { 0 }
}

/// Whether a value counts as true: every one but 0 does.
pub fn is_true(x: i64) -> bool
    ensures { result ≡ spec.is_nonzero x }
{
    x != 0
}

/// `x and y`: 1 if both are true, else 0.
pub fn both(x: i64, y: i64) -> i64
    ensures { result ≡ spec.truth (spec.is_nonzero x && spec.is_nonzero y) }
{
    truth(is_true(x) && is_true(y))
}

/// `x or y`: 1 if one of them is true, else 0.
pub fn either(x: i64, y: i64) -> i64
    ensures { result ≡ spec.truth (spec.is_nonzero x || spec.is_nonzero y) }
{
    truth(is_true(x) || is_true(y))
}

/// `not x`: 1 for 0, else 0.
pub fn negation(x: i64) -> i64
    ensures { result ≡ spec.truth (not (spec.is_nonzero x)) }
{
    truth(!is_true(x))
}

/// Whether two values are the same.
pub fn is_same(x: i64, y: i64) -> bool
    ensures { result ≡ spec.is_equal x y }
{
    x == y
}

/// `x = y`, as 1 or 0.
pub fn equal(x: i64, y: i64) -> i64
    ensures { result ≡ spec.truth (spec.is_equal x y) }
{
    truth(is_same(x, y))
}

/// `x <> y`, as 1 or 0.
pub fn unequal(x: i64, y: i64) -> i64
    ensures { result ≡ spec.truth (not (spec.is_equal x y)) }
{
    truth(!is_same(x, y))
}

/// `x < y`, as 1 or 0.
pub fn less(x: i64, y: i64) -> i64
    ensures { result ≡ spec.truth (int_lt x y) }
{
    truth(x < y)
}

/// `x <= y`, as 1 or 0.
pub fn at_most(x: i64, y: i64) -> i64
    ensures { result ≡ spec.truth (int_le x y) }
{
    truth(x <= y)
}
