//! Scopes: which inputs there are.

ghost use Rattle.std.specs.Prelude.{◌≤ℤ◌};

/// All lists of `count` values from `low` to `high`; or, where they are to be apart, those in which no value stands twice. So those of
/// `count` values from 1 to `count` that are apart are all orders of 1 to `count`.
#[derive(Clone, Copy, Debug)]
pub struct Scope {
    pub count: u32,
    pub low: i64,
    pub high: i64,
    pub apart: bool,
    ghost filled: { low ≤ℤ high },
}
