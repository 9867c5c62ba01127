//! One of so many parts.

ghost use Rattle.std.specs.Prelude.{◌≡◌, ◌<◌};
ghost use Rattle.drawn_kinds.specs.Orders as spec;

/// The part that a word of 64 bits is in, of so many.
#[tactic(auto, using(scopes::proofs::Parts::part_below))]
pub(crate) fn pick(word: u64, parts: u32) -> u32
    requires some { 0 < parts }
    ensures value { result ≡ spec.pick word parts }
    ensures below { result < parts }
{
    (u128::from(word) * u128::from(parts) / 18_446_744_073_709_551_616) as u32
}
