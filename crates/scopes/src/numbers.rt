//! The numbers that are drawn.

ghost use Rattle.std.specs.Prelude.{◌≡◌, ◌*◌, ◌/◌, ◌^◌, ◌<◌, ◌≤◌, ◌≤ℤ◌, length, IfOk};
ghost use Rattle.std.specs.List.{All};
ghost use Rattle.pram_model.specs.Layout.{width};
ghost use Rattle.scopes.specs.Drawn as spec;

use crate::drawing::Drawing;
use rand_core::utils::next_u64_via_u32;
use rand_pcg::Pcg32;
use std::alloc::{AllocError, Global};

/// The stream of the generator: that of PCG's own demonstration.
const STREAM: u64 = 54;

// How many numbers an interval has.
#[tactic(auto, using(pram_model::proofs::Layouts::width_is))]
fn width_of(low: i64, high: i64) -> u128
    requires ordered { low ≤ℤ high }
    ensures value { result ≡ width low high }
    ensures some { 0 < result }
    ensures most { result ≤ 2 ^ 64 }
{
    u128::from(high.abs_diff(low)) + 1
}

// The part that a word of 64 bits is in, of so many parts.
#[tactic(auto, using(crate::proofs::Parts::part_below))]
fn part_of(word: u64, parts: u128) -> u64
    requires some { 0 < parts }
    requires most { parts ≤ 2 ^ 64 }
    ensures value { result ≡ word * parts / 2 ^ 64 }
    ensures within { result < parts }
{
    (u128::from(word) * parts / 18_446_744_073_709_551_616) as u64
}

// The number of an interval that a word of 64 bits stands for.
#[tactic(auto, using(pram_model::proofs::Layouts::width_is))]
fn number(low: i64, high: i64, word: u64) -> i64
    requires ordered { low ≤ℤ high }
    ensures { result ≡ spec.number_of low high word }
{
    let part = part_of(word, width_of(low, high));
    (i128::from(low) + i128::from(part)) as i64
}

/// So many numbers of the interval. A seed always draws the same ones, and fewer of them are the first of more. The error is that memory
/// was refused.
pub fn draw(alloc: Global, drawing: Drawing, count: u32) -> Result<Vec<i64>, AllocError>
    // The numbers are those that the seed draws from the interval, always the same.
    ensures drawn { IfOk result (λ found. found.items ≡ spec.drawn drawing.low drawing.high drawing.seed count) }
    // There are as many as are asked for.
    ensures count { IfOk result (λ found. length found.items ≡ count) }
    // Each lies in the interval.
    ensures within { IfOk result (λ found. All (spec.IsWithin drawing.low drawing.high) found.items) }
{
    let mut generator = Pcg32::new(drawing.seed, STREAM);
    let mut found = Vec::new(alloc);
    for turn in 0..count {
        let word = next_u64_via_u32(&mut generator);
        found.push(number(drawing.low, drawing.high, word))?;
    }
    Ok(found)
}
