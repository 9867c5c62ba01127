//! Words of the generator.

ghost use Rattle.std.specs.Prelude.{◌≡◌, length, IfOk};
ghost use Rattle.scopes.specs.Drawn as drawn;

use rand_core::utils::next_u64_via_u32;
use rand_pcg::Pcg32;
use std::alloc::{AllocError, Global};

/// The stream of the generator: that of numbers that are drawn.
const STREAM: u64 = 54;

/// The first words of 64 bits of the generator that a seed starts.
pub(crate) fn words(alloc: Global, seed: u64, count: usize) -> Result<Vec<u64>, AllocError>
    ensures drawn { IfOk result (λ found. found.items ≡ drawn.words count (drawn.generator seed)) }
    ensures count { IfOk result (λ found. length found.items ≡ count) }
{
    let mut generator = Pcg32::new(seed, STREAM);
    let mut found = Vec::new(alloc);
    for turn in 0..count {
        found.push(next_u64_via_u32(&mut generator))?;
    }
    Ok(found)
}
