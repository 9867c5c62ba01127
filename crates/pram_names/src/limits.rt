//! The limits of a program: processors and tokens.

ghost use Rattle.std.specs.Prelude.{◌≡◌, pos};
ghost use Rattle.pram_names.specs.Breaches.{at, procs_cause, token_breaches};
ghost use Rattle.pram_names.specs.Walk.{Judges};

use crate::fault::{Breach, Cause, CheckFault, Limit, Spot};
use crate::resolving::breach;
use pram_trees::Numeral;

const MOST_PROCS: i64 = 16_384;

const MOST_TOKENS: usize = 16_384;

/// The number of processors.
pub fn procs_of(n: Numeral) -> Result<u32, CheckFault>
    ensures { Judges (λ k. pos k ≡ n.value) (at n.location (procs_cause n.value)) result }
{
    if n.value < 1 || MOST_PROCS < n.value {
        return Err(breach(n.location, Cause::Limit(Limit::Procs)));
    }
    Ok(n.value as u32)
}

/// A text has at most so many tokens.
pub fn check_tokens(count: usize) -> Result<(), CheckFault>
    ensures { Judges (λ _. Unit {0}) (token_breaches count) result }
{
    if count > MOST_TOKENS {
        return Err(CheckFault::Refused(Breach {
            spot: Spot::TextEnd,
            cause: Cause::Limit(Limit::Tokens),
        }));
    }
    Ok(())
}
