//! How many inputs are told.

ghost use Rattle.std.specs.Prelude.{◌≡◌};
ghost use Rattle.comparing.specs.Found as spec;

const MOST_INPUTS: usize = 1000;

const MOST_VALUES: usize = 1_000_000;

/// How many of the inputs on which two programs differ are told, where each has so many values: at most 1,000, and no more than have
/// 1,000,000 values together, but one in any case.
pub(crate) fn most_told(values: usize) -> usize
    ensures { result ≡ spec.most_told values }
{
    let fitting = MOST_VALUES / values.max(1);
    fitting.min(MOST_INPUTS).max(1)
}
