//! The least of positions.

ghost use Rattle.std.specs.Prelude.{◌≡◌, ◌⊎◌};

/// The least of two positions of which each may be missing.
pub(crate) fn sooner(one: Option<usize>, two: Option<usize>) -> Option<usize>
    // It is one of them.
    ensures { (result ≡ one) ⊎ (result ≡ two) }
{
    let Some(a) = one else {
        return two;
    };
    let Some(b) = two else {
        return one;
    };
    if b < a {
        return two;
    }
    one
}
