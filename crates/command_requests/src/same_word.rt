//! Whether words are the same.

ghost use Rattle.std.specs.Prelude.{◌≡◌};
ghost use Rattle.pram_model.specs.Names.{same_text};

/// Whether they are.
pub(crate) fn is_same(a: &str, b: &str) -> bool
    ensures { result ≡ same_text a.now b.now }
{
    a == b
}
