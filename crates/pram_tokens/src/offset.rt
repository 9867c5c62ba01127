//! Where a token stands in its text.

ghost use Rattle.std.specs.Prelude.{◌≡◌};
ghost use Rattle.pram_tokens.specs.InOrder as spec;

/// The offset of the token that has so many tokens from it on, and at 0 the end.
pub fn offset_of(offsets: &[u32], left: usize, end: u32) -> u32
    ensures value { result ≡ spec.offset_of offsets.now left end }
{
    let at = offsets.len().saturating_sub(left);
    if at < offsets.len() { offsets[at] } else { end }
}
