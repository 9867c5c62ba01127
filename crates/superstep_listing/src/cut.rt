//! Texts cut at a byte.

ghost use Rattle.std.specs.Prelude.{◌≡◌, MatchOption};
ghost use Rattle.superstep_listing.specs.Cutting.{IsCut, Lacks};

/// What stands before the first such byte, and what stands behind it; `None` where there is none.
pub(crate) fn cut(text: &[u8], byte: u8) -> Option<(&[u8], &[u8])>
    ensures parts { MatchOption result (Lacks byte text.now) (λ p. IsCut byte text.now p.0.now p.1.now) }
{
    for i in 0..text.len() {
        if text[i] == byte {
            return Some((&text[..i], &text[i + 1..]));
        }
    }
    None
}
