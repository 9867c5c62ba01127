//! Comments that begin as a size line and are none.

ghost use Rattle.std.specs.Prelude.{◌≡◌, ◌≤◌, length};
ghost use Rattle.sized_texts.specs.FalseLines as spec;

use crate::head::{comment_len, is_blank};
use crate::size_line::{begins_word, is_size, line_of, token_then};

// Whether a comment begins with `size`, and is no size line.
fn is_false(comment: &[u8]) -> bool
    ensures { result ≡ spec.is_false comment.now }
{
    is_size(token_then(comment).0) && line_of(comment).is_none()
}

// What stands there where a size line goes on otherwise.
fn stray(comment: &[u8]) -> &[u8]
    ensures value { result.now ≡ spec.stray comment.now }
    ensures within { length result.now ≤ length comment.now }
{
    let (_, rest) = token_then(comment);
    let (word, behind) = token_then(rest);
    if begins_word(word) { behind } else { rest }
}

/// Where in a text the first comment goes wrong that begins with `size` and is no size line, as `# size n-1 = 8`. It stands before the
/// first token, where size lines do. It may be meant so, as `# size of the array`.
pub fn false_line(text: &[u8]) -> Option<usize>
    // The answer is the place where a size line goes on otherwise, of the first comment before the first token that
    // begins with `size` and is none.
    ensures { result ≡ spec.false_line text.now }
{
    let mut at = 0;
    while at < text.len() {
        let byte = text[at];
        let (_, rest) = text.split_at(at + 1);
        if is_blank(byte) {
            at += 1;
        } else if byte == b'#' {
            let length = comment_len(rest);
            let (comment, _) = rest.split_at(length);
            if is_false(comment) {
                return Some(at + 1 + (length - stray(comment).len()));
            }
            at += 1 + length;
        } else {
            return None;
        }
    }
    None
}
