//! From a text to its pieces.

ghost use Rattle.std.specs.Prelude.{◌≡◌, IfOk};
ghost use Rattle.laid_out_texts.specs.Pieces as spec;

use crate::length::{is_blank, piece_len, trimmed};
use crate::piece::{Piece, Place};
use std::alloc::{AllocError, Global};

// Where a piece stands behind that byte of white space too.
fn behind_blank(place: Place, b: u8) -> Place
    ensures { result ≡ spec.behind_blank place b }
{
    if b != b'\n' {
        return place;
    }
    match place {
        Place::Beside => Place::Below,
        _ => Place::Apart,
    }
}

/// The pieces of a text.
pub(crate) fn pieces(alloc: Global, text: &[u8]) -> Result<Vec<Piece<'_>>, AllocError>
    ensures { IfOk result (λ found. spec.seen found.items ≡ spec.pieces_of text.now) }
{
    let mut found = Vec::new(alloc);
    let mut at = 0;
    let mut place = Place::Beside;
    while at < text.len() {
        let byte = text[at];
        let (_, rest) = text.split_at(at);
        if is_blank(byte) {
            place = behind_blank(place, byte);
            at += 1;
        } else {
            let length = piece_len(rest);
            let (bytes, _) = rest.split_at(length);
            found.push(Piece {
                place,
                bytes: trimmed(bytes),
            })?;
            place = Place::Beside;
            at += length;
        }
    }
    Ok(found)
}
