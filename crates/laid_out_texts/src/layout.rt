//! Pieces laid out.

ghost use Rattle.std.specs.Prelude.{◌≡◌, ◌<◌, length, IfOk};
ghost use Rattle.laid_out_texts.specs.Layout as spec;
ghost use Rattle.laid_out_texts.specs.Pieces.{seen};

use crate::indent::{add_ending, add_gap};
use crate::piece::{Piece, Place};
use crate::pieces::pieces;
use crate::role::{Role, role_of};
use crate::state::{State, behind, opened, start};
use std::alloc::{AllocError, Global};

// Whether a block whose first piece comes first goes over several lines.
fn is_spread(pieces: &[Piece]) -> bool
    ensures { result ≡ spec.is_spread 1 (seen pieces.now) }
{
    let mut depth: usize = 1;
    for piece in pieces {
        match piece.place {
            Place::Beside => {}
            _ => return true,
        }
        match role_of(piece.bytes) {
            Role::Opens => depth += 1,
            Role::Closes => {
                if depth <= 1 {
                    return false;
                }
                depth -= 1;
            }
            _ => {}
        }
    }
    false
}

fn next(state: State, role: Role, pieces: &[Piece]) -> State
    ensures { result ≡ spec.next state role (seen pieces.now) }
{
    match role {
        Role::Opens => opened(state, is_spread(pieces)),
        _ => behind(state, role),
    }
}

// Pieces laid out.
fn laid(alloc: Global, pieces: &[Piece]) -> Result<Vec<u8>, AllocError>
    ensures { IfOk result (λ to. to.items ≡ spec.laid spec.start (seen pieces.now)) }
{
    let mut to = Vec::new(alloc);
    let mut state = start();
    for at in 0..pieces.len() {
        let piece = pieces[at];
        let role = role_of(piece.bytes);
        add_gap(&mut to, state, piece.place, role)?;
        to.extend_from_slice(piece.bytes)?;
        state = next(state, role, &pieces[at + 1..]);
    }
    add_ending(&mut to, state.before)?;
    Ok(to)
}

/// A text laid out.
pub(crate) fn laid_out(alloc: Global, text: &[u8]) -> Result<Vec<u8>, AllocError>
    ensures { IfOk result (λ to. to.items ≡ spec.laid_out text.now) }
{
    let found = pieces(alloc, text)?;
    laid(alloc, &found)
}
