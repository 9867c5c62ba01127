// A block, without its pieces.
ghost use Rattle.std.specs.Prelude.{◌≡◌, ◌*◌, ◌<◌, ◌≤◌, IfOk};
ghost use Rattle.exchange_arena.specs.Block.{Covers, pieces_of};
ghost use Rattle.exchange_arena.specs.declared.block.TheConstants.{MAX_SIDE};
ghost use Rattle.exchange_arena.specs.declared.piece.TheConstants.{MAX_ROOM};

use crate::deed::{Deed, give_back, take};
use crate::piece::{Piece, WORDS_OF_HEADER};
use std::alloc::{AllocError, Allocator, Global};
use std::marker::Model;

/// The most pieces that a row of a block has.
pub const MAX_SIDE: usize = 32;

/// The right to free one allocation, once all its pieces are there again.
///
/// It has no `Drop` and no `Clone`: the one way to spend it is `join`.
pub struct Block<A: Allocator = Global> {
    alloc: A,
    deed: Deed<A>,
    side: usize,
    room: usize,
}

impl<A: Allocator> Model for Block<A> {
    ghost use Rattle.std.specs.Prelude.{◌≡◌, ◌*◌, ◌<◌, ◌≤◌};
    ghost use Rattle.exchange_arena.specs.Piece.{stride};
    ghost use Rattle.exchange_arena.specs.Block.{BlockShape};
    ghost use Rattle.exchange_arena.specs.declared.block.TheConstants.{MAX_SIDE};
    ghost use Rattle.exchange_arena.specs.declared.piece.TheConstants.{MAX_ROOM};

    ghost Value = { BlockShape };

    ghost view = { λ b. record { block = b.deed.base; side = b.side; room = b.room } };

    ghost invariant = { λ b. (b.deed.len ≡ b.side * b.side * stride b.room) × (b.deed.alloc ≡ b.alloc)
        × (0 < b.side) × (b.side ≤ MAX_SIDE) × (b.room ≤ MAX_ROOM) };
}

impl<A: Allocator + Clone + Drop> Block<A> {
    /// Allocates a block of `side` by `side` pieces, each with room for `room` words beside its header.
    ///
    /// The piece of row i and column j stands at index `i * side + j` of the list. The only error is that
    /// the memory of the block or of the list is refused, and then none of it is kept.
    pub fn new(alloc: A, side: usize, room: usize) -> Result<(Block<A>, Vec<Piece, A>), AllocError>
        requires side { (0 < side) × (side ≤ MAX_SIDE) }
        requires room { room ≤ MAX_ROOM }
        ensures side { IfOk result (λ made. made.0.side ≡ side) }
        ensures room { IfOk result (λ made. made.0.room ≡ room) }
        // The pieces are all those of the block, in order of place, each empty and with room for its words.
        ensures pieces { IfOk result (λ made. made.1.items ≡ pieces_of made.0) }

        // The pieces are all that `join` asks for to take the block back.
        ensures covered { IfOk result (λ made. Covers made.0 made.1.items) }
    {
        let count = side * side;
        let stride = room + WORDS_OF_HEADER;
        let len = count * stride;
        let handle = alloc.clone()?;
        let (run, deed) = take(&alloc, len)?;
        let mut pieces = match Vec::with_capacity(handle, count) {
            Ok(pieces) => pieces,
            Err(refused) => {
                give_back(&alloc, run, deed, len);
                return Err(refused);
            }
        };

        // What is left after the last cut is the last piece, since an empty rest could not be let go.
        let mut rest = run;
        for _ in 1..count {
            let (low, high) = rest.cut(stride);
            pieces.push_reserved(Piece::new(low, room));
            rest = high;
        }
        pieces.push_reserved(Piece::new(rest, room));
        let block = Block {
            alloc,
            deed,
            side,
            room,
        };
        Ok((block, pieces))
    }

    /// Takes all pieces of the block back, in order of place, and frees the allocation and the list.
    ///
    /// What the pieces hold is forgotten.
    pub fn join(self, pieces: Vec<Piece, A>)
        requires covered { Covers self pieces.items }
    {
        let Block {
            alloc,
            deed,
            side,
            room,
        } = self;
        let mut pieces = pieces;
        let mut run = pieces.take_last().into_run();
        while pieces.len() > 0 {
            run = pieces.take_last().into_run().join(run);
        }
        pieces.destroy_empty();
        give_back(&alloc, run, deed, side * side * (room + WORDS_OF_HEADER));
    }
}
