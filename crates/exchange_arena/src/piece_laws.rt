// What follows from the definitions that contracts cite.
ghost use Rattle.std.specs.Prelude.{◌≡◌, ℕ, ◌+◌, ◌*◌, ◌<◌, ◌↔◌, List, length, slice_get, Some};
ghost use Rattle.exchange_arena.specs.Piece.{PieceState};
ghost use Rattle.exchange_arena.specs.Block.{BlockShape, Covers, StandInOrder, piece_at, pieces_of};

/// The piece at index k of a block's list is the piece of place k. The body is empty: this is a law, for proofs.
pub fn pieces_stand_in_order()
    // A block of n by n pieces has n * n pieces in its list.
    ensures count { (b : BlockShape) → length (pieces_of b) ≡ b.side * b.side }
    // The piece at index k of a block's list is the piece of place k.
    ensures order { (b : BlockShape) (k : ℕ) → k < b.side * b.side
        → slice_get (pieces_of b) k ≡ Some (piece_at b k) }

    // The piece of row i and column j stands at index i * n + j of the list, for n pieces in a row.
    ensures rows { (b : BlockShape) (i j : ℕ) → i < b.side → j < b.side
        → slice_get (pieces_of b) (i * b.side + j) ≡ Some (piece_at b (i * b.side + j)) }

    // Pieces are all that `join` asks for exactly if they are as many as the block has and stand in order of place.
    ensures covered { (b : BlockShape) (pieces : List PieceState)
        → Covers b pieces ↔ StandInOrder b pieces }
{}
