// A piece on its way between two workers.
ghost use Rattle.std.specs.Prelude.{◌≡◌, ◌≤◌, ◌↔◌, length, IsTrue};
ghost use Rattle.std.specs.Bool.{OnTrue, OnFalse};
ghost use Rattle.exchange_arena.specs.Piece.{emptied_piece, filled_piece};

use exchange_arena::{Header, Piece};
use std::marker::Model;
use std::mem::ManuallyDrop;

/// A piece that may be let go, as whatever a thread returns must be. Its block is then never freed.
#[derive(Drop)]
pub struct Letter {
    piece: ManuallyDrop<Piece>,
}

impl Model for Letter {
    ghost use Rattle.std.specs.Mem.{manually_drop_value};
    ghost use Rattle.exchange_arena.specs.Piece.{PieceState};

    ghost Value = { PieceState };

    ghost view = { λ l. manually_drop_value l.piece };
}

impl Letter {
    pub(crate) fn new(piece: Piece) -> Letter
        ensures value { result ≡ piece }
    {
        Letter {
            piece: unsafe { ManuallyDrop::new_unchecked(piece) },
        }
    }

    pub(crate) fn into_piece(self) -> Piece
        ensures value { result ≡ self }
    {
        let Letter { piece } = self;
        ManuallyDrop::into_inner(piece)
    }

    pub(crate) fn fill(&mut self, header: Header, words: &[u64]) -> bool
        ensures fits { IsTrue result ↔ (length words.now ≤ self.old.room) }
        ensures filled { OnTrue result (self.new ≡ filled_piece self.old header words.now) }
        ensures refused { OnFalse result (self.new ≡ self.old) }
        ensures same { emptied_piece self.new ≡ emptied_piece self.old }
    {
        self.piece.fill(header, words)
    }

    pub(crate) fn clear(&mut self)
        ensures emptied { self.new ≡ emptied_piece self.old }
    {
        self.piece.clear();
    }

    pub(crate) fn header(&self) -> Header
        ensures value { result ≡ self.now.header }
    {
        self.piece.header()
    }

    pub(crate) fn words(&self) -> &[u64]
        ensures value { result.now ≡ self.now.words }
        ensures few { length result.now ≤ self.now.room }
    {
        self.piece.words()
    }
}
