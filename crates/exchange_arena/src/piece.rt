// A header and words in a part of a block.
ghost use Rattle.std.specs.Prelude.{◌≡◌, ◌+◌, ◌*◌, ◌/◌, ◌≤◌, ◌++◌, ◌↔◌, [], length, IsTrue};
ghost use Rattle.std.specs.Bool.{OnTrue, OnFalse};
ghost use Rattle.exchange_arena.specs.Piece.{emptied_piece, filled_piece, stride, zero_header};
ghost use Rattle.exchange_arena.specs.declared.piece.TheConstants.{MAX_ROOM};

use crate::run::Run;
use std::marker::Model;

/// The most words that a piece has room for, beside its header.
pub const MAX_ROOM: usize = 1048576;

pub(crate) const WORDS_OF_HEADER: usize = 4;

/// The words that stand in front of a piece's own. What they mean is the caller's.
pub type Header = [u64; 4];

/// A header and words in one part of a block, which only the holder of the piece reads and writes.
///
/// It has no `Drop` and no `Clone`: it goes back to its block by `Block::join`.
pub struct Piece {
    run: Run,
    len: usize,
    room: usize,
}

impl Model for Piece {
    ghost use Rattle.std.specs.Prelude.{◌≡◌, ◌+◌, ◌*◌, ◌/◌, ◌≤◌, take, drop, length};
    ghost use Rattle.exchange_arena.specs.Piece.{PieceState, stride};
    ghost use Rattle.exchange_arena.specs.declared.piece.TheConstants.{MAX_ROOM};

    ghost Value = { PieceState };

    ghost view = { λ p. record {
      header = take 4 p.run.items;
      words = drop 4 p.run.items;
      block = p.run.base;
      place = p.run.start / stride p.room;
      room = p.room;
    } };

    ghost invariant = { λ p. (length p.run.items ≡ p.len + 4) × (p.run.room ≡ stride p.room)
        × (p.run.start ≡ p.run.start / stride p.room * stride p.room) × (p.room ≤ MAX_ROOM) };
}

impl Piece {
    ghost use Rattle.exchange_arena.specs.Run.{IsRun};

    pub(crate) fn new(run: Run, room: usize) -> Piece
        requires room { (run.room ≡ stride room) × (room ≤ MAX_ROOM) }
        requires place { run.start ≡ run.start / stride room * stride room }
        ensures value { result ≡ record {
          header = zero_header;
          words = [];
          block = run.base;
          place = run.start / stride room;
          room = room;
        } }
    {
        let mut run = run;
        Piece::write(&mut run, &[0; 4], &[]);
        Piece { run, len: 0, room }
    }

    pub(crate) fn into_run(self) -> Run
        ensures block { result.base ≡ self.block }
        ensures start { result.start ≡ self.place * stride self.room }
        ensures room { result.room ≡ stride self.room }
    {
        let Piece {
            run,
            len: _,
            room: _,
        } = self;
        run
    }

    fn write(run: &mut Run, header: &Header, words: &[u64])
        requires room { length header.now + length words.now ≤ run.old.room }
        ensures written { IsRun run.new run.old.base run.old.start run.old.room (header.now ++ words.now) }
    {
        run.clear();
        run.push_chunk(0, *header);
        run.append(header.len(), words);
    }

    /// Puts this header and these words in place of what the piece holds, if there is room for the words.
    ///
    /// `false` says that there are more words than the piece has room for.
    pub fn fill(&mut self, header: Header, words: &[u64]) -> bool
        // The piece is filled exactly if it has room for the words.
        ensures fits { IsTrue result ↔ (length words.now ≤ self.old.room) }
        // A piece that is filled holds just this header and these words.
        ensures filled { OnTrue result (self.new ≡ filled_piece self.old header words.now) }
        // A piece that isn't filled stays as it was.
        ensures refused { OnFalse result (self.new ≡ self.old) }

        // It is the same piece: its block, its place and its room stay.
        ensures same { emptied_piece self.new ≡ emptied_piece self.old }
    {
        if self.room < words.len() {
            return false;
        }
        Piece::write(&mut self.run, &header, words);
        self.len = words.len();
        true
    }

    /// The header that was filled in last, or zero since the last `clear`.
    pub fn header(&self) -> Header
        ensures value { result ≡ self.now.header }
    {
        let words = self.run.words(self.len + WORDS_OF_HEADER);
        [words[0], words[1], words[2], words[3]]
    }

    /// The words that were filled in last, lent without copying, or none since the last `clear`.
    pub fn words(&self) -> &[u64]
        ensures value { result.now ≡ self.now.words }
        ensures few { length result.now ≤ self.now.room }
    {
        &self.run.words(self.len + WORDS_OF_HEADER)[WORDS_OF_HEADER..]
    }

    /// Leaves the piece with a zero header and no words.
    pub fn clear(&mut self)
        // The piece has a zero header and no words, and its block, its place and its room stay.
        ensures emptied { self.new ≡ emptied_piece self.old }
    {
        Piece::write(&mut self.run, &[0; 4], &[]);
        self.len = 0;
    }
}
