// What is left of a block while its pieces are out.
ghost use Rattle.std.specs.Prelude.{◌≡◌, ℕ, ◌+◌, ◌*◌, ◌<◌, ◌≤◌, ◌++◌, List, [], map, length, drop, vec_capacity, IfOk, MatchResult};
ghost use Rattle.std.specs.Prelude.{Option, Some};
ghost use Rattle.std.specs.VecDeque.{deque_capacity};
ghost use Rattle.std.specs.Slots.{slots_items, slots_len, slots_filled};
ghost use Rattle.exchange_arena.specs.Piece.{PieceState};
ghost use Rattle.exchange_arena.specs.Block.{pieces_of};
ghost use Rattle.turnstile.specs.Shelves.{Offers, EmptyBelow, FullBetween};

use crate::letter::Letter;
use atomic_table::Closed;
use exchange_arena::{Block, Piece};
use std::alloc::{AllocError, Global};
use std::collections::VecDeque;
use std::marker::Model;

/// A block, and the list that its pieces came in, empty. It is neither `Drop` nor `Clone`, so that its pieces must
/// come back to it.
pub struct Shelf {
    block: Block,
    list: Vec<Piece>,
    side: usize,
}

impl Model for Shelf {
    ghost use Rattle.std.specs.Prelude.{◌≡◌, ◌*◌, ◌<◌, ◌≤◌, [], vec_capacity};
    ghost use Rattle.exchange_arena.specs.Block.{BlockShape};

    ghost Value = { BlockShape };

    ghost view = { λ s. s.block };

    ghost invariant = { λ s. (s.list.items ≡ []) × (s.side * s.side ≤ vec_capacity s.list) × (s.block.side ≡ s.side)
        × (0 < s.side) × (s.side ≤ 32) };
}

impl Shelf {
    // Allocates a block, and puts its pieces before the slots, in order.
    pub(crate) fn new(
        alloc: Global,
        side: usize,
        room: usize,
        slots: &mut VecDeque<Option<Letter>>,
    ) -> Result<Shelf, AllocError>
        requires shape { (0 < side) × (side ≤ 32) × (room ≤ 1048576) }
        requires fits { length slots.old.items + side * side ≤ deque_capacity slots.old }
        ensures shape { IfOk result (λ s. (s.side ≡ side) × (s.room ≡ room)) }
        ensures slots { MatchResult result (λ s. slots.new.items ≡ map Some (pieces_of s)
            ++ slots.old.items) (λ _. slots.new.items ≡ slots.old.items) }
        ensures capacity { deque_capacity slots.new ≡ deque_capacity slots.old }
    {
        let (block, mut list) = Block::new(alloc, side, room)?;
        lay_out(&mut list, slots);
        Ok(Shelf { block, list, side })
    }

    // Takes the pieces out of the first slots, and frees the block.
    pub(crate) fn take_back(self, slots: &mut VecDeque<Option<Letter>>)
        requires pieces { (ys : List (Option PieceState)) × (slots.old.items ≡ map Some (pieces_of self) ++ ys) }
        ensures rest { slots.new.items ≡ drop (self.side * self.side) slots.old.items }
    {
        let Shelf {
            block,
            mut list,
            side,
        } = self;
        for _ in 0..side * side {
            let letter = slots.pop_front().unwrap().unwrap();
            list.push_reserved(letter.into_piece());
        }
        block.join(list);
    }

    // Takes the pieces out of a closed table, whose slots are empty below the first of them, and frees the block.
    pub(crate) fn collect(self, closed: &mut Closed<Option<Letter>, Global>, first: usize)
        requires within { first + self.side * self.side ≤ slots_len closed.old.slots }
        requires pieces { Offers self first (slots_items closed.old.slots) }
        requires empty { EmptyBelow first (slots_filled closed.old.slots) }
        requires full { FullBetween first (slots_len closed.old.slots) (slots_filled closed.old.slots) }
        ensures same { (slots_items closed.new.slots ≡ slots_items closed.old.slots)
            × (slots_len closed.new.slots ≡ slots_len closed.old.slots) }
        ensures empty { EmptyBelow (first + self.side * self.side) (slots_filled closed.new.slots) }
        ensures full { FullBetween (first + self.side * self.side) (slots_len closed.old.slots) (slots_filled closed.new.slots) }
    {
        let Shelf {
            block,
            mut list,
            side,
        } = self;
        for k in 0..side * side {
            let letter = closed.take(first + k).unwrap();
            list.push_reserved(letter.into_piece());
        }
        block.join(list);
    }
}

// Moves the pieces of the list before the slots.
fn lay_out(list: &mut Vec<Piece>, slots: &mut VecDeque<Option<Letter>>)
    requires fits { length slots.old.items + length list.old.items ≤ deque_capacity slots.old }
    ensures laid { slots.new.items ≡ map Some list.old.items ++ slots.old.items }
    ensures empty { list.new.items ≡ [] }
    ensures capacity { (deque_capacity slots.new ≡ deque_capacity slots.old)
        × (vec_capacity list.new ≡ vec_capacity list.old) }
{
    while list.len() > 0 {
        slots.push_front_reserved(Some(Letter::new(list.take_last())));
    }
}
