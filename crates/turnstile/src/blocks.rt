// The blocks of the odd and of the even phases.
ghost use Rattle.std.specs.Prelude.{◌≡◌, ℕ, ◌+◌, ◌*◌, ◌<◌, ◌≤◌, ◌++◌, List, map, IfOk, Option, Some};
ghost use Rattle.std.specs.Slots.{slots_items, slots_len, IsFull};
ghost use Rattle.exchange_arena.specs.Block.{pieces_of};
ghost use Rattle.turnstile.specs.Blocks.{even_block, odd_block, Laid};

use crate::letter::Letter;
use crate::shelf::Shelf;
use atomic_table::Closed;
use std::alloc::{AllocError, Global};
use std::collections::VecDeque;
use std::marker::Model;

/// Two blocks of one shape, whose pieces are out. It is neither `Drop` nor `Clone`, so that all pieces must come back.
pub struct Blocks {
    even: Shelf,
    odd: Shelf,
}

impl Model for Blocks {
    ghost use Rattle.std.specs.Prelude.{◌≡◌, ◌<◌, ◌≤◌};
    ghost use Rattle.turnstile.specs.Blocks.{TwoBlocks};

    ghost Value = { TwoBlocks };

    ghost view = { λ b. record { even = b.even.block; odd = b.odd.block; side = b.even.side; room = b.even.room } };

    ghost invariant = { λ b. (b.odd.side ≡ b.even.side) × (b.odd.room ≡ b.even.room) };
}

impl Blocks {
    // Allocates both, with the slots of a table that have their pieces in order, those of the even block first.
    pub(crate) fn new(
        alloc: Global,
        side: usize,
        room: usize,
    ) -> Result<(Blocks, Vec<Option<Letter>>), AllocError>
        requires shape { (0 < side) × (side ≤ 32) × (room ≤ 1048576) }
        ensures shape { IfOk result (λ made. (made.0.side ≡ side) × (made.0.room ≡ room)) }
        ensures slots { IfOk result (λ made. made.1.items ≡ map Some (pieces_of (even_block made.0))
            ++ map Some (pieces_of (odd_block made.0))) }
    {
        let mut slots = VecDeque::with_capacity(alloc, 2 * side * side)?;
        let odd = Shelf::new(alloc, side, room, &mut slots)?;
        match Shelf::new(alloc, side, room, &mut slots) {
            Ok(even) => Ok((Blocks { even, odd }, Vec::from(slots))),
            Err(refused) => {
                odd.take_back(&mut slots);
                Err(refused)
            }
        }
    }

    // Frees both, with the slots that they came with.
    pub(crate) fn take_back(self, slots: Vec<Option<Letter>>)
        requires slots { slots.items ≡ map Some (pieces_of (even_block self))
            ++ map Some (pieces_of (odd_block self)) }
    {
        let Blocks { even, odd } = self;
        let mut slots = VecDeque::from(slots);
        even.take_back(&mut slots);
        odd.take_back(&mut slots);
    }

    // Frees both, with the slots of a table that no worker shares any more.
    pub(crate) fn collect(self, closed: Closed<Option<Letter>, Global>)
        requires count { slots_len closed.slots ≡ 2 * self.side * self.side }
        requires full { IsFull closed.slots }
        requires laid { Laid self (2 * self.side * self.side) (slots_items closed.slots) }
    {
        let Blocks { even, odd } = self;
        let mut closed = closed;
        let half = closed.slot_count() / 2;
        even.collect(&mut closed, 0);
        odd.collect(&mut closed, half);
        closed.free();
    }
}
