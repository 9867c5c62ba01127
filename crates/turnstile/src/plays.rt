// What each step tells. These types are for the proofs alone.
ghost use Rattle.std.specs.Prelude.{[]};
ghost use Rattle.turnstile.specs.Turns.{Holds, keeper, looks_at, finishes, departs, next_keeper, next_worker, taken_in, spent_view};
ghost use Rattle.turnstile.specs.Turns.{collects};

use crate::blocks::Blocks;
use crate::letter::Letter;
use crate::views::View;
use atomic_table::{Join, Play, Split, TableRule};

pub struct Turns;

impl TableRule<Option<Letter>, View, Blocks> for Turns {
    ghost holds = { λ b. Holds b b.side };

    ghost first = { λ b. keeper b b.side 0 [] };
}

pub struct Look;

impl Play<Option<Letter>, View> for Look {
    ghost then = { looks_at };
}

pub struct Finish;

impl Play<Option<Letter>, View> for Finish {
    ghost then = { finishes };
}

pub struct Depart;

impl Play<Option<Letter>, View> for Depart {
    ghost then = { departs };
}

pub struct Seats;

impl Split<View> for Seats {
    ghost left = { next_keeper };

    ghost right = { next_worker };
}

pub struct TakesIn;

impl Join<View> for TakesIn {
    ghost both = { taken_in };

    ghost spent = { spent_view };
}

pub struct Collect;

impl Play<Option<Letter>, View> for Collect {
    ghost then = { collects };
}
