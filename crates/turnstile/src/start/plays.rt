// What each step tells. These types are for the proofs alone.
ghost use Rattle.std.specs.Prelude.{[], false};
ghost use Rattle.turnstile.specs.declared.start.told.Told.TheVariants.{Nothing};
ghost use Rattle.turnstile.specs.Lines.{Line, starter, spent, holds_all, says_go, says_stop, listens, comes_back, next_starter};
ghost use Rattle.turnstile.specs.Lines.{next_runner, takes_in};

use crate::start::told::Part;
use atomic_table::{Join, Play, Split, TableRule};

pub struct Lines;

impl<T> TableRule<Option<T>, Part<T>, usize> for Lines {
    ghost holds = { λ p. Line p };

    ghost first = { λ p. starter 0 false Nothing [] };
}

pub struct Hold;

impl<T> Play<Option<T>, Part<T>> for Hold {
    ghost then = { holds_all };
}

pub struct SayGo;

impl<T> Play<Option<T>, Part<T>> for SayGo {
    ghost then = { says_go };
}

pub struct SayStop;

impl<T> Play<Option<T>, Part<T>> for SayStop {
    ghost then = { says_stop };
}

pub struct Hear;

impl<T> Play<Option<T>, Part<T>> for Hear {
    ghost then = { listens };
}

pub struct Back;

impl<T> Play<Option<T>, Part<T>> for Back {
    ghost then = { comes_back };
}

pub struct Seats;

impl<T> Split<Part<T>> for Seats {
    ghost left = { next_starter };

    ghost right = { next_runner };
}

pub struct TakesIn;

impl<T> Join<Part<T>> for TakesIn {
    ghost both = { takes_in };

    ghost spent = { spent };
}
