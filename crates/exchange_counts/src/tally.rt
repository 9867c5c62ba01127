//! What one worker counts of the exchanges of its run.

ghost use Rattle.std.specs.Prelude.{◌≡◌, ◌+◌, ◌<◌, ◌≤◌, ◌++◌, ◌∷◌, [], true, OnOk, OnErr, IfSome, IsSome};
ghost use Rattle.exchange_counts.specs.Tallies.{is_kept, rows_of, made_of, room_of};

use crate::count::Count;
use std::alloc::{AllocError, Global};

/// What one worker counts: what it counted at each exchange, which takes 24 bytes an exchange, or only how many it has made, which takes
/// no memory.
#[derive(Drop)]
pub enum Tally {
    Rows(Vec<Count>),
    Number(u64),
}

impl Tally {
    /// Nothing counted yet. With `kept` each exchange gets a row.
    pub fn new(alloc: Global, kept: bool) -> Tally
        ensures kept { is_kept result ≡ kept }
        ensures none { rows_of result ≡ [] }
        ensures made { made_of result ≡ 0 }
    {
        if kept {
            Tally::Rows(Vec::new(alloc))
        } else {
            Tally::Number(0)
        }
    }

    /// Room to count so many exchanges more. What was counted stays. The error comes only where there is no room: for rows where memory was
    /// refused, else where 2^64 - 1 would be passed.
    pub fn reserve(&mut self, more: usize) -> Result<(), AllocError>
        ensures kept { is_kept self.new ≡ is_kept self.old }
        ensures rows { rows_of self.new ≡ rows_of self.old }
        ensures made { made_of self.new ≡ made_of self.old }
        ensures ok { OnOk result (made_of self.new + more ≤ room_of self.new) }
        ensures full { OnErr result (room_of self.old < made_of self.old + more) }
    {
        match self {
            Tally::Rows(rows) => {
                rows.reserve(more)?;
                Ok(())
            }
            Tally::Number(made) => if more as u64 <= u64::MAX - *made {
                Ok(())
            } else {
                Err(AllocError)
            },
        }
    }

    /// Counts an exchange, for which there is room.
    pub fn note(&mut self, count: Count)
        requires room { made_of self.old < room_of self.old }
        ensures kept { is_kept self.new ≡ is_kept self.old }
        ensures rows { is_kept self.old ≡ true → rows_of self.new ≡ rows_of self.old ++ count ∷ [] }
        ensures made { made_of self.new ≡ made_of self.old + 1 }
        ensures room { room_of self.new ≡ room_of self.old }
    {
        match self {
            Tally::Rows(rows) => rows.push_reserved(count),
            Tally::Number(made) => *made += 1,
        }
    }

    /// How many exchanges were counted.
    pub fn made(&self) -> u64
        ensures { result ≡ made_of self.now }
    {
        match self {
            Tally::Rows(rows) => rows.len() as u64,
            Tally::Number(made) => *made,
        }
    }

    /// How many exchanges can be counted until more room has to be made.
    pub fn room(&self) -> u64
        ensures { result ≡ room_of self.now }
    {
        match self {
            Tally::Rows(rows) => rows.capacity() as u64,
            Tally::Number(_) => u64::MAX,
        }
    }

    /// What was counted at each exchange, where that was kept.
    pub fn into_rows(self) -> Option<Vec<Count>>
        ensures kept { is_kept self ≡ true → IsSome result }
        ensures rows { IfSome result (λ rows. (is_kept self ≡ true) × (rows.items ≡ rows_of self)) }
    {
        match self {
            Tally::Rows(rows) => Some(rows),
            Tally::Number(_) => None,
        }
    }
}
