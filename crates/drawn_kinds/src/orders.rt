//! Orders of places, by the method of Fisher and Yates.

ghost use Rattle.std.specs.Prelude.{◌≡◌, ◌≤◌, ◌<◌, ◌-◌, length, IfOk};
ghost use Rattle.std.specs.List.Sorted.{IsPermutation};
ghost use Rattle.drawn_kinds.specs.Orders as spec;

use crate::picks::pick;
use std::alloc::{AllocError, Global};

// The places in their order.
fn places(alloc: Global, count: u32) -> Result<Vec<u32>, AllocError>
    ensures places { IfOk result (λ found. found.items ≡ spec.places count) }
    ensures count { IfOk result (λ found. length found.items ≡ count) }
{
    let mut found = Vec::new(alloc);
    for place in 0..count {
        found.push(place)?;
    }
    Ok(found)
}

// Exchanges each place, from the last on, with one up to it.
fn shuffle(order: &mut [u32], words: &[u64], last: u32)
    requires small { last < 4294967295 }
    requires last { last ≡ length order.old - 1 }
    requires words { last ≤ length words.now }
    ensures order { order.new ≡ spec.shuffled last words.now order.old }
    ensures permutation { IsPermutation order.old order.new }
{
    for turn in 0..last {
        let place = last - turn;
        let other = pick(words[turn as usize], place + 1);
        order.swap(place as usize, other as usize);
    }
}

/// So many places in an order that words choose, one word fewer than there are places.
pub(crate) fn order(alloc: Global, count: u32, words: &[u64]) -> Result<Vec<u32>, AllocError>
    requires words { count - 1 ≤ length words.now }
    ensures order { IfOk result (λ found. found.items ≡ spec.order_by words.now count) }
    ensures permutation { IfOk result (λ found. spec.IsOrder count found.items) }
    ensures count { IfOk result (λ found. length found.items ≡ count) }
{
    let mut found = places(alloc, count)?;
    shuffle(found.as_mut_slice(), words, count.saturating_sub(1));
    Ok(found)
}
