//! The parents of a tree's nodes.

ghost use Rattle.std.specs.Prelude.{◌≡◌, ◌≤◌, ◌<◌, ◌-◌, ◌^◌, length, IfOk};
ghost use Rattle.drawn_kinds.specs.Kinds as spec;

use crate::nodes::node;
use crate::picks::pick;
use std::alloc::{AllocError, Global};

// The place in an order of what is above the node there.
fn above(words: &[u64], turn: u32) -> u32
    requires words { turn ≤ length words.now }
    ensures value { result ≡ spec.above words.now turn }
    ensures before { result ≤ turn }
{
    if turn == 0 {
        return 0;
    }
    pick(words[turn as usize - 1], turn)
}

/// The parents of these nodes, in the same order.
pub(crate) fn parents(alloc: Global, order: &[u32], words: &[u64]) -> Result<Vec<i64>, AllocError>
    requires small { length order.now < 2 ^ 32 }
    requires words { length order.now - 1 ≤ length words.now }
    ensures parents { IfOk result (λ found. found.items ≡ spec.parents_by words.now order.now) }
    ensures count { IfOk result (λ found. length found.items ≡ length order.now) }
    ensures fit { spec.AreWords words.now }
{
    let mut found = Vec::new(alloc);
    for turn in 0..order.len() as u32 {
        let place = order[above(words, turn) as usize];
        found.push(node(1, place))?;
    }
    Ok(found)
}
