//! The ends of a graph's edges.

ghost use Rattle.std.specs.Prelude.{◌≡◌, ◌≤◌, ◌<◌, ◌-◌, ◌*◌, ◌+◌, ◌≢◌, ◌++◌, map, length, IfOk, OnOk};
ghost use Rattle.drawn_kinds.specs.Orders.{places};
ghost use Rattle.drawn_kinds.specs.Kinds as spec;

use crate::Vertices;
use crate::nodes::node;
use crate::picks::pick;
use std::alloc::{AllocError, Global};

// The place of the first end of an edge.
fn first_end(vertices: Vertices, words: &[u64], edge: u32) -> u32
    requires words { 2 * edge + 1 < length words.now }
    ensures value { result ≡ spec.first_end vertices.count words.now edge }
    ensures below { result < vertices.count }
{
    pick(words[2 * edge as usize], vertices.count)
}

// One of the other places.
fn other_than(place: u32, rest: u32) -> u32
    requires fits { rest < 4294967295 }
    ensures { result ≡ spec.other_than place rest }
{
    if rest < place { rest } else { rest + 1 }
}

// The place of the second end of an edge.
fn second_end(vertices: Vertices, words: &[u64], edge: u32) -> u32
    requires words { 2 * edge + 1 < length words.now }
    ensures { result ≡ spec.second_end vertices.count words.now edge }
{
    let rest = pick(words[2 * edge as usize + 1], vertices.count - 1);
    other_than(first_end(vertices, words, edge), rest)
}

/// The first ends of so many edges, and then their second ends.
pub(crate) fn ends(
    alloc: Global,
    vertices: Vertices,
    edges: u32,
    words: &[u64],
) -> Result<Vec<i64>, AllocError>
    requires words { 2 * edges ≤ length words.now }
    ensures edges { IfOk result (λ found. found.items ≡ spec.edges_by vertices.count edges words.now) }
    ensures fit { spec.AreWords words.now }
{
    let mut found = Vec::new(alloc);
    for edge in 0..edges {
        found.push(node(1, first_end(vertices, words, edge)))?;
    }
    for other in 0..edges {
        found.push(node(1, second_end(vertices, words, other)))?;
    }
    Ok(found)
}
