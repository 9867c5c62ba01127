//! Inputs of each kind.

ghost use Rattle.std.specs.Prelude.{◌≡◌, ◌++◌, ◌*◌, ◌-◌, pos, length, IfOk};
ghost use Rattle.drawn_kinds.specs.Orders.{IsOrder};
ghost use Rattle.drawn_kinds.specs.Kinds as spec;
ghost use Rattle.drawn_kinds.specs.declared.kind.DrawnKind.TheVariants as kinds;

use crate::ends::ends;
use crate::nodes::{behind, node, nodes};
use crate::orders::order;
use crate::parents::parents;
use crate::places::placed;
use crate::words::words;
use crate::{Bounds, DrawnKind, Vertices};
use scopes::{Drawing, draw};
use std::alloc::{AllocError, Global};

// So many places in the order that a seed draws.
fn drawn_order(alloc: Global, count: u32, seed: u64) -> Result<Vec<u32>, AllocError>
    ensures order { IfOk result (λ found. found.items ≡ spec.order_of seed count) }
    ensures permutation { IfOk result (λ found. IsOrder count found.items) }
    ensures count { IfOk result (λ found. length found.items ≡ count) }
{
    let chosen = words(alloc, seed, count.saturating_sub(1) as usize)?;
    order(alloc, count, &chosen)
}

fn list(alloc: Global, count: u32, seed: u64) -> Result<Vec<i64>, AllocError>
    ensures count { IfOk result (λ found. length found.items ≡ count) }
    ensures list { IfOk result (λ found. spec.IsList found.items) }
    ensures drawn { IfOk result (λ found.
        spec.Follows (spec.order_of seed count) (spec.behind 1 (pos 0) (spec.order_of seed count)) found.items) }
{
    let order = drawn_order(alloc, count, seed)?;
    let beside = behind(alloc, 1, 0, &order)?;
    placed(alloc, &order, &beside)
}

fn ring(alloc: Global, first: u32, count: u32, seed: u64) -> Result<Vec<i64>, AllocError>
    ensures count { IfOk result (λ found. length found.items ≡ count) }
    ensures ring { IfOk result (λ found. spec.IsRing first found.items) }
    ensures drawn { IfOk result (λ found.
        spec.Follows (spec.order_of seed count) (spec.round first (spec.order_of seed count)) found.items) }
{
    let order = drawn_order(alloc, count, seed)?;
    let end = match order.first() {
        None => node(first, 0),
        Some(place) => node(first, *place),
    };
    let beside = behind(alloc, first, end, &order)?;
    placed(alloc, &order, &beside)
}

fn tree(alloc: Global, count: u32, seed: u64) -> Result<Vec<i64>, AllocError>
    ensures count { IfOk result (λ found. length found.items ≡ count) }
    ensures tree { IfOk result (λ found. spec.IsTree found.items) }
    ensures drawn { IfOk result (λ found. spec.IsDrawnTree (spec.words_of seed (2 * (count - 1))) count found.items) }
{
    let links = count.saturating_sub(1) as usize;
    let chosen = words(alloc, seed, 2 * links)?;
    let order = order(alloc, count, &chosen)?;
    let beside = parents(alloc, &order, &chosen[links..])?;
    placed(alloc, &order, &beside)
}

// The ends of edges, and a 0 behind them where there are to be an odd number of values.
fn filled_up(mut ends: Vec<i64>, count: u32) -> Result<Vec<i64>, AllocError>
    ensures { IfOk result (λ found. found.items ≡ ends.items ++ spec.one_over count) }
{
    if count % 2 == 0 {
        return Ok(ends);
    }
    ends.push(0)?;
    Ok(ends)
}

fn graph(alloc: Global, vertices: Vertices, count: u32, seed: u64) -> Result<Vec<i64>, AllocError>
    ensures count { IfOk result (λ found. length found.items ≡ count) }
    ensures graph { IfOk result (λ found. spec.IsGraph vertices.count found.items) }
    ensures drawn { IfOk result (λ found. spec.IsDrawn (kinds.Graph vertices) seed count found.items) }
{
    let edges = count / 2;
    let chosen = words(alloc, seed, 2 * edges as usize)?;
    let found = ends(alloc, vertices, edges, &chosen)?;
    filled_up(found, count)
}

// Numbers within the bounds, or from 1 to as many as there are.
fn drawing_of(bounds: Option<Bounds>, count: u32, seed: u64) -> Drawing
    ensures low { result.low ≡ spec.low_of bounds }
    ensures high { result.high ≡ spec.high_of bounds count }
    ensures seed { result.seed ≡ seed }
{
    match bounds {
        None => Drawing {
            low: 1,
            high: i64::from(count.max(1)),
            seed,
        },
        Some(bounds) => Drawing {
            low: bounds.low,
            high: bounds.high,
            seed,
        },
    }
}

fn sorted(
    alloc: Global,
    bounds: Option<Bounds>,
    count: u32,
    seed: u64,
) -> Result<Vec<i64>, AllocError>
    ensures count { IfOk result (λ found. length found.items ≡ count) }
    ensures ascending { IfOk result (λ found. spec.IsAscending (spec.low_of bounds) (spec.high_of bounds count) found.items) }
    ensures drawn { IfOk result (λ found. spec.IsDrawn (kinds.Sorted bounds) seed count found.items) }
{
    let mut found = draw(alloc, drawing_of(bounds, count, seed), count)?;
    found.sort()?;
    Ok(found)
}

fn permutation(alloc: Global, count: u32, seed: u64) -> Result<Vec<i64>, AllocError>
    ensures count { IfOk result (λ found. length found.items ≡ count) }
    ensures permuted { IfOk result (λ found. spec.IsPermuted found.items) }
    ensures drawn { IfOk result (λ found. found.items ≡ spec.nodes 1 (spec.order_of seed count)) }
{
    let order = drawn_order(alloc, count, seed)?;
    nodes(alloc, 1, &order)
}

/// So many values of a kind, which the seed draws, always the same ones. The error is that memory was refused.
pub fn draw_kind(
    alloc: Global,
    kind: DrawnKind,
    count: u32,
    seed: u64,
) -> Result<Vec<i64>, AllocError>
    // There are as many values as are asked for.
    ensures count { IfOk result (λ found. length found.items ≡ count) }
    // They are an input of that kind.
    ensures of_kind { IfOk result (λ found. spec.IsOfKind kind found.items) }
    // They are what the seed draws of that kind: by the shuffle of its words, by its words at their places, or its numbers in order.
    ensures drawn { IfOk result (λ found. spec.IsDrawn kind seed count found.items) }
{
    match kind {
        DrawnKind::List => list(alloc, count, seed),
        DrawnKind::Ring => ring(alloc, 1, count, seed),
        DrawnKind::RingFromZero => ring(alloc, 0, count, seed),
        DrawnKind::Tree => tree(alloc, count, seed),
        DrawnKind::Graph(vertices) => graph(alloc, vertices, count, seed),
        DrawnKind::Sorted(bounds) => sorted(alloc, bounds, count, seed),
        DrawnKind::Permutation => permutation(alloc, count, seed),
    }
}
