//! Nodes by their numbers.

ghost use Rattle.std.specs.Prelude.{◌≡◌, IfOk};
ghost use Rattle.drawn_kinds.specs.Kinds as spec;

use std::alloc::{AllocError, Global};

/// The number of the node at a place, where the first one has that number.
pub(crate) fn node(first: u32, place: u32) -> i64
    ensures { result ≡ spec.node first place }
{
    i64::from(first) + i64::from(place)
}

/// The nodes at these places.
pub(crate) fn nodes(alloc: Global, first: u32, order: &[u32]) -> Result<Vec<i64>, AllocError>
    ensures { IfOk result (λ found. found.items ≡ spec.nodes first order.now) }
{
    let mut found = Vec::new(alloc);
    for place in order {
        found.push(node(first, *place))?;
    }
    Ok(found)
}

/// Of each of these nodes the one behind it, and of the last one the end.
pub(crate) fn behind(
    alloc: Global,
    first: u32,
    end: i64,
    order: &[u32],
) -> Result<Vec<i64>, AllocError>
    ensures { IfOk result (λ found. found.items ≡ spec.behind first end order.now) }
{
    let rest = match order {
        [] => order,
        [_, rest @ ..] => rest,
    };
    let mut found = nodes(alloc, first, rest)?;
    found.push(end)?;
    Ok(found)
}
