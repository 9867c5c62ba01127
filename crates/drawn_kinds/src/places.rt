//! Values at the places of an order.

ghost use Rattle.std.specs.Prelude.{◌≡◌, ◌≤◌, length, IfOk};
ghost use Rattle.drawn_kinds.specs.Orders.{IsOrder};
ghost use Rattle.drawn_kinds.specs.Kinds.{Follows};

use std::alloc::{AllocError, Global};

/// At each place of an order the value that stands beside it.
pub(crate) fn placed(alloc: Global, order: &[u32], beside: &[i64]) -> Result<Vec<i64>, AllocError>
    requires order { IsOrder (length order.now) order.now }
    requires enough { length order.now ≤ length beside.now }
    ensures follows { IfOk result (λ found. Follows order.now beside.now found.items) }
    ensures count { IfOk result (λ found. length found.items ≡ length order.now) }
{
    let mut found = vec![in alloc; 0; order.len()]?;
    for turn in 0..order.len() {
        found[order[turn] as usize] = beside[turn];
    }
    Ok(found)
}
