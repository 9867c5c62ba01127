//! Reading the declarations of a listing.

ghost use Rattle.std.specs.Prelude.{◌≡◌, ◌≤◌, ◌+◌, ◌++◌, ◌∷◌, [], List, ℕ, map, MatchBool, IfOk, OnOk, not, ◌||◌};
ghost use Rattle.std.specs.HashSet.{contains_by};
ghost use Rattle.std.specs.Str.{bytes_eq};
ghost use Rattle.pram_model.specs.Layout.{SharedEntry, most_cells, size, total_size};
ghost use Rattle.superstep_instructions.specs.Limits.{AreBounds, IsEntry, IsLayout};
ghost use Rattle.superstep_listing.specs.Names.{AreKnown};
ghost use Rattle.superstep_listing.specs.Listing.{ended, entry_line};

use crate::entry_line::Declaration;
use crate::lines::next_entry;
use pram_model::Layout;
use std::alloc::{AllocError, Global};
use std::collections::HashSet;

/// The greatest number of cells.
const MOST_CELLS: i64 = 1_048_576;

/// Whether no declaration has this name.
fn is_new(names: &HashSet<&[u8]>, name: &[u8]) -> bool
    ensures value { result ≡ not (contains_by (λ k. bytes_eq name.now k.now) names.now) }
{
    !names.contains(name)
}

/// Takes a name in.
fn take_name<'a>(names: &mut HashSet<&'a [u8]>, name: &'a [u8]) -> Result<(), AllocError>
    ensures ok { OnOk result ((q : List ℕ) → contains_by (λ k. bytes_eq q k.now) names.new
        ≡ (bytes_eq name.now q || contains_by (λ k. bytes_eq q k.now) names.old)) }
{
    let _added = names.insert(name)?;
    Ok(())
}

/// Whether there are few enough cells with a declaration of these bounds.
fn has_room(layout: &Layout, bounds: Option<(i64, i64)>) -> bool
    requires { AreBounds bounds }
    ensures value { MatchBool result (total_size layout.now + size bounds ≤ most_cells)
        (total_size layout.now + size bounds ≤ most_cells → ⊥) }
{
    let free = MOST_CELLS - layout.cells() as i64;
    match bounds {
        None => 1 <= free,
        Some((low, high)) => high - low < free,
    }
}

/// Takes a declaration in, behind the others.
fn push(alloc: Global, layout: &mut Layout, entry: Declaration) -> Result<(), AllocError>
    requires entry { IsEntry (record { name = entry.name.now; bounds = entry.bounds }) }
    requires room { total_size layout.old + size entry.bounds ≤ most_cells }
    ensures ok { OnOk result (layout.new ≡ layout.old ++ record { name = entry.entry.name.now; bounds = entry.entry.bounds } ∷ []) }
{
    match entry.bounds {
        None => layout.push_cell(alloc, entry.name),
        Some((low, high)) => layout.push_array(alloc, entry.name, low, high),
    }
}

/// Takes a declaration in, behind the others, if it may stand there.
fn add<'a>(
    alloc: Global,
    layout: &mut Layout,
    names: &mut HashSet<&'a [u8]>,
    entry: Declaration<'a>,
) -> Result<bool, AllocError>
    requires layout { IsLayout layout.old }
    requires known { AreKnown (λ q. contains_by (λ k. bytes_eq q k.now) names.old) layout.old }
    requires entry { IsEntry (record { name = entry.name.now; bounds = entry.bounds }) }
    ensures ok { IfOk result (λ b. MatchBool b
        (IsLayout layout.new × (layout.new ≡ layout.old ++ record { name = entry.entry.name.now; bounds = entry.entry.bounds } ∷ []))
        ((layout.new ≡ layout.old) × (IsLayout (layout.old ++ record { name = entry.entry.name.now; bounds = entry.entry.bounds } ∷ []) →
        ⊥))) }
    ensures known { OnOk result (AreKnown (λ q. contains_by (λ k. bytes_eq q k.now) names.new) layout.new) }
{
    if !is_new(names, entry.name) || !has_room(layout, entry.bounds) {
        return Ok(false);
    }
    push(alloc, layout, entry)?;
    take_name(names, entry.name)?;
    Ok(true)
}

/// The declarations at the front of a text, as many as there are, and what stands behind them.
pub(crate) fn layout_of(alloc: Global, text: &[u8]) -> Result<(Layout, &[u8]), AllocError>
    ensures layout { IfOk result (λ x. IsLayout x.0) }
    ensures whole { IfOk result (λ x. text.now ≡ ended (map entry_line x.0) ++ x.1.now) }
    ensures most { IfOk result (λ x. (e : SharedEntry) (more : List ℕ)
        → IsLayout (x.0 ++ e ∷ []) → x.1.now ≡ entry_line e ++ 10 ∷ more → ⊥) }
{
    let mut layout = Layout::new(alloc);
    let mut names = HashSet::new(alloc);
    let mut rest = text;
    while let Some((entry, behind)) = next_entry(rest) {
        if !add(alloc, &mut layout, &mut names, entry)? {
            return Ok((layout, rest));
        }
        rest = behind;
    }
    Ok((layout, rest))
}
