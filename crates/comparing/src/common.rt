//! What two programs both declare.

ghost use Rattle.std.specs.Prelude.{◌≡◌, ◌<◌, ◌≤◌, [], IfOk, List, Option, Some, length, slice_get, take};
ghost use Rattle.std.specs.List.{cons_option, find};
ghost use Rattle.std.specs.Option.{option_map};
ghost use Rattle.pram_model.specs.Layout.{SharedEntry, total_size};
ghost use Rattle.pram_model.specs.Names.{same_text};
ghost use Rattle.comparing.specs.Common as spec;
ghost use Rattle.scopes.specs.Handed.{Placed, placed};

use crate::compared::CommonRange;
use pram_trees::Layout;
use scopes::{are_same_bounds, is_same_text};
use std::alloc::{AllocError, Global};

// Whether two declarations are of one name, with the same bounds.
fn is_same_entry(first: &Layout, i: usize, second: &Layout, j: usize) -> bool
    requires first_has { i < length first.now }
    requires second_has { j < length second.now }
    ensures { (e f : SharedEntry) → slice_get first.now i ≡ Some e → slice_get second.now j ≡ Some f → result ≡ spec.same_entry e f }
{
    is_same_text(first.name(i), second.name(j))
        && are_same_bounds(first.bounds(i), second.bounds(j))
}

// The number of a declaration's first cell.
fn start_of(layout: &Layout, i: usize) -> u32
    requires { i < length layout.now }
    ensures { (e : SharedEntry) → slice_get layout.now i ≡ Some e →
        slice_get (placed 0 layout.now) i ≡ Some (record { entry = e; start = result }) }
{
    layout.range(i).first
}

// The cells of a declaration of the first program in both, where the second has the same.
fn range_with(first: &Layout, i: usize, second: &Layout) -> Option<CommonRange>
    requires { i < length first.now }
    ensures { (p : Placed) → slice_get (placed 0 first.now) i ≡ Some p →
        result ≡ option_map spec.range_of (spec.shared_with second.now p) }
{
    for j in 0..second.len() {
        if is_same_entry(first, i, second, j) {
            return Some(CommonRange {
                first_start: start_of(first, i),
                second_start: start_of(second, j),
                length: first.size(i),
            });
        }
    }
    None
}

/// The cells of the declarations that stand in both programs, of one name with the same bounds, in the order of the first. The error is
/// that memory was refused.
pub fn common_ranges(
    alloc: Global,
    first: &Layout,
    second: &Layout,
) -> Result<Vec<CommonRange>, AllocError>
    // They are the cells of the declarations of one name and the same bounds in both programs, in the order of the
    // first.
    ensures { IfOk result (λ ranges. ranges.items ≡ spec.common first.now second.now) }
{
    let mut ranges = Vec::new(alloc);
    for i in 0..first.len() {
        if let Some(range) = range_with(first, i, second) {
            ranges.push(range)?;
        }
    }
    Ok(ranges)
}

// The cells of a declaration of the first program, beside those of the second where it has the same, and else beside none.
fn range_or_none(first: &Layout, i: usize, second: &Layout) -> CommonRange
    requires { i < length first.now }
    ensures { (p : Placed) → slice_get (placed 0 first.now) i ≡ Some p → result ≡ spec.range_or_none second.now p }
{
    match range_with(first, i, second) {
        Some(range) => range,
        None => CommonRange {
            first_start: start_of(first, i),
            second_start: second.cells(),
            length: first.size(i),
        },
    }
}

/// The cells of all declarations of the first program, in order, beside those of the second where it has a declaration of that name with
/// the same bounds, and else beside none: from its last cell on. The error is that memory was refused.
pub fn whole_ranges(
    alloc: Global,
    first: &Layout,
    second: &Layout,
) -> Result<Vec<CommonRange>, AllocError>
    // They are the cells of each declaration of the first program, beside those of the same in the second, or beside none.
    ensures { IfOk result (λ ranges. ranges.items ≡ spec.whole first.now second.now) }
{
    let mut ranges = Vec::new(alloc);
    for i in 0..first.len() {
        ranges.push(range_or_none(first, i, second))?;
    }
    Ok(ranges)
}

// The same, where the declaration has that name.
fn named_with(first: &Layout, i: usize, second: &Layout, name: &[u8]) -> Option<CommonRange>
    requires { i < length first.now }
    ensures { (p : Placed) → slice_get (placed 0 first.now) i ≡ Some p →
        result ≡ option_map spec.range_of (find (spec.is_named name.now) (cons_option (spec.shared_with second.now p) [])) }
{
    if is_same_text(first.name(i), name) {
        range_with(first, i, second)
    } else {
        None
    }
}

/// The cells of the declaration of that name, where both programs have it with the same bounds.
pub fn named_range(first: &Layout, second: &Layout, name: &[u8]) -> Option<CommonRange>
    // It is that of the declaration of this name which both programs have with the same bounds, if they do.
    ensures { result ≡ spec.common_named first.now second.now name.now }
{
    for i in 0..first.len() {
        let range = named_with(first, i, second, name);
        if range.is_some() {
            return range;
        }
    }
    None
}

/// The cells of a program's first declarations, as many as that, or of all where it has fewer.
pub fn first_cells(layout: &Layout, declarations: usize) -> u32
    // They are those of the first so many declarations.
    ensures { result ≡ total_size (take declarations layout.now) }
{
    if declarations < layout.len() {
        start_of(layout, declarations)
    } else {
        layout.cells()
    }
}

/// The cells of the declarations with which both programs begin, each of one name with the same bounds: these have the same numbers in
/// both.
pub fn front_cells(first: &Layout, second: &Layout) -> u32
    // They are counted of the longest beginning that the declarations of both programs have in common.
    ensures { result ≡ spec.front_cells first.now second.now }
{
    let most = first.len().min(second.len());
    for i in 0..most {
        if !is_same_entry(first, i, second, i) {
            return first_cells(first, i);
        }
    }
    first_cells(first, most)
}

/// The same of the first declarations alone, as many as that.
pub fn first_front_cells(first: &Layout, second: &Layout, declarations: usize) -> u32
    // They are counted of that beginning, as far as the first so many declarations reach.
    ensures { result ≡ spec.first_front_cells declarations first.now second.now }
{
    front_cells(first, second).min(first_cells(first, declarations))
}
