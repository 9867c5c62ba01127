//! Declarations: their names, bounds and cells.

ghost use Rattle.std.specs.Prelude.{◌≡◌, ◌+◌, ◌≤◌, ◌<◌, ◌++◌, [], ◌∷◌, ◌≤ℤ◌, ◌^◌, ◌↔◌, IsTrue, length, Some, None};
ghost use Rattle.std.specs.Prelude.{MatchOption};
ghost use Rattle.pram_model.specs.Layout.{size, width, total_size, most_cells};
ghost use Rattle.pram_names.specs.Scope as names;
ghost use Rattle.pram_names.specs.Breaches.{at, new_cause, bounds_cause, cells_cause, shared_cause};
ghost use Rattle.pram_names.specs.Breaches.{declaration_breaches};
ghost use Rattle.pram_names.specs.Walk.{Judges};

use pram_names::{Cause, CheckFault, Limit, Meaning, Scope, breach, new_name};
use pram_trees::{Declaration, Layout, Name, Numeral};
use std::alloc::Global;

const MOST_CELLS: u32 = 1_048_576;

// Whether there is room for the cells of an array behind those before it.
fn has_room(before: u32, low: i64, high: i64) -> bool
    requires ordered { low ≤ℤ high }
    requires most { before ≤ most_cells }
    ensures { IsTrue result ↔ (before + width low high ≤ most_cells) }
{
    match high.checked_sub(low) {
        None => false,
        Some(more) => more < i64::from(MOST_CELLS - before),
    }
}

// A single cell.
fn declare_cell<'a>(
    alloc: Global,
    scope: &mut Scope<'a>,
    layout: &mut Layout,
    entry: usize,
    x: &'a Name,
) -> Result<(), CheckFault>
    ensures { Judges (λ _. (scope.new ≡ scope.old ++ (x.now.text, Meaning.Cell entry) ∷ [])
        × (layout.new ≡ layout.old ++ record { name = x.now.text; bounds = None } ∷ []))
        (at x.now.location (shared_cause scope.old (total_size layout.old) x.now.text None)) result }
{
    new_name(scope, x)?;
    if layout.cells() == MOST_CELLS {
        return Err(breach(x.location, Cause::Limit(Limit::Cells)));
    }
    layout.push_cell(alloc, x.text.as_slice())?;
    scope.declare(x.text.as_slice(), Meaning::Cell(entry))?;
    Ok(())
}

// An array.
fn declare_array<'a>(
    alloc: Global,
    scope: &mut Scope<'a>,
    layout: &mut Layout,
    entry: usize,
    x: &'a Name,
    low: Numeral,
    high: Numeral,
) -> Result<(), CheckFault>
    ensures { Judges (λ _. (scope.new ≡ scope.old ++ (x.now.text, Meaning.Array entry) ∷ [])
        × (layout.new ≡ layout.old ++ record { name = x.now.text; bounds = Some (low.value, high.value) } ∷ []))
        (at x.now.location (shared_cause scope.old (total_size layout.old) x.now.text
        (Some (low.value, high.value)))) result }
{
    new_name(scope, x)?;
    if high.value < low.value {
        return Err(breach(x.location, Cause::Limit(Limit::Bounds)));
    }
    if !has_room(layout.cells(), low.value, high.value) {
        return Err(breach(x.location, Cause::Limit(Limit::Cells)));
    }
    layout.push_array(alloc, x.text.as_slice(), low.value, high.value)?;
    scope.declare(x.text.as_slice(), Meaning::Array(entry))?;
    Ok(())
}

// The next declaration; the answer is the number of uniform variables up to it.
fn declare<'a>(
    alloc: Global,
    scope: &mut Scope<'a>,
    layout: &mut Layout,
    uniforms: usize,
    d: &'a Declaration,
) -> Result<usize, CheckFault>
    requires { uniforms + 1 < 2 ^ 64 }
    ensures { Judges (λ n. (scope.new ≡ scope.old ++ names.declared_from (length layout.old) uniforms (d.now ∷ []))
        × (layout.new ≡ layout.old ++ names.shared_entries (d.now ∷ []))
        × (n ≡ uniforms + names.uniform_count (d.now ∷ [])))
        (declaration_breaches scope.old (length layout.old) uniforms (total_size layout.old) (d.now ∷ [])) result }
{
    let entry = layout.len();
    match d {
        Declaration::Cell(x) => {
            declare_cell(alloc, scope, layout, entry, x)?;
            Ok(uniforms)
        }
        Declaration::Array(x, low, high) => {
            declare_array(alloc, scope, layout, entry, x, *low, *high)?;
            Ok(uniforms)
        }
        Declaration::Uniform(x) => {
            new_name(scope, x)?;
            scope.declare(x.text.as_slice(), Meaning::Uniform(uniforms))?;
            Ok(uniforms + 1)
        }
    }
}

/// Takes all declarations in; the answer is the number of uniform variables.
pub fn declare_all<'a>(
    alloc: Global,
    scope: &mut Scope<'a>,
    layout: &mut Layout,
    declarations: &'a [Declaration],
) -> Result<usize, CheckFault>
    requires scope { scope.old ≡ [] }
    requires layout { layout.old ≡ [] }
    ensures { Judges (λ n. (scope.new ≡ names.globals declarations.now)
        × (layout.new ≡ names.shared_entries declarations.now) × (n ≡ names.uniform_count declarations.now))
        (declaration_breaches [] 0 0 0 declarations.now) result }
{
    let mut uniforms = 0;
    for d in declarations {
        uniforms = declare(alloc, scope, layout, uniforms, d)?;
    }
    Ok(uniforms)
}
