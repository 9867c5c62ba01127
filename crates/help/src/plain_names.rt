//! The nearest name.

ghost use Rattle.std.specs.Prelude.{◌≡◌, IfOk, map};
ghost use Rattle.std.specs.Option.{option_map};
ghost use Rattle.help.specs.InScope.{known_is};
ghost use Rattle.help.specs.Nearest as spec;

use crate::{Known, Sort, nearest};
use std::alloc::{AllocError, Global};

// A name of which nothing more is known.
fn plain(name: &[u8]) -> Known<'_>
    ensures { known_is result ≡ spec.plain name.now }
{
    Known {
        name,
        line: 0,
        sort: Sort::Variable,
    }
}

fn all_plain<'a>(alloc: Global, names: &'a [Vec<u8>]) -> Result<Vec<Known<'a>>, AllocError>
    ensures { IfOk result (λ list. map known_is list.items ≡ map (λ n. spec.plain n.items) names.now) }
{
    let mut list = Vec::new(alloc);
    for name in names {
        list.push(plain(name))?;
    }
    Ok(list)
}

fn copied(alloc: Global, found: Option<Known<'_>>) -> Result<Option<Vec<u8>>, AllocError>
    ensures { IfOk result (λ name. option_map (λ n. n.items) name ≡ option_map (λ k. k.name) (option_map known_is found.entry)) }
{
    match found {
        None => Ok(None),
        Some(known) => Ok(Some(Vec::from_slice(alloc, known.name)?)),
    }
}

/// The nearest of some names to another one, as of the names in scope the nearest is found, if one is near enough, and of equally near
/// ones the first. `AllocError`: memory was refused.
pub fn nearest_name(
    alloc: Global,
    names: &[Vec<u8>],
    name: &[u8],
) -> Result<Option<Vec<u8>>, AllocError>
    ensures { IfOk result (λ found. option_map (λ n. n.items) found ≡ spec.nearest_name (map (λ n. n.items) names.now) name.now) }
{
    let known = all_plain(alloc, names)?;
    let found = nearest(alloc, &known, name)?;
    copied(alloc, found)
}
