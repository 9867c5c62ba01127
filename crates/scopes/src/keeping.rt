//! The first input of a kind.

ghost use Rattle.std.specs.Prelude.{◌≡◌, OnOk, Some};
ghost use Rattle.std.specs.Option.{option_map, option_or};
ghost use Rattle.scopes.specs.Found.{values_of};

use std::alloc::{AllocError, Global};

/// Keeps an input where none was kept before.
pub(crate) fn keep_input(
    alloc: Global,
    kept: &mut Option<Vec<i64>>,
    input: &[i64],
) -> Result<(), AllocError>
    ensures { OnOk result (option_map values_of kept.new ≡ option_or (option_map values_of kept.old) (Some input.now)) }
{
    if kept.is_some() {
        return Ok(());
    }
    let mut copy = Vec::new(alloc);
    copy.extend_from_slice(input)?;
    *kept = Some(copy);
    Ok(())
}

/// Keeps the first of two inputs: the one before, or else the one behind.
pub(crate) fn keep_first(kept: &mut Option<Vec<i64>>, behind: Option<Vec<i64>>)
    ensures { option_map values_of kept.new ≡ option_or (option_map values_of kept.old) (option_map values_of behind) }
{
    if kept.is_none() {
        *kept = behind;
    }
}
