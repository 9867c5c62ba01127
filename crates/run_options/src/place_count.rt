//! How many places a map has.

ghost use Rattle.std.specs.Prelude.{◌≤◌};
ghost use Rattle.pram_model.specs.Layout.{most_cells};
ghost use Rattle.address_map.specs.Outcome.{IsCells};
ghost use Rattle.run_options.specs.Places.{IsLeastPower};

/// How many places a map has for that many cells: the least power of two that is not below them, which is 1 where there are none.
pub fn places(cells: u32) -> u32
    requires { cells ≤ most_cells }
    // A map has the least power of two of places that is not below the number of cells.
    ensures least { IsLeastPower cells result }
    // The number of places is a power of two of at most 2^20.
    ensures cells { IsCells result }
{
    'powers: for bits in 0..20u32 {
        let power = 1u32 << bits;
        if power >= cells {
            return power;
        }
    }
    1 << 20
}
