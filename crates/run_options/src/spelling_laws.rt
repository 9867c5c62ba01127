//! The laws of this crate.

ghost use Rattle.std.specs.Prelude.{◌≡◌, ◌<◌, ◌^◌, ◌++◌, ℕ, Some, codes, decimal};
ghost use Rattle.run_options.specs.declared.map_choice.MapChoice.TheVariants.{Affine};
ghost use Rattle.run_options.specs.Numbers.{number_of};
ghost use Rattle.run_options.specs.Maps.{Names};

/// A number below 2^32 that is printed in decimal is read as that number.
pub fn printed_numbers_are_read()
    ensures { (n : ℕ) → n < 2 ^ 32 → number_of (decimal n) ≡ Some n }
{}

/// A map that is printed as `affine:A,B`, with numbers below 2^32, is named so.
pub fn printed_maps_are_named()
    ensures { (a b : ℕ) → a < 2 ^ 32 → b < 2 ^ 32 →
        Names (codes "affine:" ++ (decimal a ++ (codes "," ++ decimal b))) (Affine a b) }
{}
