//! One round of a map in rounds.
ghost use Rattle.std.specs.Prelude.{◌≡◌, ◌≤◌, ◌^◌};
ghost use Rattle.address_map.specs.Permutation.{round, shifted};
ghost use Rattle.address_map.specs.ShiftLaws.{round_back, unshifted};

use crate::spread::Spread;

// Takes x to (multiplier * x) mod cells, and that to y xor (y >> shift). `inverse` undoes the multiplier.
#[derive(Clone, Copy, Debug)]
pub(crate) struct Round {
    pub(crate) multiplier: u32,
    pub(crate) shift: u32,
    pub(crate) inverse: u32,
}

// A number with its high bits folded onto its low ones.
#[tactic(auto, using(crate::specs::ShiftLaws::shifted_far))]
fn folded(number: u32, shift: u32) -> u32
    ensures { result ≡ shifted shift number }
{
    if shift >= 32 {
        return number;
    }
    number ^ (number >> shift)
}

// What undoes a fold. A fold by s twice is a fold by 2 s, and one by 32 does nothing.
fn unfolded(number: u32, shift: u32) -> u32
    requires { shift ≤ 31 }
    ensures { result ≡ unshifted 5 shift number }
{
    let twice = shift + shift;
    let four_times = twice + twice;
    let eight_times = four_times + four_times;
    let far = folded(number, eight_times + eight_times);
    let near = folded(folded(far, eight_times), four_times);
    folded(folded(near, twice), shift)
}

impl Round {
    // What the round does with a number.
    pub(crate) fn forth(self, spread: Spread, number: u32) -> u32
        ensures { result ≡ round spread.cells self.multiplier self.shift number }
    {
        folded(
            spread.reduce(u64::from(self.multiplier) * u64::from(number)),
            self.shift,
        )
    }

    // What undoes it.
    pub(crate) fn back(self, spread: Spread, number: u32) -> u32
        requires { self.shift ≤ 31 }
        ensures { result ≡ round_back spread.cells self.inverse self.shift number }
    {
        spread.reduce(u64::from(self.inverse) * u64::from(unfolded(number, self.shift)))
    }
}
