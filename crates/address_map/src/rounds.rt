//! The map in rounds of multiplication and shift.
ghost use Rattle.std.specs.Prelude.{◌≡◌, ◌↔◌, ◌≤◌, ◌%◌, take, true, IfOk, IfErr};
ghost use Rattle.std.specs.List.{All};
ghost use Rattle.address_map.specs.Permutation as permutation;
ghost use Rattle.address_map.specs.Lawful.{spread, Spreads};
ghost use Rattle.address_map.specs.Outcome.{IsWorkers, IsCells, IsRound, AreRounds, IsFault};
ghost use Rattle.address_map.specs.SpreadLaws.{spread_lawful};
ghost use Rattle.address_map.specs.RoundLaws.{rounds_of, rounds_back, rounds_inverse_at, IsUndone};

use crate::affine::inverse_of;
use crate::fault::MapFault;
use crate::map::AddressMap;
use crate::round::Round;
use crate::spread::Spread;

// No map has more rounds.
const MOST: usize = 8;

/// The map that takes a cell through some rounds, and deals the numbers that come out to the modules in turn.
/// A round takes x to (multiplier * x) mod cells, and that number y to y xor (y >> shift).
#[derive(Clone, Copy, Debug)]
pub struct Rounds {
    spread: Spread,
    rounds: [Round; 8],
    count: usize,
    ghost few: { count ≤ 8 },
    ghost undone: { All (IsUndone spread.cells) (take count rounds) },
}

fn is_round(multiplier: u32, shift: u32) -> bool
    ensures { result ≡ true ↔ IsRound (multiplier, shift) }
{
    multiplier % 2 == 1 && shift >= 1 && shift <= 31
}

impl Rounds {
    /// For that many cells and modules, and up to eight rounds, each a multiplier and a shift. `BadWorkers`: the modules are not 1 to 32.
    /// `BadMap`: the cells are no power of two from 1 to 1,048,576, there are more than eight rounds, a multiplier is even, or a
    /// shift is not from 1 to 31.
    #[tactic(auto, using(crate::proofs::Faults::fault_more, crate::proofs::RoundSteps::made_starts, crate::proofs::RoundSteps::made_goes))]
    pub fn new(cells: u32, modules: u32, rounds: &[(u32, u32)]) -> Result<Rounds, MapFault>
        // A map is made only of 1 to 32 modules, 2^e cells for e up to 20, and at most eight rounds, each an odd
        // multiplier and a shift.
        ensures ok { IfOk result (λ m. IsWorkers modules × IsCells cells × AreRounds rounds.now
            × Spreads (⟦<Rounds as AddressMap>⟧.shape m) cells modules (permutation.rounds cells rounds.now)) }
        // First modules outside 1 to 32 are told, then bad cells, more than eight rounds, an even multiplier, or a
        // shift outside 1 to 31.
        ensures err { IfErr result (IsFault (IsCells cells × AreRounds rounds.now) modules) }
    {
        let spread = Spread::new(cells, modules)?;
        if rounds.len() > MOST {
            return Err(MapFault::BadMap);
        }
        let mut made = [Round {
            multiplier: 1,
            shift: 1,
            inverse: 1,
        }; 8];
        for i in 0..rounds.len() {
            let (multiplier, shift) = rounds[i];
            if !is_round(multiplier, shift) {
                return Err(MapFault::BadMap);
            }
            let inverse = inverse_of(multiplier, spread.cells, spread.bits);
            made[i] = Round {
                multiplier,
                shift,
                inverse,
            };
        }
        Ok(Rounds {
            spread,
            rounds: made,
            count: rounds.len(),
        })
    }

    // What the rounds do with a number.
    #[tactic(auto, using(crate::proofs::RoundSteps::forth_goes))]
    fn forth(&self, number: u32) -> u32
        ensures { result ≡ rounds_of self.now.spread.cells (take self.now.count self.now.rounds) number }
    {
        let mut moved = number;
        for i in 0..self.count {
            moved = self.rounds[i].forth(self.spread, moved);
        }
        moved
    }

    // What undoes them.
    #[tactic(auto, using(crate::proofs::RoundSteps::back_goes, crate::proofs::RoundSteps::round_at))]
    fn back(&self, number: u32) -> u32
        ensures { result ≡ rounds_back self.now.spread.cells (take self.now.count self.now.rounds) number }
    {
        let mut moved = number;
        let mut left = self.count;
        while left > 0 {
            left -= 1;
            moved = self.rounds[left].back(self.spread, moved);
        }
        moved
    }
}

impl AddressMap for Rounds {
    ghost shape = { λ m. spread m.spread.cells m.spread.modules (rounds_of m.spread.cells (take m.count m.rounds))
        (rounds_back m.spread.cells (take m.count m.rounds)) };

    fn cells(&self) -> u32 {
        self.spread.cells
    }

    fn modules(&self) -> u32 {
        self.spread.modules
    }

    fn size(&self, module: u32) -> u32 {
        self.spread.size(module)
    }

    fn place(&self, cell: u32) -> (u32, u32) {
        self.spread.split(self.forth(cell))
    }

    fn cell(&self, module: u32, offset: u32) -> Option<u32> {
        let number = self.spread.number(module, offset)?;
        Some(self.back(number))
    }

    ghost lawful = { λ m. spread_lawful m.spread.cells m.spread.modules (rounds_of m.spread.cells (take m.count m.rounds))
        (rounds_back m.spread.cells (take m.count m.rounds)) m.spread.fits m.spread.one m.spread.few
        (rounds_inverse_at m.spread.cells m.spread.bits (take m.count m.rounds) m.spread.power m.spread.small m.undone) };
}
