//! The map that multiplies by an odd number and adds.
ghost use Rattle.std.specs.Prelude.{◌≡◌, ◌≤◌, ◌^◌, ◌*◌, ◌%◌, IfOk, IfErr};
ghost use Rattle.address_map.specs.Permutation.{affine, affine_back};
ghost use Rattle.address_map.specs.Lawful.{spread, Spreads};
ghost use Rattle.address_map.specs.Outcome.{IsWorkers, IsCells, IsOdd, IsFault};
ghost use Rattle.address_map.specs.SpreadLaws.{spread_lawful, cells_positive};
ghost use Rattle.address_map.specs.AffineLaws.{affine_inverse};

use crate::fault::MapFault;
use crate::map::AddressMap;
use crate::spread::Spread;

/// The map that takes cell c to number (multiplier * c + shift) mod cells, and deals the numbers to the modules in turn.
#[derive(Clone, Copy, Debug)]
pub struct Affine {
    spread: Spread,
    multiplier: u32,
    shift: u32,
    inverse: u32,
    ghost undoes: { (multiplier * inverse) % spread.cells ≡ 1 % spread.cells },
}

// What undoes a multiplication by an odd number below a power of two: its power with exponent cells - 1, by squaring.
pub(crate) fn inverse_of(multiplier: u32, cells: u32, bits: u32) -> u32
    requires odd { IsOdd multiplier }
    requires power { cells ≡ 2 ^ bits }
    requires fits { cells ≤ 2 ^ 20 }
    ensures { (multiplier * result) % cells ≡ 1 % cells }
{
    let modulus = u64::from(cells);
    let mut square = u64::from(multiplier) % modulus;
    let mut inverse = 1 % modulus;
    'squares: for power in 0..bits {
        inverse = inverse * square % modulus;
        square = square * square % modulus;
    }
    inverse as u32
}

impl Affine {
    /// For that many cells and modules. `BadWorkers`: the modules are not 1 to 32. `BadMap`: the cells are no power of two from 1 to
    /// 1,048,576, or the multiplier is even.
    #[tactic(auto, using(crate::proofs::Faults::fault_more))]
    pub fn new(cells: u32, modules: u32, multiplier: u32, shift: u32) -> Result<Affine, MapFault>
        // A map is made only of 1 to 32 modules, 2^e cells for e up to 20, and an odd multiplier, and places cells by
        // multiplier and shift.
        ensures ok { IfOk result (λ m. IsWorkers modules × IsCells cells × IsOdd multiplier
            × Spreads (⟦<Affine as AddressMap>⟧.shape m) cells modules (affine cells multiplier shift)) }
        // First a number of modules outside 1 to 32 is told, then a number of cells that is no power of two up to 2^20,
        // or an even multiplier.
        ensures err { IfErr result (IsFault (IsCells cells × IsOdd multiplier) modules) }
    {
        let spread = Spread::new(cells, modules)?;
        if multiplier % 2 == 0 {
            return Err(MapFault::BadMap);
        }
        let inverse = inverse_of(multiplier, spread.cells, spread.bits);
        Ok(Affine {
            spread,
            multiplier,
            shift,
            inverse,
        })
    }
}

impl AddressMap for Affine {
    ghost shape = { λ m. spread m.spread.cells m.spread.modules (affine m.spread.cells m.multiplier m.shift)
        (affine_back m.spread.cells m.inverse m.shift) };

    fn cells(&self) -> u32 {
        self.spread.cells
    }

    fn modules(&self) -> u32 {
        self.spread.modules
    }

    fn size(&self, module: u32) -> u32 {
        self.spread.size(module)
    }

    fn place(&self, cell: u32) -> (u32, u32) {
        let product = u64::from(self.multiplier) * u64::from(cell);
        let number = self.spread.reduce(product + u64::from(self.shift));
        self.spread.split(number)
    }

    fn cell(&self, module: u32, offset: u32) -> Option<u32> {
        let number = self.spread.number(module, offset)?;
        let rest = self.spread.cells - self.shift % self.spread.cells;
        let product = u64::from(self.inverse) * u64::from(number + rest);
        Some(self.spread.reduce(product))
    }

    ghost lawful = { λ m. spread_lawful m.spread.cells m.spread.modules (affine m.spread.cells m.multiplier m.shift)
        (affine_back m.spread.cells m.inverse m.shift) m.spread.fits m.spread.one m.spread.few
        (affine_inverse m.spread.cells m.multiplier m.inverse m.shift m.undoes
        (cells_positive m.spread.cells m.spread.bits m.spread.power)) };
}
