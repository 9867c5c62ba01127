//! The map that leaves each cell its number.
ghost use Rattle.std.specs.Prelude.{◌≡◌, IfOk, IfErr};
ghost use Rattle.address_map.specs.Permutation.{same};
ghost use Rattle.address_map.specs.Lawful.{spread, Spreads};
ghost use Rattle.address_map.specs.Outcome.{IsWorkers, IsCells, IsFault};
ghost use Rattle.address_map.specs.SpreadLaws.{spread_lawful, same_inverse};

use crate::fault::MapFault;
use crate::map::AddressMap;
use crate::spread::Spread;

/// The map that leaves each cell its number: cell c is at offset c / modules of module c % modules.
#[derive(Clone, Copy, Debug)]
pub struct Identity {
    spread: Spread,
}

impl Identity {
    /// For that many cells and modules. `BadWorkers`: the modules are not 1 to 32. `BadMap`: the cells are no power of two from 1
    /// to 1,048,576.
    pub fn new(cells: u32, modules: u32) -> Result<Identity, MapFault>
        // A map is made only of 1 to 32 modules and 2^e cells for e up to 20, and deals the cells to the modules in
        // turn.
        ensures ok { IfOk result (λ m. IsWorkers modules × IsCells cells
            × Spreads (⟦<Identity as AddressMap>⟧.shape m) cells modules same) }
        // First a number of modules outside 1 to 32 is told, then a number of cells that is no power of two up to 2^20.
        ensures err { IfErr result (IsFault (IsCells cells) modules) }
    {
        let spread = Spread::new(cells, modules)?;
        Ok(Identity { spread })
    }
}

impl AddressMap for Identity {
    ghost shape = { λ m. spread m.spread.cells m.spread.modules same same };

    fn cells(&self) -> u32 {
        self.spread.cells
    }

    fn modules(&self) -> u32 {
        self.spread.modules
    }

    fn size(&self, module: u32) -> u32 {
        self.spread.size(module)
    }

    fn place(&self, cell: u32) -> (u32, u32) {
        self.spread.split(cell)
    }

    fn cell(&self, module: u32, offset: u32) -> Option<u32> {
        self.spread.number(module, offset)
    }

    ghost lawful = { λ m. spread_lawful m.spread.cells m.spread.modules same same m.spread.fits m.spread.one m.spread.few
        (same_inverse m.spread.cells) };
}
