//! What every map of cells onto modules offers.
ghost use Rattle.std.specs.Prelude.{◌≡◌, ◌<◌};
ghost use Rattle.address_map.specs.Lawful.{Shape, IsLawful, cell_at};

/// Where each cell lies: a map of the cells, one to one, onto the offsets of the modules.
pub trait AddressMap {
    ghost shape: { Self → Shape };

    /// How many cells there are: a power of two, 1,048,576 at most.
    fn cells(&self) -> u32
        ensures { result ≡ (shape self.now).count };

    /// How many modules there are, from 1 to 32.
    fn modules(&self) -> u32
        ensures { result ≡ (shape self.now).parts };

    /// How many offsets a module has.
    fn size(&self, module: u32) -> u32
        requires { «module» < (shape self.now).parts }
        ensures { result ≡ (shape self.now).width «module» };

    /// The module of a cell, and its offset there.
    fn place(&self, cell: u32) -> (u32, u32)
        requires { cell < (shape self.now).count }
        ensures part { result.0 ≡ (shape self.now).part cell }
        ensures offset { result.1 ≡ (shape self.now).offset cell };

    /// The cell at an offset of a module, and `None` where there is no such offset.
    fn cell(&self, module: u32, offset: u32) -> Option<u32>
        ensures { result ≡ cell_at (shape self.now) «module» offset };

    // Each cell has one place, a module and an offset within that module's size, and each such place is that of one
    // cell.
    ghost lawful: { (m : Self) → IsLawful (shape m) };
}
