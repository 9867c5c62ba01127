//! The memory, cell by cell.

ghost use Rattle.std.specs.Prelude.{◌≡◌, ◌≤◌, [], length, vec_capacity};
ghost use Rattle.pram_model.specs.Layout.{total_size};
ghost use Rattle.bsp_machine.specs.Ended.{AreWide, memory_of};

use crate::counted::CountedWorker;
use address_map::AddressMap;
use superstep_instructions::Code;

/// Takes in the values of all cells of the layout, by number: each from the module that has it. There is room for them.
pub(crate) fn take_memory<M: AddressMap>(
    code: &Code,
    map: &M,
    workers: &[CountedWorker],
    memory: &mut Vec<i64>,
)
    requires workers { length workers.now ≡ (M.shape map.now).parts }
    requires places { total_size code.now.layout ≤ (M.shape map.now).count }
    requires wide { AreWide (M.shape map.now) workers.now }
    requires none { memory.old.items ≡ [] }
    requires room { total_size code.now.layout ≤ vec_capacity memory.old }
    ensures { memory.new.items ≡ memory_of code.now (M.shape map.now) workers.now }
{
    let cells = code.layout().cells();
    'cells: for cell in 0..cells {
        let (part, offset) = map.place(cell);
        let value = workers[part as usize].local.cells.get(offset);
        memory.push_reserved(value);
    }
}
