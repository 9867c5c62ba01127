//! Room for what a run comes to.

ghost use Rattle.std.specs.Prelude.{◌≡◌, IfOk};
ghost use Rattle.address_map.specs.Lawful.{Shape};
ghost use Rattle.bsp_machine.specs.Opening.{IsRoom};

use exchange_counts::Count;
use std::alloc::{AllocError, Global};
use superstep_instructions::Code;

/// Room for what a run comes to, taken before it: for the values of all cells, and for what each worker counts. So its end takes no
/// memory. The room for the output grows in each worker, exchange by exchange; `items` is where that of worker 0 goes.
#[derive(Drop)]
pub struct EndRoom {
    pub items: Vec<i64>,
    pub memory: Vec<i64>,
    pub columns: Vec<Vec<Count>>,
}

impl EndRoom {
    /// Room for a run of this code by so many workers. The error comes where memory was refused.
    pub fn new(alloc: Global, code: &Code, workers: u32) -> Result<EndRoom, AllocError>
        ensures { IfOk result (λ room. (m : Shape) → m.parts ≡ workers → IsRoom code.now m room) }
    {
        let items = Vec::new(alloc);
        let memory = Vec::with_capacity(alloc, code.layout().cells() as usize)?;
        let columns = Vec::with_capacity(alloc, workers as usize)?;
        Ok(EndRoom {
            items,
            memory,
            columns,
        })
    }
}
