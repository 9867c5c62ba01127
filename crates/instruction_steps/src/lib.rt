//! What both machines that run superstep code do in an instruction: on registers, on the uniform part, and by the rule of writes.
#![tactic(auto)]

mod arithmetic;
mod computing;
mod range;
mod read;
mod registers;
mod reserving;
mod rule;
mod uniform;
mod uniform_fault;
mod uniform_registers;
mod uniform_step;

pub use arithmetic::{computed, computed_on, is_of, position_of, wrong_in};
pub use computing::{compute_uniform, is_on_uniform};
pub use range::range_width;
pub use read::{Moment, Read};
pub use registers::{make_room, register, set_number, set_result, value_at, zero_without};
pub use reserving::reserve;
pub use rule::{join, single, verdict_on, with_writer};
pub use uniform::UniformState;
pub use uniform_fault::{fault_at, missing, uniform_key, uniform_write, write_to};
pub use uniform_registers::put_number;
pub use uniform_step::{
    begin_statement, change_range, index_of, moment_of, open_uniform, step_uniform,
};
