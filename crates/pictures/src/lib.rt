//! What is drawn of runs: their statements one by one, the flow of their data, and time and work at several sizes.
#![tactic(auto)]

mod acts;
mod faults;
mod flows;
mod looks;
mod names;
mod sizes;
mod steps;

pub use flows::column::Column;
pub use flows::drawing::Drawing;
pub use flows::flow::Flow;
pub use flows::flow_laws::{
    each_write_is_a_node, lines_come_from_reads, the_picture_is_its_shapes, what_has_room_is_drawn,
};
pub use flows::picture::write_flow;
pub use flows::read_laws::each_read_is_told;
pub use flows::spans::CellSpan;
pub use flows::streaming::stream_flow;
pub use sizes::picture::write_sweep_picture;
pub use sizes::picture_laws::each_row_is_told;
pub use steps::picture_laws::{
    a_fault_is_drawn, each_processor_has_a_box, each_row_has_its_name, each_statement_has_a_column,
    rows_are_of_those_that_act, what_is_left_out_is_told,
};
pub use steps::streaming::stream_excerpt;
