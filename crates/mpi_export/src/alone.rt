//! The writer of C texts for one memory.
ghost use Rattle.text_out.specs.Out.{Writes};
ghost use Rattle.mpi_export.specs.Alone.{alone_text};

use crate::alone_plan::AlonePlan;
use crate::printer::Printer;
use text_out::{Out, WriteFault};

/// Writes a program in C11 for one memory, by one thread or, with OpenMP, by several: a runtime, and in it a call for each instruction of
/// the plan. The plan is one that the compiler makes: between a read and its reply nothing names the read's register. What C and its
/// compiler make of the text isn't proved.
///
/// `WriteFault` (E17) says that the writer failed. What it took is a beginning of the program.
pub fn write_alone<W: Out>(plan: &AlonePlan, out: &mut W) -> Result<(), WriteFault>
    // What is written is a runtime, the same for all code, with a call for each instruction of this code, or a beginning
    // of that where the writer fails.
    ensures written { Writes (W.Out.state out.old) (W.Out.state out.new) (alone_text plan.now) result }
{
    let mut printer = Printer { out, failed: false };
    printer.alone(plan);
    let Printer { failed, .. } = printer;
    if failed { Err(WriteFault) } else { Ok(()) }
}
