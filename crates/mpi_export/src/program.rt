//! The writer of C texts.
ghost use Rattle.text_out.specs.Out.{Writes};
ghost use Rattle.mpi_export.specs.Program.{c_text};

use crate::printer::Printer;
use superstep_instructions::Code;
use text_out::{Out, WriteFault};

/// Writes a program in C11 over MPI: a runtime, and in it the words of this code, which is to be verified. What C, its compiler and MPI
/// make of the text isn't proved.
///
/// `WriteFault` (E17) says that the writer failed. What it took is a beginning of the program.
pub fn write_program<W: Out>(code: &Code, out: &mut W) -> Result<(), WriteFault>
    // What is written is a runtime, the same for all code, and the words of this code in tables, or a beginning of that
    // where the writer fails.
    ensures written { Writes (W.Out.state out.old) (W.Out.state out.new) (c_text code.now) result }
{
    let mut printer = Printer { out, failed: false };
    printer.program(code);
    let Printer { failed, .. } = printer;
    if failed { Err(WriteFault) } else { Ok(()) }
}
