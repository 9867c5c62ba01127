//! Runs of a program at several sizes: a line each, values separated by commas, or drawn.
ghost use Rattle.text_out.specs.Out.{Writes};
ghost use Rattle.command_facts.specs.Written.{Wrote};
ghost use Rattle.command_text.specs.Texts.{swept_text};

use command_facts::FoundSweep;
use command_requests::SweepForm;
use pictures::write_sweep_picture;
use program_texts::{Status, Stop, finish};
use sweeps::{write_sweep, write_sweep_csv};
use text_out::{Out, WriteFault};

fn write_rows<O: Out>(out: &mut O, swept: &FoundSweep) -> Result<(), WriteFault>
    ensures written { Writes (O.Out.state out.old) (O.Out.state out.new) (swept_text swept.now.form swept.now) result }
{
    let name = swept.sweep.name.as_slice();
    match swept.form {
        SweepForm::Words => write_sweep(name, &swept.rows, &swept.growths, out),
        SweepForm::Table => write_sweep_csv(name, &swept.rows, out),
        SweepForm::Picture => write_sweep_picture(name, &swept.rows, out),
    }
}

/// Writes what the runs at several sizes come to, as a call that ends so.
pub(crate) fn write_swept<'a, O: Out>(
    out: &mut O,
    swept: &FoundSweep,
    status: Status,
) -> Result<Status, Stop<'a>>
    ensures written { Wrote status (swept_text swept.now.form swept.now) (O.Out.state out.old) (O.Out.state out.new) result }
{
    write_rows(out, swept)?;
    finish(out, status)
}
