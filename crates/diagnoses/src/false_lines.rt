//! What is said of a comment that begins as a size line and is none.

ghost use Rattle.text_out.specs.Out.{Writes};
ghost use Rattle.diagnoses.specs.FalseLines as spec;

use crate::about::About;
use crate::source::{Kind, Source};
use sized_texts::false_line;
use text_out::{Out, WriteFault};
use text_places::write_excerpt;

fn write_sentence<W: Out>(out: &mut W) -> Result<(), WriteFault>
    ensures written { Writes (W.Out.state out.old) (W.Out.state out.new) spec.false_sentence result }
{
    out.write_all(
        b"this is a comment and no size line: that has the form \"# size NAME = VALUE\", with letters, digits and \"_\" alone \
        in its NAME, and goes on otherwise here\n",
    )
}

// What is said of one that goes on otherwise there.
fn write_stray<W: Out>(out: &mut W, source: &Source<'_>, at: usize) -> Result<(), WriteFault>
    ensures written { Writes (W.Out.state out.old) (W.Out.state out.new) (spec.stray_note source.now at) result }
{
    write_excerpt(out, source.name.as_bytes(), source.bytes.as_slice(), at)?;
    write_sentence(out)
}

/// Writes of the first comment before the first token of a text that begins as a size line and is none, as `# size n-1 = 8`, where it goes
/// on otherwise, and that it is a comment. Of a text without one nothing is written. The error is that the writer failed (E17).
pub fn write_false_line<W: Out>(out: &mut W, source: &Source<'_>) -> Result<(), WriteFault>
    // Of a comment that begins as a size line and is none its place and a sentence are written, or a beginning of that
    // and then a failure.
    ensures written { Writes (W.Out.state out.old) (W.Out.state out.new) (spec.false_note source.now) result }
{
    match false_line(source.bytes.as_slice()) {
        Some(at) => write_stray(out, source, at),
        None => Ok(()),
    }
}

/// The same, of the text of a program that a refusal is about.
pub(crate) fn write_note_about<W: Out>(out: &mut W, about: &About<'_>) -> Result<(), WriteFault>
    ensures written { Writes (W.Out.state out.old) (W.Out.state out.new) (spec.note_about about.now) result }
{
    match about {
        About::Text(source) => match source.kind {
            Kind::Program => write_false_line(out, source),
            Kind::Input | Kind::Memory | Kind::Listing => Ok(()),
        },
        About::Nothing => Ok(()),
        About::Line { .. } => Ok(()),
        About::Values { .. } => Ok(()),
        About::File(_) => Ok(()),
    }
}
