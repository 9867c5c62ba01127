//! What a processor sees.

ghost use Rattle.std.specs.Prelude.{◌≡◌};
ghost use Rattle.pram_meaning.specs.Runs.{view_is};

use pram_check::Program;
use pram_meaning::run::Run;
use pram_meaning::view::View;

/// What the processor of this index sees, with these locals.
pub fn view_of<'a>(program: &'a Program, run: &'a Run, index: i64, locals: &'a Vec<i64>) -> View<'a>
    ensures { view_is result ≡ record {
      layout = program.now.layout;
      uniforms = run.now.uniforms.items;
      cells = run.now.cells.items;
      index = index;
      locals = locals.now.items;
    } }
{
    View {
        layout: program.layout(),
        uniforms: &run.uniforms,
        cells: &run.cells,
        index,
        locals,
    }
}
