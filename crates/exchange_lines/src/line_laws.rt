//! The laws of this crate.

ghost use Rattle.exchange_lines.specs.Laws.{EachHasOne, LinesAreFlat};

/// Each exchange of a run has a line.
pub fn each_exchange_has_a_line()
    // Each exchange of a run has a line, that of the statement that began last before it.
    ensures { EachHasOne }
{}

/// The lines of the exchanges of well-formed code are those of its run on one memory, whatever the number of workers and their map.
pub fn lines_are_flat()
    // The lines of well-formed code's exchanges are those of its run on one memory, for every number of workers, every
    // map and every input.
    ensures { LinesAreFlat }
{}
