//! Laws of compiled code.

ghost use Rattle.compiled_meaning.specs.PlainForm.{FormsArePlain};
ghost use Rattle.compiled_meaning.specs.Supersteps.{FusedFormsArePlain};

/// The code of every program within bounds has the program's outcomes: on the workers of every lawful map,
/// for every input of values of 64 bits, at most one a cell, and within every bound, a verdict is the
/// code's exactly when it is the program's. And where that is no fault, the exchanges of the code's
/// run, without each send at which nothing is held, are at most the program's bound, and its accesses
/// take no more words than the program's.
pub fn plain_form_is_right()
    // For every program within bounds, fitting input, bound and map, a verdict is the code's exactly if the program's;
    // without a fault its nonempty exchanges and words keep the bounds.
    ensures right { FormsArePlain }
{}

/// So it is for the fused code, whose workers, however many and by whichever map, make at most so many
/// exchanges, and send at most so many words in all of them.
pub fn fused_form_is_right()
    // The fused code has the program's outcomes; unless it faults it takes at most 1 superstep for the close, 2 a level
    // of reads, 1 a vote and lone write.
    ensures right { FusedFormsArePlain }
{}
