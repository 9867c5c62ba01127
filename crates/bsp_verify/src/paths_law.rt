//! What verified code can rely on.

ghost use Rattle.bsp_verify.specs.Paths.{PathsAreSound};

/// On each path of control through well-formed code, whatever the registers hold, no instruction
/// is missing, nor a register, a declaration or a target; nothing is done outside of its range,
/// with another number of masks, or in the midst of another exchange. Between two marks the places
/// rise.
pub fn paths_are_sound()
    // On control paths through well-formed code nothing named is missing, each instruction may stand there, at most 64
    // masks and eight reads are held, and places rise between marks.
    ensures { PathsAreSound }
{}
