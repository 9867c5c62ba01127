//! What is true of packed code, by the definitions alone.

ghost use Rattle.renaming.specs.Packed.{NoneIsThereUnnamed, PackedCodeIsFormed, PackedCodeRunsAlike};

/// Packed code is well formed where the code is, and runs as it does.
pub fn packed_code_is_right()
    // Packed code is well formed where the code is.
    ensures formed { PackedCodeIsFormed }
    // Packed code has the code's outcomes by as many exchanges, on every map and within every bound, and its workers
    // have printed as much before each.
    ensures alike { PackedCodeRunsAlike }
{}

/// Where no instruction names a private register there is none, however many the code declares.
pub fn none_is_there_unnamed()
    // Where no instruction names a private register, packed code has none, however many the code declares.
    ensures { NoneIsThereUnnamed }
{}
