//! Programs that are run, and their code.

use bsp_verify::Verified;
use program_runs::compile;
use run_options::{MapChoice, Options};
use std::alloc::Global;

pub(crate) const TREE_SUM: &[u8] =
    b"rule erew; procs 8;\nshared a[1..8]; shared b[1..8]; var m;\nbegin\nfor 1 <= i <= 8 pardo b[i] := a[i]; end\nm := 8;\nwhile m > 1 do\nm := m div 2;\nfor 1 <= i <= m pardo b[i] := b[2*i-1] + b[2*i]; end\nend\nprint b[1];\nend\n";

pub(crate) const POINTER_JUMPING: &[u8] =
    b"rule crew; procs 8;\nshared s[1..8]; var k;\nbegin\nfor k := 1 to 3 do\nfor 1 <= i <= 8 pardo s[i] := s[s[i]]; end\nend\nend\n";

// The parent of each node of a path; its first node is the root.
pub(crate) const PATH: [i64; 8] = [1, 1, 2, 3, 4, 5, 6, 7];

pub(crate) fn code_of(alloc: Global, text: &[u8]) -> Option<Verified> {
    compile(alloc, text).ok()
}

// So many workers, each with the cells of its number.
pub(crate) fn by(workers: u32) -> Options {
    Options {
        workers,
        map: MapChoice::Identity,
        bound: 1_000_000,
    }
}
