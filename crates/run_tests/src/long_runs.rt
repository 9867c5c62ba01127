//! Long runs come to one answer.

use crate::programs::by;
use program_runs::run_text;
use std::alloc::Global;
use std::sync::Wait;
use std::thread::Threads;
use workers::OpenGate;
use write_rules::Outcome;

// Three exchanges a turn, two for the read and one for the write, and the close: 2,002.
const LONG: &[u8] =
    b"rule crew; procs 4;\nshared s[1..4]; var k;\nbegin\nfor k := 1 to 667 do\nfor 1 <= i <= 4 pardo s[i] := s[i] + i; end\nend\nend\n";

// 61 of them, by 32 workers.
const WIDE: &[u8] =
    b"rule crew; procs 32;\nshared s[1..4]; var k;\nbegin\nfor k := 1 to 20 do\nfor 1 <= i <= 4 pardo s[i] := s[i] + i; end\nend\nend\n";

fn comes_to<R: Threads + Wait + Sync>(
    rt: &R,
    alloc: Global,
    text: &[u8],
    workers: u32,
    exchanges: usize,
    cells: [i64; 4],
) -> bool {
    match run_text(rt, alloc, text, &[], by(workers), &OpenGate) {
        Ok(report) => match &report.outcome {
            Outcome::Ended { output: _, memory } => {
                report.counts.len() == exchanges && memory.as_slice() == cells.as_slice()
            }
            _ => false,
        },
        Err(_) => false,
    }
}

#[test]
fn two_thousand_exchanges_of_four_workers(rt: HostRuntime) {
    for _ in 0..3 {
        assert!(rt; comes_to(&rt, rt.alloc(), LONG, 4, 2002, [667, 1334, 2001, 2668]));
    }
}

#[test]
fn sixty_exchanges_of_most_workers(rt: HostRuntime) {
    for _ in 0..3 {
        assert!(rt; comes_to(&rt, rt.alloc(), WIDE, 32, 61, [20, 40, 60, 80]));
    }
}
