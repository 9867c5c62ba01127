//! What one run tells of a program's runs on all inputs of a scope, each row worked by hand.

use abstract_runs::{Halt, run_for_all};
use all_inputs::{Overall, Scope, Undecided};
use intervals::Interval;
use pram_values::Kind;
use program_texts::read_program;
use std::alloc::Global;

// Most statements of a run.
const BOUND: u32 = 100;

const KINDS: [Kind; 6] = [
    Kind::Overflow,
    Kind::DivideByZero,
    Kind::OutOfRange,
    Kind::TooWide,
    Kind::ReadConflict,
    Kind::WriteConflict,
];

// A program, its scope, and what is told: a line that may fault and how, and whether a run may go on behind the bound.
struct Told {
    text: &'static str,
    values: u32,
    least: i64,
    greatest: i64,
    faults: &'static [(u32, Kind)],
    may_go_on: bool,
}

const TOLD: [Told; 19] = [
    // Each processor adds to its own cell; 0 to 9 stay far from the end of 64 bits.
    Told {
        text: "rule erew; procs 4;\nshared a[0..3];\nbegin\nfor 0 <= i <= 3 pardo\na[i] := a[i] + 1;\nend\nend",
        values: 4,
        least: 0,
        greatest: 9,
        faults: &[],
        may_go_on: false,
    },
    // The greatest number and 1 more.
    Told {
        text: "rule erew; procs 4;\nshared a[0..3];\nbegin\nfor 0 <= i <= 3 pardo\na[i] := a[i] + 1;\nend\nend",
        values: 4,
        least: 0,
        greatest: i64::MAX,
        faults: &[(5, Kind::Overflow)],
        may_go_on: false,
    },
    Told {
        text: "rule crew; procs 1;\nshared s;\nbegin\nprint 10 div s;\nend",
        values: 1,
        least: 0,
        greatest: 5,
        faults: &[(4, Kind::DivideByZero)],
        may_go_on: false,
    },
    Told {
        text: "rule crew; procs 1;\nshared s;\nbegin\nprint 10 div s;\nend",
        values: 1,
        least: 1,
        greatest: 5,
        faults: &[],
        may_go_on: false,
    },
    // The cells of a are 0 to 3, and s is up to 4.
    Told {
        text: "rule crew; procs 1;\nshared s; shared a[0..3];\nbegin\na[s] := 1;\nend",
        values: 1,
        least: 0,
        greatest: 4,
        faults: &[(4, Kind::OutOfRange)],
        may_go_on: false,
    },
    // Two processors are one more than there are.
    Told {
        text: "rule crew; procs 1;\nshared s;\nbegin\nfor 1 <= i <= 2 pardo\ns := 1;\nend\nend",
        values: 1,
        least: 0,
        greatest: 4,
        faults: &[(4, Kind::TooWide)],
        may_go_on: false,
    },
    // All read the one cell.
    Told {
        text: "rule erew; procs 4;\nshared s; shared a[0..3];\nbegin\nfor 0 <= i <= 3 pardo\na[i] := s;\nend\nend",
        values: 1,
        least: 0,
        greatest: 4,
        faults: &[(5, Kind::ReadConflict)],
        may_go_on: false,
    },
    // Both write the one cell, where their tests are true: which those are is open.
    Told {
        text: "rule crew; procs 2;\nshared a[0..1]; shared s;\nbegin\nfor 0 <= i <= 1 pardo\nif a[i] = 1 then\ns := 5;\nend\nend\nend",
        values: 2,
        least: 0,
        greatest: 1,
        faults: &[(6, Kind::WriteConflict)],
        may_go_on: false,
    },
    // The same number may be written by both under common.
    Told {
        text: "rule common; procs 2;\nshared a[0..1]; shared s;\nbegin\nfor 0 <= i <= 1 pardo\nif a[i] = 1 then\ns := 5;\nend\nend\nend",
        values: 2,
        least: 0,
        greatest: 1,
        faults: &[],
        may_go_on: false,
    },
    // Both write depth + 1, which is one number however many it may be.
    Told {
        text: "rule common; procs 2;\nshared into[0..1]; shared level[0..1]; var depth;\nbegin\ndepth := into[0];\nfor 0 <= e <= 1 pardo\nlevel[into[e]] := depth + 1;\nend\nend",
        values: 2,
        least: 0,
        greatest: 1,
        faults: &[],
        may_go_on: false,
    },
    // A local of each processor is another number; a cell behind the index may be.
    Told {
        text: "rule common; procs 2;\nshared a[0..1]; shared s;\nbegin\nfor 0 <= i <= 1 pardo local x;\nx := a[i];\ns := x + 1;\nend\nend",
        values: 2,
        least: 0,
        greatest: 1,
        faults: &[(6, Kind::WriteConflict)],
        may_go_on: false,
    },
    Told {
        text: "rule common; procs 2;\nshared a[0..1]; shared s;\nbegin\nfor 0 <= i <= 1 pardo\ns := -a[i];\nend\nend",
        values: 2,
        least: 0,
        greatest: 1,
        faults: &[(5, Kind::WriteConflict)],
        may_go_on: false,
    },
    // 7 turns by a variable that is known, and a sum of 8 cells.
    Told {
        text: "rule crew; procs 1;\nshared a[0..7]; var s; var k;\nbegin\ns := a[0];\nfor k := 1 to 7 do\ns := s + a[k];\nend\nprint s;\nend",
        values: 8,
        least: -3,
        greatest: 3,
        faults: &[],
        may_go_on: false,
    },
    // 200 turns of two statements are more than the bound allows.
    Told {
        text: "rule crew; procs 1;\nshared s; var k;\nbegin\nfor k := 1 to 200 do\ns := 1;\nend\nend",
        values: 1,
        least: 0,
        greatest: 3,
        faults: &[],
        may_go_on: true,
    },
    // With 4 in s the loop never ends, else it has at most one turn.
    Told {
        text: "rule crew; procs 1;\nshared s; var x;\nbegin\nwhile x < s do\nx := 3;\nend\nend",
        values: 1,
        least: 0,
        greatest: 4,
        faults: &[],
        may_go_on: true,
    },
    // A loop that ends by its data: of 100 statements k and l count 100 at most, far from the ends of 64 bits.
    Told {
        text: "rule crew; procs 1;\nshared a; var k; var l;\nbegin\nwhile a do\nk := k + 1;\nl := l - 1;\nif k > 7 then\na := 0;\nend\nend\nprint k;\nend",
        values: 1,
        least: 0,
        greatest: 1,
        faults: &[],
        may_go_on: true,
    },
    // A local above 0 leads to a cell of what begins with 1, whoever's it is.
    Told {
        text: "rule crew; procs 2;\nshared a[0..1]; shared b[1..2];\nbegin\nfor 0 <= i <= 1 pardo local k;\nk := a[i];\nif k > 0 then\na[i] := b[k];\nend\nend\nend",
        values: 2,
        least: 0,
        greatest: 2,
        faults: &[],
        may_go_on: false,
    },
    // Where it isn't 0, too, behind a branch in which other processors write their own.
    Told {
        text: "rule crew; procs 2;\nshared a[0..1]; shared b[1..2];\nbegin\nfor 0 <= i <= 1 pardo local k;\nk := a[i];\nif k = 0 then\nk := 7;\nelse\na[i] := b[k];\nend\nend\nend",
        values: 2,
        least: 0,
        greatest: 2,
        faults: &[],
        may_go_on: false,
    },
    // Once it is written it may be anything that was written.
    Told {
        text: "rule crew; procs 2;\nshared a[0..1]; shared b[1..2];\nbegin\nfor 0 <= i <= 1 pardo local k;\nk := a[i];\nif k > 0 then\nk := k - 1;\na[i] := b[k];\nend\nend\nend",
        values: 2,
        least: 0,
        greatest: 2,
        faults: &[(8, Kind::OutOfRange)],
        may_go_on: false,
    },
];

// A program under sum whose processors write to one cell, by an input of two values of 0 and 1; whether a run of it ends.
struct Added {
    text: &'static str,
    ends: bool,
}

const ADDED: [Added; 6] = [
    // 2 ^ 62 twice is 2 ^ 63, one more than the greatest number.
    Added {
        text: "rule sum; procs 2;\nshared a[0..1]; shared s;\nbegin\nfor 1 <= i <= 2 pardo\ns := 4611686018427387904;\nend\nend",
        ends: false,
    },
    // The least number, and one less.
    Added {
        text: "rule sum; procs 2;\nshared a[0..1]; shared s;\nbegin\nfor 1 <= i <= 2 pardo\ns := -4611686018427387904;\nend\nend",
        ends: true,
    },
    Added {
        text: "rule sum; procs 2;\nshared a[0..1]; shared s;\nbegin\nfor 1 <= i <= 2 pardo\ns := -4611686018427387903 - i;\nend\nend",
        ends: false,
    },
    // Who adds is open: with 1 and 0 in a it is 2 ^ 62.
    Added {
        text: "rule sum; procs 2;\nshared a[0..1]; shared s;\nbegin\nfor 0 <= i <= 1 pardo\nif a[i] then\ns := 4611686018427387904;\nend\nend\nend",
        ends: true,
    },
    // The second adds 1 or 2 to the greatest number; then 0 or 1.
    Added {
        text: "rule sum; procs 2;\nshared a[0..1]; shared s;\nbegin\nfor 0 <= i <= 1 pardo\ns := (1 - i) * 9223372036854775807 + i * (a[0] + 1);\nend\nend",
        ends: false,
    },
    Added {
        text: "rule sum; procs 2;\nshared a[0..1]; shared s;\nbegin\nfor 0 <= i <= 1 pardo\ns := (1 - i) * 9223372036854775807 + i * a[0];\nend\nend",
        ends: true,
    },
];

fn overall(alloc: Global, text: &str, scope: Scope) -> Option<Result<Overall, Halt>> {
    match read_program(alloc, text.as_bytes()) {
        Ok(program) => Some(run_for_all(alloc, &program, scope, BOUND)),
        Err(_) => None,
    }
}

fn scope_of(values: u32, least: i64, greatest: i64) -> Option<Scope> {
    let of = Interval::of(least, greatest)?;
    Some(Scope { values, of })
}

// Whether a line may have a fault of that kind.
fn may(told: &Overall, line: u32, kind: Kind) -> bool {
    told.told
        .lines()
        .iter()
        .any(|at| at.line == line && at.faults.reason(kind).is_some())
}

// Whether just the faults of these lines are told.
fn has_just(told: &Overall, faults: &[(u32, Kind)]) -> bool {
    for line in 0..20 {
        for kind in KINDS {
            if may(told, line, kind) != faults.contains(&(line, kind)) {
                return false;
            }
        }
    }
    true
}

fn tells(alloc: Global, row: &Told) -> bool {
    let Some(scope) = scope_of(row.values, row.least, row.greatest) else {
        return false;
    };
    let Some(Ok(told)) = overall(alloc, row.text, scope) else {
        return false;
    };
    has_just(&told, row.faults) && told.told.may_go_on() == row.may_go_on
}

fn is_added(alloc: Global, row: &Added) -> bool {
    let Some(scope) = scope_of(2, 0, 1) else {
        return false;
    };
    let Some(Ok(told)) = overall(alloc, row.text, scope) else {
        return false;
    };
    told.end.is_some() == row.ends
}

// How the one run halts.
fn halts(alloc: Global, text: &str) -> Option<Halt> {
    let scope = scope_of(1, 0, 3)?;
    let Some(Err(halt)) = overall(alloc, text, scope) else {
        return None;
    };
    Some(halt)
}

// The interval of a cell, where runs end.
fn cell(alloc: Global, text: &str, k: usize) -> Option<Interval> {
    let scope = scope_of(2, -3, 4)?;
    let Some(Ok(told)) = overall(alloc, text, scope) else {
        return None;
    };
    let end = told.end?;
    end.cells.get(k).copied()
}

#[test]
fn faults_of_all_inputs(rt: HostRuntime) {
    for row in &TOLD {
        assert!(rt; tells(rt.alloc(), row), "{}", row.text);
    }
}

#[test]
fn sums_of_all_inputs(rt: HostRuntime) {
    for row in &ADDED {
        assert!(rt; is_added(rt.alloc(), row), "{}", row.text);
    }
}

#[test]
fn bounds_that_are_open(rt: HostRuntime) {
    let pardo =
        "rule crew; procs 9;\nshared s; shared a[0..8];\nbegin\nfor 0 <= i <= s pardo\na[i] := 1;\nend\nend";
    let turns =
        "rule crew; procs 9;\nshared s; var k;\nbegin\nprint 1;\nfor k := 1 to s do\nprint 2;\nend\nend";
    assert!(rt;
        halts(rt.alloc(), pardo) == Some(Halt::Undecided(Undecided::OpenBounds { line: 4 }))
    );
    assert!(rt;
        halts(rt.alloc(), turns) == Some(Halt::Undecided(Undecided::OpenBounds { line: 5 }))
    );
}

#[test]
fn memory_of_all_inputs(rt: HostRuntime) {
    // The sum of two from -3 to 4; then, by an open test, 7 or what was there; then untouched.
    let text =
        "rule sum; procs 2;\nshared a[0..1]; shared s; shared t; shared u;\nbegin\nfor 0 <= i <= 1 pardo\ns := a[i];\nend\nif a[0] > 0 then\nt := 7;\nend\nend";
    assert!(rt; cell(rt.alloc(), text, 2) == Interval::of(-6, 8));
    assert!(rt; cell(rt.alloc(), text, 3) == Interval::of(0, 7));
    assert!(rt; cell(rt.alloc(), text, 4) == Interval::of(0, 0));
}

#[test]
fn counters_of_all_inputs(rt: HostRuntime) {
    // k begins with 0, and each of at most 100 statements moves it by at most 1.
    let text =
        "rule crew; procs 1;\nshared a; shared s; var k;\nbegin\nwhile a do\nk := k + 1;\nif k > 7 then\na := 0;\nend\nend\ns := k;\nend";
    assert!(rt; cell(rt.alloc(), text, 1) == Interval::of(0, 100));
    // Here it begins with 10 or 20.
    let text =
        "rule crew; procs 1;\nshared a; shared s; var k;\nbegin\nk := 10;\nif s > 0 then\nk := 20;\nend\nwhile a do\nk := 1 + k;\nif k > 30 then\na := 0;\nend\nend\ns := k;\nend";
    assert!(rt; cell(rt.alloc(), text, 1) == Interval::of(10, 120));
}
