//! Memory texts, and what they give, each worked by hand.

use memory_texts::{Choice, MemoryFault, is_chosen, read_memory, show_chosen, unknown_name};
use pram_tokens::TextFault;
use program_texts::{Refusal, TextOutcome, meaning_of_text};
use std::alloc::Global;
use text_out::Buffer;

// A program of a cell, an array from 1 to 4 and a cell.
const PROGRAM: &str = "rule crew; procs 1; shared s; shared a[1..4]; shared t; begin print 5; end";

// Memory texts, and the values of s, a and t.
const READ: [(&str, [i64; 6]); 10] = [
    ("", [0; 6]),
    ("s = 7\na[1..4] = 1 2 3 4\nt = -9\n", [7, 1, 2, 3, 4, -9]),
    ("t=-9\ns\t=\r\n", [0, 0, 0, 0, 0, -9]),
    ("a = 1 2", [0, 1, 2, 0, 0, 0]),
    (
        "  a [ 2 .. 3 ] = 8 9 # these two\n# t = 1\n",
        [0, 0, 8, 9, 0, 0],
    ),
    ("a[2..4] = 5", [0, 0, 5, 0, 0, 0]),
    ("a = 1 2 3\na[2..2] = 7\ns = 1\ns = 2", [2, 1, 7, 3, 0, 0]),
    ("s = 1\ns =", [1, 0, 0, 0, 0, 0]),
    ("\n\n  \r\n\t# nothing", [0; 6]),
    ("a[1..1]=-9223372036854775808", [0, i64::MIN, 0, 0, 0, 0]),
];

// Memory texts, and why they are refused.
const REFUSED: [(&str, MemoryFault); 17] = [
    ("s 7", MemoryFault::Text(TextFault::BadToken(2))),
    ("s", MemoryFault::Text(TextFault::BadToken(1))),
    ("s # = 7", MemoryFault::Text(TextFault::BadToken(2))),
    ("= 7", MemoryFault::Text(TextFault::BadToken(0))),
    ("s = 1 x 2", MemoryFault::Text(TextFault::BadToken(6))),
    (
        "t = 1\ns = 7 +1\n",
        MemoryFault::Text(TextFault::BadToken(12)),
    ),
    ("a[1.2] = 1", MemoryFault::Text(TextFault::BadToken(4))),
    ("a[1..2 = 1", MemoryFault::Text(TextFault::BadToken(7))),
    ("a[..2] = 1", MemoryFault::Text(TextFault::BadToken(2))),
    ("zz = 1 x", MemoryFault::Text(TextFault::BadToken(7))),
    ("s = 1\n  zz = 1", MemoryFault::Unknown(8)),
    ("a[2..5] = 1", MemoryFault::Unknown(2)),
    ("a[ 0..2] = 1", MemoryFault::Unknown(3)),
    ("a[2..1] = ", MemoryFault::Unknown(2)),
    ("s[0..0] = 1", MemoryFault::Unknown(2)),
    (
        "s = 1 2",
        MemoryFault::TooMany {
            values: 2,
            cells: 1,
        },
    ),
    (
        "a[2..3] = 1 2 3\nzz",
        MemoryFault::TooMany {
            values: 3,
            cells: 2,
        },
    ),
];

// The end of the program on an input.
fn ended(alloc: Global, input: &[i64]) -> Result<TextOutcome, Refusal> {
    meaning_of_text(alloc, PROGRAM.as_bytes(), input, 100)
}

// Whether a text gives these values, or that refusal.
fn gives(alloc: Global, text: &str, want: Result<&[i64], MemoryFault>) -> bool {
    let Ok(program) = ended(alloc, &[]) else {
        return false;
    };
    match read_memory(alloc, &program.layout, text.as_bytes()) {
        Ok(found) => match want {
            Ok(values) => found.as_slice() == values,
            Err(_) => false,
        },
        Err(fault) => match want {
            Ok(_) => false,
            Err(other) => fault == other,
        },
    }
}

// Whether a choice writes this text where s, a and t have these values.
fn writes(alloc: Global, choice: Choice<'_>, values: &[i64], want: &str) -> bool {
    let Ok(run) = ended(alloc, values) else {
        return false;
    };
    let mut out = Buffer::new(alloc);
    let shown = show_chosen(&run.layout, &run.outcome, choice, &mut out);
    shown.is_ok() && out.bytes() == want.as_bytes()
}

// Whether what a choice writes of these values is read back as these values.
fn reads_back(alloc: Global, choice: Choice<'_>, values: &[i64], want: &[i64]) -> bool {
    let Ok(run) = ended(alloc, values) else {
        return false;
    };
    let mut out = Buffer::new(alloc);
    if show_chosen(&run.layout, &run.outcome, choice, &mut out).is_err() {
        return false;
    }
    match read_memory(alloc, &run.layout, out.bytes()) {
        Ok(found) => found.as_slice() == want,
        Err(_) => false,
    }
}

// The first part of a word that the program does not declare.
fn first_unknown(alloc: Global, word: &str, want: Option<&str>) -> bool {
    match ended(alloc, &[]) {
        Ok(run) => unknown_name(&run.layout, Choice::Named(word)) == want,
        Err(_) => false,
    }
}

#[test]
fn texts_give_memory(rt: HostRuntime) {
    for (text, want) in &READ {
        assert!(rt; gives(rt.alloc(), text, Ok(want.as_slice())), "{text}");
    }
}

#[test]
fn texts_are_refused(rt: HostRuntime) {
    for (text, fault) in &REFUSED {
        assert!(rt; gives(rt.alloc(), text, Err(*fault)), "{text}");
    }
}

#[test]
fn choices_are_written(rt: HostRuntime) {
    let values = [7, 1, -2, 3, 4, -9];
    let all = "5\nended\ns = 7\na[1..4] = 1 -2 3 4\nt = -9\n";
    assert!(rt; writes(rt.alloc(), Choice::All, &values, all));
    assert!(rt; writes(rt.alloc(), Choice::Nothing, &values, "5\nended\n"));
    assert!(rt;
        writes(
            rt.alloc(),
            Choice::Named("t,a"),
            &values,
            "a[1..4] = 1 -2 3 4\nt = -9\n"
        )
    );
    assert!(rt; writes(rt.alloc(), Choice::Named("s"), &values, "s = 7\n"));
    assert!(rt; reads_back(rt.alloc(), Choice::Named("s,a,t"), &values, &values));
    assert!(rt;
        reads_back(
            rt.alloc(),
            Choice::Named("a"),
            &values,
            &[0, 1, -2, 3, 4, 0]
        )
    );
}

#[test]
fn words_of_choices(rt: HostRuntime) {
    assert!(rt; is_chosen(Choice::Named("aa,b"), b"b"));
    assert!(rt; !is_chosen(Choice::Named("aa,b"), b"a"));
    assert!(rt; first_unknown(rt.alloc(), "s,a,t", None));
    assert!(rt; first_unknown(rt.alloc(), "s,aa,b", Some("aa")));
    assert!(rt; first_unknown(rt.alloc(), "s,", Some("")));
    assert!(rt; first_unknown(rt.alloc(), "s, a", Some(" a")));
}
