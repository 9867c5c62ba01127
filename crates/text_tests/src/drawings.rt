//! What seeds draw, worked out by a program in Python, and words of intervals.

use scopes::{Drawing, draw, read_interval};
use std::alloc::AllocError;

// Seeds, intervals, and the first numbers.
const DRAWN: [(u64, i64, i64, [i64; 5]); 4] = [
    (1, 1, 100, [5, 51, 11, 79, 47]),
    (0, 1, 100, [73, 94, 75, 27, 36]),
    (7, -5, 5, [-1, 2, 0, 3, 2]),
    (
        1,
        i64::MIN,
        i64::MAX,
        [
            -8344611245765435991,
            156504299585140975,
            -7244640456041132814,
            5293008816825069360,
            -647456797331183692,
        ],
    ),
];

// Words, and the intervals that they are.
const WORDS: [(&str, Option<(i64, i64)>); 10] = [
    ("-5..5", Some((-5, 5))),
    ("7..7", Some((7, 7))),
    (
        "-9223372036854775808..9223372036854775807",
        Some((i64::MIN, i64::MAX)),
    ),
    ("5..-5", None),
    ("1.5", None),
    ("1...5", None),
    ("..5", None),
    ("1..", None),
    ("+1..5", None),
    ("1..9223372036854775808", None),
];

#[test]
fn a_seed_draws_these(rt: HostRuntime) -> Result<(), AllocError> {
    for (seed, low, high, want) in DRAWN {
        if low <= high {
            let found = draw(rt.alloc(), Drawing { low, high, seed }, 5)?;
            assert!(rt; found.as_slice() == want.as_slice(), "at {seed}");
        }
    }
    Ok(())
}

#[test]
fn words_of_intervals(rt: HostRuntime) {
    for (word, want) in WORDS {
        assert!(rt; read_interval(word) == want, "at {word}");
    }
}
