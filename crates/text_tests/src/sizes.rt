//! Texts with sizes, and what they expand to, each worked by hand.

use pram_tokens::LONGEST;
use sized_texts::{Reason, Size, SizeFault, expand, fill, read_size, read_sweep};
use sqlite_items::Items;
use std::alloc::{AllocError, Global};

// Texts and their expansions.
const EXPANDED: [(&str, &str); 8] = [
    ("# size n = 8\n{n}", "# size n = 8\n8"),
    (
        "# size n = 8\n{2 * n + 1} {n - 2 * 3} {(n+1) mod 4}",
        "# size n = 8\n17 2 1",
    ),
    (
        "# size n = 8\n{log(n)} {root(n)} {pow(2, n)} {100 div n mod 5}",
        "# size n = 8\n3 2 256 2",
    ),
    (
        "# size n = 8\n# {n}\n{n} # {n\n{n}",
        "# size n = 8\n# {n}\n8 # {n\n8",
    ),
    ("{n} # size n = 8\n", "{n} # size n = 8\n"),
    ("# size of it\n{", "# size of it\n{"),
    (
        "# a\n\n  # size m=3\n# size n = 4 \r\n{m*n}",
        "# a\n\n  # size m=3\n# size n = 4 \r\n12",
    ),
    (
        "# size n = 9223372036854775807\n{n - 1}",
        "# size n = 9223372036854775807\n9223372036854775806",
    ),
];

// Texts, and where and why they are refused.
const REFUSED: [(&str, u32, Reason); 17] = [
    ("# size n = 8\n{n + }", 18, Reason::Unexpected),
    ("# size n = 8\n{n", 15, Reason::NotClosed),
    ("# size n = 8\n{n\n}", 15, Reason::NotClosed),
    ("# size n = 8\n{m}", 14, Reason::UnknownName),
    ("# size n = 8\n{do}", 14, Reason::Unexpected),
    ("# size n = 8\n{1 - n}", 16, Reason::OutOfRange),
    (
        "# size n = 8\n{n * 9223372036854775807}",
        16,
        Reason::OutOfRange,
    ),
    ("# size n = 8\n{n div 0}", 16, Reason::ZeroDivisor),
    ("# size n = 8\n{log(0)}", 14, Reason::LogOfZero),
    ("# size n = 8\n# size n = 9\n", 13, Reason::Repeated),
    ("# size do = 8\n", 0, Reason::Keyword),
    ("# size log = 8", 0, Reason::Keyword),
    ("# size 3 = 8", 0, Reason::BadLine),
    ("# size n =", 0, Reason::BadLine),
    ("# size n = x", 0, Reason::Unexpected),
    ("# size n = 9223372036854775808", 0, Reason::OutOfRange),
    ("# size n = 8 9", 0, Reason::BadLine),
];

// Words of a command line, and the sizes that they are.
const WORDS: [(&str, Option<(&str, u64)>); 9] = [
    ("n=1024", Some(("n", 1024))),
    ("1_a=07", Some(("1_a", 7))),
    ("n=9223372036854775807", Some(("n", 9223372036854775807))),
    ("n=9223372036854775808", None),
    ("n", None),
    ("n=", None),
    ("=8", None),
    ("n=8 ", None),
    ("n =8", None),
];

// Words of sweeps, and their names and sizes.
const SWEEPS: [(&str, Option<(&str, &[u64])>); 19] = [
    ("n=4,8,16", Some(("n", &[4, 8, 16]))),
    ("n=7", Some(("n", &[7]))),
    ("n=8,4,8", Some(("n", &[8, 4, 8]))),
    ("n=4..64*2", Some(("n", &[4, 8, 16, 32, 64]))),
    ("n=4..63*2", Some(("n", &[4, 8, 16, 32]))),
    ("long_1=10..50+10", Some(("long_1", &[10, 20, 30, 40, 50]))),
    ("n=0..1+1", Some(("n", &[0, 1]))),
    ("n=5..5*9223372036854775807", Some(("n", &[5]))),
    (
        "n=9223372036854775806..9223372036854775807+1",
        Some(("n", &[9223372036854775806, 9223372036854775807])),
    ),
    ("n=0..8*2", None),
    ("n=1..8*1", None),
    ("n=1..8+0", None),
    ("n=8..4*2", None),
    ("n=4..8", None),
    ("n=1..1001+1", None),
    ("n=4,,8", None),
    ("n=9223372036854775808", None),
    ("n=", None),
    ("=4,8", None),
];

// Names with braces, where n is 8, and what they come to.
const FILLED: [(&str, &str); 4] = [
    ("in/{n}.txt", "in/8.txt"),
    ("{2*n}_{log(n)}", "16_3"),
    ("plain", "plain"),
    ("{n}#{n}", "8#{n}"),
];

// Whether a text expands to that one.
fn comes_to(alloc: Global, text: &[u8], given: &[Size], wanted: &[u8]) -> bool {
    if text.len() > LONGEST {
        return false;
    }
    match expand(alloc, text, given) {
        Ok(found) => found.text.as_slice() == wanted,
        Err(_) => false,
    }
}

// Where and why a text is refused.
fn refusal(alloc: Global, text: &[u8]) -> Option<(u32, Reason)> {
    if text.len() > LONGEST {
        return None;
    }
    match expand(alloc, text, &[]) {
        Err(SizeFault::BadSize(at, reason)) => Some((at, reason)),
        _ => None,
    }
}

// Whether 1024 is taken in the place of 8.
fn takes_given(alloc: Global) -> Result<bool, AllocError> {
    let given = [Size {
        name: Items::from_slice(alloc, b"n")?,
        value: 1024,
    }];
    Ok(comes_to(
        alloc,
        b"# size n = 8\n{log(n)}",
        &given,
        b"# size n = 8\n10",
    ))
}

// Whether a word is that size, or none.
fn is_read(alloc: Global, word: &str, wanted: &Option<(&str, u64)>) -> bool {
    match (read_size(alloc, word), wanted) {
        (Ok(Some(size)), Some((name, value))) => {
            size.name.as_slice() == name.as_bytes() && size.value == *value
        }
        (Ok(None), None) => true,
        _ => false,
    }
}

// Whether a word is that of a sweep over those sizes, or of none.
fn sweeps(alloc: Global, word: &str, wanted: &Option<(&str, &[u64])>) -> bool {
    match (read_sweep(alloc, word), wanted) {
        (Ok(Some(sweep)), Some((name, sizes))) => {
            sweep.name.as_slice() == name.as_bytes() && sweep.sizes.as_slice() == *sizes
        }
        (Ok(None), None) => true,
        _ => false,
    }
}

// Whether a name comes to that one where n is 8.
fn fills(alloc: Global, name: &str, wanted: &str) -> Result<bool, AllocError> {
    let sizes = [Size {
        name: Items::from_slice(alloc, b"n")?,
        value: 8,
    }];
    match fill(alloc, &sizes, name.as_bytes()) {
        Ok(found) => Ok(found.as_slice() == wanted.as_bytes()),
        Err(_) => Ok(false),
    }
}

#[test]
fn sweeps_are_read(rt: HostRuntime) {
    for (word, wanted) in &SWEEPS {
        assert!(rt; sweeps(rt.alloc(), word, wanted), "{word}");
    }
}

#[test]
fn names_are_filled(rt: HostRuntime) {
    for (name, wanted) in &FILLED {
        assert_eq!(rt; fills(rt.alloc(), name, wanted).ok(), Some(true));
    }
}

#[test]
fn texts_expand(rt: HostRuntime) {
    for (text, wanted) in &EXPANDED {
        assert!(rt; comes_to(rt.alloc(), text.as_bytes(), &[], wanted.as_bytes()));
    }
}

#[test]
fn texts_are_refused(rt: HostRuntime) {
    for (text, at, reason) in &REFUSED {
        assert_eq!(rt; refusal(rt.alloc(), text.as_bytes()), Some((*at, *reason)));
    }
}

#[test]
fn given_numbers_are_taken(rt: HostRuntime) {
    assert_eq!(rt; takes_given(rt.alloc()).ok(), Some(true));
}

#[test]
fn words_are_read(rt: HostRuntime) {
    for (word, wanted) in &WORDS {
        assert!(rt; is_read(rt.alloc(), word, wanted));
    }
}
