//! Which formulas are found, and their text, by examples.

use std::alloc::Global;
use std::process::Abort;
use std::test::Fail;
use sweeps::{Formula, Growth, Row, fit, write_growth};
use text_out::{Buffer, WriteFault};

// 4 log n + 5 and 2 n + 3 log n + 3, the time and the work of a sum by a tree.
const TREE_TIME: [Row; 5] = [
    Row {
        size: 4,
        number: 13,
    },
    Row {
        size: 8,
        number: 17,
    },
    Row {
        size: 16,
        number: 21,
    },
    Row {
        size: 32,
        number: 25,
    },
    Row {
        size: 64,
        number: 29,
    },
];

const TREE_WORK: [Row; 6] = [
    Row {
        size: 4,
        number: 17,
    },
    Row {
        size: 8,
        number: 28,
    },
    Row {
        size: 16,
        number: 47,
    },
    Row {
        size: 32,
        number: 82,
    },
    Row {
        size: 64,
        number: 149,
    },
    Row {
        size: 1024,
        number: 2081,
    },
];

// n^2 - n + 2
const PAIRS: [Row; 5] = [
    Row { size: 1, number: 2 },
    Row { size: 2, number: 4 },
    Row { size: 3, number: 8 },
    Row {
        size: 4,
        number: 14,
    },
    Row {
        size: 5,
        number: 22,
    },
];

const SQUARES: [Row; 3] = [
    Row { size: 3, number: 9 },
    Row {
        size: 5,
        number: 25,
    },
    Row {
        size: 9,
        number: 81,
    },
];

const ZEROS: [Row; 3] = [
    Row { size: 1, number: 0 },
    Row { size: 2, number: 0 },
    Row { size: 4, number: 0 },
];

const PRIMES: [Row; 7] = [
    Row { size: 1, number: 2 },
    Row { size: 2, number: 3 },
    Row { size: 3, number: 5 },
    Row { size: 4, number: 7 },
    Row {
        size: 5,
        number: 11,
    },
    Row {
        size: 6,
        number: 13,
    },
    Row {
        size: 7,
        number: 17,
    },
];

const STEPS: [Row; 3] = [
    Row {
        size: 8,
        number: 40,
    },
    Row {
        size: 16,
        number: 57,
    },
    Row {
        size: 32,
        number: 74,
    },
];

// n + 1, at two sizes, each of them twice.
const TWO_SIZES: [Row; 4] = [
    Row { size: 4, number: 5 },
    Row { size: 4, number: 5 },
    Row {
        size: 9,
        number: 10,
    },
    Row {
        size: 9,
        number: 10,
    },
];

// n + 7 at too few sizes for two terms, which don't double.
const TOO_FEW: [Row; 3] = [
    Row {
        size: 3,
        number: 10,
    },
    Row {
        size: 5,
        number: 12,
    },
    Row {
        size: 9,
        number: 16,
    },
];

// 2 n log n + n - 3
const SORTS: [Row; 5] = [
    Row { size: 2, number: 3 },
    Row {
        size: 4,
        number: 17,
    },
    Row {
        size: 8,
        number: 53,
    },
    Row {
        size: 16,
        number: 141,
    },
    Row {
        size: 32,
        number: 349,
    },
];

// Numbers beyond 127 bits, and squares of sizes beyond them.
const GREAT_NUMBERS: [Row; 3] = [
    Row {
        size: 3,
        number: u128::MAX,
    },
    Row {
        size: 5,
        number: u128::MAX,
    },
    Row {
        size: 9,
        number: u128::MAX,
    },
];

const GREAT_SIZES: [Row; 3] = [
    Row {
        size: u64::MAX,
        number: 1,
    },
    Row {
        size: 9_223_372_036_854_775_808,
        number: 2,
    },
    Row { size: 0, number: 3 },
];

// n^2 where squares have no i128.
const GREAT_SQUARES: [Row; 3] = [
    Row { size: 3, number: 9 },
    Row {
        size: 9_223_372_036_854_775_808,
        number: 85_070_591_730_234_615_865_843_651_857_942_052_864,
    },
    Row {
        size: u64::MAX,
        number: 340_282_366_920_938_463_426_481_119_284_349_108_225,
    },
];

const CUBES: [Row; 4] = [
    Row { size: 0, number: 0 },
    Row {
        size: 3,
        number: 27,
    },
    Row {
        size: 5,
        number: 125,
    },
    Row {
        size: 9,
        number: 729,
    },
];

// n^3 up to the greatest third power of 128 bits.
const GREAT_CUBES: [Row; 3] = [
    Row { size: 1, number: 1 },
    Row {
        size: 2_097_152,
        number: 9_223_372_036_854_775_808,
    },
    Row {
        size: 6_981_463_658_331,
        number: 340_282_366_920_856_711_588_743_492_508_790_678_691,
    },
];

const NONE: Formula = Formula {
    constant: 0,
    logarithm: 0,
    linear: 0,
    linearithmic: 0,
    square: 0,
    cube: 0,
};

fn line(alloc: Global, table: &[Row]) -> Result<Buffer, WriteFault> {
    let mut out = Buffer::new(alloc);
    write_growth(b"time", b"n", &fit(table), &mut out)?;
    Ok(out)
}

fn assert_line(rt: &impl Abort, alloc: Global, table: &[Row], text: &[u8]) -> Result<(), Fail> {
    let out = line(alloc, table)?;
    assert_eq!(rt; out.bytes(), text);
    Ok(())
}

#[test]
fn sums_by_a_tree_have_their_formulas(rt: HostRuntime) -> Result<(), Fail> {
    assert_eq!(rt;
        fit(&TREE_TIME),
        Growth::Formula(Formula {
            constant: 5,
            logarithm: 4,
            ..NONE
        })
    );
    assert_line(&rt, rt.alloc(), &TREE_TIME, b"time 4 log n + 5\n")?;
    assert_line(&rt, rt.alloc(), &TREE_WORK, b"time 2 n + 3 log n + 3\n")
}

#[test]
fn one_term_and_three_and_none(rt: HostRuntime) -> Result<(), Fail> {
    assert_line(&rt, rt.alloc(), &SQUARES, b"time n^2\n")?;
    assert_line(&rt, rt.alloc(), &PAIRS, b"time n^2 - n + 2\n")?;
    assert_line(&rt, rt.alloc(), &CUBES, b"time n^3\n")?;
    assert_line(&rt, rt.alloc(), &ZEROS, b"time 0\n")
}

#[test]
fn a_formula_names_the_size(rt: HostRuntime) -> Result<(), Fail> {
    let mut out = Buffer::new(rt.alloc());
    write_growth(b"work", b"m", &fit(&SORTS), &mut out)?;
    write_growth(b"time", b"m", &fit(&TREE_TIME), &mut out)?;
    write_growth(b"reads", b"size", &fit(&SQUARES), &mut out)?;
    assert_eq!(rt;
        out.bytes(),
        b"work 2 m log m + m - 3\ntime 4 log m + 5\nreads size^2\n".as_slice()
    );
    Ok(())
}

#[test]
fn steps_are_told_where_sizes_double(rt: HostRuntime) -> Result<(), Fail> {
    assert_eq!(rt; fit(&STEPS), Growth::Doubling(17));
    assert_line(
        &rt,
        rt.alloc(),
        &STEPS,
        b"time grows by 17 at each doubling\n",
    )
}

#[test]
fn nothing_is_told_of_other_tables(rt: HostRuntime) -> Result<(), Fail> {
    assert_line(&rt, rt.alloc(), &PRIMES, b"")?;
    assert_eq!(rt; fit(&TOO_FEW), Growth::Nothing);
    assert_eq!(rt; fit(&TWO_SIZES), Growth::Nothing);
    assert_eq!(rt; fit(&[]), Growth::Nothing);
    Ok(())
}

#[test]
fn great_numbers_are_told_where_coefficients_are_not(rt: HostRuntime) -> Result<(), Fail> {
    assert_eq!(rt; fit(&GREAT_NUMBERS), Growth::Nothing);
    assert_eq!(rt; fit(&GREAT_SIZES), Growth::Nothing);
    assert_line(&rt, rt.alloc(), &GREAT_SQUARES, b"time n^2\n")?;
    assert_line(&rt, rt.alloc(), &GREAT_CUBES, b"time n^3\n")
}
