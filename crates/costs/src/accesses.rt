//! The shared accesses of processors.

ghost use Rattle.std.specs.Prelude.{◌≡◌, ◌≤◌, ◌<◌, ◌^◌, length, map};
ghost use Rattle.std.specs.List.{sum_by};
ghost use Rattle.pram_meaning.specs.Judging.{part_is};
ghost use Rattle.costs.specs.Steps.{part_reads, part_writes, writes_to};
ghost use Rattle.costs.specs.Steps as spec;

use pram_meaning::part::Part;

/// How many accesses there are to a cell, if there is one.
pub fn count_of(cell: Option<u32>) -> u32
    ensures count { result ≡ writes_to cell }
    ensures one { result ≤ 1 }
{
    match cell {
        Some(_) => 1,
        None => 0,
    }
}

/// The shared reads of a trail.
pub fn reads_on(trail: &[Option<u32>]) -> u64
    ensures { result ≡ spec.reads_on trail.now }
{
    let mut reads = 0u64;
    for cell in trail {
        reads += u64::from(count_of(*cell));
    }
    reads
}

// The shared writes of a part.
fn writes_of(x: &Part) -> u32
    ensures writes { result ≡ part_writes (part_is x.now) }
    ensures one { result ≤ 1 }
{
    match x.outcome {
        Ok(effect) => count_of(effect.cell),
        Err(_) => 0,
    }
}

// The shared reads of a part.
fn reads_of(x: &Part) -> u64
    ensures { result ≡ part_reads (part_is x.now) }
{
    reads_on(&x.trail)
}

/// The shared reads of all parts.
pub fn all_reads(parts: &[Part]) -> u128
    requires few { length parts.now < 2 ^ 32 }
    ensures reads { result ≡ sum_by part_reads (map part_is parts.now) }
    ensures most { result ≤ 2 ^ 96 }
{
    let mut reads = 0u128;
    for x in parts {
        reads += u128::from(reads_of(x));
    }
    reads
}

/// The shared writes of all parts.
pub fn all_writes(parts: &[Part]) -> u32
    requires few { length parts.now < 2 ^ 32 }
    ensures { result ≡ sum_by part_writes (map part_is parts.now) }
{
    let mut writes = 0u32;
    for x in parts {
        writes += writes_of(x);
    }
    writes
}
