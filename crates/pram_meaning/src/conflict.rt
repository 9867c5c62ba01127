//! The faults of a statement on a set of processors.

ghost use Rattle.std.specs.Prelude.{◌≡◌, ◌++◌, map, IfOk, OnOk};
ghost use Rattle.std.specs.List.{fold, flat_map, list_any};
ghost use Rattle.pram_meaning.specs.Conflict.{lesser, is_key_before, fault_of, least, reads_of, conflict_of, write_conflict, keys};
ghost use Rattle.write_rules.specs.Rule.{shares_reads};
ghost use Rattle.pram_meaning.specs.Accesses.{is_only_reader, judged, key_of, reads_at, shared_key};
ghost use Rattle.pram_meaning.specs.Judging.{part_is};

use crate::access::{Judged, collect_reads, last_position};
use crate::ascent::{are_apart, reads_ascend};
use crate::key::Key;
use crate::part::Part;
use crate::slate::Slate;
use pram_trees::Rule;
use pram_values::{Kind, Place};
use std::alloc::{AllocError, Global};

fn is_before(a: Key, b: Key) -> bool
    ensures { result ≡ is_key_before a b }
{
    a.at < b.at || (a.at == b.at && a.place.is_before(b.place))
}

// The lesser of two keys.
fn lesser_of(best: Option<Key>, key: Key) -> Option<Key>
    ensures { result ≡ lesser best key }
{
    match best {
        None => Some(key),
        Some(old) => {
            if is_before(key, old) {
                Some(key)
            } else {
                Some(old)
            }
        }
    }
}

fn add_fault(best: Option<Key>, x: &Part) -> Option<Key>
    ensures { result ≡ fold lesser best (fault_of (part_is x.now).processor (part_is x.now).attempt) }
{
    match x.outcome {
        Ok(_) => best,
        Err(kind) => lesser_of(
            best,
            Key {
                at: x.trail.len(),
                place: Place::Processor(x.processor),
                kind,
            },
        ),
    }
}

// The least key of the processors' own faults.
fn add_faults(best: Option<Key>, parts: &[Part]) -> Option<Key>
    ensures { result ≡ fold lesser best (flat_map (λ x. fault_of x.processor x.attempt) (map part_is parts.now)) }
{
    let mut best = best;
    for x in parts {
        best = add_fault(best, x);
    }
    best
}

// Whether no other processor reads the cell of a read.
fn is_alone(said: &Judged) -> bool
    ensures { result ≡ is_only_reader said.now.access.write.processor said.now.verdict }
{
    match said.verdict {
        Ok(reader) => reader == said.access.write.processor,
        Err(_) => false,
    }
}

// What is said against a read.
fn add_conflict(best: Option<Key>, said: &Judged) -> Option<Key>
    ensures { result ≡ fold lesser best (shared_key said.now) }
{
    if is_alone(said) {
        return best;
    }
    lesser_of(
        best,
        Key {
            at: said.access.at,
            place: Place::Cell(said.access.cell),
            kind: Kind::ReadConflict,
        },
    )
}

// The least key of the read conflicts at the position after `at`, as the slate has them. A cell's readers have their
// index in common just where there is one of them.
fn add_shared_at(
    alloc: Global,
    slate: &mut Slate,
    best: Option<Key>,
    parts: &[Part],
    at: usize,
) -> Result<Option<Key>, AllocError>
    ensures { IfOk result (λ b. b ≡ fold lesser best
        (flat_map shared_key (judged Rule.Common (reads_at at (map part_is parts.now))))) }
{
    let reads = collect_reads(alloc, parts, at)?;
    let said = slate.judge(alloc, Rule::Common, &reads)?;
    let mut best = best;
    for one in &said {
        best = add_conflict(best, one);
    }
    Ok(best)
}

// The least key of the read conflicts at the position after `at`. There is none where the cells ascend.
#[tactic(auto, using(crate::proofs::Ascents::reads_quiet))]
fn add_conflicts_at(
    alloc: Global,
    slate: &mut Slate,
    best: Option<Key>,
    parts: &[Part],
    at: usize,
) -> Result<Option<Key>, AllocError>
    ensures { IfOk result (λ b. b ≡ fold lesser best
        (flat_map shared_key (judged Rule.Common (reads_at at (map part_is parts.now))))) }
{
    if reads_ascend(parts, at) {
        return Ok(best);
    }
    add_shared_at(alloc, slate, best, parts, at)
}

// The least key of the read conflicts, position by position.
#[tactic(auto, using(crate::proofs::Columns::columns_start, crate::proofs::Columns::columns_go, crate::proofs::Columns::columns_end))]
fn add_conflicts(
    alloc: Global,
    slate: &mut Slate,
    best: Option<Key>,
    parts: &[Part],
) -> Result<Option<Key>, AllocError>
    ensures { IfOk result (λ b. b ≡ fold lesser best (flat_map (conflict_of (reads_of (map part_is parts.now)))
        (reads_of (map part_is parts.now)))) }
{
    let mut best = best;
    for at in 0..last_position(parts) {
        best = add_conflicts_at(alloc, slate, best, parts, at)?;
    }
    Ok(best)
}

// What the rule says against a write.
fn add_verdict(best: Option<Key>, said: &Judged) -> Option<Key>
    ensures { result ≡ fold lesser best (key_of said.now) }
{
    match said.verdict {
        Ok(_) => best,
        Err(kind) => lesser_of(
            best,
            Key {
                at: said.access.at,
                place: Place::Cell(said.access.cell),
                kind,
            },
        ),
    }
}

// The least key of what the rule says against the writes, as the slate has them.
fn add_verdicts(
    alloc: Global,
    slate: &mut Slate,
    rule: Rule,
    best: Option<Key>,
    parts: &[Part],
) -> Result<Option<Key>, AllocError>
    ensures { IfOk result (λ b. b ≡ fold lesser best (flat_map (λ x. write_conflict rule (map part_is parts.now) x.attempt)
        (map part_is parts.now))) }
{
    let said = slate.judge_writes(alloc, rule, parts)?;
    let mut best = best;
    for one in &said {
        best = add_verdict(best, one);
    }
    Ok(best)
}

// The least key of what the rule says against the writes. It says nothing where they are apart.
fn add_writes(
    alloc: Global,
    slate: &mut Slate,
    rule: Rule,
    best: Option<Key>,
    parts: &[Part],
) -> Result<Option<Key>, AllocError>
    ensures { IfOk result (λ b. b ≡ fold lesser best (flat_map (λ x. write_conflict rule (map part_is parts.now) x.attempt)
        (map part_is parts.now))) }
{
    if are_apart(rule, parts) {
        return Ok(best);
    }
    add_verdicts(alloc, slate, rule, best, parts)
}

fn shares(rule: Rule) -> bool
    ensures { result ≡ shares_reads rule }
{
    rule != Rule::Erew
}

/// The least fault of a statement, if it has one.
pub fn least_key(
    alloc: Global,
    slate: &mut Slate,
    rule: Rule,
    parts: &[Part],
) -> Result<Option<Key>, AllocError>
    ensures { IfOk result (λ b. b ≡ least (keys rule (map part_is parts.now))) }
{
    let mut best = add_faults(None, parts);
    if !shares(rule) {
        best = add_conflicts(alloc, slate, best, parts)?;
    }
    add_writes(alloc, slate, rule, best, parts)
}
