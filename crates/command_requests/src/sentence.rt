//! What is said of a word that is wrong.

ghost use Rattle.std.specs.Prelude.{◌≡◌};
ghost use Rattle.text_out.specs.Out.{Writes};
ghost use Rattle.command_requests.specs.Sentences as spec;

use crate::dashed::ends_meant;
use crate::given::Given;
use crate::named::is_same;
use text_out::{Out, WriteFault};
use text_places::write_escaped;

// What an option wants.
fn wanted(given: Given) -> &'static [u8]
    ensures { result.now ≡ spec.wanted given }
{
    match given {
        Given::Bound => b"a number from 0 to 4294967295",
        Given::Seconds => b"a number from 1 to 4294967295",
        Given::Workers => b"a number from 1 to 32",
        Given::ToldWorkers => b"a number from 1 to 4294967295",
        Given::Map => b"identity, or affine:A,B with A odd, and A and B from 0 to 4294967295",
        Given::Reserve => b"ITEMS,EXCHANGES, two numbers from 0 to 4294967295",
        Given::Schedule => b"a number from 1 to 4294967295",
        Given::From => b"a number from 0 to 4294967295",
        Given::To => b"a number from 0 to 4294967295",
        Given::Random => b"LO..HI, as -5..5, two numbers of 64 bits of which LO is at most HI",
        Given::Draw => {
            b"list, ring, ring:0, tree, sorted, permutation, or graph:V with V vertices from 2 to 4294967295"
        }
        Given::Seed => b"a number from 0 to 4294967295",
        Given::Cells => b"a number from 0 to 1048576",
        Given::Values => {
            b"LO..HI, as 0..4, two numbers of 64 bits of which LO is at most HI; explore and compare try at most 100000000 inputs"
        }
        Given::Permutations => b"a number from 1 to 10",
        Given::Under => b"erew, crew, common, priority or sum",
        Given::Count => b"a number from 1 to 1000000",
        Given::TimeAtMost => b"a number, or an expression of the sizes of FILE2, as 4*log(n)+10",
        Given::WorkAtMost => b"a number, or an expression of the sizes of FILE2, as 4*log(n)+10",
        Given::ProcsAtMost => b"a number, or an expression of the sizes of FILE2, as 4*log(n)+10",
        Given::Size => {
            b"NAME=VALUE, once for each size that the program declares, VALUE from 0 to 9223372036854775807"
        }
        Given::Sweep => {
            b"NAME=SIZES for a size that the program declares, 1 to 1000 of them, as n=4,8,16 or n=4..64*2 or n=10..50+10"
        }
        Given::Format => b"text or json, or csv with --sweep, or gnu with check",
        Given::Show => b"names of shared declarations of the program, as a,b",
        Given::Only => {
            b"names that the program declares, as a,b: of cells alone with --flow and compare, and with compare of both programs, or output"
        }
        Given::Bsp => b"G,L, two numbers from 0 to 4294967295",
        Given::Subject => {
            b"a refusal, as E6, a fault, as read-conflict, a command, language or options"
        }
    }
}

fn write_wanted<W: Out>(given: Given, out: &mut W) -> Result<(), WriteFault>
    ensures written { Writes (W.Out.state out.old) (W.Out.state out.new) (spec.wanted_text given) result }
{
    out.write_parts(&[
        b"` for `",
        given.name(),
        b"`: it wants ",
        wanted(given),
        b"\n",
    ])
}

fn write_meant<'x, W: Out>(
    name: &'x [u8],
    low: &'x str,
    high: &'x str,
    out: &mut W,
) -> Result<(), WriteFault>
    ensures written { Writes (W.Out.state out.old) (W.Out.state out.new) (spec.meant_text name.now low.now high.now) result }
{
    out.write_parts(&[
        b"` for `",
        name,
        b"`: did you mean `",
        low.as_bytes(),
        b"..",
        high.as_bytes(),
        b"`?\n",
    ])
}

// The interval that is meant, or what the option wants.
fn write_advice<W: Out>(given: Given, word: &str, out: &mut W) -> Result<(), WriteFault>
    ensures written { Writes (W.Out.state out.old) (W.Out.state out.new) (spec.advice given word.now) result }
{
    match ends_meant(given, word) {
        Some((low, high)) => write_meant(given.name(), low, high, out),
        None => write_wanted(given, out),
    }
}

fn write_value_sentence<W: Out>(given: Given, word: &str, out: &mut W) -> Result<(), WriteFault>
    ensures written { Writes (W.Out.state out.old) (W.Out.state out.new) (spec.value_sentence given word.now) result }
{
    out.write_all(b"invalid `")?;
    write_escaped(out, word.as_bytes())?;
    write_advice(given, word, out)
}

// Of one that a command wants, in the place of others.
fn command_sentence(word: &[u8]) -> &'static [u8]
    ensures { result.now ≡ spec.command_sentence word.now }
{
    if is_same(word, b"--input") {
        b"`compare` wants `--input`, `--cells` with `--values`, `--permutations`, or `--random` or `--draw` with `--count`, and one of these alone\n"
    } else if is_same(word, b"--cells") {
        b"`explore` wants `--cells` with `--values`, `--permutations`, or `--random` or `--draw` with `--count`, which take `--cells` too\n"
    } else if is_same(word, b"--values") {
        b"`--values` goes with `--cells` alone\n"
    } else if is_same(word, b"--count") {
        b"`--count` goes with `--random` or `--draw` alone\n"
    } else if is_same(word, b"--permutations") {
        b"`--permutations` goes with none of `--cells`, `--values`, `--random` and `--draw`\n"
    } else if is_same(word, b"--listing") {
        b"`export` wants a FILE, or `--listing` in its place, which goes without `--size`\n"
    } else if is_same(word, b"--shrink") {
        b"`--shrink` goes with neither `--random` nor `--draw`\n"
    } else if is_same(word, b"--witness") {
        b"`--witness` wants the name of a file, and `-` is none\n"
    } else {
        b""
    }
}

// Of an option that doesn't go with others of the call.
fn option_sentence(word: &[u8]) -> &'static [u8]
    ensures { result.now ≡ spec.option_sentence word.now }
{
    if is_same(word, b"--memory") {
        b"`--memory` goes with none of `--input`, `--random` and `--draw`\n"
    } else if is_same(word, b"--random") {
        b"`--random` goes with neither `--input` nor `--memory`, of `--draw` with `sorted` alone, and with `compare` or `explore` it wants `--count`\n"
    } else if is_same(word, b"--draw") {
        b"`--draw` goes with neither `--input` nor `--memory`, and with `compare` or `explore` it wants `--count`\n"
    } else if is_same(word, b"--seed") {
        b"`--seed` goes with `--random` or `--draw` alone\n"
    } else if is_same(word, b"--quiet") {
        b"`--quiet` doesn't go with `--show`\n"
    } else if is_same(word, b"--html") {
        b"`--html` goes with neither `--svg` nor another `--format` than text\n"
    } else if is_same(word, b"--svg") {
        b"`--svg` goes with no other `--format` than text, and with cost it wants `--sweep`\n"
    } else if is_same(word, b"--flow") {
        b"`--flow` goes with neither `--svg` nor `--html` nor another `--format` than text\n"
    } else if is_same(word, b"--outcome") {
        b"`--outcome` doesn't go with `--svg`\n"
    } else if is_same(word, b"--bsp") {
        b"`--bsp` doesn't go with `--svg`\n"
    } else if is_same(word, b"--schedule") {
        b"`--schedule` doesn't go with `--sweep`\n"
    } else if is_same(word, b"--lines") {
        b"`--lines` doesn't go with `--sweep`\n"
    } else if is_same(word, b"--seconds") {
        b"`--seconds` doesn't go with `--sweep`\n"
    } else if is_same(word, b"--only") {
        b"`--only` goes with neither `--svg` nor `--html` nor another `--format` than text\n"
    } else if is_same(word, b"--from") {
        b"`--from` is at most `--to`\n"
    } else {
        command_sentence(word)
    }
}

/// Writes what is said of a word of the command line, by the option that doesn't take it: the word, the option and what it wants; of an
/// option that doesn't go with others of the call, with which it goes; of any other word nothing. The error is that the writer failed
/// (E17).
pub fn write_word_fault<W: Out>(
    out: &mut W,
    wrong: Option<Given>,
    word: &str,
) -> Result<(), WriteFault>
    // Exactly what is said of the word is written, or a beginning of it and then a failure.
    ensures written { Writes (W.Out.state out.old) (W.Out.state out.new) (spec.word_fault wrong word.now) result }
{
    match wrong {
        Some(given) => write_value_sentence(given, word, out),
        None => out.write_all(option_sentence(word.as_bytes())),
    }
}
