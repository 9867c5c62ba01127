//! What is said of the first thing that is wrong with a program.

ghost use Rattle.std.specs.Prelude.{◌≡◌, IfOk};
ghost use Rattle.std.specs.Option.{option_map};
ghost use Rattle.text_out.specs.Out.{Writes};
ghost use Rattle.help.specs.Messages.{message_is};
ghost use Rattle.diagnoses.specs.Remarks.{remark_is};
ghost use Rattle.diagnoses.specs.Breaches as spec;
ghost use Rattle.diagnoses.specs.Sources.{spot_as_it_stands, text_in};

use crate::fitting::Role;
use crate::parts::at_byte;
use crate::places::{behind, is_same, token_at, write_quoted};
use crate::remark::Remark;
use crate::source::{Kind, Source};
use crate::standing::spot_as_it_stands;
use crate::undeclared::{Around, write_undeclared};
use help::{Message, Sort};
use itoa::Buffer as Digits;
use pram_check::{Breach, Cause, Limit, Spot};
use std::alloc::{AllocError, Global};
use text_out::{Buffer, Out, WriteFault};

fn sort_text(sort: Sort) -> &'static [u8]
    ensures { result.now ≡ spec.sort_text sort }
{
    match sort {
        Sort::Cell => b"a shared cell",
        Sort::Array => b"a shared array",
        Sort::Variable => b"a variable",
        Sort::Index => b"the index of a pardo",
        Sort::Local => b"a local of a pardo",
    }
}

fn target_reason(sort: Sort) -> &'static [u8]
    ensures { result.now ≡ spec.target_reason sort }
{
    match sort {
        Sort::Variable => b"inside pardo a local or a shared cell is set, and no variable",
        Sort::Array => b"it wants a subscript",
        Sort::Cell | Sort::Index | Sort::Local => b"it is not set here",
    }
}

fn role_reason(sort: Sort, role: Role) -> &'static [u8]
    ensures { result.now ≡ spec.role_reason sort role }
{
    match role {
        Role::Element => b"it has no subscript",
        Role::Counter => b"a for runs over a variable",
        Role::Target => target_reason(sort),
        Role::Value => b"it wants a subscript",
    }
}

fn loop_reason(sort: Sort) -> &'static [u8]
    ensures { result.now ≡ spec.loop_reason sort }
{
    match sort {
        Sort::Variable => { b"it is the variable of a for around this, and is not set in its body" }
        Sort::Index => b"an index is never set",
        Sort::Cell | Sort::Array | Sort::Local => b"it is not set here",
    }
}

fn reason(cause: Cause, sort: Sort) -> &'static [u8]
    ensures { result.now ≡ spec.reason cause sort }
{
    match cause {
        Cause::UnknownName => b"it is not in scope here",
        Cause::DoubleName => b"it can't be declared again here, and a pardo declares its index",
        Cause::WrongKind => b"it is of another kind than what may stand here",
        Cause::AssignedLoopVariable => loop_reason(sort),
        Cause::Limit(_) => b"it passes a limit",
    }
}

// Whether a `for` counts, by the text from its word on.
fn counts(text: &[u8]) -> bool
    ensures { result ≡ spec.counts text.now }
{
    for byte in text {
        if *byte == b':' || *byte == b'<' {
            return *byte == b':';
        }
    }
    false
}

fn inner_for(counts: bool) -> &'static [u8]
    ensures { result.now ≡ spec.inner_for counts }
{
    if counts {
        b" has no place inside pardo: loop by a local and a while, as in k := 1; while k <= 8 do k := k + 1; end"
    } else {
        b" has no place inside pardo: run over pairs by one range, as for 0 <= p <= n * m - 1 pardo, with the locals \
        i := p div m; j := p mod m;"
    }
}

fn is_print(word: &[u8]) -> bool
    ensures { result ≡ spec.is_print word.now }
{
    matches!(word, b"print")
}

fn is_for(word: &[u8]) -> bool
    ensures { result ≡ spec.is_for word.now }
{
    matches!(word, b"for")
}

fn wrong_kind(word: &[u8], counts: bool) -> &'static [u8]
    ensures { result.now ≡ spec.wrong_kind word.now counts }
{
    if is_print(word) {
        b" has no place inside pardo: set a shared cell there, and print it behind the pardo"
    } else if is_for(word) {
        inner_for(counts)
    } else {
        b" is of another kind than what may stand here"
    }
}

fn bare(word: &[u8], around: Around, cause: Cause) -> &'static [u8]
    ensures { result.now ≡ spec.bare word.now around cause }
{
    match cause {
        Cause::UnknownName => b" is not declared here",
        Cause::DoubleName => b" is declared already",
        Cause::WrongKind => wrong_kind(word, around.counts),
        Cause::AssignedLoopVariable => b" is the variable of a loop, and is not set in its body",
        Cause::Limit(_) => b" passes a limit",
    }
}

fn write_declared<W: Out>(
    out: &mut W,
    cause: Cause,
    sort: Sort,
    line: u32,
) -> Result<(), WriteFault>
    ensures written { Writes (W.Out.state out.old) (W.Out.state out.new) (spec.declared_text cause sort line) result }
{
    let mut digits = Digits::new();
    out.write_parts(&[
        b" is ",
        sort_text(sort),
        b", declared at line ",
        digits.format(line).as_bytes(),
        b": ",
        reason(cause, sort),
    ])
}

fn write_misplaced<W: Out>(out: &mut W, sort: Sort, line: u32, role: Role) -> Result<(), WriteFault>
    ensures written { Writes (W.Out.state out.old) (W.Out.state out.new) (spec.misplaced_text sort line role) result }
{
    let mut digits = Digits::new();
    out.write_parts(&[
        b" is ",
        sort_text(sort),
        b", declared at line ",
        digits.format(line).as_bytes(),
        b": ",
        role_reason(sort, role),
    ])
}

fn write_elsewhere<W: Out>(out: &mut W, sort: Sort, line: u32) -> Result<(), WriteFault>
    ensures written { Writes (W.Out.state out.old) (W.Out.state out.new) (spec.elsewhere_text sort line) result }
{
    let mut digits = Digits::new();
    out.write_parts(&[
        b" is ",
        sort_text(sort),
        b", declared at line ",
        digits.format(line).as_bytes(),
        b": it holds in the body of that pardo alone",
    ])
}

// What is said behind the word.
fn write_remarked<W: Out>(
    out: &mut W,
    word: &[u8],
    around: Around,
    cause: Cause,
    remark: &Remark,
) -> Result<(), WriteFault>
    ensures written { Writes (W.Out.state out.old) (W.Out.state out.new)
        (spec.remarked word.now around cause (remark_is remark.now)) result }
{
    match remark {
        Remark::Nothing => out.write_all(bare(word, around, cause)),
        Remark::Nearest(name) => out.write_parts(&[
            b" is not declared here; did you mean \"",
            name.as_slice(),
            b"\"?",
        ]),
        Remark::Declared(sort, line) => write_declared(out, cause, *sort, *line),
        Remark::Misplaced(sort, line, role) => write_misplaced(out, *sort, *line, *role),
        Remark::Elsewhere(sort, line) => write_elsewhere(out, *sort, *line),
        Remark::Undeclared(role, inside) => write_undeclared(
            out,
            word,
            *role,
            *inside,
            around.sized,
        ),
        Remark::Expected(_, _) => out.write_all(bare(word, around, cause)),
    }
}

fn limit_sentence(limit: Limit) -> &'static [u8]
    ensures { result.now ≡ spec.limit_sentence limit }
{
    match limit {
        Limit::Cells => {
            b"with this the program has more than 1048576 shared cells, the most that there may be"
        }
        Limit::Procs => b"procs is a number from 1 to 16384",
        Limit::Bounds => b"the first bound of an array is at most its last",
        Limit::Reads =>
            b"this is the ninth shared read of the statement, which has at most 8: split it in two",
        Limit::Tokens => b"a program has at most 16384 tokens",
    }
}

fn write_named<W: Out>(
    out: &mut W,
    word: &[u8],
    around: Around,
    cause: Cause,
    remark: &Remark,
) -> Result<(), WriteFault>
    ensures written { Writes (W.Out.state out.old) (W.Out.state out.new)
        (spec.named_sentence word.now around cause (remark_is remark.now)) result }
{
    write_quoted(out, word)?;
    write_remarked(out, word, around, cause, remark)
}

fn write_sentence<W: Out>(
    out: &mut W,
    word: &[u8],
    around: Around,
    cause: Cause,
    remark: &Remark,
) -> Result<(), WriteFault>
    ensures written { Writes (W.Out.state out.old) (W.Out.state out.new)
        (spec.breach_sentence word.now around cause (remark_is remark.now)) result }
{
    match cause {
        Cause::Limit(limit) => out.write_all(limit_sentence(limit)),
        _ => write_named(out, word, around, cause, remark),
    }
}

// What is said of a name in a memory.
fn write_unnamed<W: Out>(out: &mut W, word: &[u8]) -> Result<(), WriteFault>
    ensures written { Writes (W.Out.state out.old) (W.Out.state out.new) (spec.unnamed word.now) result }
{
    write_quoted(out, word)?;
    out.write_all(b" names no shared cells of the program")
}

// The sentence on a word, by the kind of text in which it stands.
fn write_said<W: Out>(
    out: &mut W,
    kind: Kind,
    word: &[u8],
    around: Around,
    cause: Cause,
    remark: &Remark,
) -> Result<(), WriteFault>
    ensures written { Writes (W.Out.state out.old) (W.Out.state out.new)
        (spec.said_of kind word.now around cause (remark_is remark.now)) result }
{
    match kind {
        Kind::Memory => write_unnamed(out, word),
        Kind::Program | Kind::Input | Kind::Listing => {
            write_sentence(out, word, around, cause, remark)
        }
    }
}

fn offset_of(text: &[u8], spot: Spot) -> usize
    ensures { result ≡ spec.offset_of text.now spot }
{
    match spot {
        Spot::Offset(at) => at as usize,
        Spot::TextEnd => text.len(),
    }
}

// The word or symbol at a place.
fn word_at(text: &[u8], spot: Spot) -> &[u8]
    ensures { result.now ≡ spec.word_at text.now spot }
{
    token_at(text, offset_of(text, spot))
}

// Whether a `for` at a place counts.
fn counts_at(text: &[u8], spot: Spot) -> bool
    ensures { result ≡ spec.counts_at text.now spot }
{
    counts(behind(text, offset_of(text, spot)))
}

fn around_at(source: &Source<'_>, spot: Spot) -> Around
    ensures { result ≡ spec.around_at source.now spot }
{
    Around {
        counts: counts_at(source.text(), spot),
        sized: !is_same(source.text(), source.bytes.as_slice()),
    }
}

// The offset of a place in the file.
fn offset_in(source: &Source<'_>, spot: Spot) -> usize
    ensures { result ≡ spec.offset_of source.now.bytes.items (spot_as_it_stands source.now spot) }
{
    offset_of(source.bytes.as_slice(), spot_as_it_stands(source, spot))
}

// The sentence on the word at a place.
fn at_spot(
    alloc: Global,
    source: &Source<'_>,
    breach: Breach,
    remark: &Remark,
) -> Result<Message, AllocError>
    ensures { IfOk result (λ m. message_is m ≡ spec.at_spot source.now breach.spot
        (spec.said_of source.now.kind (spec.word_at (text_in source.now) breach.spot) (spec.around_at source.now breach.spot)
        breach.cause (remark_is remark.now))) }
{
    let mut out = Buffer::new(alloc);
    let word = word_at(source.text(), breach.spot);
    let around = around_at(source, breach.spot);
    match write_said(&mut out, source.kind, word, around, breach.cause, remark) {
        Ok(()) => at_byte(alloc, offset_in(source, breach.spot), out.bytes()),
        Err(WriteFault) => Err(AllocError),
    }
}

fn meant_name(alloc: Global, remark: &Remark) -> Result<Option<Vec<u8>>, AllocError>
    ensures { IfOk result (λ meant. option_map (λ v. v.items) meant ≡ spec.meant_name (remark_is remark.now)) }
{
    match remark {
        Remark::Nearest(name) => Ok(Some(name.clone()?)),
        Remark::Nothing => Ok(None),
        Remark::Declared(_, _) => Ok(None),
        Remark::Misplaced(_, _, _) => Ok(None),
        Remark::Elsewhere(_, _) => Ok(None),
        Remark::Undeclared(_, _) => Ok(None),
        Remark::Expected(_, _) => Ok(None),
    }
}

// The name that was meant, in a text of that kind.
fn meant_in(alloc: Global, kind: Kind, remark: &Remark) -> Result<Option<Vec<u8>>, AllocError>
    ensures { IfOk result (λ meant. option_map (λ v. v.items) meant ≡ spec.meant_in kind (remark_is remark.now)) }
{
    match kind {
        Kind::Memory => Ok(None),
        Kind::Program | Kind::Input | Kind::Listing => meant_name(alloc, remark),
    }
}

/// What is said of the first thing that is wrong with a program (E6 to E10), or with a name in a memory (E6): where in the file, and a
/// sentence on the name there by what there is to say of it, or on the limit. The error is that memory was refused.
pub(crate) fn breach_message(
    alloc: Global,
    source: &Source<'_>,
    breach: Breach,
    remark: &Remark,
) -> Result<Message, AllocError>
    ensures { IfOk result (λ m. message_is m ≡ spec.breach_message source.now breach (remark_is remark.now)) }
{
    let meant = meant_in(alloc, source.kind, remark)?;
    let message = at_spot(alloc, source, breach, remark)?;
    Ok(message.with_meant(meant))
}
