//! Names on one line, whatever stands in them.

ghost use Rattle.std.specs.Prelude.{◌≡◌, ◌<◌, ◌++◌, ℕ, List, codes, get_or, length, IfOk};
ghost use Rattle.text_out.specs.Out.{Writes};
ghost use Rattle.text_places.specs.Escaped as spec;

use std::alloc::{AllocError, Global};
use text_out::{Buffer, Out, WriteFault};

fn is_control(byte: u8) -> bool
    ensures { result ≡ spec.is_control byte }
{
    byte < 32 || byte == 127
}

fn is_from_to(low: u8, high: u8, byte: u8) -> bool
    ensures { result ≡ spec.is_from_to low high byte }
{
    low <= byte && byte <= high
}

fn is_pair(a: u8, b: u8) -> bool
    ensures { result ≡ spec.is_pair a b }
{
    (is_from_to(128, 159, b) && a == 194) || (b == 156 && a == 216)
}

// Behind the first byte, 226.
fn is_triple_end(b: u8, c: u8) -> bool
    ensures { result ≡ spec.is_triple_end b c }
{
    (b == 128 && (is_from_to(142, 143, c) || is_from_to(168, 174, c)))
        || (b == 129 && is_from_to(166, 169, c))
}

fn begins_control(text: &[u8]) -> bool
    ensures { result ≡ spec.begins_control text.now }
{
    match text {
        [] => false,
        [a, ..] => is_control(*a),
    }
}

fn begins_pair(text: &[u8]) -> bool
    ensures { result ≡ spec.begins_pair text.now }
{
    match text {
        [a, b, ..] => is_pair(*a, *b),
        _ => false,
    }
}

fn begins_triple(text: &[u8]) -> bool
    ensures { result ≡ spec.begins_triple text.now }
{
    match text {
        [a, b, c, ..] => *a == 226 && is_triple_end(*b, *c),
        _ => false,
    }
}

// How many bytes the first character has, if it ends a line or steers what shows it.
fn steering(text: &[u8]) -> usize
    ensures { result ≡ spec.steering text.now }
{
    if begins_control(text) {
        1
    } else if begins_pair(text) {
        2
    } else if begins_triple(text) {
        3
    } else {
        0
    }
}

fn pending(left: usize, text: &[u8]) -> usize
    ensures { result ≡ spec.pending left text.now }
{
    if left == 0 { steering(text) } else { left }
}

// A digit to the base 16.
fn hex_digit(value: u8) -> u8
    requires { value < 16 }
    ensures { result ≡ spec.hex_digit value }
{
    if value < 10 { 48 + value } else { 87 + value }
}

// A byte by its number.
fn write_number<W: Out>(out: &mut W, byte: u8) -> Result<(), WriteFault>
    ensures written { Writes (W.Out.state out.old) (W.Out.state out.new) (codes "\\x" ++ spec.hex byte) result }
{
    out.write_all(&[b'\\', b'x', hex_digit(byte / 16 % 16), hex_digit(byte % 16)])
}

fn write_numbered<W: Out>(out: &mut W, byte: u8) -> Result<(), WriteFault>
    ensures written { Writes (W.Out.state out.old) (W.Out.state out.new) (spec.numbered byte) result }
{
    if byte == b'\n' {
        out.write_all(b"\\n")
    } else {
        write_number(out, byte)
    }
}

fn write_byte<W: Out>(out: &mut W, count: usize, byte: u8) -> Result<(), WriteFault>
    ensures written { Writes (W.Out.state out.old) (W.Out.state out.new) (spec.byte_text count byte) result }
{
    if count == 0 {
        out.write_all(&[byte])
    } else {
        write_numbered(out, byte)
    }
}

fn first_of(text: &[u8]) -> u8
    requires { 0 < length text.now }
    ensures { result ≡ get_or text.now 0 0 }
{
    text[0]
}

/// Writes the name of a file, or a word of a command line, so that it ends no line and steers nothing that shows it: each byte of a
/// control, of a separator of lines or of what turns the direction of text as `\n` or `\x1b`, and every other byte as it is. The error is
/// that the writer failed (E17).
pub fn write_escaped<W: Out>(out: &mut W, name: &[u8]) -> Result<(), WriteFault>
    // A name of a file or a word is written with each control, line separator and turn of direction escaped; or a
    // beginning of that, and then the writer failed.
    ensures written { Writes (W.Out.state out.old) (W.Out.state out.new) (spec.escaped name.now) result }
{
    let mut left = 0;
    let mut rest = name;
    while !rest.is_empty() {
        let count = pending(left, rest);
        write_byte(out, count, first_of(rest))?;
        left = count.saturating_sub(1);
        rest = rest.split_at(1).1;
    }
    Ok(())
}

/// The same in memory.
pub fn escaped_name(alloc: Global, name: &[u8]) -> Result<Vec<u8>, AllocError>
    // They are the bytes of the name with each control, line separator and turn of direction escaped.
    ensures { IfOk result (λ text. text.items ≡ spec.escaped name.now) }
{
    let mut text = Buffer::new(alloc);
    match write_escaped(&mut text, name) {
        Ok(()) => Vec::from_slice(alloc, text.bytes()),
        Err(_) => Err(AllocError),
    }
}

/// What is written of a name stays on its line, and steers nothing that shows it.
pub fn names_stay_on_their_line()
    // What is written of a name has no control, no separator of lines and nothing that turns the direction of text.
    ensures plain { (name : List ℕ) → spec.HasNoControl (spec.escaped name) }
    // A name without such characters is written as it is.
    ensures same { (name : List ℕ) → spec.HasNoControl name → spec.escaped name ≡ name }
{}
