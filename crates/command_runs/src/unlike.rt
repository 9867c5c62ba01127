//! Postconditions that declare something with other bounds than the program.

ghost use Rattle.std.specs.Prelude.{◌≡◌, ◌<◌, IfOk, IfErr, OnOk, Some, length, slice_get};
ghost use Rattle.std.specs.String.{string_bytes};
ghost use Rattle.std.specs.Str.Lossy.{utf8_lossy};
ghost use Rattle.pram_model.specs.Layout.{SharedEntry};
ghost use Rattle.pram_model.specs.Names.{same_text};
ghost use Rattle.memory_texts.specs.Cells.{declaration};
ghost use Rattle.command_runs.specs.Specified as spec;

use diagnoses::Halted;
use itoa::Buffer as Digits;
use pram_check::Program;
use pram_trees::Layout;
use program_texts::{Refusal, Stop};
use scopes::first_unlike;
use std::alloc::{AllocError, Global};
use text_out::{Buffer, Out};
use text_places::escaped_name;

// An array, as its program declares it.
fn array_text(alloc: Global, name: &[u8], low: i64, high: i64) -> Result<Vec<u8>, AllocError>
    ensures { IfOk result (λ text. text.items ≡ spec.declared_text name.now (Some (low, high))) }
{
    let mut text = Buffer::new(alloc);
    let mut from = Digits::new();
    let mut to = Digits::new();
    match text.write_parts(&[
        name,
        b"[",
        from.format(low).as_bytes(),
        b"..",
        to.format(high).as_bytes(),
        b"]",
    ]) {
        Ok(()) => Vec::from_slice(alloc, text.bytes()),
        Err(_) => Err(AllocError),
    }
}

// A declaration, as its program has it.
fn declared_text(
    alloc: Global,
    name: &[u8],
    bounds: Option<(i64, i64)>,
) -> Result<Vec<u8>, AllocError>
    ensures { IfOk result (λ text. text.items ≡ spec.declared_text name.now bounds) }
{
    match bounds {
        None => Vec::from_slice(alloc, name),
        Some((low, high)) => array_text(alloc, name, low, high),
    }
}

fn is_same(a: &[u8], b: &[u8]) -> bool
    ensures { result ≡ same_text a.now b.now }
{
    a == b
}

// The number of the first declaration of that name, and its bounds.
fn declared(layout: &Layout, name: &[u8]) -> Option<(usize, Option<(i64, i64)>)>
    ensures { result ≡ declaration 0 layout.now name.now }
{
    for i in 0..layout.len() {
        if is_same(layout.name(i), name) {
            return Some((i, layout.bounds(i)));
        }
    }
    None
}

// The name behind `opening_`.
fn opened_name(name: &[u8]) -> &[u8]
    ensures { result.now ≡ spec.opened_name name.now }
{
    let from = name.len().min(8);
    &name[from..]
}

fn named_text(alloc: Global, layout: &Layout, name: &[u8]) -> Result<Vec<u8>, AllocError>
    ensures { IfOk result (λ text. text.items ≡ spec.named_text name.now (declaration 0 layout.now name.now)) }
{
    match declared(layout, name) {
        None => Ok(Vec::new(alloc)),
        Some((_, bounds)) => declared_text(alloc, name, bounds),
    }
}

// The declaration that one of a postcondition is named after.
fn namesake_text(alloc: Global, layout: &Layout, name: &[u8]) -> Result<Vec<u8>, AllocError>
    ensures { IfOk result (λ text. text.items ≡ spec.namesake_text layout.now name.now) }
{
    match declared(layout, name) {
        None => named_text(alloc, layout, opened_name(name)),
        Some((_, bounds)) => declared_text(alloc, name, bounds),
    }
}

// A sentence of these parts.
fn joined(
    alloc: Global,
    post: &[u8],
    declares: &[u8],
    file: &[u8],
    namesake: &[u8],
) -> Result<String, AllocError>
    ensures { IfOk result (λ text. string_bytes text ≡ utf8_lossy (spec.sentence post.now declares.now file.now namesake.now)) }
{
    let mut text = Buffer::new(alloc);
    match text.write_parts(&[
        b"error: ",
        post,
        b" declares ",
        declares,
        b", and ",
        file,
        b" ",
        namesake,
        b": they have to have the same bounds\n",
    ]) {
        Ok(()) => String::from_utf8_lossy(alloc, text.bytes()),
        Err(_) => Err(AllocError),
    }
}

// What is said of a declaration of a postcondition, and of the one that it is named after.
fn unlike_text(
    alloc: Global,
    file: &str,
    layout: &Layout,
    post: &str,
    asked: &Layout,
    i: usize,
) -> Result<String, AllocError>
    requires { i < length asked.now }
    ensures { (e : SharedEntry) → slice_get asked.now i ≡ Some e →
        IfOk result (λ text. string_bytes text ≡ utf8_lossy (spec.unlike_text file.now post.now layout.now e)) }
{
    let name = asked.name(i);
    let declares = declared_text(alloc, name, asked.bounds(i))?;
    let namesake = namesake_text(alloc, layout, name)?;
    let post = escaped_name(alloc, post.as_bytes())?;
    let file = escaped_name(alloc, file.as_bytes())?;
    joined(alloc, &post, &declares, &file, &namesake)
}

// A declaration of a postcondition is told, the first that has other bounds than the one that it is named after.
fn halted_unlike<'a>(
    alloc: Global,
    file: &str,
    layout: &Layout,
    post: &str,
    asked: &Layout,
    i: usize,
) -> Halted<'a>
    requires inside { i < length asked.now }
    requires first { (e : SharedEntry) × (slice_get asked.now i ≡ Some e) × spec.IsFirstUnlike layout.now asked.now e }
    ensures { spec.IsUnlikeTold file.now post.now layout.now asked.now result.stop result.about }
{
    match unlike_text(alloc, file, layout, post, asked, i) {
        Ok(text) => Halted::from(Stop::Words(text)),
        Err(AllocError) => Halted::from(Stop::Refused(Refusal::OutOfMemory)),
    }
}

/// Checks that no declaration of a postcondition has other bounds than the one of the program that it is named after. The first that has is
/// told (P1), with the names of both files.
pub(crate) fn check_alike<'a>(
    alloc: Global,
    file: &str,
    program: &Program,
    post: &str,
    postcondition: &Program,
) -> Result<(), Halted<'a>>
    ensures alike { OnOk result (spec.IsAlike program.now.layout postcondition.now.layout) }
    ensures unlike { IfErr result (λ h.
        spec.IsUnlikeTold file.now post.now program.now.layout postcondition.now.layout h.stop h.about) }
{
    match first_unlike(program, postcondition) {
        None => Ok(()),
        Some(i) => {
            let (layout, asked) = (program.layout(), postcondition.layout());
            Err(halted_unlike(alloc, file, layout, post, asked, i))
        }
    }
}
