//! From a memory text to the values of all cells.

ghost use Rattle.std.specs.Prelude.{◌≡◌, ℤ, List, ◌+◌, ◌≤◌, ◌<◌, ◌↔◌, length, pos, replicate, Err, IfErr, IfOk};
ghost use Rattle.pram_tokens.specs.Plain.{IsPlain};
ghost use Rattle.pram_tokens.specs.Scanning.{longest};
ghost use Rattle.pram_tokens.specs.declared.error.TextFault.TheVariants.{TextTooLong};
ghost use Rattle.memory_texts.specs.declared.memory_fault.MemoryFault.TheVariants.{Text};
ghost use Rattle.memory_texts.specs.Assignments.{Answers, ReachesIf, assigned_if};
ghost use Rattle.memory_texts.specs.Memory as spec;

use crate::assignment::{Assignment, line_assignment};
use crate::front::{Run, split};
use crate::memory_fault::MemoryFault;
use pram_model::Layout;
use pram_tokens::{LONGEST, TextFault, first_other};
use std::alloc::{AllocError, Global};

// Cells that are all 0.
fn zeros(alloc: Global, count: u32) -> Result<Vec<i64>, AllocError>
    ensures { IfOk result (λ memory. memory.items ≡ replicate count (pos 0)) }
{
    vec![in alloc; 0; count as usize]
}

// Puts values into cells from that one on.
fn put_values(memory: &mut Vec<i64>, first: usize, values: &[i64])
    requires there { first + length values.now ≤ length memory.old.items }
    ensures value { memory.new.items ≡ spec.replaced memory.old.items first values.now }
    ensures sized { length memory.new.items ≡ length memory.old.items }
{
    for i in 0..values.len() {
        memory[first + i] = values[i];
    }
}

// Puts what a line gives into its cells.
fn put_given(memory: &mut Vec<i64>, given: Option<Assignment>)
    requires there { ReachesIf (length memory.old.items) (assigned_if given) }
    ensures given { memory.new.items ≡ spec.after memory.old.items (assigned_if given) }
    ensures sized { length memory.new.items ≡ length memory.old.items }
{
    match given {
        None => {}
        Some(given) => put_values(memory, given.first as usize, given.values.as_slice()),
    }
}

// What the line at an offset gives.
fn line_at(
    alloc: Global,
    layout: &Layout,
    at: usize,
    line: &[u8],
) -> Result<Option<Assignment>, MemoryFault>
    requires fits { at + length line.now ≤ longest }
    ensures { Answers assigned_if result (spec.given layout.now record { offset = at; bytes = line.now }) }
{
    let (code, _) = split(Run::Code, line);
    line_assignment(alloc, layout, at + code.len(), code)
}

// What the lines of a text leave.
fn memory_of(alloc: Global, layout: &Layout, text: &[u8]) -> Result<Vec<i64>, MemoryFault>
    requires fits { length text.now ≤ longest }
    ensures { Answers (λ memory. memory.items) result (spec.memory_of layout.now text.now) }
{
    let mut memory = zeros(alloc, layout.cells())?;
    let mut at = 0;
    while at < text.len() {
        let (_, rest) = text.split_at(at);
        let (line, _) = split(Run::Line, rest);
        let given = line_at(alloc, layout, at, line)?;
        put_given(&mut memory, given);
        at += line.len() + 1;
    }
    Ok(memory)
}

/// The values of all cells of a layout, in their order, by a memory text: cells that it does not name are 0.
///
/// A line of the text is empty, or `NAME = VALUES`, or `NAME[LOW..HIGH] = VALUES`; a comment begins with `#` and goes to the line's end,
/// and white space may stand between the parts. The values are those of the first cells of the declaration, or of its cells from the
/// subscript LOW on, as many as there are; a cell that is given more than once has the value that comes last.
///
/// A text of more than 1,048,576 bytes is `TextFault::TextTooLong` (E2), whatever it says; then the first byte of 128 or more is
/// `TextFault::NotAscii` (E1). Then what is wrong with the first line that is wrong: `TextFault::BadToken` (E3) at the first place at which
/// it has another form, or at its first word behind the `=` that is no whole number of 64 bits; `MemoryFault::Unknown` (E6) at its name,
/// where no declaration has it, or at LOW, where LOW to HIGH is no interval of the array's subscripts or the declaration is a single cell;
/// `MemoryFault::TooMany` (E11) where it has more values than cells. `MemoryFault::OutOfMemory` (E16) says that memory was refused.
pub fn read_memory(alloc: Global, layout: &Layout, text: &[u8]) -> Result<Vec<i64>, MemoryFault>
    // The answer has for each cell the value that the text's lines leave, in order, and 0 where they say nothing.
    ensures found { IfOk result (λ memory. spec.IsMemoryOf layout.now text.now memory.items) }
    // Whatever values the lines leave, those are the answer, unless memory was refused.
    ensures only { (memory : List ℤ) →
        spec.IsMemoryOf layout.now text.now memory → spec.IsAnswer (λ found. found.items) memory result }
    // TextTooLong is answered exactly for a text of more than 1,048,576 bytes.
    ensures too_long { (result ≡ Err (Text TextTooLong)) ↔ (longest < length text.now) }
    // A refusal tells the first of these: length, non-ASCII byte, what is wrong with the first wrong line. Memory is
    // refused only past the first two.
    ensures refused { IfErr result (spec.IsRefused layout.now text.now) }
{
    if text.len() > LONGEST {
        return Err(MemoryFault::Text(TextFault::TextTooLong));
    }
    if let Some(at) = first_other(text) {
        return Err(MemoryFault::Text(TextFault::NotAscii(at as u32)));
    }
    memory_of(alloc, layout, text)
}
