//! A number that is said by the sizes of a text.

ghost use Rattle.std.specs.Prelude.{◌≤◌, length};
ghost use Rattle.pram_tokens.specs.Scanning.{longest};
ghost use Rattle.sized_texts.specs.Faults.{Answers, in_text};
ghost use Rattle.sized_texts.specs.Formulas as spec;

use crate::expression::whole;
use crate::fault::SizeFault;
use crate::head::sizes_of;
use crate::pieces::fault_in;
use crate::size::Size;
use crate::size_table::table_of;
use pram_tokens::LONGEST;
use std::alloc::Global;

/// What an expression comes to by the sizes of a text, where numbers are given for some of them: all of it is an expression as may stand in
/// braces in that text, as `4 * log(n) + 10`. A text without size lines has no sizes, and then it is one of numbers alone.
///
/// An expression of more than 1,048,576 bytes is `SizeFault::TooLong` (E2). `SizeFault::BadSize` (E19) stands at the first size line of the
/// text that is wrong, and behind that at the first place of the expression. `SizeFault::OutOfMemory` (E16) says that memory was refused.
pub fn number_by(
    alloc: Global,
    text: &[u8],
    given: &[Size],
    expression: &[u8],
) -> Result<u64, SizeFault>
    requires fits { length text.now ≤ longest }
    // The answer is the number that all of the expression comes to by the text's sizes, or why there is none; unless
    // memory was refused.
    ensures answers { Answers (λ v. v) result (spec.number_by given.now text.now expression.now) }
{
    if expression.len() > LONGEST {
        return Err(SizeFault::TooLong);
    }
    let given = table_of(alloc, given)?;
    let sizes = sizes_of(alloc, &given, text)?;
    match whole(&sizes, expression) {
        Ok(value) => Ok(value),
        Err(wrong) => Err(fault_in(expression.len(), wrong)),
    }
}
