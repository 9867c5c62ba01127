//! The text of how a number grows.

ghost use Rattle.std.specs.Prelude.{◌≡◌, ◌^◌, ◌++◌, decimal};
ghost use Rattle.text_out.specs.Out.{Writes, joined};
ghost use Rattle.sweeps.specs.GrowthText as spec;

use crate::formula::Formula;
use crate::growth::Growth;
use crate::term::{Term, WRITTEN};
use itoa::Buffer;
use text_out::{Out, WriteFault};

// The sign of a coefficient, of the first term that is written or of a later one.
fn sign(first: bool, coefficient: i128) -> &'static [u8]
    ensures { result.now ≡ spec.sign_text first coefficient }
{
    if coefficient < 0 {
        if first { b"-" } else { b" - " }
    } else if first {
        b""
    } else {
        b" + "
    }
}

// A coefficient's size in front of a symbol: none where it is 1.
fn write_factor<W: Out>(size: u128, out: &mut W) -> Result<(), WriteFault>
    ensures written { Writes (W.Out.state out.old) (W.Out.state out.new) (spec.factor_text size) result }
{
    if size == 1 {
        Ok(())
    } else {
        let mut digits = Buffer::new();
        out.write_parts(&[digits.format(size).as_bytes(), b" "])
    }
}

// A coefficient's size and a symbol, in parts.
fn write_times<W: Out>(size: u128, symbol: &[&[u8]], out: &mut W) -> Result<(), WriteFault>
    ensures written { Writes (W.Out.state out.old) (W.Out.state out.new) (spec.factor_text size ++ joined symbol.now) result }
{
    write_factor(size, out)?;
    out.write_parts(symbol)
}

fn write_constant<W: Out>(size: u128, out: &mut W) -> Result<(), WriteFault>
    ensures written { Writes (W.Out.state out.old) (W.Out.state out.new) (decimal size) result }
{
    let mut digits = Buffer::new();
    out.write_all(digits.format(size).as_bytes())
}

// A coefficient's size and its term.
fn write_product<W: Out>(
    variable: &[u8],
    size: u128,
    term: Term,
    out: &mut W,
) -> Result<(), WriteFault>
    ensures written { Writes (W.Out.state out.old) (W.Out.state out.new) (spec.product_text variable.now size term) result }
{
    match term {
        Term::Constant => write_constant(size, out),
        Term::Logarithm => write_times(size, &[b"log ", variable], out),
        Term::Linear => write_times(size, &[variable], out),
        Term::Linearithmic => write_times(size, &[variable, b" log ", variable], out),
        Term::Square => write_times(size, &[variable, b"^2"], out),
        Term::Cube => write_times(size, &[variable, b"^3"], out),
    }
}

// A coefficient with its sign, and its term.
fn write_signed<W: Out>(
    variable: &[u8],
    first: bool,
    coefficient: i128,
    term: Term,
    out: &mut W,
) -> Result<(), WriteFault>
    ensures written { Writes (W.Out.state out.old) (W.Out.state out.new)
        (spec.signed_text variable.now first coefficient term) result }
{
    out.write_all(sign(first, coefficient))?;
    write_product(variable, coefficient.unsigned_abs(), term, out)
}

// A term, which is left out where its coefficient is 0.
fn write_term<W: Out>(
    variable: &[u8],
    first: bool,
    coefficient: i128,
    term: Term,
    out: &mut W,
) -> Result<(), WriteFault>
    ensures written { Writes (W.Out.state out.old) (W.Out.state out.new)
        (spec.term_text variable.now first coefficient term) result }
{
    if coefficient == 0 {
        Ok(())
    } else {
        write_signed(variable, first, coefficient, term, out)
    }
}

// Whether the next term is the first that is written.
fn is_still_first(first: bool, coefficient: i128) -> bool
    ensures { result ≡ spec.is_still_first first coefficient }
{
    first && coefficient == 0
}

// What stands behind the terms: a 0 where none was written.
fn write_rest<W: Out>(first: bool, out: &mut W) -> Result<(), WriteFault>
    ensures written { Writes (W.Out.state out.old) (W.Out.state out.new) (spec.rest_text first) result }
{
    if first { out.write_all(b"0") } else { Ok(()) }
}

// The terms of a formula.
fn write_terms<W: Out>(variable: &[u8], formula: &Formula, out: &mut W) -> Result<(), WriteFault>
    ensures written { Writes (W.Out.state out.old) (W.Out.state out.new) (spec.formula_text variable.now formula.now) result }
{
    let mut first = true;
    for term in &WRITTEN {
        let coefficient = formula.coefficient(*term);
        write_term(variable, first, coefficient, *term, out)?;
        first = is_still_first(first, coefficient);
    }
    write_rest(first, out)
}

// How a number grows by a step at each doubling.
fn write_doubling<W: Out>(step: i128, out: &mut W) -> Result<(), WriteFault>
    ensures written { Writes (W.Out.state out.old) (W.Out.state out.new) (spec.doubling_text step) result }
{
    let mut digits = Buffer::new();
    out.write_parts(&[
        b"grows by ",
        digits.format(step).as_bytes(),
        b" at each doubling",
    ])
}

/// Writes how a number grows with the size that the variable names, as `4 log n + 5` or `grows by 17 at each doubling`, and nothing where
/// nothing is told. The error is that the writer failed (E17).
pub fn write_growth_words<W: Out>(
    variable: &[u8],
    growth: &Growth,
    out: &mut W,
) -> Result<(), WriteFault>
    ensures written { Writes (W.Out.state out.old) (W.Out.state out.new) (spec.growth_words variable.now growth.now) result }
{
    match growth {
        Growth::Formula(formula) => write_terms(variable, formula, out),
        Growth::Doubling(step) => write_doubling(*step, out),
        Growth::Nothing => Ok(()),
    }
}

// The line of a growth.
fn write_line<W: Out>(
    label: &[u8],
    variable: &[u8],
    growth: &Growth,
    out: &mut W,
) -> Result<(), WriteFault>
    ensures written { Writes (W.Out.state out.old) (W.Out.state out.new)
        (spec.growth_line label.now variable.now growth.now) result }
{
    out.write_parts(&[label, b" "])?;
    write_growth_words(variable, growth, out)?;
    out.write_all(b"\n")
}

/// Writes how the number that the label names grows with the size that the variable names, as the line `time 4 log n + 5` or
/// `time grows by 17 at each doubling`, and nothing where nothing is told. The error is that the writer failed (E17).
pub fn write_growth<W: Out>(
    label: &[u8],
    variable: &[u8],
    growth: &Growth,
    out: &mut W,
) -> Result<(), WriteFault>
    // Exactly the text of this growth is written, or a beginning of it and then a failure.
    ensures written { Writes (W.Out.state out.old) (W.Out.state out.new)
        (spec.growth_text label.now variable.now growth.now) result }
{
    if growth.is_told() {
        write_line(label, variable, growth, out)
    } else {
        Ok(())
    }
}
