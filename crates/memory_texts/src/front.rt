//! What stands at the front of a text: runs of bytes, and bytes that have to be the next ones.

ghost use Rattle.std.specs.Prelude.{◌≡◌, ◌≤◌, length};
ghost use Rattle.std.specs.List.{prefix_len};
ghost use Rattle.memory_texts.specs.Front.{Gives};
ghost use Rattle.memory_texts.specs.Front as spec;

use number_words::read_number;

/// What a run of bytes has.
#[derive(Clone, Copy, Debug, PartialEq, Eq)]
pub enum Run {
    /// Whatever is not the end of a line.
    Line,
    /// Whatever does not begin a comment.
    Code,
    /// White space.
    Blank,
    /// Letters, digits and `_`.
    Word,
    /// Digits and `-`.
    Numeral,
}

fn is_of(run: Run, b: u8) -> bool
    ensures { result ≡ spec.is_of run b }
{
    match run {
        Run::Line => b != b'\n',
        Run::Code => b != b'#',
        Run::Blank => matches!(b, b' ' | b'\t' | b'\n' | b'\r'),
        Run::Word => b.is_ascii_alphabetic() || b.is_ascii_digit() || b == b'_',
        Run::Numeral => b.is_ascii_digit() || b == b'-',
    }
}

// How many bytes at the front are of a run.
fn run_len(run: Run, text: &[u8]) -> usize
    ensures value { result ≡ prefix_len (spec.is_of run) text.now }
    ensures within { result ≤ length text.now }
{
    let mut end = 0;
    while end < text.len() && is_of(run, text[end]) {
        end += 1;
    }
    end
}

/// The longest run at the front, and what is behind it.
pub(crate) fn split(run: Run, text: &[u8]) -> (&[u8], &[u8])
    ensures front { result.0.now ≡ spec.front run text.now }
    ensures behind { result.1.now ≡ spec.behind run text.now }
{
    text.split_at(run_len(run, text))
}

/// What is behind white space at the front.
pub(crate) fn past_blanks(text: &[u8]) -> &[u8]
    ensures { result.now ≡ spec.past_blanks text.now }
{
    let (_, rest) = split(Run::Blank, text);
    rest
}

/// What is behind a byte that has to be at the front, or how many bytes are left where it is not.
pub(crate) fn expect_front(byte: u8, text: &[u8]) -> Result<&[u8], usize>
    ensures { Gives (λ rest. rest.now) result (spec.expect_front byte text.now) }
{
    match text {
        [b, rest @ ..] => {
            if *b == byte {
                Ok(rest)
            } else {
                Err(text.len())
            }
        }
        [] => Err(0),
    }
}

/// What is behind a byte that has to be the next one behind white space, or how many bytes are left where it is not.
pub(crate) fn expect(byte: u8, text: &[u8]) -> Result<&[u8], usize>
    ensures { Gives (λ rest. rest.now) result (spec.expect byte text.now) }
{
    expect_front(byte, past_blanks(text))
}

/// The number at the front and what is behind it, or how many bytes are left where there is none.
pub(crate) fn number_front(text: &[u8]) -> Result<(i64, &[u8]), usize>
    ensures { Gives (λ f. (f.0, f.1.now)) result (spec.number_front text.now) }
{
    let (word, rest) = split(Run::Numeral, text);
    match read_number(word) {
        Some(number) => Ok((number, rest)),
        None => Err(text.len()),
    }
}

/// The number that has to be the next thing behind white space.
pub(crate) fn number_next(text: &[u8]) -> Result<(i64, &[u8]), usize>
    ensures { Gives (λ f. (f.0, f.1.now)) result (spec.number_next text.now) }
{
    number_front(past_blanks(text))
}
