//! What is wrong with a size line or with what stands between braces.

ghost use Rattle.std.specs.Prelude.{◌≡◌};
ghost use Rattle.sized_texts.specs.Reasons as spec;

use std::fmt;

/// Why a text with sizes is refused (E19).
#[derive(Clone, Copy, Debug, PartialEq, Eq)]
pub enum Reason {
    /// A size line has another form than `# size NAME = VALUE`.
    BadLine,
    /// A size line declares a keyword, or one of the words `log`, `root` and `pow`.
    Keyword,
    /// A size line declares a name that an earlier one has.
    Repeated,
    /// No size has this name.
    UnknownName,
    /// This can't stand here.
    Unexpected,
    /// The line ends before the brace is closed.
    NotClosed,
    /// A value is below 0 or above 9223372036854775807.
    OutOfRange,
    /// A number is divided by 0.
    ZeroDivisor,
    /// 0 has no logarithm.
    LogOfZero,
    /// The 65th level of an expression opens here.
    TooDeep,
}

/// The word for a reason, as it stands behind the place of a refusal: `unknown`.
pub fn reason_word(reason: Reason) -> &'static str
    ensures { result.now ≡ spec.reason_word reason }
{
    match reason {
        Reason::BadLine => "line",
        Reason::Keyword => "keyword",
        Reason::Repeated => "repeated",
        Reason::UnknownName => "unknown",
        Reason::Unexpected => "token",
        Reason::NotClosed => "brace",
        Reason::OutOfRange => "value",
        Reason::ZeroDivisor => "divisor",
        Reason::LogOfZero => "log",
        Reason::TooDeep => "depth",
    }
}

impl fmt::Display for Reason {
    fn fmt<W: fmt::Write>(&self, f: &mut fmt::Formatter<W>) -> fmt::Result {
        write!(f, "{}", reason_word(*self))
    }
}
