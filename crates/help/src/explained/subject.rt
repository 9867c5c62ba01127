//! What is explained.

ghost use Rattle.std.specs.Prelude.{◌≡◌, IfSome, None};
ghost use Rattle.help.specs.Explained.{Names, NamesNothing, subject_word};

use pram_values::Kind;
use program_texts::{Number, kind_word};

/// What is explained: a refusal, a kind of fault, a command, the language, the options, or everything at once.
#[derive(Clone, Copy, Debug, PartialEq, Eq)]
pub enum Subject {
    /// A refusal: its number, as `E6`.
    Refusal(Number),
    /// A kind of fault: its name, as `overflow`.
    Fault(Kind),
    /// `check`.
    Check,
    /// `plan`.
    Plan,
    /// `meaning`.
    Meaning,
    /// `cost`.
    Cost,
    /// `steps`.
    Steps,
    /// `rules`.
    Rules,
    /// `explore`.
    Explore,
    /// `always`.
    Always,
    /// `compare`.
    Compare,
    /// `grade`.
    Grade,
    /// `run`.
    Run,
    /// `trace`.
    Trace,
    /// `expand`.
    Expand,
    /// `fmt`.
    Fmt,
    /// `export`.
    Export,
    /// `exec`.
    Exec,
    /// `explain`.
    Explain,
    /// `language`.
    Language,
    /// `options`.
    Options,
    /// All of these: what is told without a word.
    Everything,
}

const SUBJECTS: [Subject; 47] = [
    Subject::Refusal(Number::NotAscii),
    Subject::Refusal(Number::TextTooLong),
    Subject::Refusal(Number::BadToken),
    Subject::Refusal(Number::Syntax),
    Subject::Refusal(Number::TooDeep),
    Subject::Refusal(Number::UnknownName),
    Subject::Refusal(Number::DoubleName),
    Subject::Refusal(Number::WrongKind),
    Subject::Refusal(Number::AssignedLoopVariable),
    Subject::Refusal(Number::Limit),
    Subject::Refusal(Number::InputTooLong),
    Subject::Refusal(Number::BadMap),
    Subject::Refusal(Number::BadWorkers),
    Subject::Refusal(Number::NotVerified),
    Subject::Refusal(Number::BadListing),
    Subject::Refusal(Number::OutOfMemory),
    Subject::Refusal(Number::WriteFailed),
    Subject::Refusal(Number::OutOfReserve),
    Subject::Refusal(Number::BadSize),
    Subject::Refusal(Number::CommandLine),
    Subject::Refusal(Number::UnreadableFile),
    Subject::Fault(Kind::Overflow),
    Subject::Fault(Kind::DivideByZero),
    Subject::Fault(Kind::OutOfRange),
    Subject::Fault(Kind::TooWide),
    Subject::Fault(Kind::ReadConflict),
    Subject::Fault(Kind::WriteConflict),
    Subject::Check,
    Subject::Plan,
    Subject::Meaning,
    Subject::Cost,
    Subject::Steps,
    Subject::Rules,
    Subject::Explore,
    Subject::Always,
    Subject::Compare,
    Subject::Grade,
    Subject::Run,
    Subject::Trace,
    Subject::Expand,
    Subject::Fmt,
    Subject::Export,
    Subject::Exec,
    Subject::Explain,
    Subject::Language,
    Subject::Options,
    Subject::Everything,
];

// The word of a subject.
fn word_of(subject: Subject) -> &'static str
    ensures { result.now ≡ subject_word subject }
{
    match subject {
        Subject::Refusal(number) => number.code(),
        Subject::Fault(kind) => kind_word(kind),
        Subject::Check => "check",
        Subject::Plan => "plan",
        Subject::Meaning => "meaning",
        Subject::Cost => "cost",
        Subject::Steps => "steps",
        Subject::Rules => "rules",
        Subject::Explore => "explore",
        Subject::Always => "always",
        Subject::Compare => "compare",
        Subject::Grade => "grade",
        Subject::Run => "run",
        Subject::Trace => "trace",
        Subject::Expand => "expand",
        Subject::Fmt => "fmt",
        Subject::Export => "export",
        Subject::Exec => "exec",
        Subject::Explain => "explain",
        Subject::Language => "language",
        Subject::Options => "options",
        Subject::Everything => "",
    }
}

/// The subject that a word names, in small letters or capitals: the number of a refusal, `E1` to `E19`, `P1` or `P2`, the name of a
/// fault, as `read-conflict`, a command, as `run`, or `language` or `options`. The empty word names everything. `None`: it names none.
pub fn subject_of(word: &str) -> Option<Subject>
    // A subject that is told has that word, in small letters or capitals: a refusal's number, a fault's or command's
    // name, `language`, `options`, or the empty word for everything.
    ensures named { IfSome result (λ subject. Names word.now subject) }
    // None is told only where the word names no subject.
    ensures none { result ≡ None → NamesNothing word.now }
{
    'subjects: for i in 0..SUBJECTS.len() {
        let subject = SUBJECTS[i];
        if word.eq_ignore_ascii_case(word_of(subject)) {
            return Some(subject);
        }
    }
    None
}
