//! The options that take a word. Made of the table of options by `gate/editors.py --write`.

ghost use Rattle.std.specs.Prelude.{◌≡◌};
ghost use Rattle.command_requests.specs.Names as spec;

/// What a word of the command line is given for: an option, or the subject of `explain`.
#[derive(Clone, Copy, Debug, Drop, PartialEq, Eq)]
pub enum Given {
    Bound,
    Seconds,
    Random,
    Draw,
    Seed,
    Show,
    Schedule,
    Workers,
    Sweep,
    From,
    To,
    Only,
    Map,
    Reserve,
    Bsp,
    Cells,
    Values,
    Permutations,
    Count,
    Under,
    TimeAtMost,
    WorkAtMost,
    ProcsAtMost,
    Size,
    Format,
    /// The workers that `cost` tells of, of which there may be any number.
    ToldWorkers,
    /// What `explain` is to say something of.
    Subject,
}

/// Those for which words of their own names are given.
pub(crate) const NAMED: [Given; 26] = [
    Given::Bound,
    Given::Seconds,
    Given::Random,
    Given::Draw,
    Given::Seed,
    Given::Show,
    Given::Schedule,
    Given::Workers,
    Given::Sweep,
    Given::From,
    Given::To,
    Given::Only,
    Given::Map,
    Given::Reserve,
    Given::Bsp,
    Given::Cells,
    Given::Values,
    Given::Permutations,
    Given::Count,
    Given::Under,
    Given::TimeAtMost,
    Given::WorkAtMost,
    Given::ProcsAtMost,
    Given::Size,
    Given::Format,
    Given::Subject,
];

impl Given {
    /// How it stands on a command line.
    pub fn name(self) -> &'static [u8]
        ensures { result.now ≡ spec.name self }
    {
        match self {
            Given::Bound => b"--bound",
            Given::Seconds => b"--seconds",
            Given::Random => b"--random",
            Given::Draw => b"--draw",
            Given::Seed => b"--seed",
            Given::Show => b"--show",
            Given::Schedule => b"--schedule",
            Given::Workers => b"--workers",
            Given::Sweep => b"--sweep",
            Given::From => b"--from",
            Given::To => b"--to",
            Given::Only => b"--only",
            Given::Map => b"--map",
            Given::Reserve => b"--reserve",
            Given::Bsp => b"--bsp",
            Given::Cells => b"--cells",
            Given::Values => b"--values",
            Given::Permutations => b"--permutations",
            Given::Count => b"--count",
            Given::Under => b"--under",
            Given::TimeAtMost => b"--time-at-most",
            Given::WorkAtMost => b"--work-at-most",
            Given::ProcsAtMost => b"--procs-at-most",
            Given::Size => b"--size",
            Given::Format => b"--format",
            Given::ToldWorkers => b"--workers",
            Given::Subject => b"explain",
        }
    }
}
