//! The subcommands of the program, with their options and what its help says of them.

use crate::names::{FILE, FILES, SECOND, WORD};
use crate::options::Group;

/// A word of a subcommand in its place, and what the help says of it.
#[derive(Clone, Copy)]
pub(crate) struct Place {
    pub(crate) name: &'static str,
    pub(crate) is_required: bool,
    pub(crate) help: &'static str,
    /// Whether it may be followed by more of its kind.
    pub(crate) is_many: bool,
}

/// A subcommand: what it is over, its options in the order of its help, and what that says.
#[derive(Clone, Copy)]
pub(crate) struct Subcommand {
    pub(crate) name: &'static str,
    pub(crate) about: &'static str,
    pub(crate) places: &'static [Place],
    pub(crate) groups: &'static [Group],
    pub(crate) example: &'static str,
}

const PROGRAM: &str = "The text of a PRAM program";

const OVER_PROGRAM: &[Place] = &[Place {
    name: FILE,
    is_required: true,
    help: PROGRAM,
    is_many: false,
}];

const OVER_SOME_PROGRAM: &[Place] = &[Place {
    name: FILE,
    is_required: false,
    help: PROGRAM,
    is_many: false,
}];

const OVER_PROGRAMS: &[Place] = &[
    Place {
        name: FILE,
        is_required: true,
        help: PROGRAM,
        is_many: false,
    },
    Place {
        name: SECOND,
        is_required: true,
        help: "The text of the program that it is compared with",
        is_many: false,
    },
];

const OVER_GRADED: &[Place] = &[
    Place {
        name: FILE,
        is_required: true,
        help: "The text of the program by which others are graded",
        is_many: false,
    },
    Place {
        name: SECOND,
        is_required: true,
        help: "The text of a program that is graded, and of each more given so",
        is_many: true,
    },
];

const OVER_TEXTS: &[Place] = &[Place {
    name: FILES,
    is_required: true,
    help: "Texts of PRAM programs",
    is_many: true,
}];

const OVER_LISTING: &[Place] = &[Place {
    name: FILE,
    is_required: true,
    help: "A listing of superstep code",
    is_many: false,
}];

const OVER_SUBJECT: &[Place] = &[Place {
    name: WORD,
    is_required: false,
    help: "A refusal, as E6, a fault, as read-conflict, a command, or language or options",
    is_many: false,
}];

/// All subcommands.
pub(crate) const SUBCOMMANDS: &[Subcommand] = &[
    Subcommand {
        name: "check",
        about: "Says whether the program is accepted",
        places: OVER_PROGRAM,
        groups: &[Group::Explain, Group::Sizes, Group::Formats],
        example: "Example: pramc check examples/sum.pram\nMore: pramc explain check",
    },
    Subcommand {
        name: "plan",
        about: "Writes the superstep code of the program",
        places: OVER_PROGRAM,
        groups: &[Group::Explain, Group::Sizes],
        example: "Example: pramc plan examples/sum.pram > sum.bsp\nMore: pramc explain plan",
    },
    Subcommand {
        name: "meaning",
        about: "Runs the program by its definition",
        places: OVER_PROGRAM,
        groups: &[
            Group::Explain,
            Group::Bounded,
            Group::Timed,
            Group::Opened,
            Group::Shown,
            Group::Sizes,
            Group::Formats,
        ],
        example: "Example: pramc meaning examples/tree_sum.pram --input examples/tree_sum.in\nMore: pramc explain meaning",
    },
    Subcommand {
        name: "cost",
        about: "Counts time, work, shared accesses and exchanges of the run, beside its outcome",
        places: OVER_PROGRAM,
        groups: &[
            Group::Explain,
            Group::Bounded,
            Group::Timed,
            Group::Opened,
            Group::Counted,
            Group::Sizes,
            Group::Formats,
        ],
        example: "Example: pramc cost examples/tree_sum.pram --input examples/tree_sum.in --schedule 2\nMore: pramc explain cost",
    },
    Subcommand {
        name: "steps",
        about: "Tells the run statement by statement, and then its outcome",
        places: OVER_PROGRAM,
        groups: &[
            Group::Explain,
            Group::Bounded,
            Group::Timed,
            Group::Opened,
            Group::Told,
            Group::Drawn,
            Group::Sizes,
            Group::Formats,
        ],
        example: "Example: pramc steps examples/tree_sum.pram --input examples/tree_sum.in --from 3 --to 7\nMore: pramc explain steps",
    },
    Subcommand {
        name: "rules",
        about: "Compares what the program comes to under each rule",
        places: OVER_PROGRAM,
        groups: &[
            Group::Explain,
            Group::Bounded,
            Group::Opened,
            Group::Sizes,
            Group::Formats,
        ],
        example: "Example: pramc rules examples/maximum.pram --input examples/maximum.in\nMore: pramc explain rules",
    },
    Subcommand {
        name: "run",
        about: "Compiles the program and runs it",
        places: OVER_PROGRAM,
        groups: &[
            Group::Explain,
            Group::Bounded,
            Group::Opened,
            Group::Worked,
            Group::Shown,
            Group::Sizes,
            Group::Formats,
        ],
        example: "Example: pramc run examples/tree_sum.pram --input examples/tree_sum.in --workers 2\nMore: pramc explain run",
    },
    Subcommand {
        name: "trace",
        about: "Writes the exchanges of the same run",
        places: OVER_PROGRAM,
        groups: &[
            Group::Explain,
            Group::Bounded,
            Group::Opened,
            Group::Worked,
            Group::Traced,
            Group::Sizes,
            Group::Formats,
        ],
        example: "Example: pramc trace examples/tree_sum.pram --input examples/tree_sum.in --workers 2\nMore: pramc explain trace",
    },
    Subcommand {
        name: "explore",
        about: "Runs the program by its definition on every input of a small scope, or on drawn ones",
        places: OVER_PROGRAM,
        groups: &[
            Group::Explain,
            Group::Scoped,
            Group::Ordered,
            Group::Sampled,
            Group::Counting,
            Group::Ensured,
            Group::Smaller,
            Group::Witnessed,
            Group::Bounded,
            Group::Ruled,
            Group::Shared,
            Group::Sizes,
            Group::Formats,
        ],
        example: "Example: pramc explore examples/tree_sum.pram --size n=2 --cells 2 --values 0..3\nMore: pramc explain explore",
    },
    Subcommand {
        name: "always",
        about: "Tells what holds of the program on every input of a scope, by one run for all",
        places: OVER_PROGRAM,
        groups: &[
            Group::Explain,
            Group::Scoped,
            Group::Bounded,
            Group::Ruled,
            Group::Sizes,
            Group::Formats,
        ],
        example: "Example: pramc always examples/tree_sum.pram --cells 8 --values -9..9\nMore: pramc explain always",
    },
    Subcommand {
        name: "compare",
        about: "Runs two programs by their definition on the same inputs",
        places: OVER_PROGRAMS,
        groups: &[
            Group::Explain,
            Group::Scoped,
            Group::Ordered,
            Group::Counting,
            Group::Bounded,
            Group::Tried,
            Group::Sampled,
            Group::Compared,
            Group::Sizes,
            Group::Formats,
        ],
        example: "Example: pramc compare examples/maximum.pram examples/maximum_doubly_log.pram --size n=4 --permutations 4 --only output\n\
            More: pramc explain compare",
    },
    Subcommand {
        name: "grade",
        about: "Grades programs by a first one, on the same inputs",
        places: OVER_GRADED,
        groups: &[
            Group::Explain,
            Group::Scoped,
            Group::Ordered,
            Group::Counting,
            Group::Bounded,
            Group::Tried,
            Group::Sampled,
            Group::Compared,
            Group::Graded,
            Group::Ruled,
            Group::Sizes,
            Group::Formats,
        ],
        example: "Example: pramc grade examples/maximum.pram examples/maximum_doubly_log.pram --size n=4 --permutations 4 --only output\n\
            More: pramc explain grade",
    },
    Subcommand {
        name: "expand",
        about: "Writes the text that its sizes give",
        places: OVER_PROGRAM,
        groups: &[Group::Explain, Group::Sizes],
        example: "Example: pramc expand examples/tree_sum.pram --size n=16\nMore: pramc explain expand",
    },
    Subcommand {
        name: "fmt",
        about: "Lays the texts of programs out anew, each in its file",
        places: OVER_TEXTS,
        groups: &[Group::Explain, Group::LaidOut],
        example: "Example: pramc fmt --check examples/sum.pram\nMore: pramc explain fmt",
    },
    Subcommand {
        name: "export",
        about: "Writes the superstep code of the program as C",
        places: OVER_SOME_PROGRAM,
        groups: &[Group::Explain, Group::Listed, Group::Formed, Group::Sizes],
        example: "Example: pramc export examples/sum.pram > sum.c\nMore: pramc explain export",
    },
    Subcommand {
        name: "exec",
        about: "Runs a listing",
        places: OVER_LISTING,
        groups: &[
            Group::Explain,
            Group::Bounded,
            Group::Opened,
            Group::Worked,
            Group::Shown,
            Group::Formats,
        ],
        example: "Example: pramc exec sum.bsp --workers 2 --map affine:5,3\nMore: pramc explain exec",
    },
    Subcommand {
        name: "explain",
        about: "Says what a refusal, a fault or a command is, with an example",
        places: OVER_SUBJECT,
        groups: &[],
        example: "Example: pramc explain E6\nMore: pramc explain",
    },
];
