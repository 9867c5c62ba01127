//! The options of the program, by their names, with what its help says of them.

use crate::names::{
    BOUND, BSP, CELLS, CHECK, COLUMNS, COUNT, DRAW, ENSURE, FLOW, FORMAT, FROM, HTML, INPUT, LINES,
    LISTING_FILE, LOCALS, MAP, MEMORY, ONLY, OUTCOME, PERMUTATIONS, PROCS_AT_MOST, QUIET, RANDOM,
    RESERVE, SCHEDULE, SECONDS, SEED, SHOW, SHRINK, SIZE, STDOUT, SVG, SWEEP, TIME_AT_MOST, TO,
    UNDER, VALUES, WHERE, WITNESS, WORK_AT_MOST, WORKERS,
};

/// What stands behind an option.
#[derive(Clone, Copy)]
pub(crate) enum Follows {
    Nothing,
    Word(&'static str),
    // a word, and this one where the option is left out
    WordOr(&'static str, &'static str),
    // a word that may begin with a hyphen, as a number below zero
    Signed(&'static str),
    // a word, and another where the option is given again
    Words(&'static str),
}

/// An option, and what its help says.
#[derive(Clone, Copy)]
pub(crate) struct CommandOption {
    pub(crate) name: &'static str,
    pub(crate) follows: Follows,
    pub(crate) help: &'static str,
}

/// Options that stand together.
#[derive(Clone, Copy)]
pub(crate) enum Group {
    // explains a refusal or a fault
    Explain,
    // numbers for the sizes of a text
    Sizes,
    // how it is told
    Formats,
    // how long it runs
    Bounded,
    // and in what time
    Timed,
    // what the cells hold at first
    Opened,
    // what is written of the memory
    Shown,
    // what is counted of a run
    Counted,
    // which statements of a run are told, and what of them
    Told,
    // pictures of the statements, and a page of them
    Drawn,
    // who runs it
    Worked,
    // what is told of the exchanges
    Traced,
    // a scope of inputs
    Scoped,
    // all orders of some numbers in its place
    Ordered,
    // which inputs count
    Counting,
    // which results are right
    Ensured,
    // which inputs are told
    Smaller,
    // where the first of them is written
    Witnessed,
    // under which rule it is tried
    Ruled,
    // by how many workers inputs are tried
    Shared,
    // a listing in the place of a program
    Listed,
    // which form of C is written
    Formed,
    // inputs of files
    Tried,
    // inputs that are drawn
    Sampled,
    // what is compared of two programs, and their limits
    Compared,
    // what is done with a text that is laid out
    LaidOut,
    // how many processors a program that is graded may declare
    Graded,
}

const EXPLAINED: &str = "explain";

const EXPLAIN: &[CommandOption] = &[CommandOption {
    name: EXPLAINED,
    follows: Follows::Nothing,
    help: "Explains a refusal or a fault on standard error",
}];

const SIZES: &[CommandOption] = &[CommandOption {
    name: SIZE,
    follows: Follows::Words("NAME=VALUE"),
    help: "A number for a size, in place of its default",
}];

const FORMATS: &[CommandOption] = &[CommandOption {
    name: FORMAT,
    follows: Follows::WordOr("FORMAT", "text"),
    help: "How it is told: text, or json for programs; of check also gnu, for editors",
}];

const BOUNDED: &[CommandOption] = &[CommandOption {
    name: BOUND,
    follows: Follows::WordOr("N", "1000000"),
    help: "The most statements that are run",
}];

const TIMED: &[CommandOption] = &[CommandOption {
    name: SECONDS,
    follows: Follows::Word("S"),
    help: "Ends a long run in about S seconds, S from 1",
}];

const OPENED: &[CommandOption] = &[
    CommandOption {
        name: INPUT,
        follows: Follows::Word("FILE"),
        help: "A file with the values of the first cells",
    },
    CommandOption {
        name: MEMORY,
        follows: Follows::Word("FILE"),
        help: "A file with values of cells by names, as a[1..4] = 4 3 2 1",
    },
    CommandOption {
        name: RANDOM,
        follows: Follows::Signed("LO..HI"),
        help: "Draws the values of all cells from this interval",
    },
    CommandOption {
        name: DRAW,
        follows: Follows::Word("KIND"),
        help: "Draws an input of this kind, as list",
    },
    CommandOption {
        name: SEED,
        follows: Follows::Word("S"),
        help: "The seed that draws them, else 1",
    },
];

const SHOWN: &[CommandOption] = &[
    CommandOption {
        name: SHOW,
        follows: Follows::Word("NAMES"),
        help: "Writes these shared declarations alone, as a,b",
    },
    CommandOption {
        name: QUIET,
        follows: Follows::Nothing,
        help: "Writes no memory",
    },
];

const COUNTED: &[CommandOption] = &[
    CommandOption {
        name: SCHEDULE,
        follows: Follows::Word("P"),
        help: "Counts the rounds on P processors too, P from 1",
    },
    CommandOption {
        name: WORKERS,
        follows: Follows::Word("P"),
        help: "Tells the most words that P workers send too, P from 1",
    },
    CommandOption {
        name: LINES,
        follows: Follows::Nothing,
        help: "Counts for each line of the program too",
    },
    CommandOption {
        name: SWEEP,
        follows: Follows::Word("NAME=SIZES"),
        help: "Counts at each size, as n=4,8,16 or n=4..64*2 or n=10..50+10; --format csv makes a table",
    },
    CommandOption {
        name: SVG,
        follows: Follows::Nothing,
        help: "Draws a sweep's time and work, as SVG",
    },
];

const TOLD: &[CommandOption] = &[
    CommandOption {
        name: FROM,
        follows: Follows::WordOr("K", "1"),
        help: "The first statement that is told, counted from 1",
    },
    CommandOption {
        name: TO,
        follows: Follows::WordOr("K", "4294967295"),
        help: "The last statement that is told",
    },
    CommandOption {
        name: LOCALS,
        follows: Follows::Nothing,
        help: "Tells of variables, locals and printed numbers too",
    },
    CommandOption {
        name: COLUMNS,
        follows: Follows::Nothing,
        help: "Tells the column of each statement too",
    },
];

const DRAWN: &[CommandOption] = &[
    CommandOption {
        name: SVG,
        follows: Follows::Nothing,
        help: "Draws them all, as SVG",
    },
    CommandOption {
        name: FLOW,
        follows: Follows::Nothing,
        help: "Draws the flow of data between shared cells, as SVG",
    },
    CommandOption {
        name: ONLY,
        follows: Follows::Word("NAMES"),
        help: "Tells of these names alone, as a,m, or draws these",
    },
    CommandOption {
        name: HTML,
        follows: Follows::Nothing,
        help: "Makes a page that steps through them all",
    },
];

const WORKED: &[CommandOption] = &[
    CommandOption {
        name: WORKERS,
        follows: Follows::WordOr("P", "4"),
        help: "The number of workers, 1 to 32",
    },
    CommandOption {
        name: MAP,
        follows: Follows::WordOr("MAP", "identity"),
        help: "Where cells lie: identity, or affine:A,B with A odd",
    },
    CommandOption {
        name: RESERVE,
        follows: Follows::Word("ITEMS,EXCHANGES"),
        help: "Takes all memory first, for so many printed numbers and exchanges",
    },
];

const TRACED: &[CommandOption] = &[
    CommandOption {
        name: SVG,
        follows: Follows::Nothing,
        help: "Draws them, as SVG",
    },
    CommandOption {
        name: OUTCOME,
        follows: Follows::Nothing,
        help: "Tells the run's outcome behind them",
    },
    CommandOption {
        name: LINES,
        follows: Follows::Nothing,
        help: "Tells of each the line of the statement it serves",
    },
    CommandOption {
        name: BSP,
        follows: Follows::Word("G,L"),
        help: "Tells what they cost: for each G times its h, and L",
    },
];

const SCOPED: &[CommandOption] = &[
    CommandOption {
        name: CELLS,
        follows: Follows::Word("K"),
        help: "Inputs of K values, K up to 1048576; with --random draws K",
    },
    CommandOption {
        name: VALUES,
        follows: Follows::Signed("LO..HI"),
        help: "Of values of this interval; at most 100000000 inputs are tried",
    },
];

const ORDERED: &[CommandOption] = &[CommandOption {
    name: PERMUTATIONS,
    follows: Follows::Word("K"),
    help: "All orders of 1 to K in their place, K up to 10",
}];

const COUNTING: &[CommandOption] = &[CommandOption {
    name: WHERE,
    follows: Follows::Word("PRE"),
    help: "Tries inputs on which PRE prints last a number other than 0",
}];

const ENSURED: &[CommandOption] = &[CommandOption {
    name: ENSURE,
    follows: Follows::Word("POST"),
    help: "Has POST say so of each end; it gets cells by their names",
}];

const SMALLER: &[CommandOption] = &[CommandOption {
    name: SHRINK,
    follows: Follows::Nothing,
    help: "Tells smaller inputs on which the same goes wrong",
}];

const WITNESSED: &[CommandOption] = &[CommandOption {
    name: WITNESS,
    follows: Follows::Word("OUT"),
    help: "Writes the first input told to this file",
}];

const SHARED: &[CommandOption] = &[CommandOption {
    name: WORKERS,
    follows: Follows::WordOr("P", "1"),
    help: "How many workers share the inputs, 1 to 32",
}];

const RULED: &[CommandOption] = &[CommandOption {
    name: UNDER,
    follows: Follows::Word("RULE"),
    help: "Tries them under this rule in place of the text's",
}];

const LISTED: &[CommandOption] = &[CommandOption {
    name: LISTING_FILE,
    follows: Follows::Word("LISTING"),
    help: "Writes this listing in place of a program",
}];

const FORMED: &[CommandOption] = &[CommandOption {
    name: TO,
    follows: Follows::WordOr("FORM", "mpi"),
    help: "The form: mpi, c or openmp",
}];

const TRIED: &[CommandOption] = &[CommandOption {
    name: INPUT,
    follows: Follows::Words("FILE"),
    help: "Tries the values of this file, and of each more given so",
}];

const SAMPLED: &[CommandOption] = &[
    CommandOption {
        name: RANDOM,
        follows: Follows::Signed("LO..HI"),
        help: "Tries values of this interval, for K or all common first cells",
    },
    CommandOption {
        name: DRAW,
        follows: Follows::Word("KIND"),
        help: "Tries inputs of this kind",
    },
    CommandOption {
        name: COUNT,
        follows: Follows::Word("C"),
        help: "Draws so many inputs, 1 to 1000000",
    },
    CommandOption {
        name: SEED,
        follows: Follows::Word("S"),
        help: "The seed of the first, else 1; the next has the next",
    },
];

const COMPARED: &[CommandOption] = &[
    CommandOption {
        name: ONLY,
        follows: Follows::Word("NAMES"),
        help: "Compares what has these names alone, as a,output",
    },
    CommandOption {
        name: TIME_AT_MOST,
        follows: Follows::Word("E"),
        help: "The most time of FILE2, as 40 or 4*log(n)+10 of its sizes",
    },
    CommandOption {
        name: WORK_AT_MOST,
        follows: Follows::Word("E"),
        help: "The most work of FILE2, the same",
    },
];

const LAID_OUT: &[CommandOption] = &[
    CommandOption {
        name: CHECK,
        follows: Follows::Nothing,
        help: "Names files that would change, and writes none",
    },
    CommandOption {
        name: STDOUT,
        follows: Follows::Nothing,
        help: "Writes the texts to standard output, and no file",
    },
];

const GRADED: &[CommandOption] = &[CommandOption {
    name: PROCS_AT_MOST,
    follows: Follows::Word("E"),
    help: "The most procs of FILE2, the same",
}];

/// The options of a group, in the order of the help.
pub(crate) fn options_of(group: Group) -> &'static [CommandOption] {
    match group {
        Group::Explain => EXPLAIN,
        Group::Sizes => SIZES,
        Group::Formats => FORMATS,
        Group::Bounded => BOUNDED,
        Group::Timed => TIMED,
        Group::Opened => OPENED,
        Group::Shown => SHOWN,
        Group::Counted => COUNTED,
        Group::Told => TOLD,
        Group::Drawn => DRAWN,
        Group::Worked => WORKED,
        Group::Traced => TRACED,
        Group::Scoped => SCOPED,
        Group::Ordered => ORDERED,
        Group::Counting => COUNTING,
        Group::Ensured => ENSURED,
        Group::Smaller => SMALLER,
        Group::Witnessed => WITNESSED,
        Group::Ruled => RULED,
        Group::Shared => SHARED,
        Group::Listed => LISTED,
        Group::Formed => FORMED,
        Group::Tried => TRIED,
        Group::Sampled => SAMPLED,
        Group::Compared => COMPARED,
        Group::LaidOut => LAID_OUT,
        Group::Graded => GRADED,
    }
}
