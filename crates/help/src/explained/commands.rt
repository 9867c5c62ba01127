//! What is said of commands over a program, and of `explain`.

pub(crate) const CHECK: [u8; 649] = *b"pramc check FILE: is the program accepted?

It reads the program and runs nothing. What is accepted is told in one line: how
many shared cells it has, its most processors and its rule. Otherwise the first
thing that is wrong is told on standard error.

Type this:

$ pramc check examples/tree_sum.pram
accepted cells 16 procs 8 rule erew

Options:

--size NAME=VALUE   another number for a size of the text, as n=16
--format json       tells it to programs, as JSON
--format gnu        tells what is wrong in the lines that editors read
--explain           shows the line that is wrong, and says why

Exit status: 0 it is accepted, 2 it is refused.
";

pub(crate) const PLAN: [u8; 545] = *b"pramc plan FILE: the superstep code of a program.

It compiles the program and writes the code as a listing; it runs nothing.
Workers run this code: they compute by themselves, and exchange messages.
`pramc exec` runs a listing; docs/MACHINE.md says what its lines mean.

Type this:

$ pramc plan examples/sum.pram > sum.bsp
$ pramc exec sum.bsp
55
ended

Options:

--size NAME=VALUE   another number for a size of the text, as n=16
--explain           shows the line that is wrong, and says why

Exit status: 0 it is compiled, 2 it is refused.
";

pub(crate) const MEANING: [u8; 1090] = *b"pramc meaning FILE: runs the program by its definition.

It writes each printed number on a line, and then `ended` and the shared memory,
or a fault with its place and line. `pramc run` comes to the same by workers.

Type this:

$ pramc meaning examples/tree_sum.pram --random 1..9 --show b
b[1..8] = 38 23 9 14 5 4 5 9

Options:

--bound N           the most statements that are run, else 1000000
--seconds S         ends a long run in about S seconds, and says where
--input FILE        values of the first cells; --memory FILE of named ones
--random LO..HI     draws the values of all cells
--draw KIND         draws a list, ring, tree, graph:V, sorted or permutation
--seed S            another draw for each S, else 1
--show NAMES        writes these declarations alone, as a,b
--quiet             writes printed numbers, and no memory
--size NAME=VALUE   another number for a size of the text, as n=16
--format json       tells it to programs, as JSON
--explain           says more of a refusal or a fault

Exit status: 0 it ended, 1 it faulted, 2 it was refused, 3 it met the bound.
";

pub(crate) const COST: [u8; 1343] = *b"pramc cost FILE: what a run costs.

It counts time, the statements that ran, and work, for each of them one for each
processor that ran it; then reads, writes and the most exchanges. Type this:

$ pramc cost examples/tree_sum.pram --sweep n=4..64*2

That is a line for each of n = 4, 8, 16, 32, 64; then `time 4 log n + 5` and
`work 2 n + 3 log n + 3`, formulas that fit them all.

--sweep NAME=SIZES  counts at these sizes: n=4,8,16 or n=4..64*2 or n=10..50+10
--workers P         tells the most words too that P workers send
--schedule P        counts the rounds on P processors too
--lines             counts for each line of the program too
--bound N           the most statements that are run, else 1000000
--seconds S         ends a long run in about S seconds, and says where
--input FILE        the values of the first cells; of a sweep as 'in/{n}.txt'
--memory FILE       values of cells by their names
--random LO..HI     draws them by --seed S; --draw KIND draws a list or such
--size NAME=VALUE   another number for a size of the text, as n=16
--format FORMAT     json for programs; csv for a sweep, or --svg to draw it
--explain           says more of a refusal or a fault

Exit status: 0 it ended, 1 it faulted, 2 it was refused, 3 it met the bound.
Of a sweep 1 if a size faulted or was refused, or else 3 if one met the bound.
";

pub(crate) const STEPS: [u8; 1442] = *b"pramc steps FILE: a run statement by statement.

It writes a line for each statement that ran: its number, its line in the text,
how many processors ran it, and the cells that it changed. At a conflict it says
which processors met. Then comes what `meaning` writes. Type this:

$ pramc steps examples/tree_sum.pram --input examples/tree_sum.in | sed -n 7p
7 line 10 processors 4 b[1] 1 -> 3 b[2] 2 -> 7 b[3] 3 -> 11 b[4] 4 -> 15

--from K, --to K    tells these statements alone, counted from 1
--locals            tells of variables, locals and printed numbers too
--columns           tells the column at which each statement begins too
--html              makes a page that steps through the run, forward and back
--flow              draws which cells the values of cells come from, as SVG
--only NAMES        tells of these cells and variables alone, as a,m
--svg               draws the run, as SVG
--bound N           the most statements that are run, else 1000000
--seconds S         ends a long run in about S seconds, and says where
--input FILE        values of the first cells; --memory FILE of named ones
--random LO..HI     draws them by --seed S; --draw KIND draws a list or such
--size NAME=VALUE   another number for a size of the text, as n=16
--format json       tells it to programs, as JSON
--explain           says more of a refusal or a fault

Exit status: 0 it ended, 1 it faulted, 2 it was refused, 3 it met the bound.
";

pub(crate) const RULES: [u8; 1145] =
    *b"pramc rules FILE: runs the program under each rule of access.

It says how each run comes out. `same`: it ends as under the rule that the text
names, or where it doesn't end under that, as under the first under which it
does. `other`: it ends in another way. `(declared)` is the rule that it names.

Type this:

$ pramc rules examples/maximum.pram --input examples/maximum.in

It takes --bound, --input, --memory, --random, --draw, --seed, --size, --format
json and --explain; `pramc explain options` says what they are for.

Exit status: 0, also where runs fault; 2 the program or the input is refused.

A program names its rule first, as `rule crew;`. The five rules:

erew      no two processors read one cell at once, and no two write one
crew      several may read one cell at once, and no two write one
common    several may write one cell, all the same value
priority  several may write one cell; that of the least index succeeds
sum       several may write one cell; it gets the sum of what they write

Under common, priority and sum several may read one cell too. A run that breaks
its rule faults: `read-conflict` or `write-conflict`.
";

pub(crate) const EXPAND: [u8; 659] = *b"pramc expand FILE: the text that the sizes give.

A text with a line `# size n = 8` stands for every size: {2*n} stands for 16, or
for another number with --size. This command writes the program that is read,
with numbers in place of the braces. A text without sizes is written as it is.

Type this:

$ pramc expand examples/tree_sum.pram --size n=16 | sed -n 3,4p
rule erew; procs 16;
shared a[1..16]; shared b[1..16]; var m;

Options:

--size NAME=VALUE   another number for a size of the text, once for each size
--explain           shows the line that is wrong, and says why

Exit status: 0 it is written, whether or not it is a program; 2 it is refused.
";

pub(crate) const FMT: [u8; 729] = *b"pramc fmt FILE..: lays the texts of programs out anew.

In each file nothing changes but white space: two spaces a level, one between
words and signs, at most one empty line in a row. Comments, size lines and
braces stay as they are, and a statement that stood on one line stays there.
What standard input holds, as the FILE -, goes to standard output.

Type this:

$ pramc fmt --check examples/*.pram

Options:

--check           names the files that would change, and writes none
--stdout          writes the texts to standard output, and no file
--explain         shows the line that is wrong, and says why

Exit status: 0 they are laid out; 1 with --check, a file would change; 2 one is
refused, of which nothing is written.
";

pub(crate) const EXPLAIN: [u8; 632] = *b"pramc explain WORD: says what a word is.

The word is that of a refusal, as E6, or of a fault, as read-conflict; or it is
a command, as cost, or `language` or `options`. Capitals don't matter: e6 is E6.
Without a word it lists all of them.

Type this:

$ pramc explain read-conflict

Of a refusal or a fault it says what that is, with something that has it and the
same mended; of a command what it is for, what to type, and its options.

It takes no option but --help. The other commands take --explain, with which
they say more of what is refused, or faults, in your own file.

Exit status: 0 it is told, 2 there is no such word.
";
