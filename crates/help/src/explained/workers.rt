//! What is said of commands that run workers.

pub(crate) const RUN: [u8; 1189] = *b"pramc run FILE: compiles the program and runs it by workers.

It writes each printed number on a line, and then `ended` and the shared memory,
or a fault with its place and line. `pramc meaning` comes to the same.

$ pramc run examples/tree_sum.pram --random 1..9 --workers 2 --quiet
38
ended

--workers P         how many workers, 1 to 32, else 4
--map affine:A,B    puts the cells at other workers; A is odd
--reserve ITEMS,EXCHANGES
                    takes memory first for so many printed numbers, exchanges
--bound N           the most statements that are run, else 1000000
--input FILE        the values of the first cells
--memory FILE       values of cells by their names
--random LO..HI     draws the values of all cells, by --seed S
--draw KIND         draws a list, ring, tree, graph:V, sorted or permutation
--show NAMES        writes these declarations alone, as a,b
--quiet             writes printed numbers, and no memory
--size NAME=VALUE   another number for a size of the text, as n=16
--format json       tells it to programs, as JSON
--explain           says more of a refusal or a fault

Exit status: 0 it ended, 1 it faulted, 2 it was refused, 3 it met the bound.
";

pub(crate) const TRACE: [u8; 1282] = *b"pramc trace FILE: the exchanges of a run by workers.

It writes a line for each exchange: what it was for, how many words each worker
sent and received, and h, the greatest of these numbers. It writes no result.

$ pramc trace examples/sum.pram
1 close sent 0 0 0 0 received 0 0 0 0 h 0

--lines             tells of each the line of the statement that it serves
--bsp G,L           tells what they cost: for each G times its h, and L
--outcome           writes behind them what `run` writes
--svg               draws them, as SVG
--workers P         how many workers, 1 to 32, else 4
--map affine:A,B    puts the cells at other workers; A is odd
--reserve ITEMS,EXCHANGES
                    takes memory first for so many printed numbers, exchanges
--bound N           the most statements that are run, else 1000000
--input FILE        values of the first cells; --memory FILE of named ones
--random LO..HI     draws the values of all cells, by --seed S
--draw KIND         draws a list, ring, tree, graph:V, sorted or permutation
--size NAME=VALUE   another number for a size of the text, as n=16
--format json       tells it to programs, as JSON
--explain           says more of a refusal or a fault

Exit status: 0 it ended, 1 it faulted, 2 it was refused, 3 it met the bound.
";

pub(crate) const EXEC: [u8; 1112] = *b"pramc exec LISTING: runs superstep code.

The listing is one that `pramc plan` wrote, or one of your own. It is verified
first, and then it is run by workers. It writes what `run` writes. Type this:

$ pramc plan examples/sum.pram > sum.bsp
$ pramc exec sum.bsp --workers 2
55
ended

--workers P         how many workers, 1 to 32, else 4
--map affine:A,B    puts the cells at other workers; A is odd
--reserve ITEMS,EXCHANGES
                    takes memory first for so many printed numbers, exchanges
--bound N           the most statements that are run, else 1000000
--input FILE        the values of the first cells
--memory FILE       values of cells by their names
--random LO..HI     draws the values of all cells, by --seed S
--draw KIND         draws a list, ring, tree, graph:V, sorted or permutation
--show NAMES        writes these declarations alone, as a,b
--quiet             writes printed numbers, and no memory
--format json       tells it to programs, as JSON
--explain           says more of a refusal or a fault

Exit status: 0 it ended, 1 it faulted, 2 it was refused, 3 it met the bound.
";
