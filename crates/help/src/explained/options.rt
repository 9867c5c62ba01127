//! What is said of all options. Made of the table of options by `gate/editors.py --write`.

pub(crate) const OPTIONS: [u8; 4087] = *b"The options, and which commands take them.

Of all:
--help     says what there is to type

All but explain:
--explain  explains a refusal or a fault on standard error

All but fmt, exec and explain:
--size NAME=VALUE a number for a size, in place of its default

All but plan, expand, fmt, export and explain:
--format FORMAT how it is told: text, or json for programs; of check also gnu,
    for editors, else text

All but check, plan, expand, fmt, export and explain:
--bound N  the most statements that are run, else 1000000

Of meaning, cost, steps, rules, run, trace and exec:
--input FILE a file with the values of the first cells
--memory FILE a file with values of cells by names, as a[1..4] = 4 3 2 1
--random LO..HI draws the values of all cells from this interval
--draw KIND draws an input of this kind, as list
--seed S   the seed that draws them, else 1

Of explore, always, compare and grade:
--cells K  inputs of K values, K up to 1048576; with --random draws K
--values LO..HI of values of this interval; at most 100000000 inputs are tried

Of meaning, cost and steps:
--seconds S ends a long run in about S seconds, S from 1

Of explore, compare and grade:
--random LO..HI tries values of this interval, for K or all common first cells
--draw KIND tries inputs of this kind
--seed S   the seed of the first, else 1; the next has the next
--permutations K all orders of 1 to K in their place, K up to 10
--count C  draws so many inputs, 1 to 1000000
--where PRE tries inputs on which PRE prints last a number other than 0

Of meaning, run and exec:
--show NAMES writes these shared declarations alone, as a,b
--quiet    writes no memory

Of run, trace and exec:
--workers P the number of workers, 1 to 32, else 4
--map MAP  where cells lie: identity, or affine:A,B with A odd, else identity
--reserve ITEMS,EXCHANGES takes all memory first, for so many printed numbers
    and exchanges

Of explore, always and grade:
--under RULE tries them under this rule in place of the text's

Of compare and grade:
--input FILE tries the values of this file, and of each more given so
--only NAMES compares what has these names alone, as a,output
--time-at-most E the most time of FILE2, as 40 or 4*log(n)+10 of its sizes
--work-at-most E the most work of FILE2, the same

Of cost:
--schedule P counts the rounds on P processors too, P from 1
--workers P tells the most words that P workers send too, P from 1
--lines    counts for each line of the program too
--sweep NAME=SIZES counts at each size, as n=4,8,16 or n=4..64*2 or n=10..50+10;
    --format csv makes a table
--svg      draws a sweep's time and work, as SVG

Of explore:
--workers P how many workers share the inputs, 1 to 32, else 1
--ensure POST has POST say so of each end; it gets cells by their names
--shrink   tells smaller inputs on which the same goes wrong
--witness OUT writes the first input told to this file

Of trace:
--lines    tells of each the line of the statement it serves
--svg      draws them, as SVG
--outcome  tells the run's outcome behind them
--bsp G,L  tells what they cost: for each G times its h, and L

Of steps:
--svg      draws them all, as SVG
--from K   the first statement that is told, counted from 1, else 1
--to K     the last statement that is told, else 4294967295
--locals   tells of variables, locals and printed numbers too
--columns  tells the column of each statement too
--flow     draws the flow of data between shared cells, as SVG
--only NAMES tells of these names alone, as a,m, or draws these
--html     makes a page that steps through them all

Of export:
--to FORM  the form: mpi, c or openmp, else mpi
--listing LISTING writes this listing in place of a program

Of grade:
--procs-at-most E the most procs of FILE2, the same

Of fmt:
--check    names files that would change, and writes none
--stdout   writes the texts to standard output, and no file

Of --input, --memory, --random and --draw one is given; other cells are 0.
A FILE named - is standard input, once in a call.

`pramc --version` writes the version. `pramc explain cost` says what cost takes.
";
