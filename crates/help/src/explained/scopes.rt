//! What is said of commands for those who write algorithms, and of plans that leave the machine.

pub(crate) const EXPLORE: [u8; 1421] =
    *b"pramc explore FILE: runs the program on every input of a small scope.

It says on how many inputs the run ends, faults or goes on at its bound, and the
first that does, of each kind of fault at each line; and the least and greatest
time and work. So `ended 120` of `inputs 120` proves it for these.

$ pramc explore examples/maximum.pram --permutations 5 | head -n 2
inputs 120
ended 120

--cells K           all inputs of K values, which the first K cells get
--values LO..HI     of this interval: 100000000 inputs at most
--permutations K    in their place all orders of the numbers 1 to K, K up to 10
--draw KIND         or --random LO..HI: C drawn ones, by --count C, --seed S
--where PRE         those alone on which PRE prints last a number other than 0
--ensure POST       has POST say so of each end, by cells x and opening_x
--shrink            tells smaller inputs on which the same goes wrong
--witness OUT       writes the first input that is told into the file OUT
--under RULE        under this rule of access, in place of the text's own
--workers P         shares the inputs among P workers, 1 to 32
--bound N           the most statements that are run, else 1000000
--size NAME=VALUE   another number for a size of the text, as n=16
--format json       tells it to programs, as JSON
--explain           says more of a refusal

Exit status: 0 all end well, 1 one faults or fails, 2 refused, 3 one goes on.
";

pub(crate) const ALWAYS: [u8; 1049] =
    *b"pramc always FILE: what holds of the program on every input of a scope.

It runs the program once for all inputs, each cell with an interval of values.
It says which faults may come, at which line and why, and in what time and which
values runs end. What it doesn't tell never happens; what it tells need not.

Type this:

$ pramc always examples/tree_sum.pram --cells 8 --values -9..9 | head -n 3
every input of 8 values from -9 to 9
no fault
time 17

--cells K           the inputs have K values, else one for each shared cell
--values LO..HI     of this interval, else any numbers of 64 bits
--under RULE        under this rule of access, in place of the text's own
--bound N           the most statements that are run, else 1000000
--size NAME=VALUE   another number for a size of the text, as n=16
--format json       tells it to programs, as JSON
--explain           says more of a refusal

Exit status: 0 no fault, 1 one may come, or `undecided`: too little is known of
a loop; 2 it was refused, 3 no fault, and a run may go on at the bound.
";

pub(crate) const COMPARE: [u8; 1843] =
    *b"pramc compare FILE FILE2: runs two programs on the same inputs.

It says on how many inputs both come to the same: both end with the same output
and cells, fault with faults of one kind, or go on at the bound. Of the first
input on which they don't it says what differs, and of two values FILE's first.

Type this:

$ pramc compare examples/maximum.pram examples/maximum_doubly_log.pram \\
    --size n=4 --permutations 4 --only output
inputs 24 same 24

Which inputs, by one of these lines:

--input FILE        the values of a file; may stand several times
--cells K, --values LO..HI
                    all inputs of K values of the interval
--permutations K    all orders of the numbers 1 to K, K up to 10
--random LO..HI, --count C, --seed S
                    C of them, as run draws them by the seeds S, S + 1, ..
                    Drawn are K cells by --cells K, and else those of the
                    declarations with which both begin; all others are 0
--draw KIND         in place of --random: a list, ring, tree, graph:V, sorted
                    or permutation for K cells, or the first declaration
--where PRE         those alone on which PRE prints last a number other than 0

What is compared, else the output, and what both declare with the same bounds:

--only NAMES        what has these names alone, as a,output
--time-at-most E    of a run of FILE2 that ends: the most time, as 40,
                    or by its sizes, as 4*log(n)+10
--work-at-most E    and the most work

--bound N           the most statements that are run, else 1000000
--size NAME=VALUE   another number for a size that both declare, as n=16
--format json       tells it to programs, as JSON
--explain           says more of a refusal

Exit status: 0 all are the same, and FILE2 keeps to the most; 1 on one input it
isn't so; 2 it was refused.
";

pub(crate) const EXPORT: [u8; 983] = *b"pramc export FILE: the superstep code of a program as C.

It writes one file of C11. It prints what `pramc run` prints. The code is
proved up to this text; what C, its compiler and MPI make of it isn't.

--to c      or openmp, for one memory: each instruction is a call, and those of
            the processors stand in loops. With -fopenmp it runs by threads.
--to mpi    over MPI, where --to is left out: the code in tables. It runs on as
            many ranks as mpirun gives it, up to 1024.

Type this:

$ pramc export examples/sum.pram --to c > sum.c
$ cc -O3 -o sum sum.c
$ ./sum
55
ended

--listing LISTING   writes a listing, as `pramc plan` makes, and no FILE
--size NAME=VALUE   another number for a size of the text, as n=16
--explain           shows the line that is wrong, and says why

The program in C takes an input, a bound and a map as `pramc run` does: the head
of the file lists its words.

Exit status: 0 it is written, 2 the program or the listing is refused.
";
