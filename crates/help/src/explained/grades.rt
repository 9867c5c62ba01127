//! What is said of `grade`.

pub(crate) const GRADE: [u8; 1544] = *b"pramc grade FILE FILE2 ..: grades programs by a first one.

Each FILE2 has a line, in the order of names. It passes where it is right on
every input: it ends there with the output and cells of FILE, within all limits.
The line says on how many inputs it is right, faults, goes on, or is above a
limit of work; its greatest time and work, its procs and its rule; and the first
input on which it differs, with whose value is which. A FILE2 that is refused
has its refusal. What it declares makes no input easier: FILE says which cells
are drawn, and every cell of FILE is compared.

Type this:

$ pramc grade examples/maximum.pram examples/maximum_doubly_log.pram \\
    --size n=4 --permutations 4 --only output

Which inputs: as `pramc explain compare` says, by --input, --cells, --values,
--permutations, --random, --draw, --count, --seed and --where.

--only NAMES        compares what has these names alone, as a,output
--under RULE        runs each FILE2 under this rule, whatever its text says
--time-at-most E    the most time of a run, as 40, or by the sizes of FILE2, as
                    4*log(n)+10: it is stopped there, and goes on
--work-at-most E    the most work
--procs-at-most E   the most procs that it declares

--bound N           the most statements that are run, else 1000000
--size NAME=VALUE   another number for a size that all declare, as n=16
--format json       tells it to programs, as JSON
--explain           says more of a refusal of FILE

Exit status: 0 all pass, 1 one doesn't, 2 the call or FILE was refused.
";
