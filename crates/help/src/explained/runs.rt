//! What is said of refusals of a run, of memory and of the command line.

pub(crate) const INPUT_TOO_LONG: [u8; 529] = *b"E11 InputTooLong: more values than cells.

The values of an input are those of the first shared cells, in the order of their declaration, and there are
more of them than the program has cells. Or a line of a memory (`--memory`) has more values than the cells that
it names.

This has it:

$ echo 'rule crew; procs 1; shared s; begin print s; end' > one.pram
$ echo '1 2' > one.in
$ pramc run one.pram --input one.in
refused E11 InputTooLong

This is mended:

$ echo '1' > one.in
$ pramc run one.pram --input one.in
1
ended
s = 1
";

pub(crate) const BAD_MAP: [u8; 340] = *b"E12 BadMap: no map of the cells.

A map says at which worker each cell lies. `affine:A,B` puts cell c at place A * c + B, modulo a power of two,
so that different cells have different places only where A is odd.

This has it:

$ pramc run sum.pram --map affine:2,1
refused E12 BadMap

This is mended:

$ pramc run sum.pram --map affine:3,1
";

pub(crate) const BAD_WORKERS: [u8; 269] = *b"E13 BadWorkers: no workers, or too many.

A run has 1 to 32 workers. More processors than workers are no matter: each worker has its part of them.

This has it:

$ pramc run sum.pram --workers 0
refused E13 BadWorkers

This is mended:

$ pramc run sum.pram --workers 4
";

pub(crate) const NOT_VERIFIED: [u8; 523] = *b"E14 NotVerified: superstep code that can't be run.

A listing is verified before it is run, and this is the first instruction that can't be met, with a word for
what is wrong: `state`, `register`, `entry`, `target`, `mode`, `mask`, `exchange` or `end`. What is compiled
from a program is always verified; this is about listings that were written or changed by hand.

This has it:

bsp 1
rule crew
procs 1
uniform 0
private 0
code 2
0 reply
1 halt

This is mended:

bsp 1
rule crew
procs 1
uniform 0
private 0
code 1
0 halt
";

pub(crate) const BAD_LISTING: [u8; 370] = *b"E15 BadListing: no listing of superstep code.

The place is that of the first line with which no listing goes on, or the end of the text. A listing has one
spelling: `pramc plan` writes it, with one space between words, and no line is left out.

This has it:

bsp 1
rule crew
procs 4
uniform x

This is mended:

bsp 1
rule crew
procs 4
uniform 0
private 0
code 1
0 halt
";

pub(crate) const OUT_OF_MEMORY: [u8; 421] = *b"E16 OutOfMemory: memory was refused.

The system gave no more memory, or started no more threads. Nothing is lost but the run. A run takes memory
for its cells, for its output, and for the code of its program; `pramc steps` holds the whole run.

This has it:

$ (ulimit -v 100000; pramc steps loop.pram --bound 100000000)
refused E16 OutOfMemory

This is mended:

$ (ulimit -v 100000; pramc steps loop.pram --bound 1000)
";

pub(crate) const WRITE_FAILED: [u8; 250] = *b"E17 WriteFailed: standard output failed.

A disk is full, or who reads a pipe has gone. A beginning of the text may stand there.

This has it:

$ pramc run sum.pram > /dev/full
refused E17 WriteFailed

This is mended:

$ pramc run sum.pram > sum.out
";

pub(crate) const OUT_OF_RESERVE: [u8; 481] = *b"E18 OutOfReserve: the run comes past its reserve.

With `--reserve ITEMS,EXCHANGES` all memory is taken before the first exchange. This run prints more numbers
than that, those counted that a fault drops, or it has more exchanges. `pramc trace` shows these.

This has it:

$ echo 'rule crew; procs 1; begin print 1; print 2; print 3; end' > three.pram
$ pramc run three.pram --reserve 2,1
refused E18 OutOfReserve

This is mended:

$ pramc run three.pram --reserve 3,1
1
2
3
ended
";

pub(crate) const COMMAND_LINE: [u8; 543] = *b"P1: the command line.

A command, a file or an option is missing, is unknown, or is given twice; `pramc --help` says what there is,
and `pramc explain options` what each option takes. Or a word can't stand there, and then it stands behind P1:
no number of 32 bits where one belongs, a name that the program doesn't have, a word that nothing explains, or
an option that doesn't go with the others, as `--input` with `--random`.

This has it:

$ pramc run sum.pram --bound many
refused P1 many

This is mended:

$ pramc run sum.pram --bound 100
";

pub(crate) const UNREADABLE_FILE: [u8; 289] = *b"P2: a file that can't be read.

There is none of that name, or it is a folder, or its owner doesn't let you read it;
or it is a second -, which is standard input, and that is read once.

This has it:

$ pramc run nowhere.pram
refused P2 nowhere.pram

This is mended:

$ pramc run sum.pram
";
