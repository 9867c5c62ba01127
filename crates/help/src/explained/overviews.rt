//! What is said of the language and of everything.

pub(crate) const LANGUAGE: [u8; 2061] = *b"The language, on one screen. docs/LANGUAGE.md says more.

# A comment goes to the end of its line.
rule crew; procs 8;                  # the rule of access, the most processors
shared a[1..8]; shared s; var k;     # shared cells, and one variable for all
begin
  for 1 <= i <= 8 pardo              # processors 1 to 8 do this together
    local r;                         # each has its own, 0 at first
    r := 2 * i;
    while r > 9 do r := r div 2; end
    if r mod 2 = 0 then a[i] := r; else a[i] := -r; end
  end
  k := 1;
  while a[k] > 0 do k := k + 1; end
  if k < 8 then print k; end
  for k := 1 to 8 do s := s + a[k]; end
  print s;
end

It prints 5 and 22. The grammar in short, where e is an expression:

program      rule RULE; procs NUMBER; declarations begin statements end
declaration  shared x;  shared a[1..8];  var x;  and first in a pardo  local r;
statement    x := e;  a[e] := e;  print e;
             if e then .. end  if e then .. else .. end  while e do .. end
             for x := e to e do .. end  for e <= i <= e pardo .. end

RULE is erew, crew, common, priority or sum: see `pramc explain rules`.
A name is a letter, and then letters, digits and _; capitals matter.
Everything is 0 at first; --input gives cells other values.

Operators, those that bind tightest first; ( ) goes before them all:

-                   minus before an operand
* div mod           div rounds down: -7 div 2 is -4, and -7 mod 2 is 1
+ -
= <> < <= > >=      give 1 or 0; a second one wants ( )
not
and                 what isn't 0 is true; both sides are evaluated
or                  so here

In a pardo all processors do one statement at a time: first all read, and then
all write. In it there is no print, no `for`, no pardo, and no `var` is set.

Sizes: behind a line `# size n = 8` {2*n} stands for 16, with --size n=4 for 8.
In { } are numbers, sizes, + - * div mod ( ) log(e) root(e) pow(e, f).

Limits: numbers of 64 bits, 16384 processors, 1048576 cells, 16384 tokens,
8 shared reads in a statement, 64 levels of blocks and of expressions.
";

pub(crate) const EVERYTHING: [u8; 1457] =
    *b"What there is to explain. Type a word of these, as: pramc explain E6

Refusals, of a text, a run or the command line:

  E1  NotAscii      E8  WrongKind             E15 BadListing
  E2  TextTooLong   E9  AssignedLoopVariable  E16 OutOfMemory
  E3  BadToken      E10 Limit                 E17 WriteFailed
  E4  Syntax        E11 InputTooLong          E18 OutOfReserve
  E5  TooDeep       E12 BadMap                E19 BadSize
  E6  UnknownName   E13 BadWorkers            P1  the command line
  E7  DoubleName    E14 NotVerified           P2  a file that can't be read

Faults, of a program that runs:

  overflow          out-of-range              read-conflict
  divide-by-zero    too-wide                  write-conflict

Commands:

  check    is it accepted?                  run     runs it by workers
  meaning  runs it by its definition        trace   tells its exchanges
  cost     counts its time and work         plan    writes its superstep code
  steps    tells it statement by statement  exec    runs superstep code
  rules    runs it under each rule          export  writes that code as C
  explore  runs it on every small input     expand  fills in its sizes
  always   what holds on every input        explain says what a word is
  compare  runs two on the same inputs      fmt     lays its text out anew
  grade    grades many by one

And besides:

  language  the language, on one screen
  options   each option, and which commands take it
";
