//! What is said of refusals of a program whose syntax is right.

pub(crate) const UNKNOWN_NAME: [u8; 502] = *b"E6 UnknownName: a name that is not in scope.

A name is declared before `begin`, by `shared` or `var`, and holds everywhere. The index of a pardo and its
locals hold in its body alone, not in its bounds and not behind its `end`. The place is that of the name. In a
memory (`--memory`) it is a name of no shared declaration, or the low bound of cells that its array does not have.

This has it:

rule crew; procs 1;
begin
  print y;
end

This is mended:

rule crew; procs 1;
var y;
begin
  print y;
end
";

pub(crate) const DOUBLE_NAME: [u8; 391] = *b"E7 DoubleName: a name that is declared twice.

All declarations have names of their own, and the index and the locals of a pardo differ from every name in
scope there. Two pardos may use one name, one behind the other. The place is that of the second declaration.

This has it:

rule crew; procs 1;
shared a; var a;
begin
end

This is mended:

rule crew; procs 1;
shared a; var b;
begin
end
";

pub(crate) const WRONG_KIND: [u8; 511] =
    *b"E8 WrongKind: a name or a statement that is not allowed there.

An array wants a subscript, and nothing else has one. The variable of a `for` is a `var`. Inside pardo there
is no `print`, no `for` and no further pardo, and no uniform variable is assigned: those are matters of all
processors together.

This has it:

rule crew; procs 4;
shared a[1..4];
begin
  for 1 <= i <= 4 pardo print a[i]; end
end

This is mended:

rule crew; procs 4;
shared a[1..4]; var k;
begin
  for k := 1 to 4 do print a[k]; end
end
";

pub(crate) const ASSIGNED_LOOP_VARIABLE: [u8; 429] =
    *b"E9 AssignedLoopVariable: the variable of a loop is set in its body.

A `for` sets its variable by itself, once for each turn, and a pardo gives each processor its index. Neither
is assigned in the body. A loop with other steps is a `while`.

This has it:

rule crew; procs 1;
var k;
begin
  for k := 1 to 9 do k := 2 * k; end
end

This is mended:

rule crew; procs 1;
var k;
begin
  k := 1;
  while k <= 9 do k := 2 * k; end
end
";

pub(crate) const LIMIT: [u8; 457] = *b"E10 Limit: a limit of the language is passed.

The word says which: `cells`, more than 1,048,576 shared cells; `procs`, a number of processors that is not
from 1 to 16,384; `bounds`, an array whose low bound is above its high one; `reads`, more than eight shared
reads in a statement; `tokens`, more than 16,384 tokens in the text.

This has it:

rule crew; procs 4;
shared a[4..1];
begin
end

This is mended:

rule crew; procs 4;
shared a[1..4];
begin
end
";
