//! What is said of refusals of a text.

pub(crate) const NOT_ASCII: [u8; 318] = *b"E1 NotAscii: a byte that is not ASCII.

Programs, inputs and memories are written in plain ASCII, in comments too. The place is the offset of the first
byte of 128 or more, from 0.

This has it:

# Gr\xc3\xb6\xc3\x9fen
rule crew; procs 1;
begin
  print 1;
end

This is mended:

# Groessen
rule crew; procs 1;
begin
  print 1;
end
";

pub(crate) const TEXT_TOO_LONG: [u8; 398] = *b"E2 TextTooLong: a text that is too long.

A program, an input and a memory have at most 1,048,576 bytes, a listing of superstep code at most 8,388,608.
Nothing else of a longer text is judged.

This has it:

$ (cat sum.pram; yes '# a note' | head -n 120000) > long.pram
$ pramc check long.pram
refused E2 TextTooLong

This is mended:

$ grep -v '^#' long.pram > short.pram
$ pramc check short.pram
";

pub(crate) const BAD_TOKEN: [u8; 616] = *b"E3 BadToken: something that is no token.

A text is cut into names, numbers and symbols before its syntax is looked at. The place is the first thing
that is none of these: a byte that begins none, a number from 9223372036854775808 on, or a number with a
letter right behind it. An input has numbers alone, each with a minus before it or none. A line of a memory is
`s = 7` or `a[1..4] = 4 3 2 1`, and its place is the first thing with which it doesn't go on so.

This has it:

rule crew; procs 1;
var x;
begin
  x := 3;
  print 2x;
end

This is mended:

rule crew; procs 1;
var x;
begin
  x := 3;
  print 2 * x;
end
";

pub(crate) const SYNTAX: [u8; 331] = *b"E4 Syntax: no program goes on like that.

The place is the first token with which no program of the grammar goes on, or the end of the text. What is
wrong often stands right before it, as a semicolon that is missing.

This has it:

rule crew; procs 1;
begin
  print 1
end

This is mended:

rule crew; procs 1;
begin
  print 1;
end
";

pub(crate) const TOO_DEEP: [u8; 675] = *b"E5 TooDeep: more than 64 levels.

Blocks nest at most 64 deep, and so do the levels of an expression: parentheses, subscripts, `not`, and a
minus before an operand. The place is the token that opens the 65th. Give a part of it a name of its own: a
variable, or a local inside pardo.

This has it:

rule crew; procs 1;
begin
  print (((((((((((((((((((((((((((((((((((((((((((((((((((((((((((((((((1)))))))))))))))))))))))))))))))))))))))))))))))))))))))))))))))));
end

This is mended:

rule crew; procs 1;
var x;
begin
  x := ((((((((((((((((((((((((((((((((1))))))))))))))))))))))))))))))));
  print (((((((((((((((((((((((((((((((((x)))))))))))))))))))))))))))))))));
end
";

pub(crate) const BAD_SIZE: [u8; 845] =
    *b"E19 BadSize: a size line or an expression of sizes that is wrong.

A text with a line like `# size n = 8` before its first token is expanded before it is read: `{2*n}` outside
of comments stands for the number that it comes to. The place is that of the first thing that is wrong, which
of a size line is its `#`. Behind it stands why: line (the form of a size line), keyword, repeated (a second
line of one name), unknown (a name of no size), token (what can't stand there), brace (not closed in its
line), value (below 0 or above 9223372036854775807), divisor (0), log (of 0) or depth (the 65th level).

This has it:

# size n = 8
rule crew; procs {n};
shared a[1..{m}];
begin
  for 1 <= i <= {n} pardo a[i] := i; end
end

This is mended:

# size n = 8
rule crew; procs {n};
shared a[1..{n}];
begin
  for 1 <= i <= {n} pardo a[i] := i; end
end
";
