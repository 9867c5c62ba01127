//! What is said of faults.

pub(crate) const OVERFLOW: [u8; 464] = *b"fault overflow: a result that is no number of 64 bits.

Numbers go from -9223372036854775808 to 9223372036854775807, and nothing wraps around. The place is `all`
outside pardo, or the processor. Under `sum` the sum that a cell gets counts too, and the place is the cell.

This has it:

rule crew; procs 1;
var x;
begin
  x := 9223372036854775807;
  print x + 1;
end

This is mended:

rule crew; procs 1;
var x;
begin
  x := 9223372036854775806;
  print x + 1;
end
";

pub(crate) const DIVIDE_BY_ZERO: [u8; 395] =
    *b"fault divide-by-zero: the divisor of `div` or `mod` is zero.

The place is `all` outside pardo, or the least processor that divides by zero.

This has it:

rule crew; procs 4;
shared a[1..4];
begin
  for 1 <= i <= 4 pardo a[i] := 12 div (i - 2); end
end

This is mended:

rule crew; procs 4;
shared a[1..4];
begin
  for 1 <= i <= 4 pardo
    if i <> 2 then a[i] := 12 div (i - 2); end
  end
end
";

pub(crate) const OUT_OF_RANGE: [u8; 440] = *b"fault out-of-range: a subscript outside its array.

It is tested where the cell is read or written. The place is `all` outside pardo, or the least processor
with such a subscript; often it is the first or the last of them.

This has it:

rule crew; procs 4;
shared a[1..4];
begin
  for 1 <= i <= 4 pardo a[i] := a[i + 1]; end
end

This is mended:

rule crew; procs 4;
shared a[1..4];
begin
  for 1 <= i <= 3 pardo a[i] := a[i + 1]; end
end
";

pub(crate) const TOO_WIDE: [u8; 368] = *b"fault too-wide: a pardo with more indices than processors.

`procs` says how many processors there are at most, up to 16,384, and each index of a pardo has its own.

This has it:

rule crew; procs 4;
shared a[1..8];
begin
  for 1 <= i <= 8 pardo a[i] := i; end
end

This is mended:

rule crew; procs 8;
shared a[1..8];
begin
  for 1 <= i <= 8 pardo a[i] := i; end
end
";

pub(crate) const READ_CONFLICT: [u8; 500] =
    *b"fault read-conflict: two processors read one cell at the same moment.

Under `erew` reads are exclusive: at one position of a statement no two processors read one cell. The place is
the least such cell; `pramc steps` says who met there, and `pramc rules` which rules allow it.

This has it:

rule erew; procs 4;
shared a[1..4]; shared s;
begin
  for 1 <= i <= 4 pardo a[i] := s; end
end

This is mended:

rule crew; procs 4;
shared a[1..4]; shared s;
begin
  for 1 <= i <= 4 pardo a[i] := s; end
end
";

pub(crate) const WRITE_CONFLICT: [u8; 496] =
    *b"fault write-conflict: two processors write one cell in one statement.

Under `erew` and `crew` writes are exclusive, and under `common` all that write a cell write the same value.
The place is the least such cell. Under `priority` the least processor's value stays, and under `sum` the cell
gets the sum of all.

This has it:

rule crew; procs 4;
shared s;
begin
  for 1 <= i <= 4 pardo s := i; end
end

This is mended:

rule sum; procs 4;
shared s;
begin
  for 1 <= i <= 4 pardo s := i; end
end
";
