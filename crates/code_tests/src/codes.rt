// b[i] := a[1] for four processors: the worked listing.
pub(crate) const BROADCAST: &[u8] = b"bsp 1
rule crew
procs 4
array a 1 2
array b 1 4
uniform 2
private 2
code 13
0 mark 7
1 uset 0 1
2 uset 1 4
3 enter 0 1 1
4 mark 8
5 pset 0 1
6 pask 1 0 0 1
7 send
8 reply
9 pindex 0
10 pput 1 0 1 2
11 leave
12 halt
";
