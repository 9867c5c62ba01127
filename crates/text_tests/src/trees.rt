//! What no call of the program shows of a tree: where its rule and its number of processors stand, its one spelling, and that spelling to
//! writers that take little at a time, or fail.

ghost use Rattle.std.specs.Prelude.{◌<◌};

use crate::narrow::Narrow;
use pram_syntax::{Buffer, Location, Rule, Tree, WriteFault, parse, print_tree};
use std::alloc::Global;

// What stands in the fourth line: a lone CR ends none.
fn stands_in_line_four(tree: &Tree) -> bool {
    let procs = tree.procs();
    let rule_at = Location {
        offset: 10,
        line: 4,
    };
    let procs_at = Location {
        offset: 21,
        line: 4,
    };
    tree.token_count() == 8
        && tree.rule() == Rule::Sum
        && tree.rule_location() == rule_at
        && procs.value == 9_223_372_036_854_775_807
        && procs.location == procs_at
}

#[test]
fn places(rt: HostRuntime) {
    let text = b"\r\n#x\nrule\nsum;\rprocs 09223372036854775807;begin end#";
    let stands = match parse(rt.alloc(), text) {
        Ok(tree) => stands_in_line_four(&tree),
        Err(_) => false,
    };
    assert!(rt; stands);
}

const SPELLINGS: [(&str, &str); 3] = [
    (
        "rule crew;procs 01;begin print(1);end",
        "rule crew ;\nprocs 1 ;\nbegin\nprint ( 1 ) ;\nend\n",
    ),
    (
        "rule sum;procs 2;shared s;shared a[00..3];var x;begin # rest
a[-x]:=not x=s or 1<>2;if x then else end if x then x:=0;else print x;end end",
        "rule sum ;\nprocs 2 ;\nshared s ;\nshared a [ 0 .. 3 ] ;\nvar x ;\nbegin\na [ - x ] := not x = s or 1 <> 2 ;\nif x then\nelse\nend\nif x then\nx := 0 ;\nelse\nprint x ;\nend\nend\n",
    ),
    (
        "rule erew;procs 3;begin for x:=1 to 3 do while x<2 do end end for 1<=i<=x+1 pardo local t;local r;end end",
        "rule erew ;\nprocs 3 ;\nbegin\nfor x := 1 to 3 do\nwhile x < 2 do\nend\nend\nfor 1 <= i <= x + 1 pardo\nlocal t ;\nlocal r ;\nend\nend\n",
    ),
];

fn spells(alloc: Global, text: &str, spelling: &str) -> Option<bool> {
    let tree = parse(alloc, text.as_bytes()).ok()?;
    let mut buffer = Buffer::new(alloc);
    print_tree(&tree, &mut buffer).ok()?;
    Some(buffer.bytes() == spelling.as_bytes())
}

#[test]
fn a_tree_has_one_spelling(rt: HostRuntime) {
    for (text, spelling) in &SPELLINGS {
        assert!(rt; spells(rt.alloc(), text, spelling) == Some(true));
    }
}

const SPELLING: &[u8] = b"rule crew ;\nprocs 1 ;\nbegin\nprint ( 1 ) ;\nend\n";

// Whether a writer that takes so many bytes at a time gets it all.
fn comes_whole(alloc: Global, tree: &Tree, width: usize) -> bool
    requires { 0 < width }
{
    let mut slow = Narrow::new(alloc, width, 1000);
    print_tree(tree, &mut slow) == Ok(()) && slow.bytes.as_slice() == SPELLING
}

// Whether a writer that takes just this beginning gets it, fails once, and this is told.
fn is_cut_off(alloc: Global, tree: &Tree, front: &[u8]) -> bool {
    let mut short = Narrow::new(alloc, 1000, front.len());
    print_tree(tree, &mut short) == Err(WriteFault)
        && short.failures == 1
        && short.bytes.as_slice() == front
}

fn comes_to_narrow_writers(alloc: Global) -> Option<bool> {
    let tree = parse(alloc, b"rule crew;procs 01;begin print(1);end").ok()?;
    for room in 0..SPELLING.len() {
        if !is_cut_off(alloc, &tree, &SPELLING[..room]) {
            return Some(false);
        }
    }
    Some(comes_whole(alloc, &tree, 1) && comes_whole(alloc, &tree, 3))
}

#[test]
fn a_tree_is_written_to_narrow_writers(rt: HostRuntime) {
    assert!(rt; comes_to_narrow_writers(rt.alloc()) == Some(true));
}
