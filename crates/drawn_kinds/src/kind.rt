//! The kinds of inputs, and the words that name them.

ghost use Rattle.std.specs.Prelude.{◌≡◌, Some, IfSome};
ghost use Rattle.drawn_kinds.specs.declared.kind.DrawnKind.{DrawnKind as Kind};
ghost use Rattle.drawn_kinds.specs.declared.kind.DrawnKind.TheVariants as kinds;
ghost use Rattle.drawn_kinds.specs.declared.bounds.Vertices.{Vertices};
ghost use Rattle.drawn_kinds.specs.Names as spec;

use crate::{Bounds, Vertices};
use run_options::read_number;

/// What inputs are.
#[derive(Clone, Copy, Debug, PartialEq, Eq)]
pub enum DrawnKind {
    /// The node behind each node of one linked list of the nodes 1 to K, and 0 behind the last.
    List,
    /// The node behind each node of one ring of the nodes 1 to K.
    Ring,
    /// The node behind each node of one ring of the nodes 0 to K - 1.
    RingFromZero,
    /// The parent of each node of one tree of the nodes 1 to K. The root is its own.
    Tree,
    /// The first ends and then the second ends of the edges of a graph without loops.
    Graph(Vertices),
    /// Numbers within these bounds, or from 1 to K where there are none, in ascending order.
    Sorted(Option<Bounds>),
    /// The numbers 1 to K, each once.
    Permutation,
}

impl DrawnKind {
    /// How many declarations of a program an input of this kind fills: those of the first ends and of the second ends of a graph, and else
    /// one.
    pub fn declarations(self) -> usize
        // There are two of a graph, and one of any other kind.
        ensures { result ≡ spec.declarations self }
    {
        match self {
            DrawnKind::Graph(_) => 2,
            _ => 1,
        }
    }
}

// The graph with so many vertices. `None`: an edge without a loop needs two.
fn graph(count: u32) -> Option<DrawnKind>
    ensures is { IfSome result (spec.IsGraphWith count) }
    ensures found { (vertices : Vertices) → vertices.count ≡ count → result ≡ Some (kinds.Graph vertices) }
{
    if count < 2 {
        return None;
    }
    Some(DrawnKind::Graph(Vertices { count }))
}

/// The kind that a word names: `list`, `ring`, `ring:0`, `tree`, `sorted`, `permutation`, or `graph:V` with a number from 2 to
/// 4294967295, that of vertices. `None`: it names none.
pub fn read_kind(word: &str) -> Option<DrawnKind>
    // The kind is the one that the word names.
    ensures named { IfSome result (spec.Names word.now) }
    // Each word that names a kind is read as that.
    ensures found { (kind : Kind) → spec.Names word.now kind → result ≡ Some kind }
{
    match word {
        "list" => return Some(DrawnKind::List),
        "ring" => return Some(DrawnKind::Ring),
        "ring:0" => return Some(DrawnKind::RingFromZero),
        "tree" => return Some(DrawnKind::Tree),
        "sorted" => return Some(DrawnKind::Sorted(None)),
        "permutation" => return Some(DrawnKind::Permutation),
        _ => {}
    }
    let (kind, count) = word.split_once(':')?;
    if kind != "graph" {
        return None;
    }
    graph(read_number(count)?)
}
