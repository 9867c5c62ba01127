//! On which inputs two programs are run, or one.

ghost use Rattle.std.specs.Prelude.{◌≤◌, ◌+◌, ◌<◌, ◌^◌, length};
ghost use Rattle.scopes.specs.Scopes.{inputs_of};

use drawn_kinds::DrawnKind;
use scopes::{Drawing, Scope};

/// The most inputs that are drawn.
pub const MOST_DRAWN: u32 = 1_000_000;

/// The inputs of a scope, of which there are at most [`MOST_INPUTS`](crate::MOST_INPUTS).
#[derive(Clone, Copy, Debug)]
pub struct FewInputs {
    pub scope: Scope,
    ghost few: { length (inputs_of scope) ≤ 100000000 },
}

/// Inputs that are drawn, as many as `count`, by the seed of the drawing, the next seed, and so on: each of values for so many cells, or,
/// without a number of them, for those of the declarations with which both programs begin.
#[derive(Clone, Copy, Debug)]
pub struct DrawnWords {
    pub drawing: Drawing,
    pub cells: Option<u32>,
    pub count: u32,
    ghost seeds: { drawing.seed + count < 2 ^ 64 },
}

/// Inputs of a kind that are drawn, as many as `count`, by that seed, the next seed, and so on: each of values for so many cells, or,
/// without a number of them, for those of the first declaration with which both programs begin, or of the first two where it is a graph.
#[derive(Clone, Copy, Debug)]
pub struct KindWords {
    pub kind: DrawnKind,
    pub seed: u64,
    pub cells: Option<u32>,
    pub count: u32,
    ghost seeds: { seed + count < 2 ^ 64 },
}

/// A file that an input stands in.
#[derive(Clone, Copy, Debug, Drop)]
pub struct InputFile<'a> {
    pub name: &'a str,
}

/// The inputs on which two programs are run.
#[derive(Debug, Drop)]
pub enum InputWords<'a> {
    /// All those of a scope.
    Scope(FewInputs),
    /// Those of these files, in their order.
    Files(Vec<InputFile<'a>>),
    /// Those that are drawn.
    Drawn(DrawnWords),
    /// Those of a kind that are drawn.
    OfKind(KindWords),
}
