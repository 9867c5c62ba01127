//! The law of this crate: of the words that name kinds.

ghost use Rattle.std.specs.Prelude.{◌<◌, ◌^◌};
ghost use Rattle.drawn_kinds.specs.declared.kind.DrawnKind.{DrawnKind as Kind};
ghost use Rattle.drawn_kinds.specs.Names.{Names, IsSmall, spelling};

/// A kind that is written out is read again: `read_kind` gives it for this word.
pub fn written_kinds_are_named()
    // Each kind, with a number of vertices below 2^32, is named by the word that it is written as.
    ensures { (kind : Kind) → IsSmall kind → Names (spelling kind) kind }
{}
