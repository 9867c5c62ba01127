//! The laws of this crate.

ghost use Rattle.laid_out_texts.specs.Trees.{SpellingsTellTrees};

use pram_parser::parsing_laws::one_tree_at_most;
use pram_printer::printing_laws::printing_reads_back;

/// A text and its layout, which are spelled alike, have one tree but for places.
pub fn spellings_tell_trees()
    // Trees of two texts with one canonical spelling, not longer than a text may be, differ in their locations alone.
    ensures { SpellingsTellTrees }
{
    printing_reads_back();
    one_tree_at_most();
}
