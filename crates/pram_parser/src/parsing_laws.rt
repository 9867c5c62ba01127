//! Which tree a text is that of, and where its tokens stand.

ghost use Rattle.std.specs.Prelude.{ℕ, List, length};
ghost use Rattle.pram_tokens.specs.InOrder.{StandInOrder};
ghost use Rattle.pram_trees.specs.Program.{ProgramTree, program_tokens};
ghost use Rattle.pram_trees.specs.Text.{HasOneTreeAtMost, IsTextOf};

/// No text is that of two trees.
pub fn one_tree_at_most()
    // No text has two trees.
    ensures { HasOneTreeAtMost }
{}

/// The tokens of a text stand within it, each behind the one before it.
pub fn tokens_stand_in_order()
    // The tokens whose places a tree keeps stand within its text, each behind the one before.
    ensures { (text : List ℕ) (tree : ProgramTree) → IsTextOf text tree →
        StandInOrder (length text) (program_tokens tree) }
{}
