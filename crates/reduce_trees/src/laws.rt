//! What modes of trees owe to reductions by rounds, whatever walks the tree. Each law is a function that
//! does nothing: a caller calls it so that its proof has the law.

ghost use Rattle.reduce_trees.specs.Laws.{WalksAreLawful, WalksTryEdits};

use reduce_trees_mode::{tree_mode_is_lawful, tree_mode_tries_trees};
use reduce_walk::TreeWalk;
use syntax_tree::{left_is_part, whole_trees_rise};

/// The mode reaches kept states alone, and within a round each yes makes the tree smaller.
pub fn walks_are_lawful<W: TreeWalk>()
    ensures { WalksAreLawful W.round }
{
    whole_trees_rise();
    left_is_part();
    W::rounds_keep_trees();
    W::rounds_lose_leaves();
    tree_mode_is_lawful();
}

/// A round whose answers are all no has tried each edit of the walk.
pub fn walks_try_edits<W: TreeWalk>()
    ensures { WalksTryEdits W.round W.IsEdit }
{
    whole_trees_rise();
    left_is_part();
    W::rounds_try_edits();
    tree_mode_tries_trees();
}
