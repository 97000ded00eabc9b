//! What follows of levels. Each law is a function that does nothing: a caller calls it so that its
//! proof has the law.

ghost use Rattle.hdd_levels.specs.Laws.{HigherNodesStay, KeepingAllKeepsTree, KeptTreesAreLeft, KeptTreesAreTrees};
ghost use Rattle.hdd_levels.specs.Laws.{SingleDeletionsAreOfLevels, ValidTreesFillPluses};

/// Where all nodes are kept the tree is the same.
pub fn keeping_all_keeps_tree()
    ensures { KeepingAllKeepsTree }
{}

/// In a valid tree each plus has an element.
pub fn valid_trees_fill_pluses()
    ensures { ValidTreesFillPluses }
{}

/// What is kept of a tree is left of it.
pub fn kept_trees_are_left()
    ensures { KeptTreesAreLeft }
{}

/// A tree for a slot without nodes of one level is a tree for the slot, if each plus has an element.
pub fn kept_trees_are_trees()
    ensures { KeptTreesAreTrees }
{}

/// The single deletions of a tree are those of one node of a level.
pub fn single_deletions_are_of_levels()
    ensures { SingleDeletionsAreOfLevels }
{}

/// The nodes above a level stay where nodes of the level are deleted.
pub fn higher_nodes_stay()
    ensures { HigherNodesStay }
{}
