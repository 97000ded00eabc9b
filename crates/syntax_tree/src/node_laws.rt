//! What follows from the numbers of nodes. Each law is a function that does nothing: a caller calls
//! it so that its proof has the law.

ghost use Rattle.syntax_tree.specs.NodeLaws.{LevelsAreBelow, NodesAreSubtrees, NumbersFindSubtrees, NumbersFollowTokens, SubtreesHaveNodes, WholeTreesRise};

/// Each entry of a tree's list of nodes is that of the tree which has the entry's index as number.
pub fn nodes_are_subtrees()
    ensures { NodesAreSubtrees }
{}

/// Each node of a tree has the entry that its number is the index of.
pub fn subtrees_have_nodes()
    ensures { SubtreesHaveNodes }
{}

/// In the tree of an input the numbers rise, so that no two nodes have the same one.
pub fn whole_trees_rise()
    ensures { WholeTreesRise }
{}

/// Where the numbers rise, each node is found by its own number.
pub fn numbers_find_subtrees()
    ensures { NumbersFindSubtrees }
{}

/// In level order is exactly what is below a node.
pub fn levels_are_below()
    ensures { LevelsAreBelow }
{}

/// Of two nodes that share no token, the one with the smaller number has the smaller tokens, so that
/// an order by first tokens is one by numbers.
pub fn numbers_follow_tokens()
    ensures { NumbersFollowTokens }
{}
