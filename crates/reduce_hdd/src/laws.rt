//! What holds of rounds of mode `hdd`. Each law is a function that does nothing: a caller calls it so
//! that its proof has the law.

ghost use Rattle.reduce_hdd.specs.Deletions.{TriesLevelDeletions};
ghost use Rattle.reduce_hdd.specs.Laws.{EndsByLevels, FewerNodesAreLighter, GoesByLevels, LosesLeaves, TriesKeptTrees, TriesSingleDeletions};
ghost use Rattle.reduce_hdd.specs.Worked.{BlocksStay, PlusKeepsOne, StatementsGo};

use hdd_levels::{
    keeping_all_keeps_tree, kept_trees_are_left, kept_trees_are_trees,
    single_deletions_are_of_levels, valid_trees_fill_pluses,
};
use syntax_tree::{left_is_part, left_is_transitive};
use syntax_tree_cut::weights_count_leaves;

/// Where fewer nodes of a level are kept, fewer leaves are left.
pub fn fewer_nodes_are_lighter()
    ensures { FewerNodesAreLighter }
{
    weights_count_leaves();
}

/// A round goes by its levels: the bound in its definition is never met.
pub fn goes_by_levels()
    ensures { GoesByLevels }
{}

/// Only trees for the slot that are left of the whole tree are tried.
pub fn tries_kept_trees()
    ensures { TriesKeptTrees }
{
    keeping_all_keeps_tree();
    valid_trees_fill_pluses();
    kept_trees_are_left();
    kept_trees_are_trees();
    left_is_transitive();
    left_is_part();
}

/// Each tree that is tried has fewer leaves than the last that had a yes.
pub fn loses_leaves()
    ensures { LosesLeaves }
{
    keeping_all_keeps_tree();
    kept_trees_are_left();
    left_is_part();
    fewer_nodes_are_lighter();
}

/// A round whose answers are all no has tried each single deletion of its tree.
pub fn tries_single_deletions()
    ensures { TriesSingleDeletions }
{
    keeping_all_keeps_tree();
    single_deletions_are_of_levels();
}

/// Over the trees' texts and a verdict, a round comes to what its levels come to one after another.
pub fn ends_by_levels()
    ensures { EndsByLevels }
{
    keeping_all_keeps_tree();
}

/// Each tree that is tried comes from the last that had a yes by deletions in one level.
pub fn tries_level_deletions()
    ensures { TriesLevelDeletions }
{
    keeping_all_keeps_tree();
    kept_trees_are_left();
    left_is_part();
}

/// Rounds try what was worked out by hand.
pub fn worked_rounds()
    ensures statements { StatementsGo }
    ensures blocks { BlocksStay }
    ensures plus { PlusKeepsOne }
{}
