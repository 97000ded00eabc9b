//! The laws of trees that the proofs of this crate use.

ghost use Rattle.syntax_tree_cut.specs.inner.TreeLaws.{TreeLaws};

use syntax_tree::{
    leaves_in_span, left_is_part, left_is_reflexive, local_edits_are_valid, nodes_are_subtrees,
    nodes_have_slots, other_nodes_stay, subtrees_are_left, subtrees_change, subtrees_fit,
    subtrees_have_nodes, whole_trees_rise,
};

/// What is known of trees.
pub(crate) fn tree_laws()
    ensures { TreeLaws }
{
    local_edits_are_valid();
    nodes_have_slots();
    other_nodes_stay();
    subtrees_are_left();
    subtrees_change();
    subtrees_fit();
    leaves_in_span();
    left_is_part();
    left_is_reflexive();
    nodes_are_subtrees();
    subtrees_have_nodes();
    whole_trees_rise();
}
