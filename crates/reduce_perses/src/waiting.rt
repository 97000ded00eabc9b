//! Which nodes wait.

ghost use Rattle.std.specs.Prelude.{◌≡◌, Some, IsSome, OnOk};
ghost use Rattle.syntax_tree.specs.Trees.{PlainTree, PlainTrees, children_of};
ghost use Rattle.syntax_tree.specs.Numbered.{subtree};
ghost use Rattle.syntax_tree_cut.specs.Cuts.{IsCutOf, cut_tree};
ghost use Rattle.reduce_perses.specs.Queued.{with_trees};

use faults::Memory;
use node_queue::Queue;
use std::alloc::Global;
use syntax_tree::Tree;
use syntax_tree_cut::{Cut, Shape};

/// Lets a node that is left wait, if it can: if it is no leaf, and a token is left below it. It takes
/// time logarithmic in the number of tokens that are left and of nodes that wait.
pub(crate) fn push_if_waiting(
    tree: &Tree,
    cut: &Cut,
    queue: &mut Queue,
    node: u32,
) -> Result<(), Memory>
    requires of { IsCutOf tree.now cut.now }
    requires left { IsSome (subtree node (cut_tree tree.now cut.now)) }
    ensures { OnOk result ((u : PlainTree) → subtree node (cut_tree tree.now cut.now) ≡ Some u
        → queue.new ≡ with_trees (PlainTrees.next u PlainTrees.none) queue.old) }
{
    if cut.shape(tree, node) == Shape::Leaf {
        return Ok(());
    }
    let weight = cut.weight(tree, node);
    if weight == 0 {
        return Ok(());
    }
    queue.push(node, weight, cut.first_token(tree, node))
}

/// Lets those of the children of a node that is left wait that can.
pub(crate) fn queue_children(
    alloc: Global,
    tree: &Tree,
    cut: &Cut,
    queue: &mut Queue,
    node: u32,
) -> Result<(), Memory>
    requires of { IsCutOf tree.now cut.now }
    requires left { IsSome (subtree node (cut_tree tree.now cut.now)) }
    ensures { OnOk result ((u : PlainTree) → subtree node (cut_tree tree.now cut.now) ≡ Some u → queue.new ≡ with_trees (children_of u) queue.old) }
{
    let _nodes = tree.nodes();
    let children = cut.children(alloc, tree, node)?;
    for child in &children {
        push_if_waiting(tree, cut, queue, *child)?;
    }
    Ok(())
}
