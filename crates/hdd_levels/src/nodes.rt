//! Lists of nodes that are left, and what is below them.

ghost use Rattle.std.specs.Prelude.{◌≡◌, ◌-◌, ◌≤◌, ◌++◌, List, IfOk, IsSome, OnOk, Some, length, map, option_map};
ghost use Rattle.syntax_tree.specs.Trees.{PlainTree};
ghost use Rattle.syntax_tree.specs.Numbered.{number_of, subtree};
ghost use Rattle.syntax_tree_cut.specs.Cuts.{IsCutOf, cut_tree};
ghost use Rattle.descend_replace.specs.LevelLaws.{children_of_each};
ghost use Rattle.hdd_levels.specs.LevelForms.{elements_if, plus_of};
ghost use Rattle.hdd_levels.specs.inner.LevelForms.{AreNodesIn, has_leaf, shape_loses, whole_plus, with_leaves_in};
ghost use Rattle.hdd_levels.specs.Levels.{deletable_children};

use crate::level_nodes::Elements;
use faults::Memory;
use std::alloc::Global;
use syntax_tree::Tree;
use syntax_tree_cut::{Cut, Shape};

/// The children of these nodes, those of the first one first.
pub(crate) fn children_of_nodes(
    alloc: Global,
    tree: &Tree,
    cut: &Cut,
    nodes: &[u32],
) -> Result<Vec<u32>, Memory>
    requires of { IsCutOf tree.now cut.now }
    requires nodes { (ts : List PlainTree) × AreNodesIn (cut_tree tree.now cut.now) nodes.now ts }
    ensures { IfOk result (λ found. (ts : List PlainTree) → AreNodesIn (cut_tree tree.now cut.now) nodes.now ts
        → found.items ≡ map number_of (children_of_each ts)) }
{
    let mut found = Vec::new(alloc);
    for node in nodes {
        cut.push_children(tree, *node, &mut found)?;
    }
    Ok(found)
}

/// Adds the deletable children of a node that is left, and where they are all elements of a plus,
/// which of the nodes they are.
pub(crate) fn push_deletable(
    alloc: Global,
    tree: &Tree,
    cut: &Cut,
    node: u32,
    into: &mut Vec<u32>,
    pluses: &mut Vec<Elements>,
) -> Result<(), Memory>
    requires of { IsCutOf tree.now cut.now }
    requires left { IsSome (subtree node (cut_tree tree.now cut.now)) }
    ensures nodes { OnOk result ((u : PlainTree) → subtree node (cut_tree tree.now cut.now) ≡ Some u
        → into.new.items ≡ into.old.items ++ map number_of (deletable_children tree.now.form u)) }
    ensures pluses { OnOk result ((u : PlainTree) → subtree node (cut_tree tree.now cut.now) ≡ Some u
        → pluses.new.items ≡ pluses.old.items ++ plus_of tree.now.form (length into.old.items) u) }
{
    let _nodes = tree.nodes();
    let shape = cut.shape(tree, node);
    if !loses_children(shape) {
        return Ok(());
    }
    let children = cut.children(alloc, tree, node)?;
    let from = into.len();
    push_with_tokens(tree, cut, children.as_slice(), into)?;
    push_plus(shape, children.len(), from, into.len(), pluses)?;
    Ok(())
}

/// Whether the children of nodes of this shape can be deleted.
fn loses_children(shape: Shape) -> bool
    ensures { result ≡ shape_loses shape }
{
    matches!(shape, Shape::Star | Shape::Plus | Shape::Optional)
}

/// Adds those of the nodes, which are left, that have a token.
fn push_with_tokens(
    tree: &Tree,
    cut: &Cut,
    nodes: &[u32],
    into: &mut Vec<u32>,
) -> Result<(), Memory>
    requires of { IsCutOf tree.now cut.now }
    requires nodes { (ts : List PlainTree) × AreNodesIn (cut_tree tree.now cut.now) nodes.now ts }
    ensures { OnOk result ((ts : List PlainTree) → AreNodesIn (cut_tree tree.now cut.now) nodes.now ts
        → into.new.items ≡ into.old.items ++ map number_of (with_leaves_in ts)) }
{
    for node in nodes {
        if has_token(tree, cut, *node) {
            into.push(*node)?;
        }
    }
    Ok(())
}

/// Whether a node that is left has a token.
fn has_token(tree: &Tree, cut: &Cut, node: u32) -> bool
    requires of { IsCutOf tree.now cut.now }
    requires left { IsSome (subtree node (cut_tree tree.now cut.now)) }
    ensures { option_map has_leaf (subtree node (cut_tree tree.now cut.now)) ≡ Some result }
{
    cut.weight(tree, node) > 0
}

/// Adds the elements from one index up to another, if they are all that a plus has.
fn push_plus(
    shape: Shape,
    count: usize,
    from: usize,
    end: usize,
    pluses: &mut Vec<Elements>,
) -> Result<(), Memory>
    requires { from ≤ end }
    ensures { OnOk result (pluses.new.items ≡ pluses.old.items ++ elements_if (whole_plus shape count (end - from)) from end) }
{
    if !is_whole_plus(shape, count, end - from) {
        return Ok(());
    }
    pluses.push(Elements { from, end })?;
    Ok(())
}

/// Whether so many elements of a node of this shape are all that a plus has.
fn is_whole_plus(shape: Shape, count: usize, elements: usize) -> bool
    ensures { result ≡ whole_plus shape count elements }
{
    match shape {
        Shape::Plus => elements == count,
        _ => false,
    }
}
