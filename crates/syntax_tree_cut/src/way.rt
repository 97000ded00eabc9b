//! The way from a node of the parsed tree down to one that is left.

ghost use Rattle.std.specs.Prelude.{◌≡◌, ◌↔◌, ◌≤◌, ◌<◌, ◌+◌, ℕ, Option, IsSome, IsTrue, length};
ghost use Rattle.std.specs.Option.{option_and_then};
ghost use Rattle.syntax_tree.specs.Trees.{PlainTree, size};
ghost use Rattle.syntax_tree.specs.Numbered.{subtree};
ghost use Rattle.syntax_tree.specs.Nodes.{whole};
ghost use Rattle.syntax_tree_cut.specs.Cuts.{ReplacementsGoDown, left_at};
ghost use Rattle.syntax_tree_cut.specs.inner.Ways.{IsAhead, LeadsOn};

use crate::laws::tree_laws;
use crate::mark::Mark;
use syntax_tree::Tree;

/// What a step on the way comes to.
#[derive(Clone, Copy)]
pub(crate) enum Way {
    /// The node is left.
    Found,

    /// It isn't.
    Lost,

    /// It is left if it is left of the nodes from this one on.
    At(u32),
}

/// Whether the node is in the span of numbers of the other one: is it, or below it.
fn has_number(tree: &Tree, from: u32, node: u32) -> bool
    requires { from < length tree.now.nodes }
    ensures { (u : PlainTree) → subtree from (whole tree.now) ≡ Some u → IsTrue result ↔ ((from ≤ node) × (node < from + size u)) }
{
    from <= node && node < tree.after(from)
}

/// One step on the way to a node that is in the parsed tree from this position on.
fn next_step(tree: &Tree, marks: &[Mark], position: u32, node: u32) -> Way
    requires marks { length marks.now ≡ length tree.now.nodes }
    requires down { ReplacementsGoDown marks.now (whole tree.now) }
    requires ahead { (sought : Option PlainTree) × IsAhead tree.now marks.now node sought position }
    ensures { (sought : Option PlainTree) → IsAhead tree.now marks.now node sought position → LeadsOn tree.now marks.now node sought position result }
{
    tree_laws();
    let _nodes = tree.nodes();
    let after = tree.after(position);
    if after <= node {
        return Way::At(after);
    }
    match marks[position as usize] {
        Mark::Kept => {
            if position == node {
                return Way::Found;
            }
            Way::At(position + 1)
        }
        Mark::Deleted => Way::Lost,
        Mark::Replaced(by) => {
            if has_number(tree, by, node) {
                return Way::At(by);
            }
            Way::Lost
        }
    }
}

/// Whether the node is left in what is left at the position of the node `from`.
pub(crate) fn leads_to(tree: &Tree, marks: &[Mark], from: u32, node: u32) -> bool
    requires from { from < length tree.now.nodes }
    requires marks { length marks.now ≡ length tree.now.nodes }
    requires down { ReplacementsGoDown marks.now (whole tree.now) }
    ensures { IsTrue result ↔ IsSome (option_and_then (subtree node) (left_at marks.now from (whole tree.now))) }
{
    tree_laws();
    let _nodes = tree.nodes();
    if !has_number(tree, from, node) {
        return false;
    }
    let mut position = from;
    'way: loop {
        match next_step(tree, marks, position, node) {
            Way::Found => return true,
            Way::Lost => return false,
            Way::At(next) => position = next,
        }
    }
}
