//! Trees of all tokens of an input.

ghost use Rattle.std.specs.Prelude.{◌≡◌, ◌+◌, ◌<◌, ◌^◌, IfOk, Some, length, vec_len};
ghost use Rattle.syntax_tree.specs.Trees.{PlainTree, PlainTrees, count, size, size_all};
ghost use Rattle.syntax_tree.specs.Numbered.{subtree};
ghost use Rattle.syntax_tree.specs.Nodes.{AreNodesOf, whole, whole_of};
ghost use Rattle.syntax_tree.specs.inner.Nodes.{AreAfters, AreNodes, HaveAfters};

use crate::node::Node;
use faults::Memory;
use normal_form::{Normal, Sym};
use std::alloc::Global;
use std::marker::Model;

/// The tree of an input's tokens, with the normal form that it is over and the slot that it is in.
#[derive(Drop)]
pub struct Tree {
    normal: Normal,
    start: Sym,
    nodes: Vec<Node>,
    after: Vec<u32>,
}

impl Model for Tree {
    ghost use Rattle.syntax_tree.specs.Nodes.{SyntaxTree};

    ghost Value = { SyntaxTree };

    ghost use Rattle.std.specs.Prelude.{◌<◌, ◌^◌, vec_len};
    ghost use Rattle.syntax_tree.specs.Nodes.{AreNodesOf, whole_of};
    ghost use Rattle.syntax_tree.specs.inner.Nodes.{AreAfters};

    ghost view = { λ t. record { form = t.normal; start = t.start; nodes = t.nodes.items } };

    ghost invariant = { λ t. AreNodesOf t.normal t.start t.nodes.items (whole_of t.nodes.items) × (vec_len t.nodes < 2 ^ 32)
        × AreAfters t.after.items (whole_of t.nodes.items) };
}

impl Tree {
    /// The tree of these nodes, in the order of their numbers, for a slot. It takes time linear in
    /// the number of nodes, and 4 bytes for each beside the nodes themselves.
    pub fn new(alloc: Global, normal: Normal, start: Sym, nodes: Vec<Node>) -> Result<Tree, Memory>
        requires nodes { (t : PlainTree) × AreNodesOf normal start nodes.items t }
        requires few { vec_len nodes < 2 ^ 32 }
        ensures parts { IfOk result (λ tree. tree ≡ record { form = normal; start = start; nodes = nodes.items }) }
        ensures whole { IfOk result (λ tree. (t : PlainTree) → AreNodesOf normal start nodes.items t → whole tree ≡ t) }
    {
        let after = afters(alloc, nodes.as_slice())?;
        Ok(Tree {
            normal,
            start,
            nodes,
            after,
        })
    }

    /// The normal form that the tree is over.
    pub fn normal(&self) -> &Normal
        ensures { result.now ≡ self.now.form }
    {
        &self.normal
    }

    /// The symbol that the whole tree is for.
    pub fn start(&self) -> Sym
        ensures { result ≡ self.now.start }
    {
        self.start
    }

    /// The nodes and leaves, each at the index that is its number. The first is the root.
    pub fn nodes(&self) -> &[Node]
        ensures nodes { result.now ≡ self.now.nodes }
        ensures whole { AreNodesOf self.now.form self.now.start self.now.nodes (whole self.now) }
        ensures few { length result.now < 2 ^ 32 }
    {
        self.nodes.as_slice()
    }

    /// The number after those of the node and of all below it: below the node are exactly the
    /// numbers from `node + 1` up to but not including this one.
    pub fn after(&self, node: u32) -> u32
        requires { node < length self.now.nodes }
        ensures { (u : PlainTree) × (subtree node (whole self.now) ≡ Some u) × (result ≡ node + size u) }
    {
        self.after[node as usize]
    }
}

/// For each node the number after those of the node and of all below it.
fn afters(alloc: Global, nodes: &[Node]) -> Result<Vec<u32>, Memory>
    requires nodes { AreNodes nodes.now }
    requires few { length nodes.now < 2 ^ 32 }
    ensures { IfOk result (λ after. AreAfters after.items (whole_of nodes.now)) }
{
    let mut after = vec![in alloc; 0u32; nodes.len()]?;
    for number in (0..nodes.len()).rev() {
        after[number] = after_children(after.as_slice(), number as u32 + 1, nodes[number].children);
    }
    Ok(after)
}

/// The number after so many trees, of which the first has the number `first`.
fn after_children(after: &[u32], first: u32, children: u32) -> u32
    requires { (ts : PlainTrees) × (count ts ≡ children) × HaveAfters after.now first ts }
    ensures { (ts : PlainTrees) → count ts ≡ children → HaveAfters after.now first ts → result ≡ first + size_all ts }
{
    let mut number = first;
    for i in 0..children {
        number = after[number as usize];
    }
    number
}
