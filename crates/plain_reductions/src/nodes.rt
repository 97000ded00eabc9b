//! Trees as lists of the nodes that are left. Each node is before those below it, and the nodes are
//! in the list from left to right. An edit copies what stays.

ghost use Rattle.std.specs.Prelude.{◌≡◌, ◌++◌, ◌<◌, ◌^◌, IfOk, flat_map, length, map};
ghost use Rattle.plain_reductions.specs.Nodes.{children_of, is_among, is_number, is_token, left_node, left_nodes, put_at, tokens_of, without};

use faults::{Limit, Memory};
use normal_form::Sym;
use std::alloc::Global;
use syntax_tree::Node;

/// A node or leaf that is left.
#[derive(Clone, Copy)]
pub(crate) struct LeftNode {
    /// Its number in the parsed tree, which names it.
    pub number: u32,

    pub symbol: Sym,

    /// The symbol that its position asks for.
    pub slot: Sym,

    /// The number of the node that it is a child of; None at the root.
    pub parent: Option<u32>,

    /// The number of its first token in the parsed tree, which is a leaf's own one.
    pub token: u32,
}

/// The nodes of a parsed tree.
pub(crate) fn whole_tree(alloc: Global, nodes: &[Node]) -> Result<Vec<LeftNode>, Memory>
    requires { length nodes.now < 2 ^ 32 }
    ensures { IfOk result (λ tree. tree.items ≡ left_nodes 0 nodes.now) }
{
    let mut tree = Vec::new(alloc);
    for number in 0..nodes.len() {
        let node = nodes[number];
        tree.push(LeftNode {
            number: number as u32,
            symbol: node.sym,
            slot: node.slot,
            parent: node.parent,
            token: node.first,
        })?;
    }
    Ok(tree)
}

/// Whether the number is this one, if there is any.
fn is_this(other: Option<u32>, number: u32) -> bool
    ensures { result ≡ is_number number other }
{
    match other {
        Some(other) => other == number,
        None => false,
    }
}

/// Whether the symbol is one of leaves.
fn is_leaf(symbol: Sym) -> bool
    ensures { result ≡ is_token symbol }
{
    match symbol {
        Sym::Kind(_) | Sym::Set(_) => true,
        Sym::Rule(_) => false,
    }
}

/// Whether a node with this number is among these.
fn is_one_of(nodes: &[LeftNode], number: u32) -> bool
    ensures { result ≡ is_among nodes.now number }
{
    nodes.iter().any(|node| node.number == number)
}

/// The children of a node, from left to right.
pub(crate) fn children(
    alloc: Global,
    tree: &[LeftNode],
    parent: LeftNode,
) -> Result<Vec<LeftNode>, Memory>
    ensures { IfOk result (λ nodes. nodes.items ≡ children_of tree.now parent) }
{
    let nodes = tree
        .iter()
        .copied()
        .filter(|node| is_this(node.parent, parent.number))
        .collect(alloc)?;
    Ok(nodes)
}

/// These nodes and all that is below them: level by level, each from left to right.
#[tactic(auto, using(crate::proofs::GrowingLists::below_more))]
pub(crate) fn below(
    alloc: Global,
    tree: &[LeftNode],
    tops: &[LeftNode],
) -> Result<Vec<LeftNode>, Memory>
    ensures { IfOk result (λ all. all.items ≡ tops.now ++ flat_map (children_of tree.now) all.items) }
{
    let mut all = Vec::from_slice(alloc, tops)?;
    for index in 0..u32::MAX as usize {
        if index == all.len() {
            return Ok(all);
        }
        let node = all[index];
        all.extend_from_slice(&children(alloc, tree, node)?)?;
    }
    Err(Memory::over(Limit::Numbers, 4_294_967_296))
}

/// The children of these nodes, each one's from left to right.
fn children_of_each(
    alloc: Global,
    tree: &[LeftNode],
    parents: &[LeftNode],
) -> Result<Vec<LeftNode>, Memory> {
    let mut all = Vec::new(alloc);
    for parent in parents {
        all.extend_from_slice(&children(alloc, tree, *parent)?)?;
    }
    Ok(all)
}

/// The nodes so many levels below the root, from left to right.
pub(crate) fn level(alloc: Global, tree: &[LeftNode], depth: u32) -> Result<Vec<LeftNode>, Memory> {
    let mut level = Vec::new(alloc);
    if let Some(root) = tree.first() {
        level.push(*root)?;
    }
    for _ in 0..depth {
        level = children_of_each(alloc, tree, &level)?;
    }
    Ok(level)
}

/// The tokens of the leaves among these nodes, in the order of the nodes.
pub(crate) fn tokens(alloc: Global, nodes: &[LeftNode]) -> Result<Vec<u32>, Memory>
    ensures { IfOk result (λ tokens. tokens.items ≡ tokens_of nodes.now) }
{
    let tokens = nodes
        .iter()
        .filter(|node| is_leaf(node.symbol))
        .map(|node| node.token)
        .collect(alloc)?;
    Ok(tokens)
}

/// The nodes that aren't among those that go, and those that stay.
fn others(
    alloc: Global,
    tree: &[LeftNode],
    gone: &[LeftNode],
    stay: &[LeftNode],
) -> Result<Vec<LeftNode>, Memory>
    ensures { IfOk result (λ left. left.items ≡ without gone.now stay.now tree.now) }
{
    let left = tree
        .iter()
        .copied()
        .filter(|node| is_one_of(stay, node.number) || !is_one_of(gone, node.number))
        .collect(alloc)?;
    Ok(left)
}

/// The node in the position of another one.
pub(crate) fn placed(node: LeftNode, position: LeftNode) -> LeftNode
    ensures { result ≡ record { number = node.number; symbol = node.symbol; slot = position.slot; parent = position.parent; token = node.token } }
{
    LeftNode {
        slot: position.slot,
        parent: position.parent,
        ..node
    }
}

/// The node with this number is put in the position of another one, which isn't left.
fn moved(
    alloc: Global,
    tree: &[LeftNode],
    number: u32,
    position: LeftNode,
) -> Result<Vec<LeftNode>, Memory>
    ensures { IfOk result (λ moved. moved.items ≡ map (put_at position number) tree.now) }
{
    let moved = tree
        .iter()
        .map(|node| {
            if node.number == number {
                placed(*node, position)
            } else {
                *node
            }
        })
        .collect(alloc)?;
    Ok(moved)
}

/// The tree without these nodes and all that is below them.
pub(crate) fn deleted(
    alloc: Global,
    tree: &[LeftNode],
    tops: &[LeftNode],
) -> Result<Vec<LeftNode>, Memory> {
    let gone = below(alloc, tree, tops)?;
    others(alloc, tree, &gone, &[])
}

/// The tree in which a node below another one has its position, with all that is below it.
pub(crate) fn replaced(
    alloc: Global,
    tree: &[LeftNode],
    position: LeftNode,
    node: LeftNode,
) -> Result<Vec<LeftNode>, Memory> {
    let gone = below(alloc, tree, &[position])?;
    let stay = below(alloc, tree, &[node])?;
    let left = others(alloc, tree, &gone, &stay)?;
    moved(alloc, &left, node.number, position)
}
