//! Nodes of parsed trees.

use normal_form::Sym;

/// A node or leaf of a parsed tree. Nodes are numbered from 0, each before those below it, from left
/// to right. It takes 40 bytes, and a [`Tree`](crate::Tree) 4 more for each.
#[derive(Clone, Copy, Debug, PartialEq, Eq)]
pub struct Node {
    /// Its own symbol: a leaf's is its token's kind, and a node's its rule.
    pub sym: Sym,

    /// The symbol that its position asks for: that of the alternative above it, of the list or
    /// optional that it is in, or the start symbol.
    pub slot: Sym,

    /// The number of the alternative that it has, counted from 0; 0 where its rule isn't regular.
    pub alt: u32,

    /// How many children it has. An absent optional and a leaf have none.
    pub children: u32,

    /// The number of its parent; None at the root.
    pub parent: Option<u32>,

    /// The number of its first token, counted from 0.
    pub first: u32,

    /// The number of the token after its last one; that of its first one where it has none.
    pub end: u32,
}
