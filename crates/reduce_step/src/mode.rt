/// How a round of a reduction by a grammar goes through a tree.
#[derive(Clone, Copy, Debug, PartialEq, Eq)]
pub enum TreeMode {
    /// Node after node, the heaviest first: elements and optional parts are deleted, and nodes are
    /// replaced by smaller ones below them.
    Perses,
    /// Depth after depth: elements and optional parts are deleted.
    Hdd,
}
