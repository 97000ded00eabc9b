//! What is below a node.

ghost use Rattle.std.specs.Prelude.{◌≡◌, IfOk, MatchOption, None};
ghost use Rattle.syntax_tree.specs.Numbered.{subtree};
ghost use Rattle.syntax_tree_cut.specs.Cuts.{IsCutOf, cut_tree};
ghost use Rattle.cases_cuts.specs.Descriptions.{IsBelowOf};

use crate::case::Case;
use descend_replace::{compatible, level_order};
use faults::Memory;
use syntax_tree_cut::Cut;

/// The numbers of nodes below a node that is left, level by level, each level from left to right.
#[derive(Debug, Drop)]
pub(crate) struct Below {
    /// All that are left.
    pub(crate) all: Vec<u32>,

    /// Those of them that can take the node's position.
    pub(crate) compatible: Vec<u32>,
}

impl<'a> Case<'a> {
    /// What is below a node; None where the node isn't left. Its time is that of [`level_order`] and of
    /// [`compatible`].
    pub(crate) fn nodes_below(&self, cut: &Cut, node: u32) -> Result<Option<Below>, Memory>
        requires of { IsCutOf self.now.tree cut.now }
        requires compat { self.now.compat ≡ self.now.tree.form }
        ensures { IfOk result (λ found. MatchOption found (subtree node (cut_tree self.now.tree cut.now) ≡ None)
            (IsBelowOf self.now.tree (cut_tree self.now.tree cut.now) node)) }
    {
        let tree = &self.tree;
        if !cut.is_left(tree, node) {
            return Ok(None);
        }
        let all = level_order(self.alloc, tree, cut, node)?;
        let compatible = compatible(self.alloc, tree, cut, &self.compat, node)?;
        Ok(Some(Below { all, compatible }))
    }
}
