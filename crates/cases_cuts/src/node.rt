//! What a cut says of a node.

ghost use Rattle.std.specs.Prelude.{◌≡◌, IfOk, IsSome, MatchOption, None, slice_get};
ghost use Rattle.std.specs.Option.{option_and_then};
ghost use Rattle.syntax_tree.specs.Trees.{leaves};
ghost use Rattle.syntax_tree.specs.Numbered.{subtree};
ghost use Rattle.syntax_tree_cut.specs.Cuts.{IsCutOf, cut_tree};
ghost use Rattle.cases_cuts.specs.Descriptions.{IsDescriptionOf};

use crate::case::Case;
use faults::Memory;
use normal_form::Sym;
use syntax_tree::Tree;
use syntax_tree_cut::{Cut, weights_count_leaves};

/// What a cut says of a node that is left.
#[derive(Debug, Drop)]
pub(crate) struct Description {
    /// The numbers of its children, from left to right.
    pub(crate) children: Vec<u32>,

    /// How many tokens are left below it.
    pub(crate) weight: u32,

    /// The first of these tokens, by its number among those of the parsed tree.
    pub(crate) first_token: Option<u32>,

    /// The slot that it is in.
    pub(crate) slot: Sym,
}

/// The first of the tokens that are left below a node that is left.
fn first_token(tree: &Tree, cut: &Cut, node: u32) -> Option<u32>
    requires of { IsCutOf tree.now cut.now }
    requires left { IsSome (subtree node (cut_tree tree.now cut.now)) }
    ensures { option_and_then (λ t. slice_get (leaves t) 0) (subtree node (cut_tree tree.now cut.now)) ≡ result }
{
    weights_count_leaves();
    if cut.weight(tree, node) == 0 {
        return None;
    }
    Some(cut.first_token(tree, node))
}

impl<'a> Case<'a> {
    /// What the cut says of a node; None where it isn't left. Its time is that of [`Cut::children`], and
    /// of asking whether the node is left.
    pub(crate) fn describe(&self, cut: &Cut, node: u32) -> Result<Option<Description>, Memory>
        requires { IsCutOf self.now.tree cut.now }
        ensures { IfOk result (λ found. MatchOption found (subtree node (cut_tree self.now.tree cut.now) ≡ None)
            (IsDescriptionOf self.now.tree (cut_tree self.now.tree cut.now) node)) }
    {
        let tree = &self.tree;
        if !cut.is_left(tree, node) {
            return Ok(None);
        }
        let children = cut.children(self.alloc, tree, node)?;
        Ok(Some(Description {
            children,
            weight: cut.weight(tree, node),
            first_token: first_token(tree, cut, node),
            slot: cut.slot(tree, node),
        }))
    }
}
