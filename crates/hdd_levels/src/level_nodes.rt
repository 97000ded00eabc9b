//! The deletable nodes of one depth.

ghost use Rattle.std.specs.Prelude.{◌≡◌, ℕ, suc, List, [], IfOk, Some, None, map};
ghost use Rattle.std.specs.List.{flat_map};
ghost use Rattle.std.specs.Option.{option_map};
ghost use Rattle.syntax_tree.specs.Trees.{PlainTree};
ghost use Rattle.syntax_tree.specs.Numbered.{number_of};
ghost use Rattle.syntax_tree.specs.Levels.{at_depth};
ghost use Rattle.syntax_tree_cut.specs.Cuts.{IsCutOf, cut_tree};
ghost use Rattle.hdd_levels.specs.LevelForms.{IsLevelAt, IsLevelIfDeep, parents_at, pluses_of};
ghost use Rattle.hdd_levels.specs.inner.LevelForms.{AreNodesIn};
ghost use Rattle.hdd_levels.specs.Levels.{deletable_children};

use crate::nodes::{children_of_nodes, push_deletable};
use faults::Memory;
use std::alloc::Global;
use std::marker::Model;
use syntax_tree::Tree;
use syntax_tree_cut::Cut;

/// Which of the nodes of a level are the elements of one plus: those from the index `from` up to but
/// not including the index `end`.
#[derive(Clone, Copy, Debug, PartialEq, Eq)]
pub(crate) struct Elements {
    pub(crate) from: usize,
    pub(crate) end: usize,
}

/// The deletable nodes of one depth of what is left of a tree, from left to right. The root has depth
/// 0, and isn't deletable.
#[derive(Drop)]
pub struct LevelNodes {
    /// The nodes and leaves one level higher, from left to right; None for the root's level.
    parents: Option<Vec<u32>>,

    nodes: Vec<u32>,

    /// The elements of each plus, where all of them are among the nodes.
    pluses: Vec<Elements>,
}

impl Model for LevelNodes {
    ghost use Rattle.std.specs.Option.{option_map};
    ghost use Rattle.hdd_levels.specs.LevelForms.{LevelForm};

    ghost Value = { LevelForm };

    ghost view = { λ l. record { parents = option_map (λ v. v.items) l.parents; nodes = l.nodes.items; pluses = l.pluses.items } };
}

impl LevelNodes {
    /// The numbers of the deletable nodes, from left to right.
    pub fn nodes(&self) -> &[u32]
        ensures { result.now ≡ self.now.nodes }
    {
        self.nodes.as_slice()
    }

    /// The elements of each plus, where all of them are among the nodes.
    pub(crate) fn pluses(&self) -> &[Elements]
        ensures { result.now ≡ self.now.pluses }
    {
        self.pluses.as_slice()
    }

    /// An equal one. It takes time and memory linear in the number of nodes of the level and the one above.
    pub fn copy(&self) -> Result<LevelNodes, Memory>
        ensures { IfOk result (λ copy. copy ≡ self.now) }
    {
        let parents = copy_of(&self.parents)?;
        let nodes = self.nodes.clone()?;
        let pluses = self.pluses.clone()?;
        Ok(LevelNodes {
            parents,
            nodes,
            pluses,
        })
    }

    /// The level that is one lower, in what the cut leaves now; None exactly where nothing is so deep.
    /// Since this level was taken, nodes of it may have been deleted, and nothing else. It takes time
    /// and memory linear in the number of nodes of the parsed tree that are of this level or the next
    /// two, or would be if nothing were deleted.
    pub fn next(&self, alloc: Global, tree: &Tree, cut: &Cut) -> Result<Option<LevelNodes>, Memory>
        requires of { IsCutOf tree.now cut.now }
        requires parents { (d : ℕ) × (self.now.parents ≡ parents_at d (cut_tree tree.now cut.now)) }
        ensures { IfOk result (λ next. (d : ℕ) → self.now.parents ≡ parents_at d (cut_tree tree.now cut.now)
            → IsLevelIfDeep tree.now.form (cut_tree tree.now cut.now) (suc d) next) }
    {
        let _nodes = tree.nodes();
        let parents = self.own_nodes(alloc, tree, cut)?;
        let below = children_of_nodes(alloc, tree, cut, parents.as_slice())?;
        if below.is_empty() {
            return Ok(None);
        }
        let next = LevelNodes::below(alloc, tree, cut, parents)?;
        Ok(Some(next))
    }

    /// The level of the root.
    fn of_root(alloc: Global) -> LevelNodes
        ensures parents { result.parents ≡ None }
        ensures nodes { result.nodes ≡ [] }
        ensures pluses { result.pluses ≡ [] }
    {
        LevelNodes {
            parents: None,
            nodes: Vec::new(alloc),
            pluses: Vec::new(alloc),
        }
    }

    /// All nodes and leaves of this depth in what the cut leaves now.
    fn own_nodes(&self, alloc: Global, tree: &Tree, cut: &Cut) -> Result<Vec<u32>, Memory>
        requires of { IsCutOf tree.now cut.now }
        requires parents { (d : ℕ) × (self.now.parents ≡ parents_at d (cut_tree tree.now cut.now)) }
        ensures { IfOk result (λ nodes. (d : ℕ) → self.now.parents ≡ parents_at d (cut_tree tree.now cut.now)
            → nodes.items ≡ map number_of (at_depth d (cut_tree tree.now cut.now))) }
    {
        let _nodes = tree.nodes();
        match &self.parents {
            None => {
                let nodes = vec![in alloc; cut.root(tree); 1]?;
                Ok(nodes)
            }
            Some(parents) => {
                let nodes = children_of_nodes(alloc, tree, cut, parents.as_slice())?;
                Ok(nodes)
            }
        }
    }

    /// The level of the children of these nodes, which are all nodes and leaves of a depth.
    fn below(alloc: Global, tree: &Tree, cut: &Cut, parents: Vec<u32>) -> Result<LevelNodes, Memory>
        requires of { IsCutOf tree.now cut.now }
        requires parents { (ts : List PlainTree) × AreNodesIn (cut_tree tree.now cut.now) parents.items ts }
        ensures parents { IfOk result (λ l. l.parents ≡ Some parents.items) }
        ensures nodes { IfOk result (λ l. (ts : List PlainTree) → AreNodesIn (cut_tree tree.now cut.now) parents.items ts
            → l.nodes ≡ map number_of (flat_map (deletable_children tree.now.form) ts)) }
        ensures pluses { IfOk result (λ l. (ts : List PlainTree) → AreNodesIn (cut_tree tree.now cut.now) parents.items ts
            → l.pluses ≡ pluses_of tree.now.form 0 ts) }
    {
        let mut nodes = Vec::new(alloc);
        let mut pluses = Vec::new(alloc);
        for parent in &parents {
            push_deletable(alloc, tree, cut, *parent, &mut nodes, &mut pluses)?;
        }
        Ok(LevelNodes {
            parents: Some(parents),
            nodes,
            pluses,
        })
    }
}

/// The level at this depth of what is left of a tree; None exactly where nothing is so deep. It takes
/// time and memory linear in the number of nodes of the parsed tree. For one level after another take
/// [`LevelNodes::next`].
pub fn level(
    alloc: Global,
    tree: &Tree,
    cut: &Cut,
    depth: u32,
) -> Result<Option<LevelNodes>, Memory>
    requires { IsCutOf tree.now cut.now }
    ensures { IfOk result (λ found. IsLevelIfDeep tree.now.form (cut_tree tree.now cut.now) depth found) }
{
    let mut level = LevelNodes::of_root(alloc);
    let mut reached = 0;
    while reached < depth {
        match level.next(alloc, tree, cut)? {
            Some(next) => level = next,
            None => return Ok(None),
        }
        reached += 1;
    }
    Ok(Some(level))
}

/// The same numbers again, where there are some.
fn copy_of(numbers: &Option<Vec<u32>>) -> Result<Option<Vec<u32>>, Memory>
    ensures { IfOk result (λ copy. option_map (λ v. v.items) copy ≡ option_map (λ v. v.items) numbers.now) }
{
    match numbers {
        None => Ok(None),
        Some(numbers) => {
            let copy = numbers.clone()?;
            Ok(Some(copy))
        }
    }
}
