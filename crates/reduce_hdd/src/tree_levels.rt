//! Rounds through the levels of a tree.

ghost use Rattle.std.specs.Prelude.{◌≡◌, IfOk};
ghost use Rattle.reduce_rounds.specs.Trials.{Done};
ghost use Rattle.syntax_tree.specs.Nodes.{whole};
ghost use Rattle.reduce_walk.specs.Rounds.{RoundsKeepTrees, RoundsLoseLeaves, RoundsTryEdits};
ghost use Rattle.reduce_hdd.specs.LevelRounds.{IsDeletion, level_round};

use crate::descent::{after_answer, first_step};
use crate::laws::{loses_leaves, tries_kept_trees, tries_single_deletions};
use crate::level_step::{LevelStep, copy_of, settle_last, tried_cut};
use faults::Memory;
use hdd_levels::{kept_trees_are_left, kept_trees_are_trees};
use reduce_walk::TreeWalk;
use std::alloc::Global;
use std::marker::Model;
use syntax_tree::{Tree, left_is_transitive};
use syntax_tree_cut::Cut;

/// What is left of a tree, and what a round of mode `hdd` still tries of it: a list step over the
/// deletable nodes of one level, and then the levels below.
///
/// Contracts see the tree, what is left of it, and what is still tried.
#[derive(Drop)]
pub struct TreeLevels<'a> {
    alloc: Global,
    tree: &'a Tree,

    /// What is left. Within a level it is as it was when that began.
    cut: Cut,

    /// None where nothing more is tried.
    step: Option<LevelStep>,
}

impl<'a> Model for TreeLevels<'a> {
    ghost use Rattle.reduce_walk.specs.WalkState.{WalkState};
    ghost use Rattle.reduce_walk.specs.inner.WalkState.{walk_state_coded};
    ghost use Rattle.reduce_hdd.specs.inner.Walking.{AreLevels, walk_state};

    ghost Value = { WalkState };

    ghost coded = { walk_state_coded };

    ghost view = { λ w. walk_state w.tree.now w.cut w.step };

    ghost invariant = { λ w. AreLevels w.tree.now w.cut w.step };
}

impl<'a> TreeLevels<'a> {
    /// The whole tree, before the first round. It takes time and memory linear in the number of nodes.
    pub fn new(alloc: Global, tree: &'a Tree) -> Result<TreeLevels<'a>, Memory>
        ensures { IfOk result (λ levels. levels ≡ record { tree = tree.now; left = whole tree.now; rest = Done }) }
    {
        let cut = Cut::new(alloc, tree)?;
        Ok(TreeLevels {
            alloc,
            tree,
            cut,
            step: None,
        })
    }
}

impl<'a> TreeWalk for TreeLevels<'a> {
    ghost round = { level_round };

    ghost IsEdit = { IsDeletion };

    ghost tree = { λ w. w.tree };

    ghost left = { λ w. w.left };

    ghost rest = { λ w. w.rest };

    fn is_over(&self) -> bool {
        self.step.is_none()
    }

    /// It takes time and memory linear in the number of nodes of the parsed tree, for a copy of the cut.
    fn tried_tokens(&self) -> Result<Vec<u32>, Memory> {
        match &self.step {
            None => unreachable!(),
            Some(step) => {
                let tried = tried_cut(self.tree, &self.cut, step)?;
                let tokens = tried.kept_tokens(self.alloc, self.tree)?;
                Ok(tokens)
            }
        }
    }

    /// It takes time and memory linear in these tokens.
    fn left_tokens(&self) -> Result<Vec<u32>, Memory> {
        let tokens = self.cut.kept_tokens(self.alloc, self.tree)?;
        Ok(tokens)
    }

    fn tries_kept(&self) {
        let _ = &self.step;
        let _nodes = self.tree.nodes();
        kept_trees_are_trees();
        kept_trees_are_left();
        left_is_transitive();
    }

    /// It takes time and memory linear in the number of nodes of the level, but for questions that are
    /// passed over. At the end of a level it takes the same of the levels down to the next question.
    fn answer(&mut self, yes: bool) -> Result<(), Memory> {
        let Some(step) = self.step.take() else {
            return Ok(());
        };
        self.step = after_answer(self.alloc, self.tree, &mut self.cut, step, yes)?;
        Ok(())
    }

    /// It goes down from the root.
    fn begin_round(&mut self) -> Result<(), Memory> {
        let last = self.step.take();
        settle_last(self.tree, &mut self.cut, &last);
        self.step = first_step(self.alloc, self.tree, &self.cut)?;
        Ok(())
    }

    fn copy(&self) -> Result<TreeLevels<'a>, Memory> {
        let cut = self.cut.copy()?;
        let step = copy_of(&self.step)?;
        Ok(TreeLevels {
            alloc: self.alloc,
            tree: self.tree,
            cut,
            step,
        })
    }

    #[tactic(auto, using(crate::proofs::RoundLemmas::keep_trees))]
    fn rounds_keep_trees()
        ensures { RoundsKeepTrees level_round }
    {
        tries_kept_trees();
    }

    #[tactic(auto, using(crate::proofs::RoundLemmas::lose_leaves))]
    fn rounds_lose_leaves()
        ensures { RoundsLoseLeaves level_round }
    {
        loses_leaves();
    }

    #[tactic(auto, using(crate::proofs::RoundLemmas::try_edits))]
    fn rounds_try_edits()
        ensures { RoundsTryEdits level_round IsDeletion }
    {
        tries_single_deletions();
    }
}
