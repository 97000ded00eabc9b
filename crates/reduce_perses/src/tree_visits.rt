//! Rounds of visits of a tree's nodes.

ghost use Rattle.std.specs.Prelude.{◌≡◌, IfOk};
ghost use Rattle.reduce_rounds.specs.Trials.{Done};
ghost use Rattle.syntax_tree.specs.Nodes.{whole};
ghost use Rattle.syntax_tree_cut.specs.Cuts.{IsCutOf, cut_tree};
ghost use Rattle.reduce_perses.specs.inner.Visiting.{IsGoing, IsVisiting};
ghost use Rattle.reduce_perses.specs.inner.VisitTrials.{tree_left, trials_from, trials_within};

use crate::laws::{loses_leaves, tries_kept_trees, tries_single_edits};
use crate::visit::{Visit, after_answer, copy_of, next_visit, settle, tokens_tried};
use crate::waiting::push_if_waiting;
use compat_table::Compat;
use faults::Memory;
use node_queue::Queue;
use reduce_walk::TreeWalk;
use std::alloc::Global;
use std::marker::Model;
use syntax_tree::Tree;
use syntax_tree_cut::Cut;

/// What is left of a tree, and what a round still tries of it: the heaviest node that waits is visited,
/// and after it the next one, until none waits.
///
/// Contracts see the tree, what is left of it, and what is still tried.
#[derive(Drop)]
pub struct TreeVisits<'a> {
    alloc: Global,
    tree: &'a Tree,
    compat: &'a Compat,

    /// What is left. Within a visit it is as it was when that began.
    cut: Cut,

    /// The nodes that wait, beside the one that is visited.
    queue: Queue,

    /// None where nothing more is tried.
    visit: Option<Visit>,
}

impl<'a> Model for TreeVisits<'a> {
    ghost use Rattle.reduce_perses.specs.inner.Visiting.{AreVisits, visit_state};
    ghost use Rattle.reduce_walk.specs.WalkState.{WalkState};
    ghost use Rattle.reduce_walk.specs.inner.WalkState.{walk_state_coded};

    ghost Value = { WalkState };

    ghost coded = { walk_state_coded };

    ghost view = { λ v. visit_state v.tree.now v.cut v.queue v.visit };

    ghost invariant = { λ v. AreVisits v.tree.now v.compat.now v.cut v.queue v.visit };
}

impl<'a> TreeVisits<'a> {
    /// The whole tree, before the first round. It takes time and memory linear in the number of nodes.
    pub fn new(alloc: Global, tree: &'a Tree, compat: &'a Compat) -> Result<TreeVisits<'a>, Memory>
        requires { compat.now ≡ tree.now.form }
        ensures { IfOk result (λ visits. visits ≡ record { tree = tree.now; left = whole tree.now; rest = Done }) }
    {
        let cut = Cut::new(alloc, tree)?;
        Ok(TreeVisits {
            alloc,
            tree,
            compat,
            cut,
            queue: Queue::new(alloc),
            visit: None,
        })
    }
}

impl<'a> TreeWalk for TreeVisits<'a> {
    ghost use Rattle.syntax_tree.specs.Edits.{IsSingleEdit};
    ghost use Rattle.reduce_perses.specs.VisitRounds.{visit_round};
    ghost use Rattle.reduce_walk.specs.Rounds.{RoundsKeepTrees, RoundsLoseLeaves, RoundsTryEdits};

    ghost round = { visit_round };

    ghost IsEdit = { IsSingleEdit };

    ghost tree = { λ v. v.tree };

    ghost left = { λ v. v.left };

    ghost rest = { λ v. v.rest };

    fn is_over(&self) -> bool {
        self.visit.is_none()
    }

    /// It takes time and memory linear in the tokens that are left, and for elements the time of
    /// [`Cut::tokens_of_elements`].
    fn tried_tokens(&self) -> Result<Vec<u32>, Memory> {
        match &self.visit {
            None => unreachable!(),
            Some(visit) => {
                let tokens = tokens_tried(self.alloc, self.tree, self.compat, &self.cut, visit)?;
                Ok(tokens)
            }
        }
    }

    /// It takes time and memory linear in these tokens.
    fn left_tokens(&self) -> Result<Vec<u32>, Memory> {
        let tokens = self.cut.kept_tokens(self.alloc, self.tree)?;
        Ok(tokens)
    }

    fn tries_kept(&self) {
        let _ = &self.visit;
    }

    /// Nodes at which nothing can be tried are passed over. Each such node costs a search of the
    /// queue, a visit of its children, and where it is regular a walk over all that is below it. A
    /// node isn't passed over that has one of its own rule with fewer tokens below it, so the nodes of
    /// one rule that are passed over on a way down have equally many tokens.
    fn answer(&mut self, yes: bool) -> Result<(), Memory> {
        let Some(visit) = self.visit.take() else {
            return Ok(());
        };
        let visit = after_answer(
            self.alloc,
            self.tree,
            self.compat,
            &mut self.cut,
            &mut self.queue,
            visit,
            yes,
        )?;
        self.visit = visit_or_next(
            self.alloc,
            self.tree,
            self.compat,
            &self.cut,
            &mut self.queue,
            visit,
        )?;
        Ok(())
    }

    /// The root waits, if it can.
    fn begin_round(&mut self) -> Result<(), Memory> {
        let last = self.visit.take();
        settle(self.tree, &mut self.cut, &last);
        let _nodes = self.tree.nodes();
        let root = self.cut.root(self.tree);
        self.queue = Queue::new(self.alloc);
        push_if_waiting(self.tree, &self.cut, &mut self.queue, root)?;
        self.visit = next_visit(
            self.alloc,
            self.tree,
            self.compat,
            &self.cut,
            &mut self.queue,
        )?;
        Ok(())
    }

    fn copy(&self) -> Result<TreeVisits<'a>, Memory> {
        let cut = self.cut.copy()?;
        let queue = self.queue.copy()?;
        let visit = copy_of(&self.visit)?;
        Ok(TreeVisits {
            alloc: self.alloc,
            tree: self.tree,
            compat: self.compat,
            cut,
            queue,
            visit,
        })
    }

    #[tactic(auto, using(crate::proofs::RoundLemmas::keep_trees))]
    fn rounds_keep_trees()
        ensures { RoundsKeepTrees visit_round }
    {
        tries_kept_trees();
    }

    #[tactic(auto, using(crate::proofs::RoundLemmas::lose_leaves))]
    fn rounds_lose_leaves()
        ensures { RoundsLoseLeaves visit_round }
    {
        loses_leaves();
    }

    #[tactic(auto, using(crate::proofs::RoundLemmas::try_edits))]
    fn rounds_try_edits()
        ensures { RoundsTryEdits visit_round IsSingleEdit }
    {
        tries_single_edits();
    }
}

/// The visit that goes on, or else that of the next node.
fn visit_or_next(
    alloc: Global,
    tree: &Tree,
    compat: &Compat,
    cut: &Cut,
    queue: &mut Queue,
    visit: Option<Visit>,
) -> Result<Option<Visit>, Memory>
    requires of { IsCutOf tree.now cut.now }
    requires compat { compat.now ≡ tree.now.form }
    requires going { IsGoing tree.now.form tree.now.start (cut_tree tree.now cut.now) queue.old visit }
    ensures rest { IfOk result (λ next. trials_within tree.now.form tree.now.start (cut_tree tree.now cut.now) queue.new next
        ≡ trials_from tree.now.form tree.now.start (cut_tree tree.now cut.now) queue.old visit) }
    ensures left { IfOk result (λ next. tree_left (cut_tree tree.now cut.now) next ≡ tree_left (cut_tree tree.now cut.now) visit) }
    ensures visiting { IfOk result (λ next. IsVisiting tree.now.form tree.now.start (cut_tree tree.now cut.now) queue.new next) }
{
    if visit.is_some() {
        return Ok(visit);
    }
    next_visit(alloc, tree, compat, cut, queue)
}
