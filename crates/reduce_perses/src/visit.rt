//! Visits of nodes: what is tried at a node that waited.

ghost use Rattle.std.specs.Prelude.{◌≡◌, Some, IfOk, List, option_map};
ghost use Rattle.std.specs.List.Sorted.{IsStrictlyIncreasing};
ghost use Rattle.node_queue.specs.Waiting.{Waiting};
ghost use Rattle.normal_form.specs.declared.normal.Sym.{Sym as Symbol};
ghost use Rattle.normal_form.specs.Form.{NormalForm};
ghost use Rattle.reduce_rounds.specs.Trials.{state_after, tried_state, trials_after};
ghost use Rattle.syntax_tree.specs.Trees.{PlainTree, leaves};
ghost use Rattle.syntax_tree_cut.specs.Cuts.{IsCutOf, cut_tree};
ghost use Rattle.reduce_perses.specs.Queued.{IsInRound};
ghost use Rattle.reduce_perses.specs.inner.VisitTrials.{goes_on, tree_left, tree_within, trials_within, visit_trials};
ghost use Rattle.reduce_perses.specs.inner.Visiting.{AreCopies, IsTaken, IsVisit, IsVisiting, node_trials, GoesOnWith, HasFewer};

use crate::content::after_content;
use crate::descendants::{after_replacement, begin_descendants, next_descendant};
use crate::elements::{after_elements, asked_tokens, begin_elements};
use compat_table::Compat;
use faults::Memory;
use list_ddmin::Ddmin;
use node_queue::Queue;
use std::alloc::Global;
use syntax_tree::Tree;
use syntax_tree_cut::{Cut, Shape};

/// What is tried now at a node that was taken out of the queue. Until the visit is over, the cut is as
/// it was when it began.
#[derive(Drop)]
pub(crate) enum Visit {
    /// The elements that the list step asks to keep, of a star or plus.
    Elements {
        list: u32,
        step: Ddmin,
    },

    /// An optional without its content.
    Content {
        node: u32,
    },

    /// One of the compatible descendants of a regular node, by its index, in the node's position.
    Descendants {
        node: u32,
        found: Vec<u32>,
        at: usize,
    },
}

impl Visit {
    /// The same again.
    pub(crate) fn copy(&self) -> Result<Visit, Memory>
        ensures { IfOk result (AreCopies self.now) }
    {
        match self {
            Visit::Elements { list, step } => {
                let step = step.copy()?;
                Ok(Visit::Elements { list: *list, step })
            }
            Visit::Content { node } => Ok(Visit::Content { node: *node }),
            Visit::Descendants { node, found, at } => {
                let found = found.clone()?;
                Ok(Visit::Descendants {
                    node: *node,
                    found,
                    at: *at,
                })
            }
        }
    }
}

/// The same again, where there is one.
pub(crate) fn copy_of(visit: &Option<Visit>) -> Result<Option<Visit>, Memory>
    ensures trials { IfOk result (λ copy. (N : NormalForm) (s : Symbol) (t : PlainTree) (queue : List Waiting)
        → trials_within N s t queue copy ≡ trials_within N s t queue visit.now) }
    ensures left { IfOk result (λ copy. (t : PlainTree) → tree_left t copy ≡ tree_left t visit.now) }
    ensures visiting { IfOk result (λ copy. (N : NormalForm) (s : Symbol) (t : PlainTree) (queue : List Waiting) → IsVisiting N s t queue visit.now
        → IsVisiting N s t queue copy) }
{
    match visit {
        None => Ok(None),
        Some(visit) => {
            let copy = visit.copy()?;
            Ok(Some(copy))
        }
    }
}

/// The tokens of the tree that is tried, by their numbers, which rise. It takes time and memory linear in the
/// tokens that are left, and for elements the time of [`Cut::tokens_of_elements`].
pub(crate) fn tokens_tried(
    alloc: Global,
    tree: &Tree,
    compat: &Compat,
    cut: &Cut,
    visit: &Visit,
) -> Result<Vec<u32>, Memory>
    requires of { IsCutOf tree.now cut.now }
    requires compat { compat.now ≡ tree.now.form }
    requires queue { (queue : List Waiting) × IsVisit tree.now.form tree.now.start (cut_tree tree.now cut.now) queue visit.now }
    ensures tokens { IfOk result (λ tokens. (queue : List Waiting) → IsVisit tree.now.form tree.now.start (cut_tree tree.now cut.now) queue visit.now
        → option_map leaves (tried_state (visit_trials tree.now.form tree.now.start (cut_tree tree.now cut.now) queue visit.now)) ≡ Some tokens.items) }
    ensures rising { IfOk result (λ tokens. IsStrictlyIncreasing tokens.items) }
{
    match visit {
        Visit::Elements { list, step } => {
            let tokens = asked_tokens(alloc, tree, cut, *list, step)?;
            Ok(tokens)
        }
        Visit::Content { node } => {
            let tokens = cut.tokens_without_content(alloc, tree, *node)?;
            Ok(tokens)
        }
        Visit::Descendants { node, found, at } => {
            let tokens = cut.tokens_of_replacement(alloc, tree, compat, *node, found[*at])?;
            Ok(tokens)
        }
    }
}

/// Leaves what had the last yes within a visit that is given up.
pub(crate) fn settle(tree: &Tree, cut: &mut Cut, visit: &Option<Visit>)
    requires of { IsCutOf tree.now cut.old }
    requires queue { (queue : List Waiting) × IsVisiting tree.now.form tree.now.start (cut_tree tree.now cut.old) queue visit.now }
    ensures of { IsCutOf tree.now cut.new }
    ensures tree { cut_tree tree.now cut.new ≡ tree_left (cut_tree tree.now cut.old) visit.now }
{
    match visit {
        None => {}
        Some(visit) => match visit {
            Visit::Elements { list, step } => cut.keep_elements(tree, *list, step.kept()),
            Visit::Content { .. } => {}
            Visit::Descendants { .. } => {}
        },
    }
}

/// Begins the visit of the next node that waits and at which something can be tried; None where there
/// is no such node. At a node at which nothing can be tried the visit is over at once.
pub(crate) fn next_visit(
    alloc: Global,
    tree: &Tree,
    compat: &Compat,
    cut: &Cut,
    queue: &mut Queue,
) -> Result<Option<Visit>, Memory>
    requires of { IsCutOf tree.now cut.now }
    requires compat { compat.now ≡ tree.now.form }
    requires round { IsInRound tree.now.form tree.now.start (cut_tree tree.now cut.now) queue.old }
    ensures rest { IfOk result (λ next. trials_within tree.now.form tree.now.start (cut_tree tree.now cut.now) queue.new next
        ≡ goes_on tree.now.form tree.now.start (cut_tree tree.now cut.now) queue.old) }
    ensures left { IfOk result (λ next. tree_left (cut_tree tree.now cut.now) next ≡ cut_tree tree.now cut.now) }
    ensures visiting { IfOk result (λ next. IsVisiting tree.now.form tree.now.start (cut_tree tree.now cut.now) queue.new next) }
{
    while let Some(node) = queue.pop_heaviest() {
        let begun = begin_visit(alloc, tree, compat, cut, queue, node)?;
        if begun.is_some() {
            return Ok(begun);
        }
    }
    Ok(None)
}

/// Begins the visit of a node that was taken out of the queue. None where nothing is tried at it, and
/// then its children wait.
pub(crate) fn begin_visit(
    alloc: Global,
    tree: &Tree,
    compat: &Compat,
    cut: &Cut,
    queue: &mut Queue,
    node: u32,
) -> Result<Option<Visit>, Memory>
    requires of { IsCutOf tree.now cut.now }
    requires compat { compat.now ≡ tree.now.form }
    requires taken { IsTaken tree.now.form tree.now.start (cut_tree tree.now cut.now) queue.old node }
    ensures on { IfOk result (GoesOnWith tree.now.form tree.now.start (cut_tree tree.now cut.now) queue.new (cut_tree tree.now cut.now)
        (node_trials tree.now.form tree.now.start (cut_tree tree.now cut.now) queue.old node)) }
    ensures fewer { IfOk result (HasFewer (cut_tree tree.now cut.now) node queue.old queue.new) }
{
    match cut.shape(tree, node) {
        Shape::Star => begin_elements(alloc, tree, cut, queue, node, true),
        Shape::Plus => begin_elements(alloc, tree, cut, queue, node, false),
        Shape::Optional => Ok(Some(Visit::Content { node })),
        Shape::Regular => begin_descendants(alloc, tree, compat, cut, queue, node),
        Shape::Leaf => Ok(None),
    }
}

/// Takes the answer to what is tried at a node, and goes on there; None where the visit is over. Then
/// the tree that had the last yes is left, and those nodes wait that wait after the visit.
pub(crate) fn after_answer(
    alloc: Global,
    tree: &Tree,
    compat: &Compat,
    cut: &mut Cut,
    queue: &mut Queue,
    visit: Visit,
    yes: bool,
) -> Result<Option<Visit>, Memory>
    requires of { IsCutOf tree.now cut.old }
    requires compat { compat.now ≡ tree.now.form }
    requires visit { IsVisit tree.now.form tree.now.start (cut_tree tree.now cut.old) queue.old visit }
    ensures of { IsCutOf tree.now cut.new }
    ensures on { IfOk result (GoesOnWith tree.now.form tree.now.start (cut_tree tree.now cut.new) queue.new
        (state_after (tree_within (cut_tree tree.now cut.old) visit)
        (visit_trials tree.now.form tree.now.start (cut_tree tree.now cut.old) queue.old visit) yes)
        (trials_after (visit_trials tree.now.form tree.now.start (cut_tree tree.now cut.old) queue.old visit) yes)) }
{
    match visit {
        Visit::Elements { list, step } => {
            after_elements(alloc, tree, cut, queue, list, step, yes)
        }
        Visit::Content { node } => after_content(alloc, tree, cut, queue, node, yes),
        Visit::Descendants { node, found, at } => {
            if yes {
                return after_replacement(tree, compat, cut, queue, node, found, at);
            }
            next_descendant(alloc, tree, cut, queue, node, found, at)
        }
    }
}
