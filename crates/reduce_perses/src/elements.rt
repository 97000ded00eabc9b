//! Visits of stars and pluses: list steps over their elements.

ghost use Rattle.std.specs.Prelude.{◌≡◌, IfOk, IfSome, IsSome};
ghost use Rattle.std.specs.List.Sorted.{IsStrictlyIncreasing};
ghost use Rattle.list_ddmin.specs.Machine.{asks};
ghost use Rattle.reduce_rounds.specs.Trials.{state_after, trials_after};
ghost use Rattle.syntax_tree.specs.Left.{selected_trees};
ghost use Rattle.syntax_tree.specs.Trees.{PlainTree, leaves};
ghost use Rattle.syntax_tree_cut.specs.Cuts.{CanSelect, HasChildren, IsCutOf, cut_tree};
ghost use Rattle.reduce_perses.specs.declared.visit.Visit.TheVariants.{Elements};
ghost use Rattle.reduce_perses.specs.inner.VisitTrials.{tree_within, visit_trials};
ghost use Rattle.reduce_perses.specs.inner.Visiting.{IsElements, IsList, IsTaken, node_trials, GoesOnWith, HasFewer};

use crate::visit::Visit;
use crate::waiting::queue_children;
use faults::Memory;
use list_ddmin::Ddmin;
use node_queue::Queue;
use std::alloc::Global;
use syntax_tree::Tree;
use syntax_tree_cut::Cut;

/// Begins the list step over the elements of a star or plus.
pub(crate) fn begin_elements(
    alloc: Global,
    tree: &Tree,
    cut: &Cut,
    queue: &mut Queue,
    list: u32,
    may_be_empty: bool,
) -> Result<Option<Visit>, Memory>
    requires of { IsCutOf tree.now cut.now }
    requires taken { IsTaken tree.now.form tree.now.start (cut_tree tree.now cut.now) queue.old list }
    requires list { IsList tree.now.form (cut_tree tree.now cut.now) list may_be_empty }
    ensures on { IfOk result (GoesOnWith tree.now.form tree.now.start (cut_tree tree.now cut.now) queue.new (cut_tree tree.now cut.now)
        (node_trials tree.now.form tree.now.start (cut_tree tree.now cut.now) queue.old list)) }
    ensures fewer { IfOk result (HasFewer (cut_tree tree.now cut.now) list queue.old queue.new) }
{
    let _nodes = tree.nodes();
    let elements = cut.children(alloc, tree, list)?;
    let step = Ddmin::new(alloc, elements.len() as u32, may_be_empty)?;
    if step.asks().is_some() {
        return Ok(Some(Visit::Elements { list, step }));
    }
    queue_children(alloc, tree, cut, queue, list)?;
    Ok(None)
}

/// Goes on with the list step. At its end the elements that it kept are left, and wait.
pub(crate) fn after_elements(
    alloc: Global,
    tree: &Tree,
    cut: &mut Cut,
    queue: &mut Queue,
    list: u32,
    mut step: Ddmin,
    yes: bool,
) -> Result<Option<Visit>, Memory>
    requires of { IsCutOf tree.now cut.old }
    requires visit { IsElements tree.now.form tree.now.start (cut_tree tree.now cut.old) queue.old list step }
    ensures of { IsCutOf tree.now cut.new }
    ensures on { IfOk result (GoesOnWith tree.now.form tree.now.start (cut_tree tree.now cut.new) queue.new
        (state_after (tree_within (cut_tree tree.now cut.old) (Elements list step))
        (visit_trials tree.now.form tree.now.start (cut_tree tree.now cut.old) queue.old (Elements list step)) yes)
        (trials_after (visit_trials tree.now.form tree.now.start (cut_tree tree.now cut.old) queue.old (Elements list step)) yes)) }
{
    step.answer(yes);
    if step.asks().is_some() {
        return Ok(Some(Visit::Elements { list, step }));
    }
    cut.keep_elements(tree, list, step.kept());
    queue_children(alloc, tree, cut, queue, list)?;
    Ok(None)
}

/// The tokens of the tree in which the list has the elements that the list step asks for, by their numbers.
pub(crate) fn asked_tokens(
    alloc: Global,
    tree: &Tree,
    cut: &Cut,
    list: u32,
    step: &Ddmin,
) -> Result<Vec<u32>, Memory>
    requires of { IsCutOf tree.now cut.now }
    requires can { IfSome (asks step.now) (λ keep. CanSelect tree.now.form (cut_tree tree.now cut.now) list keep) }
    requires asking { IsSome (asks step.now) }
    ensures tokens { IfOk result (λ tokens. (t : PlainTree)
        × IfSome (asks step.now) (λ keep. HasChildren list (selected_trees keep) (cut_tree tree.now cut.now) t) × (tokens.items ≡ leaves t)) }
    ensures rising { IfOk result (λ tokens. IsStrictlyIncreasing tokens.items) }
{
    match step.asks() {
        Some(keep) => {
            let tokens = cut.tokens_of_elements(alloc, tree, list, keep)?;
            Ok(tokens)
        }
        None => unreachable!(),
    }
}
