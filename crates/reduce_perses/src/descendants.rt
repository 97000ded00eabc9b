//! Visits of regular nodes: their compatible descendants, one after another.

ghost use Rattle.std.specs.Prelude.{◌≡◌, ◌≤◌, IfOk, false, length, true};
ghost use Rattle.reduce_rounds.specs.Trials.{state_after, trials_after};
ghost use Rattle.syntax_tree_cut.specs.Cuts.{IsCutOf, cut_tree};
ghost use Rattle.reduce_perses.specs.inner.Visiting.{AreDescendants, AreFound, GoesOnWith, HasFewer, IsRegular, IsTaken, descendants_at, node_trials};

use crate::visit::Visit;
use crate::waiting::{push_if_waiting, queue_children};
use compat_table::Compat;
use descend_replace::compatible;
use faults::Memory;
use node_queue::Queue;
use std::alloc::Global;
use syntax_tree::Tree;
use syntax_tree_cut::Cut;

/// Begins with the first compatible descendant of a regular node.
pub(crate) fn begin_descendants(
    alloc: Global,
    tree: &Tree,
    compat: &Compat,
    cut: &Cut,
    queue: &mut Queue,
    node: u32,
) -> Result<Option<Visit>, Memory>
    requires of { IsCutOf tree.now cut.now }
    requires compat { compat.now ≡ tree.now.form }
    requires taken { IsTaken tree.now.form tree.now.start (cut_tree tree.now cut.now) queue.old node }
    requires regular { IsRegular tree.now.form (cut_tree tree.now cut.now) node }
    ensures on { IfOk result (GoesOnWith tree.now.form tree.now.start (cut_tree tree.now cut.now) queue.new (cut_tree tree.now cut.now)
        (node_trials tree.now.form tree.now.start (cut_tree tree.now cut.now) queue.old node)) }
    ensures fewer { IfOk result (HasFewer (cut_tree tree.now cut.now) node queue.old queue.new) }
{
    let found = compatible(alloc, tree, cut, compat, node)?;
    descendant_at(alloc, tree, cut, queue, node, found, 0)
}

/// The descendant with this index is tried next. Where there is none, the node's children wait.
fn descendant_at(
    alloc: Global,
    tree: &Tree,
    cut: &Cut,
    queue: &mut Queue,
    node: u32,
    found: Vec<u32>,
    at: usize,
) -> Result<Option<Visit>, Memory>
    requires of { IsCutOf tree.now cut.now }
    requires descendants { AreFound tree.now.form tree.now.start (cut_tree tree.now cut.now) queue.old node found.items }
    requires within { at ≤ length found.items }
    ensures on { IfOk result (GoesOnWith tree.now.form tree.now.start (cut_tree tree.now cut.now) queue.new (cut_tree tree.now cut.now)
        (descendants_at tree.now.form tree.now.start (cut_tree tree.now cut.now) queue.old at node)) }
    ensures fewer { IfOk result (HasFewer (cut_tree tree.now cut.now) node queue.old queue.new) }
{
    if at < found.len() {
        return Ok(Some(Visit::Descendants { node, found, at }));
    }
    queue_children(alloc, tree, cut, queue, node)?;
    Ok(None)
}

/// At yes the descendant with this index has the node's position, and waits.
pub(crate) fn after_replacement(
    tree: &Tree,
    compat: &Compat,
    cut: &mut Cut,
    queue: &mut Queue,
    node: u32,
    found: Vec<u32>,
    at: usize,
) -> Result<Option<Visit>, Memory>
    requires of { IsCutOf tree.now cut.old }
    requires compat { compat.now ≡ tree.now.form }
    requires visit { AreDescendants tree.now.form tree.now.start (cut_tree tree.now cut.old) queue.old node found.items at }
    ensures of { IsCutOf tree.now cut.new }
    ensures on { IfOk result (GoesOnWith tree.now.form tree.now.start (cut_tree tree.now cut.new) queue.new
        (state_after (cut_tree tree.now cut.old) (descendants_at tree.now.form tree.now.start (cut_tree tree.now cut.old) queue.old at node) true)
        (trials_after (descendants_at tree.now.form tree.now.start (cut_tree tree.now cut.old) queue.old at node) true)) }
{
    let by = found[at];
    cut.replace(tree, compat, node, by);
    push_if_waiting(tree, cut, queue, by)?;
    Ok(None)
}

/// At no the next descendant is tried.
pub(crate) fn next_descendant(
    alloc: Global,
    tree: &Tree,
    cut: &Cut,
    queue: &mut Queue,
    node: u32,
    found: Vec<u32>,
    at: usize,
) -> Result<Option<Visit>, Memory>
    requires of { IsCutOf tree.now cut.now }
    requires visit { AreDescendants tree.now.form tree.now.start (cut_tree tree.now cut.now) queue.old node found.items at }
    ensures on { IfOk result (GoesOnWith tree.now.form tree.now.start (cut_tree tree.now cut.now) queue.new
        (state_after (cut_tree tree.now cut.now) (descendants_at tree.now.form tree.now.start (cut_tree tree.now cut.now) queue.old at node) false)
        (trials_after (descendants_at tree.now.form tree.now.start (cut_tree tree.now cut.now) queue.old at node) false)) }
{
    descendant_at(alloc, tree, cut, queue, node, found, at + 1)
}
