//! Visits of optionals.

ghost use Rattle.std.specs.Prelude.{IfOk};
ghost use Rattle.reduce_rounds.specs.Trials.{state_after, trials_after};
ghost use Rattle.syntax_tree_cut.specs.Cuts.{IsCutOf, cut_tree};
ghost use Rattle.reduce_perses.specs.declared.visit.Visit.TheVariants.{Content};
ghost use Rattle.reduce_perses.specs.inner.VisitTrials.{visit_trials};
ghost use Rattle.reduce_perses.specs.inner.Visiting.{IsContent, GoesOnWith};

use crate::visit::Visit;
use crate::waiting::queue_children;
use faults::Memory;
use node_queue::Queue;
use std::alloc::Global;
use syntax_tree::Tree;
use syntax_tree_cut::Cut;

/// At yes the optional's content is gone, at no it waits.
pub(crate) fn after_content(
    alloc: Global,
    tree: &Tree,
    cut: &mut Cut,
    queue: &mut Queue,
    node: u32,
    yes: bool,
) -> Result<Option<Visit>, Memory>
    requires of { IsCutOf tree.now cut.old }
    requires visit { IsContent tree.now.form tree.now.start (cut_tree tree.now cut.old) queue.old node }
    ensures of { IsCutOf tree.now cut.new }
    ensures on { IfOk result (GoesOnWith tree.now.form tree.now.start (cut_tree tree.now cut.new) queue.new
        (state_after (cut_tree tree.now cut.old) (visit_trials tree.now.form tree.now.start (cut_tree tree.now cut.old) queue.old (Content node)) yes)
        (trials_after (visit_trials tree.now.form tree.now.start (cut_tree tree.now cut.old) queue.old (Content node)) yes)) }
{
    if yes {
        cut.delete_optional(tree, node);
        return Ok(None);
    }
    queue_children(alloc, tree, cut, queue, node)?;
    Ok(None)
}
