//! The way down from one level to the next one that asks something.

ghost use Rattle.std.specs.Prelude.{◌≡◌, suc, IfOk};
ghost use Rattle.reduce_rounds.specs.Trials.{state_after, trials_after};
ghost use Rattle.syntax_tree_cut.specs.Cuts.{IsCutOf, cut_tree};
ghost use Rattle.hdd_levels.specs.LevelForms.{parents_at};
ghost use Rattle.reduce_hdd.specs.Round.{levels};
ghost use Rattle.reduce_hdd.specs.inner.Walking.{IsAskingStep, IsWalking, levels_below, step_left, step_trials, trials_within, tree_left};

use crate::level_step::{LevelStep, pass_refused, settle};
use faults::Memory;
use hdd_levels::{
    LevelNodes, higher_nodes_stay, keeping_all_keeps_tree, level, valid_trees_fill_pluses,
};
use list_ddmin::Ddmin;
use std::alloc::Global;
use syntax_tree::Tree;
use syntax_tree_cut::Cut;

/// The next level below this one that asks something; None where there is none. It takes time and memory
/// linear in the number of nodes of the levels down to it, and where questions would empty a plus the time
/// of the list step.
pub(crate) fn descend(
    alloc: Global,
    tree: &Tree,
    cut: &Cut,
    above: LevelNodes,
    depth: u32,
) -> Result<Option<LevelStep>, Memory>
    requires of { IsCutOf tree.now cut.now }
    requires above { above.parents ≡ parents_at depth (cut_tree tree.now cut.now) }
    ensures rest { IfOk result (λ next. trials_within tree.now.form (cut_tree tree.now cut.now) next ≡ levels_below tree.now.form (suc depth)
        (cut_tree tree.now cut.now)) }
    ensures left { IfOk result (λ next. tree_left (cut_tree tree.now cut.now) next ≡ cut_tree tree.now cut.now) }
    ensures walking { IfOk result (λ next. IsWalking tree.now.form (cut_tree tree.now cut.now) next) }
{
    let _nodes = tree.nodes();
    keeping_all_keeps_tree();
    valid_trees_fill_pluses();
    let mut above = above;
    let mut depth = depth;
    while let Some(level) = above.next(alloc, tree, cut)? {
        depth += 1;
        let mut step = Ddmin::new(alloc, level.nodes().len() as u32, true)?;
        if pass_refused(tree, cut, &level, &mut step) {
            return Ok(Some(LevelStep { depth, level, step }));
        }
        above = level;
    }
    Ok(None)
}

/// The first level from the root on that asks something.
pub(crate) fn first_step(alloc: Global, tree: &Tree, cut: &Cut) -> Result<Option<LevelStep>, Memory>
    requires { IsCutOf tree.now cut.now }
    ensures rest { IfOk result (λ first. trials_within tree.now.form (cut_tree tree.now cut.now) first ≡ levels tree.now.form (cut_tree tree.now cut.now)) }
    ensures left { IfOk result (λ first. tree_left (cut_tree tree.now cut.now) first ≡ cut_tree tree.now cut.now) }
    ensures walking { IfOk result (λ first. IsWalking tree.now.form (cut_tree tree.now cut.now) first) }
{
    keeping_all_keeps_tree();
    let Some(root) = level(alloc, tree, cut, 0)? else {
        unreachable!()
    };
    let first = descend(alloc, tree, cut, root, 0)?;
    Ok(first)
}

/// Goes on with the list step. At its end the nodes that it kept are left, and it goes down to the next
/// level that asks something.
pub(crate) fn after_answer(
    alloc: Global,
    tree: &Tree,
    cut: &mut Cut,
    step: LevelStep,
    yes: bool,
) -> Result<Option<LevelStep>, Memory>
    requires of { IsCutOf tree.now cut.old }
    requires step { IsAskingStep tree.now.form (cut_tree tree.now cut.old) step }
    ensures of { IsCutOf tree.now cut.new }
    ensures rest { IfOk result (λ next. trials_within tree.now.form (cut_tree tree.now cut.new) next ≡ trials_after
        (step_trials tree.now.form (cut_tree tree.now cut.old) step) yes) }
    ensures left { IfOk result (λ next. tree_left (cut_tree tree.now cut.new) next ≡ state_after (step_left (cut_tree tree.now cut.old) step)
        (step_trials tree.now.form (cut_tree tree.now cut.old) step) yes) }
    ensures walking { IfOk result (λ next. IsWalking tree.now.form (cut_tree tree.now cut.new) next) }
{
    let _nodes = tree.nodes();
    higher_nodes_stay();
    let mut step = step;
    step.step.answer(yes);
    if pass_refused(tree, cut, &step.level, &mut step.step) {
        return Ok(Some(step));
    }
    settle(tree, cut, &step);
    let next = descend(alloc, tree, cut, step.level, step.depth)?;
    Ok(next)
}
