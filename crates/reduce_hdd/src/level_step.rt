//! The list step of one level.

ghost use Rattle.std.specs.Prelude.{◌≡◌, ℕ, Some, IfOk, length};
ghost use Rattle.list_ddmin.specs.Machine.{IsSound, kept};
ghost use Rattle.reduce_rounds.specs.Trials.{tried_state};
ghost use Rattle.syntax_tree_cut.specs.Cuts.{IsCutOf, cut_tree};
ghost use Rattle.hdd_levels.specs.LevelForms.{IsLevelAt};
ghost use Rattle.reduce_hdd.specs.inner.Passing.{HasPassed, refuses};
ghost use Rattle.reduce_hdd.specs.inner.Walking.{IsAskingStep, IsLevelStep, IsWalking, step_left, step_trials, tree_left};

use faults::Memory;
use hdd_levels::{LevelNodes, can_keep, keep_only};
use list_ddmin::Ddmin;
use syntax_tree::Tree;
use syntax_tree_cut::Cut;

/// A list step over the deletable nodes of one depth. Until it is over, the cut is as it was when the
/// step began.
#[derive(Drop)]
pub(crate) struct LevelStep {
    pub(crate) depth: u32,
    pub(crate) level: LevelNodes,
    pub(crate) step: Ddmin,
}

impl LevelStep {
    /// The same again.
    pub(crate) fn copy(&self) -> Result<LevelStep, Memory>
        ensures { IfOk result (λ copy. copy ≡ self.now) }
    {
        let level = self.level.copy()?;
        let step = self.step.copy()?;
        Ok(LevelStep {
            depth: self.depth,
            level,
            step,
        })
    }
}

/// The same again, where there is one.
pub(crate) fn copy_of(step: &Option<LevelStep>) -> Result<Option<LevelStep>, Memory>
    ensures { IfOk result (λ copy. copy ≡ step.now) }
{
    match step {
        None => Ok(None),
        Some(step) => {
            let copy = step.copy()?;
            Ok(Some(copy))
        }
    }
}

/// Passes over the questions that would empty a plus: they count as no. Answers whether another question
/// is asked. Each question that is passed over takes time linear in the number of nodes of the level.
pub(crate) fn pass_refused(tree: &Tree, cut: &Cut, level: &LevelNodes, step: &mut Ddmin) -> bool
    requires of { IsCutOf tree.now cut.now }
    requires level { (d : ℕ) × IsLevelAt tree.now.form (cut_tree tree.now cut.now) d level.now }
    requires sound { IsSound step.old }
    requires each { length (kept step.old) ≡ length level.now.nodes }
    ensures { HasPassed tree.now.form (cut_tree tree.now cut.now) level.now.nodes step.old step.new result }
{
    'question: while is_refused(tree, cut, level, step) {
        step.answer(false);
    }
    step.asks().is_some()
}

/// Whether what is asked would empty a plus.
fn is_refused(tree: &Tree, cut: &Cut, level: &LevelNodes, step: &Ddmin) -> bool
    requires of { IsCutOf tree.now cut.now }
    requires level { (d : ℕ) × IsLevelAt tree.now.form (cut_tree tree.now cut.now) d level.now }
    requires each { length (kept step.now) ≡ length level.now.nodes }
    ensures { result ≡ refuses tree.now.form (cut_tree tree.now cut.now) level.now.nodes step.now }
{
    match step.asks() {
        None => false,
        Some(keep) => !can_keep(cut, tree, level, keep),
    }
}

/// What is left in the tree that is tried. It takes time and memory linear in the nodes of the parsed
/// tree, for a copy of the cut.
pub(crate) fn tried_cut(tree: &Tree, cut: &Cut, step: &LevelStep) -> Result<Cut, Memory>
    requires of { IsCutOf tree.now cut.now }
    requires step { IsAskingStep tree.now.form (cut_tree tree.now cut.now) step.now }
    ensures of { IfOk result (λ tried. IsCutOf tree.now tried) }
    ensures tried { IfOk result (λ tried. tried_state (step_trials tree.now.form (cut_tree tree.now cut.now) step.now) ≡ Some (cut_tree tree.now tried)) }
{
    let mut tried = cut.copy()?;
    keep_asked(tree, &mut tried, step);
    Ok(tried)
}

/// Keeps the nodes that the list step asks for.
fn keep_asked(tree: &Tree, cut: &mut Cut, step: &LevelStep)
    requires of { IsCutOf tree.now cut.old }
    requires step { IsAskingStep tree.now.form (cut_tree tree.now cut.old) step.now }
    ensures of { IsCutOf tree.now cut.new }
    ensures tried { tried_state (step_trials tree.now.form (cut_tree tree.now cut.old) step.now) ≡ Some (cut_tree tree.now cut.new) }
{
    let Some(keep) = step.step.asks() else {
        unreachable!()
    };
    keep_only(cut, tree, &step.level, keep);
}

/// Keeps the nodes that the last yes of the list step kept.
pub(crate) fn settle(tree: &Tree, cut: &mut Cut, step: &LevelStep)
    requires of { IsCutOf tree.now cut.old }
    requires step { IsLevelStep tree.now.form (cut_tree tree.now cut.old) step.now }
    ensures of { IsCutOf tree.now cut.new }
    ensures tree { cut_tree tree.now cut.new ≡ step_left (cut_tree tree.now cut.old) step.now }
{
    keep_only(cut, tree, &step.level, step.step.kept());
}

/// Leaves what had the last yes within a level that is given up.
pub(crate) fn settle_last(tree: &Tree, cut: &mut Cut, last: &Option<LevelStep>)
    requires of { IsCutOf tree.now cut.old }
    requires walking { IsWalking tree.now.form (cut_tree tree.now cut.old) last.now }
    ensures of { IsCutOf tree.now cut.new }
    ensures tree { cut_tree tree.now cut.new ≡ tree_left (cut_tree tree.now cut.old) last.now }
{
    match last {
        None => {}
        Some(step) => settle(tree, cut, step),
    }
}
