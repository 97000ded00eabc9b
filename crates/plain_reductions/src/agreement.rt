ghost use Rattle.std.specs.Prelude.{◌≡◌, ◌↔◌, IfOk, IsTrue, Some};
ghost use Rattle.reduce_step.specs.Plan.{End, asked, follow};
ghost use Rattle.reduce_rounds.specs.RoundsPlan.{plan_first};
ghost use Rattle.reduce_trees.specs.HddMode.{hdd_mode};
ghost use Rattle.reduce_trees.specs.PersesMode.{perses_mode};
ghost use Rattle.plain_reductions.specs.Results.{result_of};
ghost use Rattle.plain_reductions.specs.Verdicts.{verdicts_by};
ghost use Rattle.plain_reductions.specs.RoundsOf.{rounds_of};

use crate::reduction::{Mode, Reduction};
use crate::verdicts::VerdictRule;
use faults::Memory;
use keep_guard::Relation;
use reduce_rounds::ReducerStep;
use reduce_step::Step;
use reduce_trees::{HasInput, TreeParts, hdd_reducer, perses_reducer};
use std::alloc::Global;

/// Whether this text is asked now.
fn is_asked<S: Step>(reducer: &S, text: &[u8]) -> bool
    ensures { IsTrue result ↔ (asked (S.plan reducer.now) ≡ Some text.now) }
{
    match reducer.asks() {
        Some(question) => question == text,
        None => false,
    }
}

/// Whether the reducer has ended as the plain reduction did.
fn has_same_end<R: ReducerStep>(reducer: &R, plain: &Reduction) -> bool
    ensures { IsTrue result → R.plan reducer.now ≡ End (result_of plain.now) }
{
    reducer.asks().is_none()
        && !reducer.refused()
        && reducer.result() == plain.text.as_slice()
        && reducer.units() == plain.units
        && reducer.used() == plain.questions.len() as u64
        && reducer.rounds() == plain.rounds
}

/// Whether the reducer, answered by the rule, asks the same questions as the plain reduction, and comes
/// to the same.
fn goes_the_same<R: ReducerStep>(
    reducer: &mut R,
    rule: VerdictRule,
    plain: &Reduction,
) -> Result<bool, Memory>
    ensures { IfOk result (λ same. IsTrue same → follow (verdicts_by rule.entry.start.now rule.entry.seed) (R.plan reducer.old) ≡ End (result_of plain.now)) }
{
    for question in &plain.questions {
        if !is_asked(reducer, question) {
            return Ok(false);
        }
        reducer.answer(rule.verdict(question))?;
    }
    Ok(has_same_end(reducer, plain))
}

/// Whether the reduction in mode `perses` of these parts, answered by the rule, is the plain one.
fn is_perses<F: Relation>(
    alloc: Global,
    parts: &TreeParts<F>,
    rule: VerdictRule,
    plain: &Reduction,
) -> Result<bool, Memory>
    ensures { IfOk result (λ same. IsTrue same
        → follow (verdicts_by rule.entry.start.now rule.entry.seed) (plan_first (perses_mode (⟦<TreeParts<F> as HasInput>⟧.input parts.now))) ≡ End
        (result_of plain.now)) }
{
    let mut reducer = perses_reducer(alloc, parts)?;
    goes_the_same(&mut reducer, rule, plain)
}

/// The same in mode `hdd`.
fn is_hdd<F: Relation>(
    alloc: Global,
    parts: &TreeParts<F>,
    rule: VerdictRule,
    plain: &Reduction,
) -> Result<bool, Memory>
    ensures { IfOk result (λ same. IsTrue same
        → follow (verdicts_by rule.entry.start.now rule.entry.seed) (plan_first (hdd_mode (⟦<TreeParts<F> as HasInput>⟧.input parts.now))) ≡ End
        (result_of plain.now)) }
{
    let mut reducer = hdd_reducer(alloc, parts)?;
    goes_the_same(&mut reducer, rule, plain)
}

/// Whether the reduction of these parts in the mode, answered by the rule, asks what the plain one asked,
/// and comes to the same. Its time is that of the reducer.
pub fn agrees_with_plain<F: Relation>(
    alloc: Global,
    parts: &TreeParts<F>,
    mode: Mode,
    rule: VerdictRule,
    plain: &Reduction,
) -> Result<bool, Memory>
    ensures { IfOk result (λ same. IsTrue same
        → follow (verdicts_by rule.entry.start.now rule.entry.seed) (plan_first (rounds_of mode (⟦<TreeParts<F> as HasInput>⟧.input parts.now))) ≡ End
        (result_of plain.now)) }
{
    match mode {
        Mode::Perses => is_perses(alloc, parts, rule, plain),
        Mode::Hdd => is_hdd(alloc, parts, rule, plain),
    }
}
