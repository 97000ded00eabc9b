//! The reducers of trees.

ghost use Rattle.std.specs.Prelude.{◌≡◌, IfOk};
ghost use Rattle.reduce_rounds.specs.RoundsPlan.{IsStart, plan_first};
ghost use Rattle.reduce_rounds.specs.Trials.{Done};
ghost use Rattle.reduce_trees.specs.Fields.{IsTreeOf};
ghost use Rattle.reduce_trees.specs.WalkMode.{walk_mode};

use crate::parts::{HasInput, TreeParts};
use crate::tree_round::TreeRound;
use faults::Memory;
use keep_guard::Relation;
use reduce_rounds::{ReducerStep, Rounds};
use reduce_step::Step;
use reduce_trees_mode::whole_is_start;
use reduce_walk::TreeWalk;
use std::alloc::Global;

/// The reducer in the mode of a walk: the start is asked first, then, where it is asked for, its
/// squeezed text, and then rounds over the tree of the last yes are made until one round changes
/// nothing. A candidate whose text isn't cut into its own tokens, or that the guard doesn't admit,
/// counts as no, and is neither asked nor counted.
///
/// An answer takes what [`TreeRound`] says, and so much again for each candidate that isn't asked
/// before the next one that is. A copy copies the walk, what is tried, and the text of the last yes.
pub type TreeReducer<'a, F, W> = Rounds<TreeRound<'a, F, W>>;

/// The reduction of what its parts are of, by a new walk of their tree. The start is asked whatever the
/// guard says of it; the laws on the end and on what is asked speak of a start that the guard admits.
pub fn tree_reducer<'a, F: Relation, W: TreeWalk + Drop>(
    alloc: Global,
    parts: &'a TreeParts<F>,
    walk: W,
) -> Result<Rounds<TreeRound<'a, F, W>>, Memory>
    requires tree { IsTreeOf (⟦<TreeParts<F> as HasInput>⟧.input parts.now) (W.tree walk) }
    requires left { W.left walk ≡ (⟦<TreeParts<F> as HasInput>⟧.input parts.now).whole }
    requires rest { W.rest walk ≡ Done }
    ensures plan { IfOk result (λ reducer. ⟦<Rounds<TreeRound<'a, F, W>> as Step>⟧.plan reducer ≡ plan_first
        (walk_mode W.round (⟦<TreeParts<F> as HasInput>⟧.input parts.now))) }
    ensures first { IfOk result (λ reducer. ⟦<Rounds<TreeRound<'a, F, W>> as Step>⟧.first reducer ≡ plan_first
        (walk_mode W.round (⟦<TreeParts<F> as HasInput>⟧.input parts.now))) }
    ensures start { IfOk result (λ reducer. IsStart (walk_mode W.round (⟦<TreeParts<F> as HasInput>⟧.input parts.now))
        (⟦<Rounds<TreeRound<'a, F, W>> as ReducerStep>⟧.so_far reducer)) }
{
    parts.is_input();
    whole_is_start();
    let round = TreeRound::new(alloc, parts, walk)?;
    let text = Vec::from_slice(alloc, parts.start.text().as_bytes())?;
    let tokens = parts.tokens.items.len() as u64;
    Ok(Rounds::new(alloc, text, tokens, round))
}
