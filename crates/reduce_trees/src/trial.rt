//! What is tried now, with its candidate.

ghost use Rattle.std.specs.Prelude.{◌≡◌, IfOk, OnOk, option_copied};
ghost use Rattle.reduce_trees_mode.specs.Listed.{MayKeepStyle};
ghost use Rattle.reduce_trees_mode.specs.TreeTrials.{opening_trials, trials_in};
ghost use Rattle.reduce_trees.specs.Fields.{IsTreeOf};
ghost use Rattle.reduce_trees.specs.inner.Fields.{AreCopies, IsMade, IsTried, candidate_in, rest_of};
ghost use Rattle.token_print.specs.declared.style.Style.{Style as TextStyle};
ghost use Rattle.reduce_rounds.specs.Trials.{Done};

use crate::candidate::{Candidate, candidate_of, text_of, with_text};
use crate::parts::{HasInput, TreeParts};
use faults::Memory;
use keep_guard::Relation;
use reduce_trees_mode::{texts_are_no_longer, whole_is_start};
use reduce_walk::TreeWalk;
use std::alloc::Global;
use syntax_tree::left_is_part;
use syntax_tree_cut::Cut;
use token_print::Style;

/// What is tried now, with its candidate.
#[derive(Drop)]
pub(crate) enum Trial {
    /// Nothing more is tried.
    Over,

    /// The whole tree, squeezed.
    Squeezed(Candidate),

    /// The tree that the walk tries, in the style of the last yes.
    Edit(Candidate),

    /// Nothing more is tried, since memory ran out.
    Refused(Memory),
}

impl Trial {
    /// The same again.
    pub(crate) fn copy(&self) -> Result<Trial, Memory>
        ensures { IfOk result (AreCopies self.now) }
    {
        match self {
            Trial::Over => Ok(Trial::Over),
            Trial::Squeezed(candidate) => {
                let copy = candidate.copy()?;
                Ok(Trial::Squeezed(copy))
            }
            Trial::Edit(candidate) => {
                let copy = candidate.copy()?;
                Ok(Trial::Edit(copy))
            }
            Trial::Refused(memory) => Ok(Trial::Refused(*memory)),
        }
    }

    /// Refused where memory ran out.
    pub(crate) fn refusal(&self) -> Result<(), Memory>
        ensures { OnOk result (IsMade self.now) }
    {
        match self {
            Trial::Over | Trial::Squeezed(_) | Trial::Edit(_) => Ok(()),
            Trial::Refused(memory) => Err(*memory),
        }
    }

    /// What is tried now, as a text; None where nothing is.
    pub(crate) fn candidate(&self) -> Option<&Candidate>
        ensures { option_copied result ≡ candidate_in self.now }
    {
        match self {
            Trial::Over => None,
            Trial::Squeezed(candidate) => Some(candidate),
            Trial::Edit(candidate) => Some(candidate),
            Trial::Refused(_) => None,
        }
    }
}

/// What is tried before the rounds: where it is asked for, the squeezed text of the whole tree, if it
/// has fewer bytes than the start.
pub(crate) fn opening_trial<F: Relation>(
    alloc: Global,
    parts: &TreeParts<F>,
) -> Result<Trial, Memory>
    ensures tried { IfOk result (IsTried (⟦<TreeParts<F> as HasInput>⟧.input parts.now) TextStyle.AsWas
        (⟦<TreeParts<F> as HasInput>⟧.input parts.now).whole Done) }
    ensures opening { IfOk result (λ trial. rest_of (⟦<TreeParts<F> as HasInput>⟧.input parts.now) TextStyle.AsWas Done trial ≡ opening_trials
        (⟦<TreeParts<F> as HasInput>⟧.input parts.now)) }
{
    if !parts.squeezes {
        return Ok(Trial::Over);
    }
    parts.is_input();
    whole_is_start();
    left_is_part();
    let cut = Cut::new(alloc, &parts.tree)?;
    let kept = cut.kept_tokens(alloc, &parts.tree)?;
    let text = text_of(alloc, parts, &kept, Style::Squeezed)?;
    if text.len() >= parts.start.text().len() {
        return Ok(Trial::Over);
    }
    let candidate = with_text(parts, &kept, Style::Squeezed, text)?;
    Ok(Trial::Squeezed(candidate))
}

/// Takes the tree that the walk tries now as what is tried, or keeps what was refused.
pub(crate) fn try_next<F: Relation, W: TreeWalk>(
    alloc: Global,
    parts: &TreeParts<F>,
    style: Style,
    walk: &W,
    trial: &mut Trial,
) -> Result<(), Memory>
    requires tree { IsTreeOf (⟦<TreeParts<F> as HasInput>⟧.input parts.now) (W.tree walk.now) }
    requires may_keep { MayKeepStyle (⟦<TreeParts<F> as HasInput>⟧.input parts.now) style }
    ensures tried { IsTried (⟦<TreeParts<F> as HasInput>⟧.input parts.now) style (W.left walk.now) (W.rest walk.now) trial.new }
    ensures rest { OnOk result (rest_of (⟦<TreeParts<F> as HasInput>⟧.input parts.now) style (W.rest walk.now) trial.new ≡ trials_in style
        (W.rest walk.now)) }
{
    match trial_of(alloc, parts, style, walk) {
        Ok(next) => {
            *trial = next;
            Ok(())
        }
        Err(memory) => {
            *trial = Trial::Refused(memory);
            Err(memory)
        }
    }
}

/// The tree that the walk tries now, with its candidate.
fn trial_of<F: Relation, W: TreeWalk>(
    alloc: Global,
    parts: &TreeParts<F>,
    style: Style,
    walk: &W,
) -> Result<Trial, Memory>
    requires tree { IsTreeOf (⟦<TreeParts<F> as HasInput>⟧.input parts.now) (W.tree walk.now) }
    requires may_keep { MayKeepStyle (⟦<TreeParts<F> as HasInput>⟧.input parts.now) style }
    ensures tried { IfOk result (IsTried (⟦<TreeParts<F> as HasInput>⟧.input parts.now) style (W.left walk.now) (W.rest walk.now)) }
    ensures rest { IfOk result (λ trial. rest_of (⟦<TreeParts<F> as HasInput>⟧.input parts.now) style (W.rest walk.now) trial ≡ trials_in style
        (W.rest walk.now)) }
{
    if walk.is_over() {
        return Ok(Trial::Over);
    }
    parts.is_input();
    texts_are_no_longer();
    left_is_part();
    walk.tries_kept();
    let kept = walk.tried_tokens()?;
    let candidate = candidate_of(alloc, parts, &kept, style)?;
    Ok(Trial::Edit(candidate))
}
