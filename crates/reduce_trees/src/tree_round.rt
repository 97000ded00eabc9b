//! Rounds over what is left of a tree.

ghost use Rattle.std.specs.Prelude.{◌≡◌, IfOk, if◌then◌else◌};
ghost use Rattle.std.specs.List.Sorted.{IsStrictlyIncreasing};
ghost use Rattle.syntax_tree.specs.Trees.{leaves};
ghost use Rattle.token_print.specs.declared.style.Style.TheVariants.{Squeezed};
ghost use Rattle.reduce_rounds.specs.Trials.{Done};
ghost use Rattle.reduce_trees.specs.Fields.{IsTreeOf};
ghost use Rattle.reduce_trees.specs.inner.Fields.{Agrees};
ghost use Rattle.reduce_trees.specs.inner.FieldProps.{agrees_prop};
ghost use Rattle.reduce_trees_mode.specs.InputOf.{input_of};
ghost use Rattle.reduce_trees_mode.specs.Listed.{IsKept};
ghost use Rattle.reduce_trees.specs.WalkMode.{walk_mode};

use crate::laws::walks_are_lawful;
use crate::parts::{HasInput, TreeParts};
use crate::trial::{Trial, opening_trial, try_next};
use faults::Memory;
use keep_guard::Relation;
use reduce_rounds::Round;
use reduce_walk::TreeWalk;
use std::alloc::Global;
use std::mem;
use token_print::Style;

/// A round of a walk over what is left of a tree. The parts are lent, so that a copy doesn't copy them.
///
/// An answer takes what [`TreeWalk::answer`] takes, and time and memory linear in the nodes of the
/// parsed tree and in the text of the candidate that is tried next: that is printed once, and the guard is
/// called at most once. What isn't carried over from the start is cut into tokens once.
#[derive(Drop)]
pub struct TreeRound<'a, F: Relation, W: TreeWalk + Drop> {
    alloc: Global,
    parts: &'a TreeParts<F>,
    style: Style,
    walk: W,

    /// Over or refused after an error.
    trial: Trial,
    ghost agrees: { Agrees (input_of parts.now.start.grammar parts.now.formed parts.now.tree parts.now.start.bytes parts.now.tokens.items.items
        (F.admits parts.now.guard) parts.now.squeezes) style (W.tree walk) (W.left walk) (W.rest walk) trial } by { agrees_prop
            (input_of parts.now.start.grammar parts.now.formed parts.now.tree parts.now.start.bytes parts.now.tokens.items.items
            (F.admits parts.now.guard) parts.now.squeezes) style (W.tree walk) (W.left walk) (W.rest walk) trial },
}

impl<'a, F: Relation, W: TreeWalk + Drop> TreeRound<'a, F, W> {
    /// Before the first round: the whole tree, and where it is asked for its squeezed text. The walk is a
    /// new one of the parts' tree.
    pub(crate) fn new(
        alloc: Global,
        parts: &'a TreeParts<F>,
        walk: W,
    ) -> Result<TreeRound<'a, F, W>, Memory>
        requires tree { IsTreeOf (⟦<TreeParts<F> as HasInput>⟧.input parts.now) (W.tree walk) }
        requires left { W.left walk ≡ (⟦<TreeParts<F> as HasInput>⟧.input parts.now).whole }
        requires rest { W.rest walk ≡ Done }
        ensures input { IfOk result (λ round. ⟦<TreeRound<'a, F, W> as Round>⟧.input round ≡ ⟦<TreeParts<F> as HasInput>⟧.input parts.now) }
        ensures state { IfOk result (λ round. ⟦<TreeRound<'a, F, W> as Round>⟧.state round
            ≡ (walk_mode W.round (⟦<TreeParts<F> as HasInput>⟧.input parts.now)).start) }
        ensures rest { IfOk result (λ round. ⟦<TreeRound<'a, F, W> as Round>⟧.rest round
            ≡ (walk_mode W.round (⟦<TreeParts<F> as HasInput>⟧.input parts.now)).opening) }
    {
        let trial = opening_trial(alloc, parts)?;
        Ok(TreeRound {
            alloc,
            parts,
            style: Style::AsWas,
            walk,
            trial,
        })
    }

    /// The tokens of the last yes, where nothing more is tried, by their numbers, which rise. Where memory
    /// ran out for what would be tried next, that error comes again.
    pub fn kept(&self) -> Result<Vec<u32>, Memory>
        requires { ⟦<TreeRound<'a, F, W> as Round>⟧.rest self.now ≡ Done }
        ensures tokens { IfOk result (λ kept. kept.items ≡ leaves (⟦<TreeRound<'a, F, W> as Round>⟧.state self.now).tree) }
        ensures rising { IfOk result (λ kept. IsStrictlyIncreasing kept.items) }
        ensures kept { IfOk result (λ kept. IsKept (⟦<TreeRound<'a, F, W> as Round>⟧.input self.now) (⟦<TreeRound<'a, F, W> as Round>⟧.state self.now)) }
    {
        self.trial.refusal()?;
        let kept = self.walk.left_tokens()?;
        Ok(kept)
    }

    /// The parts of the tree.
    pub fn parts(&self) -> &'a TreeParts<F>
        ensures { ⟦<TreeParts<F> as HasInput>⟧.input result.now ≡ ⟦<TreeRound<'a, F, W> as Round>⟧.input self.now }
    {
        self.parts
    }

    /// How the last yes is printed.
    pub fn style(&self) -> Style
        ensures { result ≡ (⟦<TreeRound<'a, F, W> as Round>⟧.state self.now).style }
    {
        self.style
    }
}

impl<'a, F: Relation, W: TreeWalk + Drop> Round for TreeRound<'a, F, W> {
    ghost use Rattle.reduce_trees_mode.specs.Input.{TreeInput, TreeState};
    ghost use Rattle.reduce_trees_mode.specs.Listed.{IsKept};
    ghost use Rattle.reduce_trees_mode.specs.InStyles.{in_style};
    ghost use Rattle.reduce_trees.specs.inner.Fields.{rest_of};

    ghost Input = { TreeInput };

    ghost State = { TreeState };

    ghost mode = { walk_mode W.round };

    ghost Kept = { IsKept };

    ghost input = { λ r. input_of r.parts.now.start.grammar r.parts.now.formed r.parts.now.tree r.parts.now.start.bytes r.parts.now.tokens.items.items
        (F.admits r.parts.now.guard) r.parts.now.squeezes };

    ghost state = { λ r. in_style r.style (W.left r.walk) };

    ghost rest = { λ r. rest_of (input_of r.parts.now.start.grammar r.parts.now.formed r.parts.now.tree r.parts.now.start.bytes r.parts.now.tokens.items.items
        (F.admits r.parts.now.guard) r.parts.now.squeezes) r.style (W.rest r.walk) r.trial };

    fn is_over(&self) -> bool {
        self.trial.candidate().is_none()
    }

    fn asks(&self) -> Option<&[u8]> {
        match self.trial.candidate() {
            None => None,
            Some(candidate) => {
                if candidate.listed {
                    Some(candidate.text.as_slice())
                } else {
                    None
                }
            }
        }
    }

    fn units(&self) -> u64 {
        match self.trial.candidate() {
            None => unreachable!(),
            Some(candidate) => candidate.tokens,
        }
    }

    fn answer(&mut self, yes: bool) -> Result<(), Memory> {
        match mem::replace(&mut self.trial, Trial::Over) {
            Trial::Over | Trial::Refused(_) => Ok(()),
            Trial::Squeezed(_) => {
                self.style = style_after(self.style, yes);
                Ok(())
            }
            Trial::Edit(_) => {
                self.walk.answer(yes)?;
                try_next(
                    self.alloc,
                    self.parts,
                    self.style,
                    &self.walk,
                    &mut self.trial,
                )
            }
        }
    }

    fn begin_round(&mut self) -> Result<(), Memory> {
        self.parts.is_input();
        walks_are_lawful::<W>();
        self.trial = Trial::Over;
        self.walk.begin_round()?;
        try_next(
            self.alloc,
            self.parts,
            self.style,
            &self.walk,
            &mut self.trial,
        )
    }

    fn next_phase(&mut self) -> Result<bool, Memory> {
        Ok(false)
    }

    fn phases_agree() {}

    fn copy(&self) -> Result<TreeRound<'a, F, W>, Memory> {
        let walk = self.walk.copy()?;
        let trial = self.trial.copy()?;
        Ok(TreeRound {
            alloc: self.alloc,
            parts: self.parts,
            style: self.style,
            walk,
            trial,
        })
    }
}

/// The style after an answer to the squeezed text of the whole tree.
fn style_after(style: Style, yes: bool) -> Style
    ensures { result ≡ (if yes then Squeezed else style) }
{
    if yes { Style::Squeezed } else { style }
}
