//! The reducers that respell what is left.

ghost use Rattle.std.specs.Prelude.{◌≡◌, IfOk};
ghost use Rattle.reduce_rounds.specs.RoundsPlan.{IsStart, plan_first};
ghost use Rattle.reduce_hdd.specs.LevelRounds.{level_round};
ghost use Rattle.reduce_perses.specs.VisitRounds.{visit_round};
ghost use Rattle.reduce_trees.specs.WalkMode.{walk_mode};
ghost use Rattle.spell_shrink.specs.KindWords.{AreWordsOf};
ghost use Rattle.spell_shrink.specs.SpellMode.{spell_mode};

use crate::spell_round::SpellRound;
use crate::words::Words;
use faults::Memory;
use keep_guard::Relation;
use reduce_hdd::TreeLevels;
use reduce_perses::TreeVisits;
use reduce_rounds::{ReducerStep, Round, Rounds};
use reduce_step::Step;
use reduce_trees::{HasInput, TreeParts, TreeRound, hdd_round, perses_round};
use reduce_trees_mode::whole_is_start;
use reduce_walk::TreeWalk;
use std::alloc::Global;

/// The reducer in the mode of a walk that respells what is left: it asks what the reducer of that mode
/// asks until this ends, and then, unless the start was refused, rounds over the spellings of the tokens
/// are made until one round changes nothing. `used` and `rounds` count both parts.
///
/// An answer takes what [`SpellRound`] says, and so much again for each candidate that isn't asked before
/// the next one that is.
pub type Speller<'a, F, W> = Rounds<SpellRound<'a, TreeParts<F>, TreeRound<'a, F, W>>>;

/// The reduction of what the parts are of, by a new round of their tree, with the respelling that follows.
/// The words are the spellings of the start. The start is asked whatever the guard says of it; the laws on
/// the end and on what is asked speak of a start that the guard admits.
pub fn tree_speller<'a, F: Relation, W: TreeWalk + Drop>(
    alloc: Global,
    parts: &'a TreeParts<F>,
    words: &'a Words<'a>,
    round: TreeRound<'a, F, W>,
) -> Result<Speller<'a, F, W>, Memory>
    requires input { ⟦<TreeRound<'a, F, W> as Round>⟧.input round ≡ ⟦<TreeParts<F> as HasInput>⟧.input parts.now }
    requires state { ⟦<TreeRound<'a, F, W> as Round>⟧.state round ≡ (walk_mode W.round (⟦<TreeParts<F> as HasInput>⟧.input parts.now)).start }
    requires rest { ⟦<TreeRound<'a, F, W> as Round>⟧.rest round ≡ (walk_mode W.round (⟦<TreeParts<F> as HasInput>⟧.input parts.now)).opening }
    requires words { AreWordsOf (⟦<TreeParts<F> as HasInput>⟧.input parts.now).start (⟦<TreeParts<F> as HasInput>⟧.input parts.now).tokens words.now }
    ensures plan { IfOk result (λ reducer. ⟦<Speller<'a, F, W> as Step>⟧.plan reducer ≡ plan_first
        (spell_mode W.round (⟦<TreeParts<F> as HasInput>⟧.input parts.now))) }
    ensures first { IfOk result (λ reducer. ⟦<Speller<'a, F, W> as Step>⟧.first reducer ≡ plan_first
        (spell_mode W.round (⟦<TreeParts<F> as HasInput>⟧.input parts.now))) }
    ensures start { IfOk result (λ reducer. IsStart (spell_mode W.round (⟦<TreeParts<F> as HasInput>⟧.input parts.now))
        (⟦<Speller<'a, F, W> as ReducerStep>⟧.so_far reducer)) }
{
    parts.is_input();
    whole_is_start();
    let text = Vec::from_slice(alloc, parts.start().as_bytes())?;
    let tokens = parts.tokens().items.len() as u64;
    let round = SpellRound::new(alloc, words, round);
    Ok(Rounds::new(alloc, text, tokens, round))
}

/// The speller of mode `perses`, as [`tree_speller`] says.
pub fn perses_speller<'a, F: Relation>(
    alloc: Global,
    parts: &'a TreeParts<F>,
    words: &'a Words<'a>,
) -> Result<Speller<'a, F, TreeVisits<'a>>, Memory>
    requires words { AreWordsOf (⟦<TreeParts<F> as HasInput>⟧.input parts.now).start (⟦<TreeParts<F> as HasInput>⟧.input parts.now).tokens words.now }
    ensures plan { IfOk result (λ reducer. ⟦<Speller<'a, F, TreeVisits<'a>> as Step>⟧.plan reducer ≡ plan_first
        (spell_mode visit_round (⟦<TreeParts<F> as HasInput>⟧.input parts.now))) }
    ensures first { IfOk result (λ reducer. ⟦<Speller<'a, F, TreeVisits<'a>> as Step>⟧.first reducer ≡ plan_first
        (spell_mode visit_round (⟦<TreeParts<F> as HasInput>⟧.input parts.now))) }
    ensures start { IfOk result (λ reducer. IsStart (spell_mode visit_round (⟦<TreeParts<F> as HasInput>⟧.input parts.now))
        (⟦<Speller<'a, F, TreeVisits<'a>> as ReducerStep>⟧.so_far reducer)) }
{
    let round = perses_round(alloc, parts)?;
    tree_speller(alloc, parts, words, round)
}

/// The speller of mode `hdd`, as [`tree_speller`] says.
pub fn hdd_speller<'a, F: Relation>(
    alloc: Global,
    parts: &'a TreeParts<F>,
    words: &'a Words<'a>,
) -> Result<Speller<'a, F, TreeLevels<'a>>, Memory>
    requires words { AreWordsOf (⟦<TreeParts<F> as HasInput>⟧.input parts.now).start (⟦<TreeParts<F> as HasInput>⟧.input parts.now).tokens words.now }
    ensures plan { IfOk result (λ reducer. ⟦<Speller<'a, F, TreeLevels<'a>> as Step>⟧.plan reducer ≡ plan_first
        (spell_mode level_round (⟦<TreeParts<F> as HasInput>⟧.input parts.now))) }
    ensures first { IfOk result (λ reducer. ⟦<Speller<'a, F, TreeLevels<'a>> as Step>⟧.first reducer ≡ plan_first
        (spell_mode level_round (⟦<TreeParts<F> as HasInput>⟧.input parts.now))) }
    ensures start { IfOk result (λ reducer. IsStart (spell_mode level_round (⟦<TreeParts<F> as HasInput>⟧.input parts.now))
        (⟦<Speller<'a, F, TreeLevels<'a>> as ReducerStep>⟧.so_far reducer)) }
{
    let round = hdd_round(alloc, parts)?;
    tree_speller(alloc, parts, words, round)
}
