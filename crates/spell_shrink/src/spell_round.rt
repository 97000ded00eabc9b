//! Rounds of a tree, and then of the respellings of what is left.

ghost use Rattle.std.specs.Prelude.{◌≡◌};
ghost use Rattle.spell_shrink.specs.KindWords.{AreWordsOf};
ghost use Rattle.spell_shrink.specs.inner.FieldProps.{are_words_in_prop};
ghost use Rattle.spell_shrink.specs.inner.Phases.{AreWordsIn};
ghost use Rattle.spell_shrink.specs.SpellMode.{spell_mode, trials_as};
ghost use Rattle.spell_shrink.specs.Respelled.{Reduced};

use crate::laws::{spell_mode_is_lawful, spell_phases_agree};
use crate::spell_step::{HasSpellings, SpellStep, TreeStep};
use crate::words::Words;
use faults::Memory;
use keep_guard::Relation;
use reduce_rounds::Round;
use reduce_trees::{HasInput, TreeParts, TreeRound};
use reduce_walk::TreeWalk;
use std::alloc::Global;
use syntax_tree::left_is_part;

/// What a round goes over.
#[derive(Drop)]
enum Phase<R, S> {
    /// What is left of the tree.
    Reducing(R),

    /// The spellings of its tokens.
    Respelling(S),
}

/// A round of a walk over what is left of a tree; and after a round without a yes a round over the
/// spellings of its tokens, which follow in a phase of their own. The spellings of each kind are lent, so that
/// a copy doesn't copy them. `P` are the parts of the tree's start, and `R` is the round of the tree.
///
/// In the first phase an answer takes what [`TreeRound`] says. In the second it takes a copy of the text for
/// each text that is tried next, what it takes to read the pieces round the changed token, and at most one
/// call of the guard; a yes takes as long as to lex the text.
#[derive(Drop)]
pub struct SpellRound<'a, P: HasInput, R: HasTree + Drop> {
    alloc: Global,
    words: &'a Words<'a>,
    phase: Phase<R, SpellStep<'a, P>>,
    ghost agrees: { AreWordsIn words.now R.input phase } by { are_words_in_prop words.now R.input phase },
}

/// What contracts see of a round of a tree.
pub trait HasTree {
    ghost use Rattle.reduce_trees_mode.specs.Input.{TreeInput};

    /// The input that it goes over.
    ghost input: { Self → TreeInput };
}

impl<'a, F: Relation, W: TreeWalk + Drop> HasTree for TreeRound<'a, F, W> {
    ghost input = { ⟦<TreeRound<'a, F, W> as Round>⟧.input };
}

impl<'a, F: Relation, W: TreeWalk + Drop> SpellRound<'a, TreeParts<F>, TreeRound<'a, F, W>> {
    /// A round of a tree, and the spellings of its start.
    pub(crate) fn new(
        alloc: Global,
        words: &'a Words<'a>,
        round: TreeRound<'a, F, W>,
    ) -> SpellRound<'a, TreeParts<F>, TreeRound<'a, F, W>>
        requires { AreWordsOf (⟦<TreeRound<'a, F, W> as Round>⟧.input round).start (⟦<TreeRound<'a, F, W> as Round>⟧.input round).tokens words.now }
        ensures input { ⟦<SpellRound<'a, TreeParts<F>, TreeRound<'a, F, W>> as Round>⟧.input result ≡ ⟦<TreeRound<'a, F, W> as Round>⟧.input round.entry }
        ensures state { ⟦<SpellRound<'a, TreeParts<F>, TreeRound<'a, F, W>> as Round>⟧.state result
            ≡ Reduced (⟦<TreeRound<'a, F, W> as Round>⟧.state round.entry) }
        ensures rest { ⟦<SpellRound<'a, TreeParts<F>, TreeRound<'a, F, W>> as Round>⟧.rest result
            ≡ trials_as Reduced (⟦<TreeRound<'a, F, W> as Round>⟧.rest round.entry) }
    {
        SpellRound {
            alloc,
            words,
            phase: Phase::Reducing(round),
        }
    }
}

impl<'a, F: Relation, W: TreeWalk + Drop> Round
    for SpellRound<'a, TreeParts<F>, TreeRound<'a, F, W>> {
    ghost use Rattle.reduce_trees_mode.specs.Input.{TreeInput};
    ghost use Rattle.spell_shrink.specs.Respelled.{SpellState};
    ghost use Rattle.spell_shrink.specs.SpellMode.{IsKeptInPhase};
    ghost use Rattle.spell_shrink.specs.inner.Phases.{input_in_phase, rest_in_phase, state_in_phase};

    ghost Input = { TreeInput };

    ghost State = { SpellState };

    ghost mode = { spell_mode W.round };

    ghost Kept = { IsKeptInPhase };

    ghost input = { λ r. input_in_phase (⟦<TreeRound<'a, F, W> as Round>⟧.input) (⟦<TreeStep<'a, F> as HasSpellings>⟧.input) r.phase };

    ghost state = { λ r. state_in_phase (⟦<TreeRound<'a, F, W> as Round>⟧.state) (λ step. step.style) (⟦<TreeStep<'a, F> as HasSpellings>⟧.respelling)
        r.phase };

    ghost rest = { λ r. rest_in_phase (⟦<TreeRound<'a, F, W> as Round>⟧.rest) (λ step. step.style) (⟦<TreeStep<'a, F> as HasSpellings>⟧.rest) r.phase };

    fn is_over(&self) -> bool {
        match &self.phase {
            Phase::Reducing(round) => round.is_over(),
            Phase::Respelling(step) => step.is_over(),
        }
    }

    fn asks(&self) -> Option<&[u8]> {
        match &self.phase {
            Phase::Reducing(round) => round.asks(),
            Phase::Respelling(step) => step.asks(),
        }
    }

    fn units(&self) -> u64 {
        match &self.phase {
            Phase::Reducing(round) => round.units(),
            Phase::Respelling(step) => step.units(),
        }
    }

    fn answer(&mut self, yes: bool) -> Result<(), Memory> {
        match &mut self.phase {
            Phase::Reducing(round) => round.answer(yes),
            Phase::Respelling(step) => step.answer(yes),
        }
    }

    fn begin_round(&mut self) -> Result<(), Memory> {
        spell_mode_is_lawful::<W>();
        match &mut self.phase {
            Phase::Reducing(round) => {
                round.parts().is_input();
                round.begin_round()
            }
            Phase::Respelling(step) => {
                step.is_input();
                step.begin_round()
            }
        }
    }

    fn next_phase(&mut self) -> Result<bool, Memory> {
        let Phase::Reducing(round) = &self.phase else {
            return Ok(false);
        };
        let parts = round.parts();
        parts.is_input();
        left_is_part();
        let kept = round.kept()?;
        let step = SpellStep::new(self.alloc, parts, self.words, kept, round.style())?;
        self.phase = Phase::Respelling(step);
        Ok(true)
    }

    fn phases_agree() {
        spell_phases_agree::<W>();
    }

    fn copy(&self) -> Result<SpellRound<'a, TreeParts<F>, TreeRound<'a, F, W>>, Memory> {
        match &self.phase {
            Phase::Reducing(round) => {
                let copy = round.copy()?;
                Ok(SpellRound {
                    alloc: self.alloc,
                    words: self.words,
                    phase: Phase::Reducing(copy),
                })
            }
            Phase::Respelling(step) => {
                let copy = step.copy()?;
                Ok(SpellRound {
                    alloc: self.alloc,
                    words: self.words,
                    phase: Phase::Respelling(copy),
                })
            }
        }
    }
}
