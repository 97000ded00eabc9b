//! Rounds over the respellings of kept tokens.

ghost use Rattle.std.specs.Prelude.{◌≡◌, ◌≤◌, ◌<◌, ◌&&◌, IfOk, IfSome, IsSome, OnOk, Some, None, length, map, if◌then◌else◌};
ghost use Rattle.std.specs.Option.{option_copied};
ghost use Rattle.lexer.specs.Tokens.{token_of};
ghost use Rattle.token_print.specs.Readings.{spells};
ghost use Rattle.token_print.specs.Kept.{AreKept};
ghost use Rattle.reduce_step.specs.Limits.{text_limit};
ghost use Rattle.reduce_rounds.specs.Trials.{Done, is_done, state_after, tried_state, trials_after};
ghost use Rattle.reduce_rounds.specs.Fields.{listed_text};
ghost use Rattle.reduce_trees_mode.specs.Input.{IsInput};
ghost use Rattle.reduce_trees_mode.specs.Listed.{skips_of};
ghost use Rattle.spell_shrink.specs.KindWords.{AreWordsOf};
ghost use Rattle.spell_shrink.specs.Respelling.{own_spellings};
ghost use Rattle.spell_shrink.specs.Respelled.{respelling_mode, spell_round};
ghost use Rattle.spell_shrink.specs.SpellMode.{IsRespellingOf};
ghost use Rattle.spell_shrink.specs.inner.Cursors.{IsCursor, respelling_at, trials_of};
ghost use Rattle.spell_shrink.specs.inner.Fields.{AreCopies, IsTried, IsTriedAt, StepAgrees, rest_of_trial};
ghost use Rattle.spell_shrink.specs.inner.FieldProps.{step_agrees_prop};
ghost use Rattle.spell_shrink.specs.inner.Rereads.{IsReread, expected_pieces};
ghost use Rattle.spell_shrink.specs.inner.Spelled.{IsPrintOf, respelling_of};

use crate::cursor::{Choices, Cursor};
use crate::reading::{Expected, Reread};
use crate::spelled::Spelled;
use crate::words::Words;
use faults::Memory;
use keep_guard::Relation;
use lexer::LexReader;
use reduce_trees::{HasInput, TreeParts};
use reduce_trees_mode::texts_are_no_longer;
use std::alloc::Global;
use syntax_tree::left_is_part;
use token_print::{Layout, Style, gaps_are_slices, skips, spelled_are_found, tokens_are_in_order};

/// A text that is tried, and whether it may be asked.
#[derive(Drop)]
struct Trial {
    cursor: Cursor,
    text: String,
    listed: bool,
}

/// Rounds over the spellings of kept tokens: the tokens are gone through from the left, and for each the
/// shorter spellings of its kind are tried, up to the first yes.
///
/// An answer takes, for the text that is tried next, a copy of the text, the reads of what comes between the
/// pieces before and after the changed token that are as before, and at most one call of the guard. A yes takes
/// as long as to lex the text.
#[derive(Drop)]
pub(crate) struct SpellStep<'a, P: HasInput> {
    alloc: Global,
    parts: &'a P,
    words: &'a Words<'a>,
    pub(crate) style: Style,

    /// The last yes.
    spelled: Spelled<'a>,

    /// None where nothing more is tried, and after an error.
    trial: Option<Trial>,
    ghost agrees: { StepAgrees (P.input parts.now) words.now style spelled trial } by { step_agrees_prop (P.input parts.now) words.now style spelled trial },
}

/// Rounds over the respellings of the tokens of parts.
pub(crate) type TreeStep<'a, F> = SpellStep<'a, TreeParts<F>>;

/// What contracts see of rounds over respellings.
pub(crate) trait HasSpellings {
    ghost use Rattle.reduce_rounds.specs.Trials.{Trials};
    ghost use Rattle.reduce_trees_mode.specs.Input.{TreeInput};
    ghost use Rattle.spell_shrink.specs.Respelling.{Respelling};

    /// The input whose tokens are respelled.
    ghost input: { Self → TreeInput };

    /// The last yes.
    ghost respelling: { Self → Respelling };

    /// What the present round still tries.
    ghost rest: { Self → Trials Respelling };
}

impl<'a, P: HasInput> HasSpellings for SpellStep<'a, P> {
    ghost input = { λ s. P.input s.parts.now };

    ghost respelling = { λ s. respelling_of s.spelled };

    ghost rest = { λ s. rest_of_trial (P.input s.parts.now) s.words.now (respelling_of s.spelled) s.trial };
}

/// How the parts' tokens are printed.
fn layout_of<'a, F: Relation>(parts: &'a TreeParts<F>, style: Style) -> Result<Layout<'a>, Memory>
    ensures start { IfOk result (λ layout. layout.start.now ≡ (⟦<TreeParts<F> as HasInput>⟧.input parts.now).start) }
    ensures tokens { IfOk result (λ layout. map token_of layout.tokens.now ≡ (⟦<TreeParts<F> as HasInput>⟧.input parts.now).tokens) }
    ensures skips { IfOk result (λ layout. layout.skips ≡ skips_of (⟦<TreeParts<F> as HasInput>⟧.input parts.now)) }
    ensures style { IfOk result (λ layout. layout.style ≡ style) }
{
    parts.is_input();
    Ok(Layout {
        start: parts.start(),
        tokens: &parts.tokens().items,
        skips: skips(parts.lexer())?,
        style,
    })
}

/// The parts' tokens, and the spellings of each kind.
fn choices_of<'a, F: Relation>(parts: &'a TreeParts<F>, words: &'a Words<'a>) -> Choices<'a>
    ensures tokens { map token_of result.tokens.now ≡ (⟦<TreeParts<F> as HasInput>⟧.input parts.now).tokens }
    ensures words { result.words.now ≡ words.now }
{
    Choices {
        tokens: &parts.tokens().items,
        words,
    }
}

/// Whether the text is cut into the tokens that are expected, and is admitted with them.
fn is_listed<F: Relation>(parts: &TreeParts<F>, reread: Reread<'_>) -> Result<bool, Memory>
    requires reread { ∥ IsReread (⟦<TreeParts<F> as HasInput>⟧.input parts.now).grammar.grammar reread ∥₁ }
    requires tokens { map token_of reread.expected.tokens.now ≡ (⟦<TreeParts<F> as HasInput>⟧.input parts.now).tokens }
    requires kept { AreKept (⟦<TreeParts<F> as HasInput>⟧.input parts.now).tokens reread.expected.kept.now }
    ensures { let input = ⟦<TreeParts<F> as HasInput>⟧.input parts.now in IfOk result (λ listed. listed
        ≡ (spells input.grammar.grammar reread.entry.text.now (expected_pieces reread.entry.expected)
        && input.admits reread.entry.expected.kept.now reread.entry.text.now)) }
{
    parts.is_input();
    spelled_are_found();
    let mut reader = LexReader::new(parts.lexer());
    let keeps = reread.keeps(&mut reader)?;
    if !keeps {
        return Ok(false);
    }
    let guard = parts.guard();
    Ok(guard.admits(reread.expected.kept, reread.text.as_bytes()))
}

/// The text at the cursor, and whether it may be asked.
fn trial_at<'a, F: Relation>(
    parts: &'a TreeParts<F>,
    words: &'a Words<'a>,
    style: Style,
    spelled: &Spelled<'a>,
    cursor: Cursor,
) -> Result<Trial, Memory>
    requires print { let input = ⟦<TreeParts<F> as HasInput>⟧.input parts.now in ∥ IsPrintOf input.grammar.grammar (skips_of input)
        input.start input.tokens style spelled.now ∥₁ }
    requires is_respelling { ∥ IsRespellingOf (⟦<TreeParts<F> as HasInput>⟧.input parts.now) style (respelling_of spelled.now) ∥₁ }
    requires cursor { IsCursor (⟦<TreeParts<F> as HasInput>⟧.input parts.now).tokens words.now (respelling_of spelled.now) cursor }
    requires some { cursor.next < cursor.end }
    requires words { AreWordsOf (⟦<TreeParts<F> as HasInput>⟧.input parts.now).start (⟦<TreeParts<F> as HasInput>⟧.input parts.now).tokens words.now }
    ensures { let input = ⟦<TreeParts<F> as HasInput>⟧.input parts.now in IfOk result (λ trial. (trial.cursor ≡ cursor)
        × IsTriedAt input words.now style (respelling_of spelled.now) trial) }
{
    parts.is_input();
    tokens_are_in_order();
    gaps_are_slices();
    texts_are_no_longer();
    left_is_part();
    let choices = choices_of(parts, words);
    let word = choices.word(cursor);
    let change = spelled.change(cursor.token, word);
    let text = spelled.text.changed(change)?;
    let expected = Expected {
        tokens: choices.tokens,
        kept: &spelled.kept,
        words: &spelled.words,
        index: cursor.token,
        word: change.word,
    };
    let reread = Reread {
        before: &spelled.text,
        change,
        expected,
        text: text.as_str(),
    };
    let listed = is_listed(parts, reread)?;
    Ok(Trial {
        cursor,
        text,
        listed,
    })
}

/// What is tried from the cursor on.
fn tried<'a, F: Relation>(
    parts: &'a TreeParts<F>,
    words: &'a Words<'a>,
    style: Style,
    spelled: &Spelled<'a>,
    cursor: Option<Cursor>,
) -> Result<Option<Trial>, Memory>
    requires print { let input = ⟦<TreeParts<F> as HasInput>⟧.input parts.now in ∥ IsPrintOf input.grammar.grammar (skips_of input)
        input.start input.tokens style spelled.now ∥₁ }
    requires is_respelling { ∥ IsRespellingOf (⟦<TreeParts<F> as HasInput>⟧.input parts.now) style (respelling_of spelled.now) ∥₁ }
    requires cursor { IfSome cursor (IsCursor (⟦<TreeParts<F> as HasInput>⟧.input parts.now).tokens words.now (respelling_of spelled.now)) }
    requires words { AreWordsOf (⟦<TreeParts<F> as HasInput>⟧.input parts.now).start (⟦<TreeParts<F> as HasInput>⟧.input parts.now).tokens words.now }
    ensures rest { let input = ⟦<TreeParts<F> as HasInput>⟧.input parts.now in IfOk result (λ trial.
        rest_of_trial input words.now (respelling_of spelled.now) trial ≡ trials_of input.start input.tokens words.now (respelling_of spelled.now) cursor) }
    ensures tried { IfOk result (IsTried (⟦<TreeParts<F> as HasInput>⟧.input parts.now) words.now style (respelling_of spelled.now)) }
{
    match choices_of(parts, words).first_from(spelled, cursor) {
        None => Ok(None),
        Some(first) => {
            let trial = trial_at(parts, words, style, spelled, first)?;
            Ok(Some(trial))
        }
    }
}

impl<'a, F: Relation> SpellStep<'a, TreeParts<F>> {
    /// Before the first round: each kept token with its own spelling, in this style.
    pub(crate) fn new(
        alloc: Global,
        parts: &'a TreeParts<F>,
        words: &'a Words<'a>,
        kept: Vec<u32>,
        style: Style,
    ) -> Result<TreeStep<'a, F>, Memory>
        requires words { AreWordsOf (⟦<TreeParts<F> as HasInput>⟧.input parts.now).start (⟦<TreeParts<F> as HasInput>⟧.input parts.now).tokens words.now }
        requires own { let input = ⟦<TreeParts<F> as HasInput>⟧.input parts.now in IsRespellingOf input style
            (own_spellings input.start input.tokens kept.items) }
        ensures input { IfOk result (λ step. ⟦<TreeStep<'a, F> as HasSpellings>⟧.input step ≡ ⟦<TreeParts<F> as HasInput>⟧.input parts.now) }
        ensures style { IfOk result (λ step. step.style ≡ style) }
        ensures respelling { let input = ⟦<TreeParts<F> as HasInput>⟧.input parts.now in IfOk result (λ step.
            ⟦<TreeStep<'a, F> as HasSpellings>⟧.respelling step ≡ own_spellings input.start input.tokens kept.items) }
        ensures rest { IfOk result (λ step. ⟦<TreeStep<'a, F> as HasSpellings>⟧.rest step ≡ Done) }
    {
        parts.is_input();
        let layout = layout_of(parts, style)?;
        let spelled = Spelled::own(alloc, layout, parts.tokens(), parts.lexer(), kept)?;
        Ok(SpellStep {
            alloc,
            parts,
            words,
            style,
            spelled,
            trial: None,
        })
    }

    /// The tokens are those of an input: a caller calls this so that its proof knows.
    pub(crate) fn is_input(&self)
        ensures { IsInput (⟦<TreeStep<'a, F> as HasSpellings>⟧.input self.now) }
    {
        self.parts.is_input();
    }

    /// Whether nothing more is tried.
    pub(crate) fn is_over(&self) -> bool
        ensures { result ≡ is_done (⟦<TreeStep<'a, F> as HasSpellings>⟧.rest self.now) }
    {
        self.trial.is_none()
    }

    /// The text that is tried now. None where it isn't listed, or nothing is tried.
    pub(crate) fn asks(&self) -> Option<&[u8]>
        ensures text { option_copied result ≡ listed_text (respelling_mode (⟦<TreeStep<'a, F> as HasSpellings>⟧.input self.now) self.now.style
            (⟦<TreeStep<'a, F> as HasSpellings>⟧.respelling self.now)) (⟦<TreeStep<'a, F> as HasSpellings>⟧.rest self.now) }
        ensures short { IfSome result (λ text. length text.now ≤ text_limit) }
    {
        match &self.trial {
            None => None,
            Some(trial) => {
                if trial.listed {
                    Some(trial.text.as_bytes())
                } else {
                    None
                }
            }
        }
    }

    /// How many tokens each respelling has.
    pub(crate) fn units(&self) -> u64
        ensures { IfSome (tried_state (⟦<TreeStep<'a, F> as HasSpellings>⟧.rest self.now)) (λ r. result ≡ length r) }
    {
        self.spelled.kept.len() as u64
    }

    /// Takes the answer to the text that is tried now. At yes it is the last yes.
    pub(crate) fn answer(&mut self, yes: bool) -> Result<(), Memory>
        requires { IsSome (tried_state (⟦<TreeStep<'a, F> as HasSpellings>⟧.rest self.old)) }
        ensures rest { OnOk result (⟦<TreeStep<'a, F> as HasSpellings>⟧.rest self.new
            ≡ trials_after (⟦<TreeStep<'a, F> as HasSpellings>⟧.rest self.old) yes) }
        ensures respelling { OnOk result (⟦<TreeStep<'a, F> as HasSpellings>⟧.respelling self.new
            ≡ state_after (⟦<TreeStep<'a, F> as HasSpellings>⟧.respelling self.old) (⟦<TreeStep<'a, F> as HasSpellings>⟧.rest self.old) yes) }
        ensures input { ⟦<TreeStep<'a, F> as HasSpellings>⟧.input self.new ≡ ⟦<TreeStep<'a, F> as HasSpellings>⟧.input self.old }
        ensures style { self.new.style ≡ self.old.style }
    {
        let Some(trial) = self.trial.take() else {
            return Ok(());
        };
        let cursor = self.after_answer(trial, yes)?;
        self.trial = tried(self.parts, self.words, self.style, &self.spelled, cursor)?;
        Ok(())
    }

    /// Begins another round at the first token.
    pub(crate) fn begin_round(&mut self) -> Result<(), Memory>
        ensures rest { let input = ⟦<TreeStep<'a, F> as HasSpellings>⟧.input self.old in OnOk result (⟦<TreeStep<'a, F> as HasSpellings>⟧.rest self.new
            ≡ spell_round input.start input.tokens (⟦<TreeStep<'a, F> as HasSpellings>⟧.respelling self.old)) }
        ensures respelling { ⟦<TreeStep<'a, F> as HasSpellings>⟧.respelling self.new ≡ ⟦<TreeStep<'a, F> as HasSpellings>⟧.respelling self.old }
        ensures input { ⟦<TreeStep<'a, F> as HasSpellings>⟧.input self.new ≡ ⟦<TreeStep<'a, F> as HasSpellings>⟧.input self.old }
        ensures style { self.new.style ≡ self.old.style }
    {
        self.trial = None;
        let first = choices_of(self.parts, self.words).at_token(&self.spelled, 0);
        self.trial = tried(self.parts, self.words, self.style, &self.spelled, first)?;
        Ok(())
    }

    /// One that goes on by its own answers from the same.
    pub(crate) fn copy(&self) -> Result<TreeStep<'a, F>, Memory>
        ensures rest { IfOk result (λ step. ⟦<TreeStep<'a, F> as HasSpellings>⟧.rest step ≡ ⟦<TreeStep<'a, F> as HasSpellings>⟧.rest self.now) }
        ensures respelling { IfOk result (λ step. ⟦<TreeStep<'a, F> as HasSpellings>⟧.respelling step
            ≡ ⟦<TreeStep<'a, F> as HasSpellings>⟧.respelling self.now) }
        ensures input { IfOk result (λ step. ⟦<TreeStep<'a, F> as HasSpellings>⟧.input step ≡ ⟦<TreeStep<'a, F> as HasSpellings>⟧.input self.now) }
        ensures style { IfOk result (λ step. step.style ≡ self.now.style) }
    {
        let spelled = self.spelled.copy()?;
        let trial = copy_of(self.alloc, &self.trial)?;
        Ok(SpellStep {
            alloc: self.alloc,
            parts: self.parts,
            words: self.words,
            style: self.style,
            spelled,
            trial,
        })
    }

    /// Where it goes on after an answer to what was tried: after a yes, which is taken, at the next token, and
    /// after a no at the next spelling.
    fn after_answer(&mut self, trial: Trial, yes: bool) -> Result<Option<Cursor>, Memory>
        requires tried { IsTriedAt (⟦<TreeStep<'a, F> as HasSpellings>⟧.input self.old) self.old.words.now self.old.style
            (⟦<TreeStep<'a, F> as HasSpellings>⟧.respelling self.old) trial }
        requires over { self.old.trial ≡ None }
        ensures respelling { OnOk result (⟦<TreeStep<'a, F> as HasSpellings>⟧.respelling self.new
            ≡ (if yes then respelling_at self.old.words.now (⟦<TreeStep<'a, F> as HasSpellings>⟧.respelling self.old) trial.cursor
            else ⟦<TreeStep<'a, F> as HasSpellings>⟧.respelling self.old)) }
        ensures rest { let input = ⟦<TreeStep<'a, F> as HasSpellings>⟧.input self.old in IfOk result (λ cursor.
            trials_of input.start input.tokens self.new.words.now (⟦<TreeStep<'a, F> as HasSpellings>⟧.respelling self.new) cursor
            ≡ trials_after (rest_of_trial input self.old.words.now (⟦<TreeStep<'a, F> as HasSpellings>⟧.respelling self.old) (Some trial)) yes) }
        ensures cursor { IfOk result (λ cursor. IfSome cursor (IsCursor (⟦<TreeStep<'a, F> as HasSpellings>⟧.input self.new).tokens self.new.words.now
            (⟦<TreeStep<'a, F> as HasSpellings>⟧.respelling self.new))) }
        ensures over { self.new.trial ≡ None }
        ensures words { self.new.words ≡ self.old.words }
        ensures input { ⟦<TreeStep<'a, F> as HasSpellings>⟧.input self.new ≡ ⟦<TreeStep<'a, F> as HasSpellings>⟧.input self.old }
        ensures style { self.new.style ≡ self.old.style }
    {
        let Trial {
            cursor,
            text,
            listed,
        } = trial;
        if !yes {
            return Ok(Some(cursor.after()));
        }
        self.parts.is_input();
        spelled_are_found();
        let choices = choices_of(self.parts, self.words);
        self.spelled.take(
            self.parts.lexer(),
            cursor.token,
            choices.word(cursor),
            text,
            listed,
        )?;
        Ok(choices.at_token(&self.spelled, cursor.token + 1))
    }
}

/// The same trial again.
fn copy_of(alloc: Global, trial: &Option<Trial>) -> Result<Option<Trial>, Memory>
    ensures { IfOk result (AreCopies trial.now) }
{
    match trial {
        None => Ok(None),
        Some(trial) => {
            let text = String::from_str(alloc, trial.text.as_str())?;
            Ok(Some(Trial {
                cursor: trial.cursor,
                text,
                listed: trial.listed,
            }))
        }
    }
}
