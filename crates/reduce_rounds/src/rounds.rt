//! The reduction of a start, in any mode, as a machine.

ghost use Rattle.std.specs.Prelude.{◌≡◌, ◌≤◌, length, OnOk, IsSome, IfOk, true, false, if◌then◌else◌, Some};
ghost use Rattle.reduce_step.specs.Limits.{text_limit};
ghost use Rattle.reduce_rounds.specs.Trials.{Done, state_after};
ghost use Rattle.reduce_rounds.specs.Fields.{WentOn, listed_text};
ghost use Rattle.reduce_rounds.specs.inner.Fields.{Becomes, HasState, IsReady, IsTrying, StaysKept, asked_state, listed_trials, plan_of, result_so_far};
ghost use Rattle.reduce_rounds.specs.inner.Fields.{stage_after};
ghost use Rattle.reduce_rounds.specs.inner.FieldProps.{ready_prop};
ghost use Rattle.reduce_rounds.specs.RoundsPlan.{IsStart, plan_first, plan_rounds};
ghost use Rattle.reduce_rounds.specs.Shown.{CountsRounds, rounds_at_no};
ghost use Rattle.reduce_step.specs.Plan.{after as plan_after, asked};

use crate::ahead::texts_at_no;
use crate::reducer::ReducerStep;
use crate::round::Round;
use crate::stage::{Progress, Stage};
use faults::Memory;
use reduce_step::Step;
use script_gate_trait::{Bytes, Verdict};
use std::alloc::Global;
use std::mem;

/// The reduction of a start: the start is asked first, then what the mode tries before its rounds,
/// and then one round after another until a round has no yes. Where the mode has a next phase, its rounds
/// follow in the same way. A state that isn't listed counts as no, and is neither asked nor counted.
///
/// An answer costs what the mode's own answer costs, and so much again for each state that isn't
/// listed before the next one that is; a yes costs a copy of its text too. Looking ahead costs a copy,
/// and then what as many answers as texts cost.
#[derive(Drop)]
pub struct Rounds<R: Round + Drop> {
    alloc: Global,
    round: R,
    stage: Stage,
    progress: Progress,
    ghost ready: { IsReady (R.mode (R.input round)) (R.Kept (R.input round)) (R.state round) (R.rest round) stage progress } by { ready_prop
        (R.mode (R.input round)) (R.Kept (R.input round)) (R.state round) (R.rest round) stage progress },
}

impl<R: Round + Drop> Rounds<R> {
    /// The reduction of a start, with its text of at most 1,048,576 bytes and its number of units.
    /// The start is asked whether it is listed or not; the laws on the end and on what is asked speak
    /// of a start that is listed.
    pub fn new(alloc: Global, start: Vec<u8>, units: u64, round: R) -> Rounds<R>
        requires short { length start.items ≤ text_limit }
        requires state { R.state round ≡ (R.mode (R.input round)).start }
        requires rest { R.rest round ≡ (R.mode (R.input round)).opening }
        requires text { start.items ≡ (R.mode (R.input round)).text (R.mode (R.input round)).start }
        requires units { units ≡ (R.mode (R.input round)).size (R.mode (R.input round)).start }
        ensures plan { ⟦<Rounds<R> as Step>⟧.plan result ≡ plan_first (R.mode (R.input round)) }
        ensures first { ⟦<Rounds<R> as Step>⟧.first result ≡ plan_first (R.mode (R.input round)) }
        ensures start { IsStart (R.mode (R.input round)) (⟦<Rounds<R> as ReducerStep>⟧.so_far result) }
    {
        Rounds {
            alloc,
            round,
            stage: Stage::Start,
            progress: Progress {
                text: start,
                units,
                used: 0,
                rounds: 0,
                refused: false,
            },
        }
    }

    /// A reducer that goes on by its own answers from where this one is. It copies the text of the
    /// last yes, and what the mode's own copy copies.
    pub fn copy(&self) -> Result<Rounds<R>, Memory>
        ensures plan { IfOk result (λ reducer. ⟦<Rounds<R> as Step>⟧.plan reducer ≡ ⟦<Rounds<R> as Step>⟧.plan self.now) }
        ensures first { IfOk result (λ reducer. ⟦<Rounds<R> as Step>⟧.first reducer ≡ ⟦<Rounds<R> as Step>⟧.first self.now) }
        ensures so_far { IfOk result (λ reducer. ⟦<Rounds<R> as ReducerStep>⟧.so_far reducer ≡ ⟦<Rounds<R> as ReducerStep>⟧.so_far self.now) }
    {
        let progress = &self.progress;
        let text = Vec::from_slice(self.alloc, &progress.text)?;
        let round = self.round.copy()?;
        Ok(Rounds {
            alloc: self.alloc,
            round,
            stage: self.stage,
            progress: Progress {
                text,
                units: progress.units,
                used: progress.used,
                rounds: progress.rounds,
                refused: progress.refused,
            },
        })
    }
}

impl<R: Round + Drop> Step for Rounds<R> {
    ghost plan = { λ r. plan_of (R.mode (R.input r.round)) (R.state r.round) (R.rest r.round) r.stage r.progress };

    ghost first = { λ r. plan_first (R.mode (R.input r.round)) };

    fn asks(&self) -> Option<&[u8]> {
        match &self.stage {
            Stage::Start => Some(self.progress.text.as_slice()),
            Stage::Opening | Stage::Within(_) => self.round.asks(),
            Stage::Ended => None,
        }
    }

    fn answer(&mut self, verdict: Verdict) -> Result<(), Memory> {
        let stage = mem::replace(&mut self.stage, Stage::Ended);
        self.stage = next_stage(
            self.alloc,
            &mut self.round,
            stage,
            verdict,
            &mut self.progress,
        )?;
        Ok(())
    }

    fn ahead(&self, most: u32) -> Result<Vec<Bytes>, Memory> {
        let mut reducer = self.copy()?;
        let texts = texts_at_no(self.alloc, &mut reducer, most)?;
        Ok(texts)
    }
}

impl<R: Round + Drop> ReducerStep for Rounds<R> {
    ghost so_far = { λ r. result_so_far r.progress };

    ghost at_no = { λ r. rounds_at_no (R.mode (R.input r.round)) (asked_state (R.state r.round) (R.rest r.round) r.stage) };

    fn result(&self) -> &[u8] {
        self.progress.text.as_slice()
    }

    fn units(&self) -> u64 {
        self.progress.units
    }

    fn used(&self) -> u64 {
        self.progress.used
    }

    fn rounds(&self) -> u64
        ensures shown { result ≡ (⟦<Rounds<R> as ReducerStep>⟧.so_far self.now).rounds }
        ensures made { CountsRounds (⟦<Rounds<R> as ReducerStep>⟧.at_no self.now) (⟦<Rounds<R> as Step>⟧.plan self.now) result }
    {
        R::phases_agree();
        self.progress.rounds
    }

    fn refused(&self) -> bool {
        R::phases_agree();
        self.progress.refused
    }
}

/// The stage after an answer to what is asked now.
fn next_stage<R: Round>(
    alloc: Global,
    round: &mut R,
    stage: Stage,
    verdict: Verdict,
    progress: &mut Progress,
) -> Result<Stage, Memory>
    requires ready { IsReady (R.mode (R.input round.old)) (R.Kept (R.input round.old)) (R.state round.old) (R.rest round.old) stage progress.old }
    requires asking { IsSome (asked (plan_of (R.mode (R.input round.old)) (R.state round.old) (R.rest round.old) stage progress.old)) }
    ensures becomes { IfOk result (λ next. Becomes
        (plan_after (plan_of (R.mode (R.input round.old)) (R.state round.old) (R.rest round.old) stage progress.old) verdict) (R.mode (R.input round.new))
        (R.Kept (R.input round.new)) (R.state round.new) (R.rest round.new) next progress.new) }
    ensures input { R.input round.new ≡ R.input round.old }
    ensures short { length progress.new.text.items ≤ text_limit }
{
    match stage {
        Stage::Start => {
            progress.used = progress.used.saturating_add(1);
            match verdict {
                Verdict::Yes => {
                    let next = to_question(round, Stage::Opening, progress)?;
                    Ok(next)
                }
                Verdict::No => {
                    progress.refused = true;
                    Ok(Stage::Ended)
                }
            }
        }
        Stage::Opening => {
            let next = take_answer(alloc, round, Stage::Opening, verdict, progress)?;
            Ok(next)
        }
        Stage::Within(changed) => {
            let next = take_answer(alloc, round, Stage::Within(changed), verdict, progress)?;
            Ok(next)
        }
        Stage::Ended => unreachable!(),
    }
}

/// Goes on after an answer to a state that was tried.
fn take_answer<R: Round>(
    alloc: Global,
    round: &mut R,
    stage: Stage,
    verdict: Verdict,
    progress: &mut Progress,
) -> Result<Stage, Memory>
    requires trying { IsTrying stage progress.old }
    requires asked { IsSome (listed_text (R.mode (R.input round.old)) (R.rest round.old)) }
    requires state { HasState (R.mode (R.input round.old)) (R.state round.old) progress.old }
    requires kept { StaysKept (R.mode (R.input round.old)) (R.Kept (R.input round.old)) (R.state round.old) (R.rest round.old) }
    requires short { length progress.old.text.items ≤ text_limit }
    ensures becomes { IfOk result
        (λ next. Becomes (plan_after (plan_of (R.mode (R.input round.old)) (R.state round.old) (R.rest round.old) stage progress.old) verdict)
        (R.mode (R.input round.new)) (R.Kept (R.input round.new)) (R.state round.new) (R.rest round.new) next progress.new) }
    ensures input { R.input round.new ≡ R.input round.old }
    ensures short { length progress.new.text.items ≤ text_limit }
{
    progress.used = progress.used.saturating_add(1);
    let yes = verdict == Verdict::Yes;
    if yes {
        keep_tried_state(alloc, round, progress)?;
    }
    round.answer(yes)?;
    let next = to_question(round, after_answer(stage, yes), progress)?;
    Ok(next)
}

/// Keeps the text and the units of the state that is tried now.
fn keep_tried_state<R: Round>(
    alloc: Global,
    round: &R,
    progress: &mut Progress,
) -> Result<(), Memory>
    requires asked { IsSome (listed_text (R.mode (R.input round.now)) (R.rest round.now)) }
    requires refused { progress.old.refused ≡ false }
    requires short { length progress.old.text.items ≤ text_limit }
    ensures state { OnOk result (HasState (R.mode (R.input round.now)) (state_after (R.state round.now) (R.rest round.now) true) progress.new) }
    ensures used { progress.new.used ≡ progress.old.used }
    ensures rounds { progress.new.rounds ≡ progress.old.rounds }
    ensures short { length progress.new.text.items ≤ text_limit }
{
    if let Some(text) = round.asks() {
        progress.text = Vec::from_slice(alloc, text)?;
        progress.units = round.units();
    }
    Ok(())
}

/// The stage after an answer to a state that was tried.
fn after_answer(stage: Stage, yes: bool) -> Stage
    ensures { result ≡ stage_after stage yes }
{
    match stage {
        Stage::Within(changed) => Stage::Within(changed || yes),
        Stage::Start => Stage::Start,
        Stage::Opening => Stage::Opening,
        Stage::Ended => Stage::Ended,
    }
}

/// Goes on to the next question. Where the trials are over, it is that of another round, if there is
/// one.
fn to_question<R: Round>(
    round: &mut R,
    stage: Stage,
    progress: &mut Progress,
) -> Result<Stage, Memory>
    requires trying { IsTrying stage progress.old }
    requires state { HasState (R.mode (R.input round.old)) (R.state round.old) progress.old }
    requires kept { StaysKept (R.mode (R.input round.old)) (R.Kept (R.input round.old)) (R.state round.old) (R.rest round.old) }
    ensures becomes { IfOk result (λ next. Becomes (plan_of (R.mode (R.input round.old)) (R.state round.old) (R.rest round.old) stage progress.old)
        (R.mode (R.input round.new)) (R.Kept (R.input round.new)) (R.state round.new) (R.rest round.new) next progress.new) }
    ensures input { R.input round.new ≡ R.input round.old }
    ensures text { progress.new.text.items ≡ progress.old.text.items }
{
    R::phases_agree();
    pass(round)?;
    if !round.is_over() {
        return Ok(stage);
    }
    match stage {
        Stage::Opening => {
            let next = begin(round, progress)?;
            Ok(next)
        }
        Stage::Within(changed) => {
            progress.rounds = progress.rounds.saturating_add(1);
            let more = goes_on(round, changed)?;
            if more {
                let next = begin(round, progress)?;
                Ok(next)
            } else {
                Ok(Stage::Ended)
            }
        }
        Stage::Start | Stage::Ended => unreachable!(),
    }
}

/// Whether another round follows one that had a yes, or had none: after none it is the first of the next
/// phase, if there is one.
fn goes_on<R: Round>(round: &mut R, changed: bool) -> Result<bool, Memory>
    requires { R.rest round.old ≡ Done }
    ensures state { IfOk result (WentOn (if changed then Some (R.state round.old) else (R.mode (R.input round.old)).next_phase (R.state round.old))
        (R.state round.old) (R.state round.new)) }
    ensures rest { OnOk result (R.rest round.new ≡ Done) }
    ensures input { R.input round.new ≡ R.input round.old }
{
    if changed {
        return Ok(true);
    }
    round.next_phase()
}

/// Begins a round. Where it asks nothing, the first round of the next phase follows, and in the last
/// phase it is the last.
fn begin<R: Round>(round: &mut R, progress: &mut Progress) -> Result<Stage, Memory>
    requires over { R.rest round.old ≡ Done }
    requires state { HasState (R.mode (R.input round.old)) (R.state round.old) progress.old }
    requires kept { StaysKept (R.mode (R.input round.old)) (R.Kept (R.input round.old)) (R.state round.old) (R.rest round.old) }
    ensures begun { IfOk result (λ stage. Becomes (plan_rounds (R.mode (R.input round.old)) progress.old.rounds progress.old.used (R.state round.old))
        (R.mode (R.input round.new)) (R.Kept (R.input round.new)) (R.state round.new) (R.rest round.new) stage progress.new) }
    ensures input { R.input round.new ≡ R.input round.old }
    ensures text { progress.new.text.items ≡ progress.old.text.items }
{
    R::phases_agree();
    loop {
        round.begin_round()?;
        pass(round)?;
        if !round.is_over() {
            return Ok(Stage::Within(false));
        }
        progress.rounds = progress.rounds.saturating_add(1);
        let more = round.next_phase()?;
        if !more {
            return Ok(Stage::Ended);
        }
    }
}

/// Passes over the states that aren't listed, which count as no.
fn pass<R: Round>(round: &mut R) -> Result<(), Memory>
    ensures rest { OnOk result (R.rest round.new ≡ listed_trials (R.mode (R.input round.old)) (R.rest round.old)) }
    ensures state { OnOk result (R.state round.new ≡ R.state round.old) }
    ensures input { R.input round.new ≡ R.input round.old }
{
    while !round.is_over() && round.asks().is_none() {
        round.answer(false)?;
    }
    Ok(())
}
