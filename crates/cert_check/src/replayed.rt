//! A history as a reducer has it, event by event.

ghost use Rattle.std.specs.Prelude.{◌≡◌, [], ◌∷◌, ◌++◌, Bool, true, IfOk, MatchOption, None};
ghost use Rattle.verdict_table.specs.TableState.{found_in, verdict_in};
ghost use Rattle.reduce_step.specs.Plan.{Plan};
ghost use Rattle.reduce_journal.specs.History.{History};
ghost use Rattle.reduce_journal.specs.declared.event.Event.TheVariants.{Recorded, Committed};
ghost use Rattle.cert_check.specs.Findings.{IsFirstIllegal};
ghost use Rattle.cert_check.specs.inner.Replayed.{IsReplayed, IsTaken, is_absent};

use crate::asked::{asked_record, mark};
use faults::Memory;
use reduce_journal::Event;
use reduce_step::Step;
use script_gate_trait::{Bytes, Verdict};
use std::alloc::Global;
use verdict_table::{Found, Table};

/// What the events so far have led to: the reducer, answered by the commits; the records; and for each
/// of them whether the reducer has asked for its text.
#[derive(Drop)]
pub(crate) struct Replayed<S: Step + Drop> {
    pub(crate) reducer: S,
    pub(crate) table: Table,
    pub(crate) marks: Vec<bool>,
}

/// Whether the table holds nothing for the text.
fn is_new(table: &Table, text: &[u8]) -> bool
    ensures absent { result ≡ is_absent (found_in table.now text.now) }
    ensures none { result ≡ true → verdict_in table.now.records text.now ≡ None }
{
    matches!(table.find(text), Found::Absent)
}

impl<S: Step + Drop> Replayed<S> {
    /// Before the first event, of a new reducer.
    pub(crate) fn new(alloc: Global, reducer: S) -> Replayed<S>
        requires new { S.first reducer ≡ S.plan reducer }
        ensures first { S.first result.reducer ≡ S.first reducer }
        ensures replayed { IsReplayed (S.first result.reducer) [] (S.plan result.reducer) result.table result.marks.items }
    {
        Replayed {
            reducer,
            table: Table::new(alloc),
            marks: Vec::new(alloc),
        }
    }

    /// Takes in a record, which may be kept. False where its text has one already.
    fn record(&mut self, text: &Bytes, verdict: Verdict) -> Result<bool, Memory>
        ensures first { S.first self.new.reducer ≡ S.first self.old.reducer }
        ensures taken { (kept : Bool) → IfOk result (λ legal. (first : Plan) (history : History)
            → IsReplayed first history (S.plan self.old.reducer) self.old.table self.old.marks.items
            → IsTaken legal first (history ++ Recorded text.now verdict kept ∷ []) (S.plan self.new.reducer) self.new.table self.new.marks.items) }
    {
        if !is_new(&self.table, text.as_slice()) {
            return Ok(false);
        }
        let copy = text.share()?;
        let claim = self.table.claim(copy)?;
        self.table.fill(claim, verdict);
        self.marks.push(false)?;
        Ok(true)
    }

    /// Answers the reducer by a commit. False where that names no record of the text that is asked now.
    fn commit(&mut self, number: u64) -> Result<bool, Memory>
        ensures first { S.first self.new.reducer ≡ S.first self.old.reducer }
        ensures taken { IfOk result (λ legal. (first : Plan) (history : History) → IsReplayed first history
            (S.plan self.old.reducer) self.old.table self.old.marks.items
            → IsTaken legal first (history ++ Committed number ∷ []) (S.plan self.new.reducer) self.new.table self.new.marks.items) }
    {
        let Some((found, verdict)) = asked_record(&self.reducer, &self.table) else {
            return Ok(false);
        };
        if found != number {
            return Ok(false);
        }
        self.reducer.answer(verdict)?;
        mark(&mut self.marks, number);
        Ok(true)
    }

    /// Takes in an event. False where the reducer can't have it after those before it.
    fn take(&mut self, event: &Event) -> Result<bool, Memory>
        ensures first { S.first self.new.reducer ≡ S.first self.old.reducer }
        ensures taken { IfOk result (λ legal. (first : Plan)
            (history : History) → IsReplayed first history (S.plan self.old.reducer) self.old.table self.old.marks.items
            → IsTaken legal first (history ++ event.now ∷ []) (S.plan self.new.reducer) self.new.table self.new.marks.items) }
    {
        match event {
            Event::Recorded { text, verdict, .. } => self.record(text, *verdict),
            Event::Committed { number } => self.commit(*number),
        }
    }

    /// Takes in the events of a journal, up to the first that the reducer can't have after those before
    /// it, whose number, counted from 1, is given.
    ///
    /// Each event costs a look into the table. A commit costs what the reducer's answer costs too, a
    /// record no copy of its text.
    pub(crate) fn take_all(&mut self, events: &[Event]) -> Result<Option<u64>, Memory>
        requires { IsReplayed (S.first self.old.reducer) [] (S.plan self.old.reducer) self.old.table self.old.marks.items }
        ensures first { S.first self.new.reducer ≡ S.first self.old.reducer }
        ensures taken { IfOk result (λ illegal. MatchOption illegal
            (IsReplayed (S.first self.old.reducer) events.now (S.plan self.new.reducer) self.new.table self.new.marks.items)
            (IsFirstIllegal (S.first self.old.reducer) events.now)) }
    {
        for index in 0..events.len() {
            let taken = self.take(&events[index])?;
            if !taken {
                return Ok(Some(index as u64 + 1));
            }
        }
        Ok(None)
    }
}
