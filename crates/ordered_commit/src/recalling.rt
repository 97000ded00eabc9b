//! How a verdict that was kept from an earlier run becomes a record.

ghost use Rattle.std.specs.Prelude.{◌≡◌, ◌≤◌, ◌+◌, true, IfSome, IsErrOf, OnOk, length, vec_capacity};
ghost use Rattle.std.specs.Option.{option_copied};
ghost use Rattle.faults.specs.Count.{Rose};
ghost use Rattle.reduce_step.specs.Limits.{text_limit};
ghost use Rattle.reduce_step.specs.Plan.{asked};
ghost use Rattle.verdict_table.specs.TableState.{IsSound, verdict_in};
ghost use Rattle.ordered_commit.specs.Moves.{kept_of};
ghost use Rattle.ordered_commit.specs.inner.Claiming.{is_absent};
ghost use Rattle.ordered_commit.specs.Kept.{IsKept};
ghost use Rattle.ordered_commit.specs.RecallEnds.{RecallEnds};
ghost use Rattle.ordered_commit.specs.inner.RecallEnds.{RecordsKept, recall_of};
ghost use Rattle.ordered_commit.specs.Writes.{HasSameName};

use crate::board::Board;
use crate::claim_table::ClaimTable;
use crate::claiming::is_absent;
use crate::fault::{BoardFault, PoolFault};
use edge_io::Sink;
use reduce_journal::{Event, write_event};
use reduce_step::Step;
use script_gate_trait::Gate;
use verdict_table::{Kept, Record};

/// The kept verdict on the text that the front asks, where the table doesn't hold the text.
fn next_recall<'a, S: Step>(front: &S, table: &ClaimTable, kept: &'a Kept) -> Option<&'a Record>
    ensures recall { option_copied result ≡ recall_of table.now (kept_of (verdict_in kept.now) (asked (S.plan front.now))) }
    ensures short { IfSome result (λ kept. length kept.now.text ≤ text_limit) }
{
    let text = front.asks()?;
    if is_absent(table, text) {
        kept.record(text)
    } else {
        None
    }
}

impl<S: Step + Drop, G: Gate, J: Sink + Drop> Board<S, G, J> {
    /// Makes a record of the kept verdict on the text that the front asks, and says whether there was one
    /// to be made. It changes nothing that the board has for a worker.
    ///
    /// It costs a look into the table, and one into the kept verdicts. The text isn't copied.
    pub fn recall(&mut self) -> Result<bool, BoardFault>
        ensures ends { RecallEnds S.plan J.put_so_far result self.old self.new }
        ensures kept { IsKept S.plan S.first G.may_say J.put_so_far J.faults self.old }
        ensures seats { self.new.seats ≡ self.old.seats }
        ensures front { self.new.front ≡ self.old.front }
        ensures name { HasSameName J.put_so_far self.old.journal self.new.journal }
        ensures failed { IsErrOf result BoardFault.Journal → Rose (J.faults self.old.journal) (J.faults self.new.journal) }
        ensures quiet { (¬ IsErrOf result BoardFault.Journal) → J.faults self.new.journal ≡ J.faults self.old.journal }
        ensures count { J.faults self.old.journal ≤ J.faults self.new.journal }
    {
        if self.fault.is_some() {
            return Ok(false);
        }
        let Some(kept) = next_recall(&self.front, &self.table, &self.kept) else {
            return Ok(false);
        };
        match record_kept(
            &mut self.table,
            &mut self.events,
            &mut self.journal,
            kept,
            self.seats.len(),
        ) {
            Ok(()) => Ok(true),
            Err(fault) => {
                self.fault = Some(fault.into());
                Err(fault)
            }
        }
    }
}

/// Opens a claim of the text, writes the record, fills the claim, and adds the record to the history; or,
/// where it can't be written, withdraws the claim. The places of the events of so many claims stay free.
fn record_kept<J: Sink>(
    table: &mut ClaimTable,
    events: &mut Vec<Event>,
    journal: &mut J,
    kept: &Record,
    workers: usize,
) -> Result<(), BoardFault>
    requires absent { is_absent table.old kept.now.text ≡ true }
    requires sound { IsSound table.old }
    requires short { length kept.now.text ≤ text_limit }
    requires few { workers ≤ 16 }
    ensures ends { RecordsKept J.put_so_far result kept.now table.old table.new events.old.items events.new.items journal.old journal.new }
    ensures capacity { vec_capacity events.old ≤ vec_capacity events.new }
    ensures places { OnOk result (length events.new.items + workers ≤ vec_capacity events.new) }
    ensures failed { IsErrOf result BoardFault.Journal → Rose (J.faults journal.old) (J.faults journal.new) }
    ensures quiet { (¬ IsErrOf result BoardFault.Journal) → J.faults journal.new ≡ J.faults journal.old }
    ensures count { J.faults journal.old ≤ J.faults journal.new }
{
    events.reserve(workers + 1)?;
    let text = kept.text.share()?;
    let claim = table.claim(kept.text.share()?)?;
    let event = Event::Recorded {
        text,
        verdict: kept.verdict,
        kept: true,
    };
    match write_event(journal, &event) {
        Err(fault) => {
            table.withdraw(claim);
            Err(fault.into())
        }
        Ok(()) => {
            table.fill(claim, kept.verdict);
            events.push(event).unwrap();
            Ok(())
        }
    }
}
