//! How the front is answered with what was recorded.

ghost use Rattle.std.specs.Prelude.{◌≡◌, ◌≤◌, ◌<◌, ◌+◌, IsSome, IsErrOf, length, vec_capacity};
ghost use Rattle.faults.specs.Count.{Rose};
ghost use Rattle.reduce_step.specs.Plan.{asked};
ghost use Rattle.ordered_commit.specs.CommitEnds.{CommitEnds};
ghost use Rattle.ordered_commit.specs.inner.CommitEnds.{WritesCommit};
ghost use Rattle.ordered_commit.specs.inner.Numbers.{number_asked};
ghost use Rattle.ordered_commit.specs.Writes.{HasSameName};

use crate::board::Board;
use crate::claim_table::ClaimTable;
use crate::fault::{BoardFault, PoolFault};
use edge_io::Sink;
use faults::Memory;
use reduce_journal::{Event, write_event};
use reduce_step::Step;
use script_gate_trait::{Gate, Verdict};
use verdict_table::Found;

/// The number and the verdict of the record of the text that the front asks.
fn next_commit<S: Step>(front: &S, table: &ClaimTable) -> Option<(u64, Verdict)>
    ensures { result ≡ number_asked (asked (S.plan front.now)) table.now }
{
    let text = front.asks()?;
    match table.find(text) {
        Found::Filled {
            number,
            verdict,
            ..
        } => Some((number, verdict)),
        Found::Absent | Found::Claimed(_) => None,
    }
}

/// Writes the commit of this number, adds it to the history, where its place is reserved, and answers the
/// front.
fn commit_record<S: Step, J: Sink>(
    front: &mut S,
    events: &mut Vec<Event>,
    journal: &mut J,
    number: u64,
    verdict: Verdict,
) -> Result<(), BoardFault>
    requires asking { IsSome (asked (S.plan front.old)) }
    requires place { length events.old.items < vec_capacity events.old }
    ensures ends { WritesCommit S.plan J.put_so_far number verdict result front.old front.new events.old.items events.new.items journal.old journal.new }
    ensures capacity { vec_capacity events.old ≤ vec_capacity events.new }
    ensures one { length events.new.items ≤ length events.old.items + 1 }
    ensures first { S.first front.new ≡ S.first front.old }
    ensures failed { IsErrOf result BoardFault.Journal → Rose (J.faults journal.old) (J.faults journal.new) }
    ensures quiet { (¬ IsErrOf result BoardFault.Journal) → J.faults journal.new ≡ J.faults journal.old }
    ensures count { J.faults journal.old ≤ J.faults journal.new }
{
    let event = Event::Committed { number };
    write_event(journal, &event)?;
    events.push(event).unwrap();
    front.answer(verdict)?;
    Ok(())
}

impl<S: Step + Drop, G: Gate, J: Sink + Drop> Board<S, G, J> {
    /// Answers the front with the record of the text that it asks, and says whether there was one. After
    /// `Memory` the front may be spent; the board keeps the fault, and answers the front no more.
    ///
    /// It costs a look into the table, and what the front's answer costs.
    pub fn commit(&mut self) -> Result<bool, BoardFault>
        ensures ends { CommitEnds S.plan J.put_so_far result self.old self.new }
        ensures table { self.new.table ≡ self.old.table }
        ensures seats { self.new.seats ≡ self.old.seats }
        ensures start { self.new.start ≡ self.old.start }
        ensures kept { self.new.kept ≡ self.old.kept }
        ensures first { S.first self.new.front ≡ S.first self.old.front }
        ensures name { HasSameName J.put_so_far self.old.journal self.new.journal }
        ensures failed { IsErrOf result BoardFault.Journal → Rose (J.faults self.old.journal) (J.faults self.new.journal) }
        ensures quiet { (¬ IsErrOf result BoardFault.Journal) → J.faults self.new.journal ≡ J.faults self.old.journal }
        ensures count { J.faults self.old.journal ≤ J.faults self.new.journal }
    {
        if self.fault.is_some() {
            return Ok(false);
        }
        let Some((number, verdict)) = next_commit(&self.front, &self.table) else {
            return Ok(false);
        };
        if let Err(refused) = self.events.reserve(self.seats.len() + 1) {
            let memory = Memory::from(refused);
            self.fault = Some(PoolFault::Memory(memory));
            return Err(BoardFault::Memory(memory));
        }
        match commit_record(
            &mut self.front,
            &mut self.events,
            &mut self.journal,
            number,
            verdict,
        ) {
            Ok(()) => Ok(true),
            Err(fault) => {
                self.fault = Some(fault.into());
                Err(fault)
            }
        }
    }
}
