//! How an answer is recorded, and how a claim ends without one.

ghost use Rattle.std.specs.Prelude.{◌≡◌, ◌≢◌, ◌≤◌, Some, OnErr, OnOk};
ghost use Rattle.faults.specs.Count.{Rose};
ghost use Rattle.reduce_journal.specs.History.{HasShortText};
ghost use Rattle.ordered_commit.specs.declared.fault.PoolFault.TheVariants.{Journal};
ghost use Rattle.ordered_commit.specs.BoardState.{Holds};
ghost use Rattle.ordered_commit.specs.Faults.{ask_fault, kept_fault};
ghost use Rattle.ordered_commit.specs.RecordEnds.{IsRecorded, RecordEnds};
ghost use Rattle.ordered_commit.specs.Seats.{Agrees, SameForOthers, with_seat, without_claim};
ghost use Rattle.ordered_commit.specs.Writes.{HasSameName, IsPartlyWritten, IsWrittenUnlessBroken};

use crate::board::Board;
use crate::fault::{PoolFault, ask_fault, kept_fault};
use crate::seat::{Seat, put_seat, with_record, without_claim};
use edge_io::{Sink, SinkFault};
use gate_permits::{Answer, Unasked};
use reduce_journal::{Event, write_event};
use reduce_step::Step;
use script_gate_trait::Gate;

/// Writes the event, but while a journal fault is kept nothing.
fn write_unless_broken<J: Sink>(
    journal: &mut J,
    fault: Option<PoolFault>,
    event: &Event,
) -> Result<(), SinkFault>
    requires { HasShortText event.now }
    ensures ok { OnOk result (IsWrittenUnlessBroken J.put_so_far fault event.now journal.old journal.new) }
    ensures err { OnErr result (IsPartlyWritten J.put_so_far event.now journal.old journal.new) }
    ensures whole { OnErr result (fault ≢ Some Journal) }
    ensures failed { OnErr result (Rose (J.faults journal.old) (J.faults journal.new)) }
    ensures quiet { OnOk result (J.faults journal.new ≡ J.faults journal.old) }
    ensures count { J.faults journal.old ≤ J.faults journal.new }
{
    match fault {
        Some(PoolFault::Journal) => Ok(()),
        None | Some(PoolFault::Script { .. } | PoolFault::Memory(_)) => write_event(journal, event),
    }
}

impl<S: Step + Drop, G: Gate, J: Sink + Drop> Board<S, G, J> {
    /// Records the answer to the claim that the seat holds, which frees the seat, and answers the number
    /// of the record, from 1. It takes no memory. Where the record can't be written it is made all the
    /// same, and the fault is kept.
    pub fn record(&mut self, seat: &mut Seat, answer: Answer<G>) -> Result<u64, SinkFault>
        requires agrees { Agrees self.old.seats seat.old }
        requires claim { seat.old.claim ≡ Some answer.claim }
        requires holds { Holds self.old answer.claim answer.text }
        ensures recorded { IsRecorded S.plan answer seat.old seat.new self.old self.new }
        ensures ends { RecordEnds J.put_so_far result answer self.old self.new }
        ensures agrees { Agrees self.new.seats seat.new }
        ensures others { SameForOthers seat.old.worker self.old.seats self.new.seats }
        ensures name { HasSameName J.put_so_far self.old.journal self.new.journal }
        ensures failed { OnErr result (Rose (J.faults self.old.journal) (J.faults self.new.journal)) }
        ensures quiet { OnOk result (J.faults self.new.journal ≡ J.faults self.old.journal) }
        ensures count { J.faults self.old.journal ≤ J.faults self.new.journal }
    {
        let verdict = answer.verdict();
        let filled = self.table.fill(answer.claim(), verdict);
        let (number, text) = filled;
        *seat = with_record(*seat);
        put_seat(&mut self.seats, *seat);
        answer.spend();
        let event = Event::Recorded {
            text,
            verdict,
            kept: false,
        };
        let written = write_unless_broken(&mut self.journal, self.fault, &event);
        self.events.push(event).unwrap();
        match written {
            Ok(()) => Ok(number),
            Err(fault) => {
                self.fault = Some(PoolFault::Journal);
                Err(fault)
            }
        }
    }

    /// Ends the claim that the seat holds without a verdict: its text stays claimed, and a fault is kept
    /// from now on. It takes no memory.
    pub fn give_up(&mut self, seat: &mut Seat, unasked: Unasked)
        requires agrees { Agrees self.old.seats seat.old }
        requires claim { seat.old.claim ≡ Some unasked.permit.claim }
        ensures seat { seat.new ≡ without_claim unasked.fault seat.old }
        ensures board { self.new ≡ record self.old {
          seats = with_seat seat.new self.old.seats;
          fault = Some (kept_fault self.old.fault (ask_fault seat.old.worker unasked.fault));
        } }
        ensures agrees { Agrees self.new.seats seat.new }
        ensures others { SameForOthers seat.old.worker self.old.seats self.new.seats }
    {
        let (_, fault) = unasked.spend();
        *seat = without_claim(*seat, fault);
        put_seat(&mut self.seats, *seat);
        let kept = kept_fault(self.fault, ask_fault(seat.worker, fault));
        self.fault = Some(kept);
    }
}
