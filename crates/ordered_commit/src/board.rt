//! A board: how it is made, what it shows, and what it comes to.

ghost use Rattle.std.specs.Prelude.{◌≡◌, ◌≤◌, ◌↔◌, [], IfErr, IfOk, IfSome, IsTrue, OnOk, length};
ghost use Rattle.faults.specs.Count.{Rose};
ghost use Rattle.ordered_commit.specs.BoardState.{Holds};
ghost use Rattle.ordered_commit.specs.Kept.{IsKept, IsOfWorker};
ghost use Rattle.ordered_commit.specs.Made.{HasHead, IsRefusedWith, new_board};
ghost use Rattle.ordered_commit.specs.Outcomes.{AreOfSeats, IsFollowed};
ghost use Rattle.ordered_commit.specs.Seats.{Agrees, AreFreeSeats, new_seats};
ghost use Rattle.ordered_commit.specs.Writes.{HasSameName};

use crate::claim_table::ClaimTable;
use crate::claiming::is_claimed;
use crate::fault::{BoardFault, PoolFault};
use crate::outcome::{Outcome, Refused};
use crate::seat::{Seat, is_held, new_seats, seat_of};
use edge_io::Sink;
use reduce_journal::{Digest, Event, write_head};
use reduce_step::Step;
use script_gate_trait::Gate;
use std::alloc::Global;
use std::marker::{Model, PhantomData};
use verdict_table::Kept;

/// What the workers of one run share: the front, which is the reducer that is committed to; the records
/// and open claims; the history, and the journal that it is written to; the verdicts that are kept from an
/// earlier run; and the fault that is kept, if any. Contracts see these, a seat for each worker, and the
/// digest of the start. `G` is the type of the workers' gates.
#[derive(Drop)]
pub struct Board<S: Step + Drop, G: Gate, J: Sink + Drop> {
    pub(crate) front: S,
    pub(crate) table: ClaimTable,
    pub(crate) events: Vec<Event>,
    pub(crate) journal: J,
    pub(crate) fault: Option<PoolFault>,
    pub(crate) seats: Vec<Seat>,
    start: Digest,
    pub(crate) kept: Kept,
    gate: PhantomData<G>,
}

impl<S: Step + Drop, G: Gate, J: Sink + Drop> Model for Board<S, G, J> {
    ghost use Rattle.std.specs.Prelude.{◌+◌, ◌≤◌, length, vec_capacity};
    ghost use Rattle.ordered_commit.specs.BoardState.{BoardState};
    ghost use Rattle.ordered_commit.specs.Kept.{IsKept};
    ghost use Rattle.ordered_commit.specs.Seats.{claims_held};

    ghost Value = { BoardState S J };

    ghost view = { λ board. record {
      front = board.front;
      table = board.table;
      history = board.events.items;
      journal = board.journal;
      fault = board.fault;
      seats = board.seats.items;
      start = board.start;
      kept = board.kept;
    } };

    ghost invariant = { λ board. record {
      kept : IsKept S.plan S.first G.may_say J.put_so_far J.faults (record {
        front = board.front;
        table = board.table;
        history = board.events.items;
        journal = board.journal;
        fault = board.fault;
        seats = board.seats.items;
        start = board.start;
        kept = board.kept;
      });
      event_capacity : length board.events.items + length (claims_held board.seats.items) ≤ vec_capacity board.events;
    } };
}

/// The seats of a board's workers, twice, and the head in its journal.
fn begin<J: Sink>(
    alloc: Global,
    journal: &mut J,
    workers: u32,
    start: &Digest,
) -> Result<(Vec<Seat>, Vec<Seat>), BoardFault>
    ensures own { IfOk result (λ begun. begun.0.items ≡ new_seats workers) }
    ensures lent { IfOk result (λ begun. begun.1.items ≡ new_seats workers) }
    ensures head { OnOk result (HasHead J.put_so_far start.now journal.old journal.new) }
    ensures refused { IfErr result (λ fault. IsRefusedWith J.put_so_far start.now fault journal.old journal.new) }
    ensures failed { IfErr result (λ fault. fault ≡ BoardFault.Journal → Rose (J.faults journal.old) (J.faults journal.new)) }
    ensures quiet { OnOk result (J.faults journal.new ≡ J.faults journal.old) }
{
    let own = new_seats(alloc, workers)?;
    let lent = new_seats(alloc, workers)?;
    write_head(journal, start)?;
    Ok((own, lent))
}

impl<S: Step + Drop, G: Gate, J: Sink + Drop> Board<S, G, J> {
    /// A board of so many workers over a new reducer of the start that has this digest, and an empty
    /// journal, which gets its head; and a seat for each worker, in order. The texts that have a kept verdict
    /// aren't asked about. Where there is no board, the front and the journal are handed back.
    pub fn new(
        alloc: Global,
        front: S,
        journal: J,
        workers: u32,
        start: Digest,
        kept: Kept,
    ) -> Result<(Board<S, G, J>, Vec<Seat>), Refused<S, J>>
        requires workers { (1 ≤ workers) × (workers ≤ 16) }
        requires first { S.first front ≡ S.plan front }
        requires empty { IfSome (J.put_so_far journal) (λ put. put.bytes ≡ []) }
        ensures board { IfOk result (λ made. made.0 ≡ new_board workers start kept front made.0.journal) }
        ensures seats { IfOk result (λ made. made.1.items ≡ new_seats workers) }
        ensures free { IfOk result (λ made. AreFreeSeats made.0.seats made.1.items) }
        ensures head { IfOk result (λ made. HasHead J.put_so_far start journal made.0.journal) }
        ensures name { IfOk result (λ made. HasSameName J.put_so_far journal made.0.journal) }
        ensures quiet { IfOk result (λ made. J.faults made.0.journal ≡ J.faults journal) }
        ensures front { IfErr result (λ refused. refused.front ≡ front) }
        ensures refused { IfErr result (λ refused. IsRefusedWith J.put_so_far start refused.fault journal refused.journal) }
        ensures kept_name { IfErr result (λ refused. HasSameName J.put_so_far journal refused.journal) }
        ensures failed { IfErr result (λ refused. refused.fault ≡ BoardFault.Journal → Rose (J.faults journal) (J.faults refused.journal)) }
    {
        let mut journal = journal;
        match begin(alloc, &mut journal, workers, &start) {
            Err(fault) => Err(Refused {
                front,
                journal,
                fault,
            }),
            Ok((own, lent)) => {
                let board = Board {
                    front,
                    table: ClaimTable::new(alloc),
                    events: Vec::new(alloc),
                    journal,
                    fault: None,
                    seats: own,
                    start,
                    kept,
                    gate: PhantomData,
                };
                Ok((board, lent))
            }
        }
    }

    /// Whether the seat is that of one of this board's workers, and all that it says is what the board
    /// has for it. It takes no memory. Every caller knows by it what holds of a board.
    pub fn agrees(&self, seat: &Seat) -> bool
        ensures agrees { IsTrue result ↔ Agrees self.now.seats seat.now }
        ensures kept { IsKept S.plan S.first G.may_say J.put_so_far J.faults self.now }
    {
        match seat_of(&self.seats, seat.worker) {
            Some(own) => own == seat,
            None => false,
        }
    }

    /// Whether a worker holds the claim with this number, and it is of this text. It takes no memory.
    pub fn holds(&self, claim: u64, text: &[u8]) -> bool
        ensures { IsTrue result ↔ Holds self.now claim text.now }
    {
        is_held(&self.seats, claim) && is_claimed(&self.table, text, claim)
    }

    /// How many workers it has. It takes no memory.
    pub fn workers(&self) -> usize
        ensures { result ≡ length self.now.seats }
    {
        self.seats.len()
    }

    /// What the board has come to, once no worker holds a claim. It takes no memory.
    pub fn end(self, seats: Vec<Seat>) -> Outcome<S, J>
        requires { AreFreeSeats self.seats seats.items }
        ensures front { result.front ≡ self.front }
        ensures journal { result.journal ≡ self.journal }
        ensures events { result.events.items ≡ self.history }
        ensures fault { result.fault ≡ self.fault }
        ensures kept { IsKept S.plan S.first G.may_say J.put_so_far J.faults self }
        ensures followed { IsFollowed S.plan S.first self }
        ensures records { AreOfSeats seats.items self }
        ensures failed { IsOfWorker self.fault seats.items }
    {
        let _ = seats;
        let Board {
            front,
            table: _,
            events,
            journal,
            fault,
            seats: _,
            start: _,
            kept: _,
            gate: _,
        } = self;
        Outcome {
            front,
            journal,
            events,
            fault,
        }
    }
}
