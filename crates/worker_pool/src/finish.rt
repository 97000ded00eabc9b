//! What the calling thread does once the workers have ended.

ghost use Rattle.std.specs.Prelude.{◌≡◌, [], None, Some, IsFalse};
ghost use Rattle.reduce_step.specs.Plan.{HasEnded};
ghost use Rattle.boxcar.specs.Table.{Shows};
ghost use Rattle.ordered_commit.specs.BoardState.{Holds};
ghost use Rattle.ordered_commit.specs.Kept.{IsKept};
ghost use Rattle.ordered_commit.specs.Seats.{Agrees, SameForOthers, claims_held, with_seat};
ghost use Rattle.worker_pool.specs.Runs.{RunMembers};
ghost use Rattle.worker_pool.specs.inner.Runs.{IsOfRun};
ghost use Rattle.worker_pool.specs.inner.Work.{HasWorked};

use crate::moves::{commit_all, give_up, record};
use edge_io::Sink;
use gate_permits::{Permit, Texts, ask_once};
use ordered_commit::{Board, Seat, Take};
use reduce_step::Step;
use script_gate_trait::Gate;
use std::sync::Wait;

/// Asks, and records or gives up.
fn answer<S: Step + Drop, G: Gate, J: Sink + Drop>(
    board: &mut Board<S, G, J>,
    seat: &mut Seat,
    texts: &Texts,
    gate: &mut G,
    permit: Permit,
)
    requires agrees { Agrees board.old.seats seat.old }
    requires claim { seat.old.claim ≡ Some permit.claim }
    requires holds { Holds board.old permit.claim permit.text }
    requires shows { Shows texts.now permit.token }
    ensures run { (run : RunMembers) → IsOfRun S.first J.put_so_far J.faults run board.old → IsOfRun S.first J.put_so_far J.faults run board.new }
    ensures worked { HasWorked seat.old seat.new (G.log gate.old) (G.log gate.new) (G.faults gate.old) (G.faults gate.new) }
    ensures agrees { Agrees board.new.seats seat.new }
    ensures seats { board.new.seats ≡ with_seat seat.new board.old.seats }
    ensures others { SameForOthers seat.old.worker board.old.seats board.new.seats }
    ensures own { seat.new.claim ≡ None }
{
    match ask_once(gate, texts, permit) {
        Ok(answer) => record(board, seat, answer),
        Err(unasked) => give_up(board, seat, unasked),
    }
}

/// Recalls and commits all it can and asks once more, where there is something to ask. Whether there was.
fn turn<S: Step + Drop, G: Gate, J: Sink + Drop, W: Wait>(
    rt: &W,
    texts: &Texts,
    board: &mut Board<S, G, J>,
    seat: &mut Seat,
    gate: &mut G,
) -> bool
    requires agrees { Agrees board.old.seats seat.old }
    requires own { seat.old.claim ≡ None }
    requires free { claims_held board.old.seats ≡ [] }
    ensures run { (run : RunMembers) → IsOfRun S.first J.put_so_far J.faults run board.old → IsOfRun S.first J.put_so_far J.faults run board.new }
    ensures worked { HasWorked seat.old seat.new (G.log gate.old) (G.log gate.new) (G.faults gate.old) (G.faults gate.new) }
    ensures agrees { Agrees board.new.seats seat.new }
    ensures others { SameForOthers seat.old.worker board.old.seats board.new.seats }
    ensures own { seat.new.claim ≡ None }
    ensures free { claims_held board.new.seats ≡ [] }
    ensures over { IsFalse result → board.new.fault ≡ None → HasEnded (S.plan board.new.front) }
{
    let _ = commit_all(board);
    let _ = board.agrees(seat);
    match board.take(rt, texts, seat) {
        Ok(Take::Work(permit)) => {
            answer(board, seat, texts, gate, permit);
            true
        }
        Ok(Take::NotYet) => unreachable!(),
        Ok(Take::Done) => false,
        Ok(Take::Stopped) => false,
        Err(_) => false,
    }
}

/// Goes on until nothing is left to do.
pub(crate) fn finish<S: Step + Drop, G: Gate, J: Sink + Drop, W: Wait>(
    rt: &W,
    texts: &Texts,
    board: &mut Board<S, G, J>,
    seat: &mut Seat,
    gate: &mut G,
)
    requires agrees { Agrees board.old.seats seat.old }
    requires own { seat.old.claim ≡ None }
    requires free { claims_held board.old.seats ≡ [] }
    ensures run { (run : RunMembers) → IsOfRun S.first J.put_so_far J.faults run board.old → IsOfRun S.first J.put_so_far J.faults run board.new }
    ensures worked { HasWorked seat.old seat.new (G.log gate.old) (G.log gate.new) (G.faults gate.old) (G.faults gate.new) }
    ensures agrees { Agrees board.new.seats seat.new }
    ensures others { SameForOthers seat.old.worker board.old.seats board.new.seats }
    ensures own { seat.new.claim ≡ None }
    ensures free { claims_held board.new.seats ≡ [] }
    ensures kept { IsKept S.plan S.first G.may_say J.put_so_far J.faults board.new }
    ensures over { board.new.fault ≡ None → HasEnded (S.plan board.new.front) }
{
    for _ in rt.forever() {
        if !turn(rt, texts, board, seat, gate) {
            let _ = board.agrees(seat);
            return;
        }
    }
    unreachable!()
}
