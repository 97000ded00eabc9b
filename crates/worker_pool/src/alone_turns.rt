//! What an only worker does in one turn.

ghost use Rattle.std.specs.Prelude.{◌≡◌, ◌≤◌, ◌<◌, ℕ, None, Option, IsFalse, IsTrue};
ghost use Rattle.script_gate_trait.specs.declared.log.Log.{Log};
ghost use Rattle.boxcar.specs.Table.{Shows};
ghost use Rattle.reduce_step.specs.Plan.{HasEnded};
ghost use Rattle.ordered_commit.specs.declared.seat.Seat.{Seat as WorkerSeat};
ghost use Rattle.ordered_commit.specs.BoardState.{IsSettled};
ghost use Rattle.worker_pool.specs.inner.UnderWay.{IsAsking, IsFree, IsUnderWay, Moment, moment, moves_left};

use edge_io::Sink;
use gate_permits::{Permit, Texts, ask_once};
use ordered_commit::{Board, Seat, Take};
use reduce_step::Step;
use script_gate_trait::Gate;
use std::sync::Wait;

/// Recalls once, or else commits once. False where neither was done: an error ends it as well, whose fault
/// the board keeps.
fn recall_or_commit<S: Step + Drop, G: Gate, J: Sink + Drop>(board: &mut Board<S, G, J>) -> bool
    ensures way { (start : Moment) (seat : WorkerSeat) (log : Option Log) (faults : ℕ)
        → IsUnderWay start (moment S.first S.plan J.put_so_far J.faults board.old log faults) seat
        → IsUnderWay start (moment S.first S.plan J.put_so_far J.faults board.new log faults) seat }
    ensures free { (seat : WorkerSeat) → IsFree seat board.old → IsFree seat board.new }
    ensures settled { IsFalse result → IsSettled S.plan board.new }
    ensures most { moves_left S.plan board.new ≤ moves_left S.plan board.old }
    ensures fewer { IsTrue result → moves_left S.plan board.new < moves_left S.plan board.old }
{
    if board.recall().unwrap_or(false) {
        return true;
    }
    board.commit().unwrap_or(false)
}

/// Recalls what the front asks where a verdict is kept for it, and answers the front as long as what it
/// asks has a record. An error ends it as well: the board keeps the fault.
pub(crate) fn commit_all<S: Step + Drop, G: Gate, J: Sink + Drop>(board: &mut Board<S, G, J>)
    ensures way { (start : Moment) (seat : WorkerSeat) (log : Option Log) (faults : ℕ)
        → IsUnderWay start (moment S.first S.plan J.put_so_far J.faults board.old log faults) seat
        → IsUnderWay start (moment S.first S.plan J.put_so_far J.faults board.new log faults) seat }
    ensures free { (seat : WorkerSeat) → IsFree seat board.old → IsFree seat board.new }
    ensures settled { IsSettled S.plan board.new }
    ensures most { moves_left S.plan board.new ≤ moves_left S.plan board.old }
{
    while recall_or_commit(board) {}
}

/// Asks the gate about the text that the seat has claimed, and records the answer, or gives the claim up.
/// Where the record can't be written the board keeps the fault.
fn ask_and_record<S: Step + Drop, G: Gate, J: Sink + Drop>(
    board: &mut Board<S, G, J>,
    seat: &mut Seat,
    texts: &Texts,
    gate: &mut G,
    permit: Permit,
)
    requires asking { IsAsking S.plan permit seat.old board.old }
    requires shows { Shows texts.now permit.token }
    ensures way { (start : Moment)
        → IsUnderWay start (moment S.first S.plan J.put_so_far J.faults board.old (G.log gate.old) (G.faults gate.old)) seat.old
        → IsUnderWay start (moment S.first S.plan J.put_so_far J.faults board.new (G.log gate.new) (G.faults gate.new)) seat.new }
    ensures free { IsFree seat.new board.new }
    ensures fewer { moves_left S.plan board.new < moves_left S.plan board.old }
{
    match ask_once(gate, texts, permit) {
        Ok(answer) => {
            let _ = board.record(seat, answer);
        }
        Err(unasked) => board.give_up(seat, unasked),
    }
}

/// Asks once, where there is something to ask, and answers the front with what is recorded then. Whether
/// there was something.
pub(crate) fn turn<S: Step + Drop, G: Gate, J: Sink + Drop, W: Wait>(
    rt: &W,
    texts: &Texts,
    board: &mut Board<S, G, J>,
    seat: &mut Seat,
    gate: &mut G,
) -> bool
    requires free { IsFree seat.old board.old }
    requires settled { IsSettled S.plan board.old }
    ensures way { (start : Moment)
        → IsUnderWay start (moment S.first S.plan J.put_so_far J.faults board.old (G.log gate.old) (G.faults gate.old)) seat.old
        → IsUnderWay start (moment S.first S.plan J.put_so_far J.faults board.new (G.log gate.new) (G.faults gate.new)) seat.new }
    ensures free { IsFree seat.new board.new }
    ensures settled { IsSettled S.plan board.new }
    ensures fewer { IsTrue result → moves_left S.plan board.new < moves_left S.plan board.old }
    ensures over { IsFalse result → board.new.fault ≡ None → HasEnded (S.plan board.new.front) }
{
    match board.take(rt, texts, seat) {
        Ok(Take::Work(permit)) => {
            ask_and_record(board, seat, texts, gate, permit);
            commit_all(board);
            true
        }
        Ok(Take::NotYet) => unreachable!(),
        Ok(Take::Done) => false,
        Ok(Take::Stopped) => false,
        Err(_) => false,
    }
}
