//! What a worker does to the board, each under one lock.

ghost use Rattle.std.specs.Prelude.{◌≡◌, ◌<◌, None, Some, IfOk, IsFalse, IsTrue};
ghost use Rattle.ordered_commit.specs.BoardState.{Holds, IsSettled};
ghost use Rattle.ordered_commit.specs.Seats.{Agrees, SameForOthers, with_record, with_seat, without_claim};
ghost use Rattle.ordered_commit.specs.TakeEnds.{IsShown};
ghost use Rattle.worker_pool.specs.inner.UnderWay.{moves_left};
ghost use Rattle.worker_pool.specs.Runs.{RunMembers};
ghost use Rattle.worker_pool.specs.inner.Runs.{IsOfRun};
ghost use Rattle.worker_pool.specs.inner.Work.{TakesSeat};

use edge_io::Sink;
use faults::Memory;
use gate_permits::{Answer, Texts, Unasked};
use ordered_commit::{Board, Seat, Take};
use reduce_step::Step;
use script_gate_trait::Gate;
use std::sync::Wait;

/// Recalls what the front asks where a verdict is kept for it, and answers the front as long as what it
/// asks has a record. Whether it recalled or answered at all.
pub(crate) fn commit_all<S: Step + Drop, G: Gate, J: Sink + Drop>(
    board: &mut Board<S, G, J>,
) -> bool
    ensures run { (run : RunMembers) → IsOfRun S.first J.put_so_far J.faults run board.old → IsOfRun S.first J.put_so_far J.faults run board.new }
    ensures seats { board.new.seats ≡ board.old.seats }
    ensures settled { IsSettled S.plan board.new }
{
    let mut moved = false;
    while recall_or_commit(board) {
        moved = true;
    }
    moved
}

/// Recalls once, or else commits once. False where neither was done: an error ends it as well, whose fault
/// the board keeps.
fn recall_or_commit<S: Step + Drop, G: Gate, J: Sink + Drop>(board: &mut Board<S, G, J>) -> bool
    ensures run { (run : RunMembers) → IsOfRun S.first J.put_so_far J.faults run board.old → IsOfRun S.first J.put_so_far J.faults run board.new }
    ensures seats { board.new.seats ≡ board.old.seats }
    ensures settled { IsFalse result → IsSettled S.plan board.new }
    ensures fewer { IsTrue result → moves_left S.plan board.new < moves_left S.plan board.old }
{
    if board.recall().unwrap_or(false) {
        return true;
    }
    board.commit().unwrap_or(false)
}

/// Recalls and commits all it can, and takes. `moved` says then whether it recalled or committed.
pub(crate) fn next<S: Step + Drop, G: Gate, J: Sink + Drop, W: Wait>(
    rt: &W,
    texts: &Texts,
    board: &mut Board<S, G, J>,
    seat: &mut Seat,
    moved: &mut bool,
) -> Result<Take, Memory>
    requires agrees { Agrees board.old.seats seat.old }
    requires free { seat.old.claim ≡ None }
    ensures run { (run : RunMembers) → IsOfRun S.first J.put_so_far J.faults run board.old → IsOfRun S.first J.put_so_far J.faults run board.new }
    ensures seat { TakesSeat result seat.old seat.new }
    ensures shows { IfOk result (IsShown texts.now) }
    ensures agrees { Agrees board.new.seats seat.new }
    ensures others { SameForOthers seat.old.worker board.old.seats board.new.seats }
{
    *moved = commit_all(board);
    let _ = board.agrees(seat);
    board.take(rt, texts, seat)
}

/// Records an answer. Where it can't be written the board keeps the fault.
pub(crate) fn record<S: Step + Drop, G: Gate, J: Sink + Drop>(
    board: &mut Board<S, G, J>,
    seat: &mut Seat,
    answer: Answer<G>,
)
    requires agrees { Agrees board.old.seats seat.old }
    requires claim { seat.old.claim ≡ Some answer.claim }
    requires holds { Holds board.old answer.claim answer.text }
    ensures run { (run : RunMembers) → IsOfRun S.first J.put_so_far J.faults run board.old → IsOfRun S.first J.put_so_far J.faults run board.new }
    ensures seat { seat.new ≡ with_record seat.old }
    ensures agrees { Agrees board.new.seats seat.new }
    ensures seats { board.new.seats ≡ with_seat seat.new board.old.seats }
    ensures others { SameForOthers seat.old.worker board.old.seats board.new.seats }
{
    let _ = board.record(seat, answer);
}

/// Gives a claim up.
pub(crate) fn give_up<S: Step + Drop, G: Gate, J: Sink + Drop>(
    board: &mut Board<S, G, J>,
    seat: &mut Seat,
    unasked: Unasked,
)
    requires agrees { Agrees board.old.seats seat.old }
    requires claim { seat.old.claim ≡ Some unasked.permit.claim }
    ensures run { (run : RunMembers) → IsOfRun S.first J.put_so_far J.faults run board.old → IsOfRun S.first J.put_so_far J.faults run board.new }
    ensures seat { seat.new ≡ without_claim unasked.fault seat.old }
    ensures agrees { Agrees board.new.seats seat.new }
    ensures seats { board.new.seats ≡ with_seat seat.new board.old.seats }
    ensures others { SameForOthers seat.old.worker board.old.seats board.new.seats }
{
    board.give_up(seat, unasked);
}
