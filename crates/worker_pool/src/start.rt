//! The run.

ghost use Rattle.std.specs.Prelude.{◌≡◌, ◌≤◌, None, All, length, slice_index_or};
ghost use Rattle.ordered_commit.specs.Made.{new_board};
ghost use Rattle.ordered_commit.specs.Seats.{new_seats};
ghost use Rattle.worker_pool.specs.Ends.{AreDone, IsOfOne, IsOutcome};
ghost use Rattle.worker_pool.specs.Runs.{members};

use crate::alone::run_alone;
use crate::pool::run_several;
use crate::worker::Worker;
use edge_io::Sink;
use faults::Memory;
use gate_permits::Texts;
use ordered_commit::{Board, Outcome, PoolFault, Seat};
use reduce_step::Step;
use script_gate_trait::Gate;
use std::sync::Wait;
use std::thread::Threads;

/// What there is where memory ran out before any worker began.
fn without_texts<S: Step + Drop, G: Gate, J: Sink + Drop>(
    board: Board<S, G, J>,
    seats: Vec<Seat>,
    workers: &[Worker<G>],
    memory: Memory,
) -> Outcome<S, J>
    requires board { board ≡ new_board (length workers.now) board.start board.kept board.front board.journal }
    requires seats { seats.items ≡ new_seats (length workers.now) }
    requires unseated { All (λ w. w.seat ≡ None) workers.now }
    ensures outcome { IsOutcome S.plan S.first G.may_say J.put_so_far J.faults (members S.first J.put_so_far J.faults (length workers.now) board) result }
    ensures workers { AreDone G.log G.faults result.fault result.events.items workers.now workers.now }
    ensures one { (d : _) → IsOfOne S.plan G.log G.faults J.put_so_far J.faults (members S.first J.put_so_far J.faults (length workers.now) board) result
        (slice_index_or workers.now 0 d) (slice_index_or workers.now 0 d) }
{
    let _ = workers;
    let mut outcome = board.end(seats);
    outcome.fault = Some(PoolFault::Memory(memory));
    outcome
}

/// Runs the only worker in the calling thread.
fn run_one<S: Step + Drop, G: Gate, J: Sink + Drop, W: Wait>(
    rt: &W,
    texts: &Texts,
    board: Board<S, G, J>,
    seats: Vec<Seat>,
    workers: &mut [Worker<G>],
) -> Outcome<S, J>
    requires only { length workers.old ≡ 1 }
    requires board { board ≡ new_board 1 board.start board.kept board.front board.journal }
    requires seats { seats.items ≡ new_seats 1 }
    requires unseated { All (λ w. w.seat ≡ None) workers.old }
    ensures outcome { IsOutcome S.plan S.first G.may_say J.put_so_far J.faults (members S.first J.put_so_far J.faults 1 board) result }
    ensures workers { AreDone G.log G.faults result.fault result.events.items workers.old workers.new }
    ensures one { (d : _) → IsOfOne S.plan G.log G.faults J.put_so_far J.faults (members S.first J.put_so_far J.faults 1 board) result
        (slice_index_or workers.old 0 d) (slice_index_or workers.new 0 d) }
{
    let _ = board.agrees(&seats[0]);
    run_alone(rt, texts, board, seats, &mut workers[0].gate)
}

/// Runs the workers over a new board until nothing is left to do: each recalls and commits all it can and
/// takes under one lock, asks its gate outside of it, and records or gives up under it. A text that has a
/// kept verdict is never asked about. The first fault that a worker meets is in the outcome, and ends the
/// run once all have come back; a journal fault takes the place of any other.
///
/// Several workers work each in a thread of its own where one can be made, and one after another where
/// not. One worker works in the calling thread. It doesn't return before all scripts have.
pub fn run_workers<
    S: Step + Drop + Send,
    G: Gate + Send,
    J: Sink + Drop + Send,
    W: Threads + Wait + Sync,
>(rt: &W, board: Board<S, G, J>, seats: Vec<Seat>, workers: &mut [Worker<G>]) -> Outcome<S, J>
    requires some { (1 ≤ length workers.old) × (length workers.old ≤ 16) }
    requires board { board ≡ new_board (length workers.old) board.start board.kept board.front board.journal }
    requires seats { seats.items ≡ new_seats (length workers.old) }
    requires unseated { All (λ w. w.seat ≡ None) workers.old }
    ensures outcome { IsOutcome S.plan S.first G.may_say J.put_so_far J.faults (members S.first J.put_so_far J.faults (length workers.old) board) result }
    ensures workers { AreDone G.log G.faults result.fault result.events.items workers.old workers.new }
    ensures one { length workers.old ≡ 1 → (d : _)
        → IsOfOne S.plan G.log G.faults J.put_so_far J.faults (members S.first J.put_so_far J.faults 1 board) result (slice_index_or workers.old 0 d)
        (slice_index_or workers.new 0 d) }
{
    match Texts::new(*seats.allocator()) {
        Err(refused) => without_texts(board, seats, workers, Memory::from(refused)),
        Ok(texts) => {
            if workers.len() == 1 {
                run_one(rt, &texts, board, seats, workers)
            } else {
                run_several(rt, &texts, board, seats, workers)
            }
        }
    }
}
