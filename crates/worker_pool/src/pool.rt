//! The run of several workers, and what comes after their work.

ghost use Rattle.std.specs.Prelude.{◌≡◌, ◌<◌, ◌≤◌, ℕ, None, Some, All, IsSome, length, map, slice_index_or};
ghost use Rattle.std.specs.List.{range_with_len};
ghost use Rattle.reduce_step.specs.Plan.{HasEnded};
ghost use Rattle.ordered_commit.specs.Kept.{IsKept};
ghost use Rattle.ordered_commit.specs.Made.{new_board};
ghost use Rattle.ordered_commit.specs.Seats.{Agrees, AreFreeSeats, new_seats};
ghost use Rattle.worker_pool.specs.Ends.{AreDone, IsOutcome};
ghost use Rattle.worker_pool.specs.inner.Ends.{GoesOn, HasDone, IsBrought, IsLeft, IsTaken};
ghost use Rattle.worker_pool.specs.Runs.{members};
ghost use Rattle.worker_pool.specs.inner.Runs.{IsOfRun};

use crate::finish::finish;
use crate::run::{Run, Shared};
use crate::worker::{Worker, work_all};
use edge_io::Sink;
use gate_permits::Texts;
use ordered_commit::{Board, Outcome, Seat};
use reduce_step::Step;
use script_gate_trait::Gate;
use std::marker::{Brand, PhantomData};
use std::sync::{Condvar, Mutex, Wait};
use std::thread::Threads;

/// Takes the worker's seat back, and waits until the board agrees with it.
fn take_back<S: Step + Drop, G: Gate, J: Sink + Drop, W: Wait>(
    rt: &W,
    board: &Board<S, G, J>,
    worker: &mut Worker<G>,
    seat: &mut Seat,
)
    requires { IsSome worker.old.seat }
    ensures left { IsLeft worker.old worker.new }
    ensures seat { worker.old.seat ≡ Some seat.new }
    ensures agrees { Agrees board.now.seats seat.new }
    ensures kept { IsKept S.plan S.first G.may_say J.put_so_far J.faults board.now }
{
    if let Some(own) = worker.seat.take() {
        *seat = own;
    }
    for _ in rt.forever() {
        if board.agrees(seat) {
            return;
        }
    }
    unreachable!()
}

/// Takes all seats back.
fn take_all_back<S: Step + Drop, G: Gate, J: Sink + Drop, W: Wait>(
    rt: &W,
    board: &Board<S, G, J>,
    workers: &mut [Worker<G>],
    seats: &mut [Seat],
)
    requires lengths { length workers.old ≡ length seats.old }
    requires some { 0 < length seats.old }
    requires had { All (λ w. IsSome w.seat) workers.old }
    ensures workers { length workers.new ≡ length workers.old }
    ensures seats { length seats.new ≡ length seats.old }
    ensures left { (i : ℕ) (d : _) → i < length workers.old → IsLeft (slice_index_or workers.old i d) (slice_index_or workers.new i d) }
    ensures each { (i : ℕ) (d : _) (e : _) → i < length workers.old → (slice_index_or workers.old i d).seat ≡ Some (slice_index_or seats.new i e) }
    ensures agree { All (Agrees board.now.seats) seats.new }
    ensures kept { IsKept S.plan S.first G.may_say J.put_so_far J.faults board.now }
{
    for i in 0..workers.len() {
        take_back(rt, board, &mut workers[i], &mut seats[i]);
    }
}

/// Goes on with the first worker until nothing is left to do.
fn finish_first<S: Step + Drop, G: Gate, J: Sink + Drop, R: Run, W: Wait>(
    rt: &W,
    texts: &Texts,
    of: PhantomData<R>,
    board: &mut Board<S, G, J>,
    seats: &mut [Seat],
    workers: &mut [Worker<G>],
)
    requires lengths { length workers.old ≡ length seats.old }
    requires some { 0 < length seats.old }
    requires of_run { IsOfRun S.first J.put_so_far J.faults R.run board.old }
    requires kept { IsKept S.plan S.first G.may_say J.put_so_far J.faults board.old }
    requires numbers { map (λ s. s.worker) seats.old ≡ range_with_len 1 R.run.workers }
    requires agree { All (Agrees board.old.seats) seats.old }
    requires free { All (λ s. s.claim ≡ None) seats.old }
    ensures of_run { IsOfRun S.first J.put_so_far J.faults R.run board.new }
    ensures workers { length workers.new ≡ length workers.old }
    ensures seats { length seats.new ≡ length seats.old }
    ensures each { (i : ℕ) (d : _) (e : _) → i < length workers.old
        → GoesOn G.log G.faults (slice_index_or seats.old i e) (slice_index_or seats.new i e) (slice_index_or workers.old i d)
        (slice_index_or workers.new i d) }
    ensures free { AreFreeSeats board.new.seats seats.new }
    ensures over { board.new.fault ≡ None → HasEnded (S.plan board.new.front) }
{
    let _ = of;
    finish(rt, texts, board, &mut seats[0], &mut workers[0].gate);
}

/// Takes the board out of the lock, and goes on with the first worker.
fn close<S: Step + Drop, G: Gate, J: Sink + Drop, R: Run, W: Wait>(
    rt: &W,
    texts: &Texts,
    shared: Shared<S, G, J, R>,
    seats: &mut [Seat],
    workers: &mut [Worker<G>],
) -> Board<S, G, J>
    requires lengths { length workers.old ≡ length seats.old }
    requires some { 0 < length seats.old }
    requires numbers { map (λ s. s.worker) seats.old ≡ range_with_len 1 R.run.workers }
    requires had { (i : ℕ) (d : _) (e : _) → i < length workers.old → IsBrought (slice_index_or seats.old i e) (slice_index_or workers.old i d) }
    ensures run { IsOfRun S.first J.put_so_far J.faults R.run result }
    ensures workers { length workers.new ≡ length workers.old }
    ensures seats { length seats.new ≡ length seats.old }
    ensures each { (i : ℕ) (d : _) (e : _) → i < length workers.old
        → IsTaken G.log G.faults (slice_index_or seats.new i e) (slice_index_or workers.old i d) (slice_index_or workers.new i d) }
    ensures free { AreFreeSeats result.seats seats.new }
    ensures over { result.fault ≡ None → HasEnded (S.plan result.front) }
{
    let mut board = shared.into_board();
    take_all_back(rt, &board, workers, seats);
    finish_first::<S, G, J, R, W>(rt, texts, PhantomData, &mut board, seats, workers);
    board
}

/// Runs the workers over the board of this run, and goes on with the first one once they have ended.
fn run_named<
    S: Step + Drop + Send,
    G: Gate + Send,
    J: Sink + Drop + Send,
    R: Run + Send + Sync,
    W: Threads + Wait + Sync,
>(
    rt: &W,
    texts: &Texts,
    board: Board<S, G, J>,
    seats: &mut [Seat],
    workers: &mut [Worker<G>],
) -> Board<S, G, J>
    requires some { (1 ≤ R.run.workers) × (R.run.workers ≤ 16) }
    requires of_run { IsOfRun S.first J.put_so_far J.faults R.run board }
    requires seats { seats.old ≡ new_seats R.run.workers }
    requires workers { length workers.old ≡ R.run.workers }
    ensures run { IsOfRun S.first J.put_so_far J.faults R.run result }
    ensures workers { length workers.new ≡ length workers.old }
    ensures seats { length seats.new ≡ length seats.old }
    ensures each { (i : ℕ) (d : _) (e : _) → i < length workers.old
        → HasDone G.log G.faults (slice_index_or seats.old i e).worker (slice_index_or seats.new i e) (slice_index_or workers.old i d)
        (slice_index_or workers.new i d) }
    ensures free { AreFreeSeats result.seats seats.new }
    ensures over { result.fault ≡ None → HasEnded (S.plan result.front) }
{
    let lock = Mutex::new(Shared::<S, G, J, R>::new(board));
    let changed = Condvar::new();
    work_all(rt, &lock, &changed, texts, seats, workers);
    close(rt, texts, lock.into_inner(), seats, workers)
}

/// Runs the workers over the board until nothing is left to do, each in a thread of its own where one can
/// be made.
pub(crate) fn run_several<
    S: Step + Drop + Send,
    G: Gate + Send,
    J: Sink + Drop + Send,
    W: Threads + Wait + Sync,
>(
    rt: &W,
    texts: &Texts,
    board: Board<S, G, J>,
    seats: Vec<Seat>,
    workers: &mut [Worker<G>],
) -> Outcome<S, J>
    requires some { (1 ≤ length workers.old) × (length workers.old ≤ 16) }
    requires board { board ≡ new_board (length workers.old) board.start board.kept board.front board.journal }
    requires seats { seats.items ≡ new_seats (length workers.old) }
    ensures outcome { IsOutcome S.plan S.first G.may_say J.put_so_far J.faults (members S.first J.put_so_far J.faults (length workers.old) board) result }
    ensures workers { AreDone G.log G.faults result.fault result.events.items workers.old workers.new }
{
    let mut seats = seats;
    let board = run_named::<S, G, J, Brand, W>(rt, texts, board, seats.as_mut_slice(), workers);
    board.end(seats)
}
