//! The workers, and how they all work.

ghost use Rattle.std.specs.Prelude.{◌≡◌, ◌<◌, ℕ, None, All, length, slice_index_or};
ghost use Rattle.worker_pool.specs.inner.Ends.{HasWorkedFrom};

use crate::run::{Run, Shared};
use crate::turns::work;
use edge_io::Sink;
use gate_permits::Texts;
use ordered_commit::Seat;
use reduce_step::Step;
use script_gate_trait::Gate;
use std::sync::{Condvar, Mutex, Wait};
use std::thread;
use std::thread::Threads;

/// One worker, with a gate of its own.
#[derive(Drop)]
pub struct Worker<G: Gate> {
    /// What it asks. No other worker asks this gate.
    pub gate: G,
    /// Its number, from 1.
    pub number: u32,
    /// Its seat, once it has ended its work, until the calling thread takes it back.
    pub seat: Option<Seat>,
}

impl<G: Gate> Worker<G> {
    /// The worker with this number, before its work.
    pub fn new(gate: G, number: u32) -> Worker<G>
        ensures { result ≡ record { gate = gate; number = number; seat = None } }
    {
        Worker {
            gate,
            number,
            seat: None,
        }
    }
}

/// Works from this seat on, and keeps the last one.
fn work_from<S: Step + Drop, G: Gate, J: Sink + Drop, R: Run, W: Wait>(
    rt: &W,
    lock: &Mutex<Shared<S, G, J, R>>,
    changed: &Condvar,
    texts: &Texts,
    seat: Seat,
    worker: &mut Worker<G>,
)
    requires { seat.claim ≡ None }
    ensures { HasWorkedFrom G.log G.faults seat worker.old worker.new }
{
    let mut own = seat;
    work(rt, lock, changed, texts, &mut worker.gate, &mut own);
    worker.seat = Some(own);
}

/// All workers work, each in a thread of its own where one can be made.
pub(crate) fn work_all<
    S: Step + Drop + Send,
    G: Gate + Send,
    J: Sink + Drop + Send,
    R: Run + Send + Sync,
    W: Threads + Wait + Sync,
>(
    rt: &W,
    lock: &Mutex<Shared<S, G, J, R>>,
    changed: &Condvar,
    texts: &Texts,
    seats: &[Seat],
    workers: &mut [Worker<G>],
)
    requires lengths { length workers.old ≡ length seats.now }
    requires free { All (λ s. s.claim ≡ None) seats.now }
    ensures lengths { length workers.new ≡ length workers.old }
    ensures each { (i : ℕ) (d : _) (e : _) → i < length workers.old
        → HasWorkedFrom G.log G.faults (slice_index_or seats.now i e) (slice_index_or workers.old i d) (slice_index_or workers.new i d) }
{
    thread::for_each_mut(
        rt,
        workers,
        16,
        &|i, worker| work_from(rt, lock, changed, texts, seats[i], worker),
    );
}
