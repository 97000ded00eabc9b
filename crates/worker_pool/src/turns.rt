//! What a worker does in one turn, under the lock and outside.

ghost use Rattle.std.specs.Prelude.{◌≡◌, None, Some, IfSome};
ghost use Rattle.boxcar.specs.Table.{Shows};
ghost use Rattle.ordered_commit.specs.Seats.{with_record, without_claim};
ghost use Rattle.worker_pool.specs.inner.Work.{ClaimsSeat, HasWorked};

use crate::run::{Run, Shared};
use edge_io::Sink;
use faults::Memory;
use gate_permits::{Answer, Permit, Texts, Unasked, ask_once};
use ordered_commit::{Seat, Take};
use reduce_step::Step;
use script_gate_trait::Gate;
use std::sync::{Condvar, Mutex, Wait};

/// Whether nothing is left to do: the reducer has ended, or a fault is kept.
fn is_over(next: &Result<Take, Memory>) -> bool {
    matches!(next, Ok(Take::Done | Take::Stopped) | Err(_))
}

/// Wakes the workers that wait, where there are news.
fn wake(changed: &Condvar, news: bool) {
    if news {
        changed.notify_all();
    }
}

/// Recalls and commits all it can and takes, under one lock. Where there is nothing yet it waits until
/// another worker has recorded, recalled, committed or given up; a look that finds nothing wakes nobody.
fn claim<S: Step + Drop, G: Gate, J: Sink + Drop, R: Run, W: Wait>(
    rt: &W,
    lock: &Mutex<Shared<S, G, J, R>>,
    changed: &Condvar,
    texts: &Texts,
    seat: &mut Seat,
) -> Option<Permit>
    requires free { seat.old.claim ≡ None }
    ensures seat { ClaimsSeat result seat.old seat.new }
    ensures shows { IfSome result (λ permit. Shows texts.now permit.token) }
{
    let own = *seat;
    for _ in rt.forever() {
        let mut shared = changed.wait_while(rt, lock.lock(rt), |shared| shared.disagrees(&own));
        let mut moved = false;
        let next = shared.next(rt, texts, seat, &mut moved);
        wake(changed, moved || is_over(&next));
        match next {
            Ok(Take::Work(permit)) => return Some(permit),
            Ok(Take::NotYet) => drop(changed.wait(rt, shared)),
            Ok(Take::Done) => return None,
            Ok(Take::Stopped) => return None,
            Err(_) => return None,
        }
    }
    unreachable!()
}

/// Records an answer under the lock.
fn keep<S: Step + Drop, G: Gate, J: Sink + Drop, R: Run, W: Wait>(
    rt: &W,
    lock: &Mutex<Shared<S, G, J, R>>,
    changed: &Condvar,
    texts: &Texts,
    seat: &mut Seat,
    answer: Answer<G>,
)
    requires claim { seat.old.claim ≡ Some answer.claim }
    requires shows { Shows texts.now answer.token }
    ensures { seat.new ≡ with_record seat.old }
{
    let own = *seat;
    let mut shared = changed.wait_while(
        rt,
        lock.lock(rt),
        |shared| shared.refuses(texts, &own, &answer),
    );
    shared.record(seat, answer);
    drop(shared);
    changed.notify_all();
}

/// Gives a claim up under the lock.
fn leave<S: Step + Drop, G: Gate, J: Sink + Drop, R: Run, W: Wait>(
    rt: &W,
    lock: &Mutex<Shared<S, G, J, R>>,
    changed: &Condvar,
    seat: &mut Seat,
    unasked: Unasked,
)
    requires claim { seat.old.claim ≡ Some unasked.permit.claim }
    ensures { seat.new ≡ without_claim unasked.fault seat.old }
{
    let own = *seat;
    let mut shared = changed.wait_while(rt, lock.lock(rt), |shared| shared.disagrees(&own));
    shared.give_up(seat, unasked);
    drop(shared);
    changed.notify_all();
}

/// Asks outside the lock, and records or gives up under it.
fn ask<S: Step + Drop, G: Gate, J: Sink + Drop, R: Run, W: Wait>(
    rt: &W,
    lock: &Mutex<Shared<S, G, J, R>>,
    changed: &Condvar,
    texts: &Texts,
    gate: &mut G,
    seat: &mut Seat,
    permit: Permit,
)
    requires claim { seat.old.claim ≡ Some permit.claim }
    requires shows { Shows texts.now permit.token }
    ensures worked { HasWorked seat.old seat.new (G.log gate.old) (G.log gate.new) (G.faults gate.old) (G.faults gate.new) }
    ensures free { seat.new.claim ≡ None }
{
    match ask_once(gate, texts, permit) {
        Ok(answer) => keep(rt, lock, changed, texts, seat, answer),
        Err(unasked) => leave(rt, lock, changed, seat, unasked),
    }
}

/// Works until nothing is left to do.
pub(crate) fn work<S: Step + Drop, G: Gate, J: Sink + Drop, R: Run, W: Wait>(
    rt: &W,
    lock: &Mutex<Shared<S, G, J, R>>,
    changed: &Condvar,
    texts: &Texts,
    gate: &mut G,
    seat: &mut Seat,
)
    requires free { seat.old.claim ≡ None }
    ensures worked { HasWorked seat.old seat.new (G.log gate.old) (G.log gate.new) (G.faults gate.old) (G.faults gate.new) }
    ensures free { seat.new.claim ≡ None }
{
    for _ in rt.forever() {
        let Some(permit) = claim(rt, lock, changed, texts, seat) else {
            break;
        };
        ask(rt, lock, changed, texts, gate, seat, permit);
    }
}
