//! The run of a reducer by several workers, from its board to its end.

ghost use Rattle.std.specs.Prelude.{◌≡◌, [], IfSome, Some, length};
ghost use Rattle.verdict_table.specs.TableState.{verdict_in};
ghost use Rattle.ordered_commit.specs.Faults.{board_fault};
ghost use Rattle.run_gated.specs.Seen.{reached, seen_gates};
ghost use Rattle.run_gated.specs.Workers.{AreIdle};
ghost use Rattle.run_gated.specs.inner.Workers.{IsCausedBy, IsRunBy, JournalLeft};

use crate::known::Known;
use edge_io::Sink;
use ordered_commit::{Board, Outcome, Refused};
use reduce_step::Step;
use script_gate_trait::Gate;
use std::alloc::Global;
use std::sync::Wait;
use std::thread::Threads;
use worker_pool::{Worker, run_workers};

/// What there is where there was no board.
fn without_board<S, J>(alloc: Global, refused: Refused<S, J>) -> Outcome<S, J>
    ensures front { result.front ≡ refused.front }
    ensures journal { result.journal ≡ refused.journal }
    ensures events { result.events.items ≡ [] }
    ensures fault { result.fault ≡ Some (board_fault refused.fault) }
{
    let Refused {
        front,
        journal,
        fault,
    } = refused;
    Outcome {
        front,
        journal,
        events: Vec::new(alloc),
        fault: Some(fault.into()),
    }
}

/// Runs the reducer by these workers until it asks nothing more, or a fault ends the run.
pub(crate) fn run_all<
    S: Step + Drop + Send,
    G: Gate + Send,
    J: Sink + Drop + Send,
    W: Threads + Wait + Sync,
>(
    rt: &W,
    alloc: Global,
    front: S,
    workers: &mut [Worker<G>],
    journal: J,
    known: Known,
) -> Outcome<S, J>
    requires new { S.first front ≡ S.plan front }
    requires empty { IfSome (J.put_so_far journal) (λ put. put.bytes ≡ []) }
    requires idle { AreIdle workers.old }
    ensures idle { AreIdle workers.new }
    ensures as_many { length workers.new ≡ length workers.old }
    ensures first { S.first result.front ≡ S.first front }
    ensures ran { IsRunBy (length workers.old) G.may_say (verdict_in known.kept) (S.first front) (S.plan result.front) result.fault result.events.items
        (seen_gates G.log G.faults workers.old) (seen_gates G.log G.faults workers.new) }
    ensures caused { IsCausedBy result.fault (reached G.log G.faults J.put_so_far J.faults workers.old journal)
        (reached G.log G.faults J.put_so_far J.faults workers.new result.journal) }
    ensures journal { JournalLeft (length workers.old) known.start (verdict_in known.kept) result.fault result.events.items
        (J.put_so_far journal) (J.put_so_far result.journal) }
{
    let Known { start, kept } = known;
    match Board::<S, G, J>::new(alloc, front, journal, workers.len() as u32, start, kept) {
        Err(refused) => without_board(alloc, refused),
        Ok((board, seats)) => run_workers(rt, board, seats, workers),
    }
}
