//! The run.

ghost use Rattle.std.specs.Prelude.{◌≡◌, [], ◌∷◌, IfSome, None, length};
ghost use Rattle.reduce_journal.specs.History.{records_of};
ghost use Rattle.reduce_rounds.specs.RoundsPlan.{plan_first};
ghost use Rattle.reduce_step.specs.Plan.{End, HasEnded};
ghost use Rattle.run_gated.specs.Run.{run_of};
ghost use Rattle.run_gated.specs.Workers.{AreIdle};
ghost use Rattle.run_gated.specs.RunEnds.{IsRunIn, IsSound};
ghost use Rattle.run_gated.specs.inner.RunEnds.{AnswersFor};

use crate::fault::RunFault;
use crate::known::Known;
use crate::ran::{Ran, Reduced};
use crate::workers::run_all;
use edge_io::Sink;
use ordered_commit::{Outcome, PoolFault};
use reduce_journal::{Counts, Event};
use reduce_rounds::{
    ReducerStep, Round, Rounds, asks_candidates, ends_minimal, follows_reduction, refuses_at_no,
};
use reduce_step::Step;
use script_gate_trait::Gate;
use std::alloc::Global;
use std::sync::Wait;
use std::thread::Threads;
use worker_pool::Worker;

/// How many records a history has.
fn record_count(events: &[Event]) -> u64
    ensures { result ≡ length (records_of events.now) }
{
    let mut records = 0;
    for event in events {
        if matches!(event, Event::Recorded { .. }) {
            records += 1;
        }
    }
    records
}

/// How large a start is.
#[derive(Clone, Copy)]
struct StartSize {
    units: u64,
    bytes: u64,
}

/// The result that a reducer has come to, of a start of this size, by a run of so many records that this
/// fault ended, if one did.
fn result_of<R: Round + Drop>(
    alloc: Global,
    reducer: &Rounds<R>,
    start: StartSize,
    records: u64,
    fault: Option<PoolFault>,
) -> Result<Reduced, RunFault>
    ensures answer { AnswersFor fault (⟦<Rounds<R> as ReducerStep>⟧.so_far reducer.now) start.units start.bytes records result }
    ensures ended { fault ≡ None → HasEnded (⟦<Rounds<R> as Step>⟧.plan reducer.now)
        → ⟦<Rounds<R> as Step>⟧.plan reducer.now ≡ End (⟦<Rounds<R> as ReducerStep>⟧.so_far reducer.now) }
{
    if let Some(fault) = fault {
        return Err(fault.into());
    }
    if reducer.refused() {
        return Err(RunFault::NotInteresting);
    }
    let text = Vec::from_slice(alloc, reducer.result())?;
    let counts = Counts {
        start_units: start.units,
        end_units: reducer.units(),
        start_bytes: start.bytes,
        end_bytes: text.len() as u64,
        rounds: reducer.rounds(),
        used: reducer.used(),
        records,
    };
    Ok(Reduced { text, counts })
}

/// Asks the gates of the workers for what the reducer asks, several at a time where there are several
/// workers, until it asks nothing more; writes the history into the journal, and gives the text that the
/// reducer has come to. No text is recorded twice; a text that has a kept verdict is recorded with it, and
/// the gates are asked as often as there are other records. A start whose verdict is no ends the run.
///
/// The journal gets the digest of the start. What is said of a mode holds for each input at which the
/// reducer's first plan, and its result so far, are those of the mode. Beside the answers of the reducer
/// and of the gates an answer costs a search of the records and a copy of the text; each text that is asked
/// ahead costs as much.
pub fn run_to_text<
    R: Round + Drop + Send,
    G: Gate + Send,
    J: Sink + Drop + Send,
    W: Threads + Wait + Sync,
>(
    rt: &W,
    alloc: Global,
    reducer: Rounds<R>,
    workers: &mut [Worker<G>],
    journal: J,
    known: Known,
) -> Ran<J>
    requires new { ⟦<Rounds<R> as Step>⟧.first reducer ≡ ⟦<Rounds<R> as Step>⟧.plan reducer }
    requires empty { IfSome (J.put_so_far journal) (λ put. put.bytes ≡ []) }
    requires idle { AreIdle workers.old }
    ensures idle { AreIdle workers.new }
    ensures as_many { length workers.new ≡ length workers.old }
    ensures sound { IsSound G.may_say (run_of G.log G.faults J.put_so_far J.faults workers.old workers.new journal known result) }
    ensures in_mode { (input : R.Input) → ⟦<Rounds<R> as Step>⟧.first reducer ≡ plan_first (R.mode input)
        → IsRunIn (R.mode input) (R.Kept input) (⟦<Rounds<R> as ReducerStep>⟧.so_far reducer)
        (run_of G.log G.faults J.put_so_far J.faults workers.old workers.new journal known result) }
{
    follows_reduction::<R>();
    refuses_at_no::<R>();
    ends_minimal::<R>();
    asks_candidates::<R>();
    let size = StartSize {
        units: reducer.units(),
        bytes: reducer.result().len() as u64,
    };
    let Outcome {
        front,
        journal,
        events,
        fault,
    } = run_all(rt, alloc, reducer, workers, journal, known);
    let outcome = result_of(alloc, &front, size, record_count(&events), fault);
    Ran {
        journal,
        events,
        outcome,
    }
}
