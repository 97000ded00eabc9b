//! Opening the gates and the journal of a run.

ghost use Rattle.std.specs.Prelude.{◌≡◌, [], Err, IfErr, OnErr, OnOk, length};
ghost use Rattle.command_reduce_calls.specs.Openings.{GateRefused, opened_from, opened_log};
ghost use Rattle.run_gated.specs.Seen.{AreQuiet, logs_of, seen_gates};
ghost use Rattle.run_gated.specs.Workers.{AreIdle};
ghost use Rattle.run_gated.specs.Faults.{fault_of};
ghost use Rattle.command_reduce_calls.specs.Journal.{opened_as};
ghost use Rattle.command_reduce_calls.specs.Calls.{OpeningFails};
ghost use Rattle.command_reduce_calls.specs.inner.Calls.{OpenFails};
ghost use Rattle.command_words.specs.Lines.{reduce_read};

use crate::name::file_name_of;
use command_words::{ReduceLine, journal_name};
use edge_io::Sink;
use run_gated::{Ran, RunFault};
use script_gate_trait::{Gate, GateFault};
use std::alloc::Global;
use worker_pool::Worker;

/// A gate that wasn't opened: whose, and why.
#[derive(Clone, Copy, Debug, PartialEq, Eq)]
pub struct OpeningFault {
    pub worker: u32,
    pub fault: GateFault,
}

/// Opens the gate of this worker.
fn open_gate<G: Gate>(worker: &mut Worker<G>, line: &ReduceLine<'_>) -> Result<(), GateFault>
    ensures number { worker.new.number ≡ worker.old.number }
    ensures seat { worker.new.seat ≡ worker.old.seat }
    ensures opened { OnOk result (G.log worker.new.gate ≡ opened_log (reduce_read line.now) worker.old.number (G.log worker.old.gate)) }
    ensures kept { OnErr result (G.log worker.new.gate ≡ G.log worker.old.gate) }
    ensures quiet { OnOk result (G.faults worker.new.gate ≡ G.faults worker.old.gate) }
    ensures refused { IfErr result (λ fault. OpenFails (G.faults worker.old.gate) (G.faults worker.new.gate) fault) }
{
    let number = worker.number;
    let name = file_name_of(line.input);
    worker.gate.open(line.work, line.script, name, number)
}

/// Opens the gates of these workers, in order. Where one isn't opened, those before it are, and the
/// others are as before.
pub fn open_gates<G: Gate>(
    workers: &mut [Worker<G>],
    line: &ReduceLine<'_>,
) -> Result<(), OpeningFault>
    requires idle { AreIdle workers.old }
    ensures idle { AreIdle workers.new }
    ensures as_many { length workers.new ≡ length workers.old }
    ensures opened { OnOk result (logs_of (seen_gates G.log G.faults workers.new) ≡ opened_from (reduce_read line.now) 1 (length workers.old)
        (logs_of (seen_gates G.log G.faults workers.old))) }
    ensures quiet { OnOk result (AreQuiet (seen_gates G.log G.faults workers.old) (seen_gates G.log G.faults workers.new)) }
    ensures refused { IfErr result (GateRefused (reduce_read line.now) (seen_gates G.log G.faults workers.old) (seen_gates G.log G.faults workers.new)) }
{
    for worker in workers.iter_mut() {
        let number = worker.number;
        match open_gate(worker, line) {
            Ok(()) => {}
            Err(fault) => {
                return Err(OpeningFault {
                    worker: number,
                    fault,
                });
            }
        }
    }
    Ok(())
}

/// Opens the journal, whose path the command line says.
pub fn open_journal<J: Sink>(
    alloc: Global,
    journal: &mut J,
    line: &ReduceLine<'_>,
) -> Result<(), RunFault>
    ensures opened { OnOk result (J.put_so_far journal.new ≡ opened_as ((reduce_read line.now).journal) (J.put_so_far journal.old)) }
    ensures kept { OnErr result (J.put_so_far journal.new ≡ J.put_so_far journal.old) }
    ensures quiet { OnOk result (J.faults journal.new ≡ J.faults journal.old) }
    ensures refused { IfErr result (λ fault. OpeningFails (J.faults journal.old) (J.faults journal.new) fault) }
{
    let name = match journal_name(alloc, line) {
        Ok(name) => name,
        Err(memory) => return Err(RunFault::Memory(memory)),
    };
    journal.open(name.as_str())?;
    Ok(())
}

/// What a run comes to where a gate can't be opened: nothing is recorded, and the journal isn't opened
/// either, so that an older one stays.
pub fn without_gate<J: Sink + Drop>(alloc: Global, journal: J, fault: OpeningFault) -> Ran<J>
    ensures journal { result.journal ≡ journal }
    ensures events { result.events.items ≡ [] }
    ensures outcome { result.outcome ≡ Err (fault_of fault.worker fault.fault) }
{
    Ran::refused(alloc, journal, RunFault::of_gate(fault.worker, fault.fault))
}
