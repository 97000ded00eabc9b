//! The workers that the top call takes.

ghost use Rattle.std.specs.Prelude.{◌≡◌, ◌<◌, suc, [], OnErr, OnOk, length};
ghost use Rattle.command_perses.specs.Workers.{AreNumbered};

use script_gate_trait::Gate;
use std::alloc::{AllocError, Global};
use worker_pool::Worker;

/// No workers.
pub fn no_workers<G: Gate>(alloc: Global) -> Vec<Worker<G>>
    ensures numbered { AreNumbered result.items }
    ensures none { length result.items ≡ 0 }
{
    Vec::new(alloc)
}

/// Adds a worker over this gate, with the next number. After an error they are the same as before.
pub fn add_worker<G: Gate + Drop>(workers: &mut Vec<Worker<G>>, gate: G) -> Result<(), AllocError>
    requires numbered { AreNumbered workers.old.items }
    requires few { length workers.old.items < 16 }
    ensures numbered { AreNumbered workers.new.items }
    ensures added { OnOk result (length workers.new.items ≡ suc (length workers.old.items)) }
    ensures refused { OnErr result (workers.new.items ≡ workers.old.items) }
{
    let number = workers.len() as u32 + 1;
    workers.push(Worker::new(gate, number))?;
    Ok(())
}
