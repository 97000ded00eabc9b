//! Runs a command line over the objects of a case.

ghost use Rattle.std.specs.Prelude.{◌≡◌, length};
ghost use Rattle.command_perses.specs.Workers.{AreNumbered};

use crate::case::Case;
use crate::outcome::{Outcome, Workers, opened_count, shown};
use anyhow::{Result, bail};
use command_perses::{add_worker, no_workers, perses};
use script_gate_trait::{Gate, GateFault, ListGate, Log, RuleGate};
use std::alloc::Global;
use std::sync::{Arc, Wait};
use std::thread::Threads;
use test_workers::{HoldCount, HoldGate};
use worker_pool::Worker;

/// How many workers there are, of which a run uses as many as its words say.
const WORKERS: u32 = 16;

/// Runs the words over these workers.
fn run_over<G: Gate + Send, W: Threads + Wait + Sync>(
    rt: &W,
    alloc: Global,
    case: &Case,
    words: &[String],
    workers: &mut [Worker<G>],
) -> Result<Outcome>
    requires numbered { AreNumbered workers.old }
    requires sixteen { length workers.old ≡ 16 }
{
    let mut files = case.logged_files(alloc)?;
    let journal = case.mem_journal(alloc)?;
    let mut out = case.mem_sink(alloc)?;
    let ended = perses(rt, alloc, words, &mut files, workers, journal, &mut out);
    Ok(Outcome { ended, files, out })
}

/// How the run ended over gates with these logs.
fn shown_by(alloc: Global, case: &Case, outcome: &Outcome, logs: &[&Log]) -> Result<String> {
    let mut asked: u64 = 0;
    for log in logs {
        asked = asked.saturating_add(log.asked.len() as u64);
    }
    let workers = if opened_count(logs) > 1 {
        Workers::Several
    } else {
        Workers::One
    };
    shown(alloc, case, outcome, logs, asked, workers)
}

fn by_rule<const R: u64, W: Threads + Wait + Sync>(
    rt: &W,
    alloc: Global,
    case: &Case,
    words: &[String],
) -> Result<String> {
    let mut workers = no_workers(alloc);
    for _ in 0..WORKERS {
        add_worker(&mut workers, RuleGate::<R>::new(alloc, true))?;
    }
    let outcome = run_over(rt, alloc, case, words, &mut workers)?;
    let mut logs = Vec::new(alloc);
    for worker in &workers {
        match worker.gate.log() {
            Some(log) => logs.push(log)?,
            None => bail!("a gate has no log"),
        }
    }
    shown_by(alloc, case, &outcome, &logs)
}

fn by_answers<W: Threads + Wait + Sync>(
    rt: &W,
    alloc: Global,
    case: &Case,
    words: &[String],
) -> Result<String> {
    let Some(later) = case.answers.last().copied() else {
        bail!("no answer");
    };
    let mut workers = no_workers(alloc);
    for _ in 0..WORKERS {
        let answers = Vec::from_slice(alloc, &case.answers)?;
        add_worker(&mut workers, ListGate::new(alloc, answers, later))?;
    }
    let outcome = run_over(rt, alloc, case, words, &mut workers)?;
    let mut logs = Vec::new(alloc);
    for worker in &workers {
        logs.push(worker.gate.log())?;
    }
    shown_by(alloc, case, &outcome, &logs)
}

/// The gate of the worker of this number: by the rule 98, or one that fails.
fn held_gate(
    alloc: Global,
    case: &Case,
    count: &Arc<HoldCount>,
    number: u32,
) -> Result<HoldGate<98>> {
    let count = Arc::try_clone(count)?;
    Ok(if number == case.failing_worker {
        HoldGate::faulty(alloc, count, GateFault::Failed)
    } else {
        HoldGate::new(alloc, count)
    })
}

/// Over gates that hold their asks until more than so many have begun.
fn by_holding<W: Threads + Wait + Sync>(
    rt: &W,
    alloc: Global,
    case: &Case,
    words: &[String],
) -> Result<String> {
    let count = Arc::new(alloc, HoldCount::new(case.width))?;
    let mut workers = no_workers(alloc);
    for earlier in 0..WORKERS {
        add_worker(&mut workers, held_gate(alloc, case, &count, earlier + 1)?)?;
    }
    let outcome = run_over(rt, alloc, case, words, &mut workers)?;
    let mut asked: u64 = 0;
    for worker in &workers {
        asked = asked.saturating_add(worker.gate.asked());
    }
    shown(alloc, case, &outcome, &[], asked, Workers::Several)
}

/// Runs the words over the objects of the case, and says how the run ended.
pub fn run_shown<W: Threads + Wait + Sync>(
    rt: &W,
    alloc: Global,
    case: &Case,
    words: &[String],
) -> Result<String> {
    if !case.answers.is_empty() {
        return by_answers(rt, alloc, case, words);
    }
    if case.width > 0 {
        return by_holding(rt, alloc, case, words);
    }
    match case.rule {
        0 => by_rule::<0, W>(rt, alloc, case, words),
        61 => by_rule::<61, W>(rt, alloc, case, words),
        97 => by_rule::<97, W>(rt, alloc, case, words),
        98 => by_rule::<98, W>(rt, alloc, case, words),
        255 => by_rule::<255, W>(rt, alloc, case, words),
        23121 => by_rule::<23121, W>(rt, alloc, case, words),
        rule => bail!("no gate has the rule {rule}"),
    }
}
