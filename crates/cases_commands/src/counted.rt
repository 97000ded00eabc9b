//! What a gate and a journal count.

use crate::{decoded, first_of, number_of};
use edge_io::{MemSink, Sink};
use faults::Memory;
use notice_counts::{CountedGate, CountedJournal, Counts, Snapshot};
use script_gate_trait::{Gate, GateFault, ListGate, Said, Verdict};
use std::alloc::{AllocError, Global};
use std::sync::Arc;
use std::time::Clock;

fn answer_name(answer: Result<Verdict, GateFault>) -> &'static str {
    match answer {
        Ok(Verdict::Yes) => "yes, ",
        Ok(Verdict::No) => "no, ",
        Err(GateFault::Failed) => "failed, ",
        Err(GateFault::Memory(_)) => "out of memory, ",
    }
}

/// Adds whether the gate is opened, and its answers to the texts.
fn add_answers<G: Gate>(out: &mut String, gate: &mut G, texts: &str) -> Result<(), AllocError> {
    let is_opened = gate.open("work", "script", "name", 1).is_ok();
    out.push_str(if is_opened {
        "opened, "
    } else {
        "not opened, "
    })?;
    for text in texts.split(' ') {
        out.push_str(answer_name(gate.ask(text.as_bytes())))?;
    }
    Ok(())
}

/// Adds what the gate answers, and how many texts the gate within it was asked about.
fn add_asks_of<C: Clock + Drop>(
    out: &mut String,
    gate: &mut CountedGate<ListGate, C>,
    texts: &str,
) -> Result<(), AllocError> {
    add_answers(out, gate, texts)?;
    write!(out, "{} within, ", gate.inner().log().asked.len())
}

/// Adds the same of a gate with these counts.
fn add_asks<C: Clock + Clone + Drop>(
    out: &mut String,
    clock: &C,
    alloc: Global,
    counts: Arc<Counts>,
    texts: &str,
) -> Result<(), AllocError> {
    let clock = clock.clone()?;
    let answers = Vec::from_slice(alloc, &[Said::Yes, Said::No])?;
    let mut gate = CountedGate::new(ListGate::new(alloc, answers, Said::Fail), clock, counts);
    add_asks_of(out, &mut gate, texts)
}

fn add_asked_counts(out: &mut String, counted: Snapshot) -> Result<(), Memory> {
    let Snapshot {
        busy,
        asked,
        yes,
        ..
    } = counted;
    Ok(write!(out, "busy {busy}, asked {asked}, yes {yes}")?)
}

/// Adds what a gate that says yes, then no, and fails then answers to the texts; how many of them the gate within
/// was asked about; and what is counted.
pub(crate) fn add_gate<C: Clock + Clone + Drop>(
    out: &mut String,
    clock: &C,
    alloc: Global,
    texts: &str,
) -> Result<(), Memory> {
    let counts = Arc::new(alloc, Counts::new())?;
    add_asks(out, clock, alloc, Arc::try_clone(&counts)?, texts)?;
    add_asked_counts(out, counts.snapshot())
}

/// Adds what is counted after this piece: the records, and the bytes of the best text.
fn add_piece<S: Sink>(
    out: &mut String,
    journal: &mut S,
    counts: &Arc<Counts>,
    piece: &[u8],
) -> Result<(), AllocError> {
    if journal.put(piece).is_err() {
        return out.push_str("failed\n");
    }
    let counted = counts.snapshot();
    write!(
        out,
        "records {}, best {}\n",
        counted.records, counted.best_bytes
    )
}

/// Adds what is counted after each of the pieces.
fn add_pieces<S: Sink>(
    out: &mut String,
    alloc: Global,
    journal: &mut S,
    counts: &Arc<Counts>,
    pieces: &str,
) -> Result<(), AllocError> {
    for piece in pieces.split(" / ") {
        let piece = decoded(alloc, piece)?;
        add_piece(out, journal, counts, &piece)?;
    }
    Ok(())
}

/// Adds that for this journal, and how often the sink within it failed.
fn add_puts_into(
    out: &mut String,
    alloc: Global,
    journal: &mut CountedJournal<MemSink>,
    counts: &Arc<Counts>,
    pieces: &str,
) -> Result<(), Memory> {
    add_pieces(out, alloc, journal, counts, pieces)?;
    Ok(write!(out, "{} failed within, ", journal.inner().faults())?)
}

/// Adds that for a journal with these counts, one put of which fails.
fn add_puts(
    out: &mut String,
    alloc: Global,
    counts: &Arc<Counts>,
    failing: u64,
    pieces: &str,
) -> Result<(), Memory> {
    let shared = Arc::try_clone(counts)?;
    let failing = Vec::from_slice(alloc, &[failing])?;
    let mut journal = CountedJournal::new(alloc, MemSink::new(alloc, 100, failing)?, shared);
    add_puts_into(out, alloc, &mut journal, counts, pieces)
}

fn add_journal_counts(out: &mut String, counted: Snapshot) -> Result<(), Memory> {
    let (records, start) = (counted.records, counted.start_bytes);
    Ok(write!(out, "records {records}, start {start}")?)
}

/// Adds what a journal counts after each piece that is put, where the put of this number, from 1, fails; and at the
/// end how often the sink within it failed, the records, and the bytes of the start.
pub(crate) fn add_journal(out: &mut String, alloc: Global, text: &str) -> Result<(), Memory> {
    let (failing, pieces) = first_of(text);
    let counts = Arc::new(alloc, Counts::new())?;
    add_puts(out, alloc, &counts, number_of(failing), pieces)?;
    add_journal_counts(out, counts.snapshot())
}
