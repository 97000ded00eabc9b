//! Journals that are read back and cut off, and the report.

use crate::case::Case;
use crate::shown::{add_bytes, add_text, decoded, verdict_name};
use crate::{first_of, number_of};
use faults::Memory;
use reduce_journal::{
    Counts, Digest, Event, Journal, JournalFault, digest_of, read_journal, report,
};
use script_gate_trait::Bytes;
use std::alloc::{AllocError, Global};

/// What is read of these bytes.
pub(crate) fn read(alloc: Global, bytes: &[u8]) -> Result<Journal, JournalFault> {
    let bytes = Bytes::from_slice(alloc, bytes)?;
    read_journal(alloc, &bytes)
}

fn add_hex(out: &mut String, digest: Digest) -> Result<(), AllocError> {
    for byte in digest.bytes {
        write!(out, "{byte:02x}")?;
    }
    Ok(())
}

/// Adds the journal's version, the digest of its start, and how many events and torn bytes it has.
fn add_journal(out: &mut String, journal: &Journal) -> Result<(), AllocError> {
    write!(out, "version {}, start ", journal.version)?;
    match journal.start {
        Some(digest) => add_hex(out, digest)?,
        None => out.push_str("unknown")?,
    }
    write!(
        out,
        ", events {}, torn {}",
        journal.events.len(),
        journal.torn
    )
}

fn add_fault(out: &mut String, fault: JournalFault) -> Result<(), AllocError> {
    match fault {
        JournalFault::BadHead => out.push_str("no head"),
        JournalFault::BadRecord { offset } => write!(out, "bad at byte {offset}"),
        JournalFault::Memory(_) => out.push_str("out of memory"),
    }
}

fn add_read_of(out: &mut String, alloc: Global, bytes: &[u8]) -> Result<(), AllocError> {
    match read(alloc, bytes) {
        Ok(journal) => add_journal(out, &journal),
        Err(fault) => add_fault(out, fault),
    }
}

/// Adds what bytes are read as.
pub(crate) fn add_reading(
    out: &mut String,
    alloc: Global,
    case: &Case,
    text: &str,
) -> Result<(), Memory> {
    let bytes = case.bytes(alloc, text)?;
    Ok(add_read_of(out, alloc, &bytes)?)
}

fn add_event(out: &mut String, event: &Event) -> Result<(), AllocError> {
    match event {
        Event::Recorded {
            text,
            verdict,
            kept,
        } => {
            out.push_str(if *kept { "kept " } else { "" })?;
            write!(out, "{} ", verdict_name(*verdict))?;
            add_text(out, text.as_slice())
        }
        Event::Committed { number } => write!(out, "commit {number}"),
    }
}

/// Adds the events, each on a line of its own.
fn add_all(out: &mut String, events: &[Event]) -> Result<(), AllocError> {
    for event in events {
        add_event(out, event)?;
        out.push('\n')?;
    }
    Ok(())
}

fn add_events_of(out: &mut String, alloc: Global, bytes: &[u8]) -> Result<(), AllocError> {
    match read(alloc, bytes) {
        Ok(journal) => add_all(out, &journal.events),
        Err(fault) => add_fault(out, fault),
    }
}

/// Adds the events that bytes are read as.
pub(crate) fn add_events(
    out: &mut String,
    alloc: Global,
    case: &Case,
    text: &str,
) -> Result<(), Memory> {
    let bytes = case.bytes(alloc, text)?;
    Ok(add_events_of(out, alloc, &bytes)?)
}

/// Adds how many events and torn bytes a beginning has, and whether its events begin as the whole ones, by the lines
/// of these.
fn add_begun(
    out: &mut String,
    alloc: Global,
    journal: &Journal,
    whole: &str,
) -> Result<(), AllocError> {
    let mut begun = String::new(alloc);
    add_all(&mut begun, &journal.events)?;
    let which = if whole.starts_with(begun.as_str()) {
        ""
    } else {
        "other "
    };
    write!(
        out,
        "{which}events {}, torn {}",
        journal.events.len(),
        journal.torn
    )
}

/// Adds what a beginning is read as.
fn add_cut(out: &mut String, alloc: Global, begun: &[u8], whole: &str) -> Result<(), AllocError> {
    match read(alloc, begun) {
        Ok(journal) => add_begun(out, alloc, &journal, whole),
        Err(fault) => add_fault(out, fault),
    }
}

/// Adds what each beginning is read as, by the lines of the whole events.
fn add_each_cut(
    out: &mut String,
    alloc: Global,
    bytes: &[u8],
    whole: &str,
) -> Result<(), AllocError> {
    for end in 0..=bytes.len() {
        if let Some(begun) = bytes.get(..end) {
            write!(out, "{end}: ")?;
            add_cut(out, alloc, begun, whole)?;
            out.push('\n')?;
        }
    }
    Ok(())
}

/// The lines of the events that bytes are read as, or of the fault.
fn lines_of(alloc: Global, bytes: &[u8]) -> Result<String, AllocError> {
    let mut lines = String::new(alloc);
    add_events_of(&mut lines, alloc, bytes)?;
    Ok(lines)
}

fn add_cuts_of(out: &mut String, alloc: Global, bytes: &[u8]) -> Result<(), AllocError> {
    let whole = lines_of(alloc, bytes)?;
    add_each_cut(out, alloc, bytes, whole.as_str())
}

/// Adds what the beginnings of bytes are read as.
pub(crate) fn add_cuts(
    out: &mut String,
    alloc: Global,
    case: &Case,
    text: &str,
) -> Result<(), Memory> {
    let bytes = case.bytes(alloc, text)?;
    Ok(add_cuts_of(out, alloc, &bytes)?)
}

fn add_kept(out: &mut String, alloc: Global, case: &Case, text: &[u8]) -> Result<(), Memory> {
    let kept = case.kept(alloc)?;
    Ok(out.push_str(match kept.find(text) {
        Some(verdict) => verdict_name(verdict),
        None => "none",
    })?)
}

/// Adds the verdict of a text that is kept.
pub(crate) fn add_verdict(
    out: &mut String,
    alloc: Global,
    case: &Case,
    text: &str,
) -> Result<(), Memory> {
    let text = decoded(alloc, text)?;
    add_kept(out, alloc, case, &text)
}

/// Adds the SHA-256 of a text.
pub(crate) fn add_digest(out: &mut String, alloc: Global, text: &str) -> Result<(), Memory> {
    let text = decoded(alloc, text)?;
    Ok(add_hex(out, digest_of(&text))?)
}

/// The counts of seven numbers.
fn counts_of(text: &str) -> Counts {
    let (start_units, text) = first_of(text);
    let (end_units, text) = first_of(text);
    let (start_bytes, text) = first_of(text);
    let (end_bytes, text) = first_of(text);
    let (rounds, text) = first_of(text);
    let (used, records) = first_of(text);
    Counts {
        start_units: number_of(start_units),
        end_units: number_of(end_units),
        start_bytes: number_of(start_bytes),
        end_bytes: number_of(end_bytes),
        rounds: number_of(rounds),
        used: number_of(used),
        records: number_of(records),
    }
}

/// Adds the report of seven counts.
pub(crate) fn add_report(out: &mut String, alloc: Global, text: &str) -> Result<(), Memory> {
    let report = report(alloc, &counts_of(text))?;
    Ok(add_bytes(out, &report)?)
}
