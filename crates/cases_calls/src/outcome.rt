//! How a run ended, as it is printed.

use crate::case::Case;
use anyhow::{Result, bail};
use command_perses::Ended;
use edge_io::{CutSink, FileAction, LoggedCall, LoggedFiles, MemFiles, MemSink};
use percent_encoding::{CONTROLS, percent_encode};
use reduce_journal::{Event, JournalFault, read_journal};
use script_gate_trait::{Bytes, Log, Verdict};
use std::alloc::Global;

/// The most bytes that are printed; of a longer text its length is.
const SHOWN: usize = 400;

/// The most events of a journal that are printed; of more it is how many records and commits there are.
const LISTED: usize = 1000;

/// What a run leaves, beside the gates.
#[derive(Drop)]
pub struct Outcome {
    pub ended: Ended<CutSink>,
    pub files: LoggedFiles<MemFiles>,
    pub out: MemSink,
}

fn add_line(shown: &mut String, what: &str) -> Result<()> {
    shown.push_str("\n    ")?;
    shown.push_str(what)?;
    Ok(())
}

/// Adds bytes to a line, if there are any.
fn add_bytes(shown: &mut String, alloc: Global, bytes: &[u8]) -> Result<()> {
    if bytes.len() > SHOWN {
        let length = format!(in alloc; " ({} bytes)", bytes.len())?;
        shown.push_str(length.as_str())?;
    } else if !bytes.is_empty() {
        shown.push(' ')?;
        percent_encode(bytes, CONTROLS).append_to(shown)?;
    }
    Ok(())
}

/// The events that the journal has, and the length of a torn tail, which is all of a journal without a
/// whole head.
fn events_of(alloc: Global, journal: &CutSink) -> Result<(Vec<Event>, u64)> {
    match read_journal(alloc, &Bytes::from_slice(alloc, journal.bytes())?) {
        Ok(read) => Ok((read.events, read.torn)),
        Err(JournalFault::BadHead) => Ok((Vec::new(alloc), journal.bytes().len() as u64)),
        Err(fault) => bail!("the journal can't be read: {fault}"),
    }
}

/// A record, after a word.
fn add_record(
    shown: &mut String,
    alloc: Global,
    word: &str,
    text: &Bytes,
    verdict: Verdict,
) -> Result<()> {
    add_line(shown, word)?;
    shown.push_str(match verdict {
        Verdict::Yes => "yes",
        Verdict::No => "no",
    })?;
    add_bytes(shown, alloc, text.as_slice())
}

/// The records of the journal, each on a line.
fn add_records(shown: &mut String, alloc: Global, events: &[Event]) -> Result<()> {
    for event in events {
        if let Event::Recorded {
            text,
            verdict,
            kept,
        } = event
        {
            let word = if *kept { "kept " } else { "" };
            add_record(shown, alloc, word, text, *verdict)?;
        }
    }
    Ok(())
}

/// The numbers of the journal's commits, if there are any.
fn add_commits(shown: &mut String, alloc: Global, events: &[Event]) -> Result<()> {
    let mut is_first = true;
    for event in events {
        if let Event::Committed { number } = event {
            if is_first {
                add_line(shown, "commits")?;
                is_first = false;
            }
            shown.push_str(format!(in alloc; " {number}")?.as_str())?;
        }
    }
    Ok(())
}

/// The record of this number, from 1.
fn record_at(events: &[Event], number: u64) -> Result<(&Bytes, Verdict)> {
    let mut count: u64 = 0;
    for event in events {
        if let Event::Recorded { text, verdict, .. } = event {
            count = count.saturating_add(1);
            if count == number {
                return Ok((text, *verdict));
            }
        }
    }
    bail!("no record has the number {number}")
}

/// The records that the journal's commits use, in their order, each on a line. Which other records there
/// are, and the numbers of all, depends on how the workers interleave.
fn add_used(shown: &mut String, alloc: Global, events: &[Event]) -> Result<()> {
    for event in events {
        if let Event::Committed { number } = event {
            let (text, verdict) = record_at(events, *number)?;
            add_record(shown, alloc, "used ", text, verdict)?;
        }
    }
    Ok(())
}

/// How many records the journal has, and how many of these are of asks.
fn record_counts(events: &[Event]) -> (u64, u64) {
    let mut all: u64 = 0;
    let mut asked: u64 = 0;
    for event in events {
        if let Event::Recorded { kept, .. } = event {
            all = all.saturating_add(1);
            asked = asked.saturating_add(u64::from(!*kept));
        }
    }
    (all, asked)
}

/// How many records and commits there are.
fn add_counts(shown: &mut String, alloc: Global, events: &[Event]) -> Result<()> {
    let (records, _) = record_counts(events);
    let commits = (events.len() as u64).saturating_sub(records);
    let line = format!(in alloc; "{records} records, {commits} commits")?;
    add_line(shown, line.as_str())
}

/// Which events of a journal are printed.
#[derive(Clone, Copy)]
enum Listed {
    All,
    /// The records that the commits use.
    Used,
    Nothing,
}

/// The journal's name and events, where it was opened.
fn add_journal(
    shown: &mut String,
    alloc: Global,
    journal: &CutSink,
    events: &[Event],
    torn: u64,
    listed: Listed,
) -> Result<()> {
    match listed {
        Listed::Nothing => {}
        _ if events.len() > LISTED => add_counts(shown, alloc, events)?,
        Listed::Used => add_used(shown, alloc, events)?,
        Listed::All => {
            add_records(shown, alloc, events)?;
            add_commits(shown, alloc, events)?;
        }
    }
    if torn > 0 {
        let line = format!(in alloc; "torn tail of {torn} bytes")?;
        add_line(shown, line.as_str())?;
    }
    if !journal.name().is_empty() {
        add_line(shown, "journal")?;
        add_bytes(shown, alloc, journal.name().as_bytes())?;
    }
    Ok(())
}

/// How many of the texts that were asked are those of the records that aren't kept, in their order; none
/// where such a record is of another text.
fn recorded_of(asked: &[Bytes], events: &[Event]) -> Option<usize> {
    let mut count = 0;
    for event in events {
        if let Event::Recorded {
            text,
            kept: false,
            ..
        } = event
        {
            if asked.get(count)?.as_slice() != text.as_slice() {
                return None;
            }
            count += 1;
        }
    }
    Some(count)
}

/// How many of the gates were opened.
pub fn opened_count(logs: &[&Log]) -> u64 {
    let mut count: u64 = 0;
    for log in logs {
        if log.opening.is_some() {
            count = count.saturating_add(1);
        }
    }
    count
}

/// The openings of the gates.
fn add_openings(shown: &mut String, alloc: Global, logs: &[&Log]) -> Result<()> {
    for log in logs {
        if let Some(opening) = &log.opening {
            let line = format!(in alloc; "worker {} opened with", opening.number)?;
            add_line(shown, line.as_str())?;
            add_bytes(shown, alloc, opening.work.as_slice())?;
            add_bytes(shown, alloc, opening.script.as_slice())?;
            add_bytes(shown, alloc, opening.name.as_slice())?;
        }
    }
    Ok(())
}

/// Whether the gate of a worker alone was asked for other texts than the recorded ones.
fn add_asks(shown: &mut String, log: &Log, events: &[Event]) -> Result<()> {
    match recorded_of(log.asked.as_slice(), events) {
        None => add_line(shown, "other texts were asked than recorded")?,
        Some(count) if count < log.asked.len() => add_line(
            shown,
            "more texts were asked than recorded",
        )?,
        Some(_) => {}
    }
    Ok(())
}

/// The files of the case that changed, and the file `o`, where it is there.
fn add_files(shown: &mut String, alloc: Global, case: &Case, files: &MemFiles) -> Result<()> {
    for (name, bytes) in &case.files {
        if files.content(name) != Some(bytes.as_slice()) {
            add_line(shown, "changed")?;
            add_bytes(shown, alloc, name.as_bytes())?;
        }
    }
    if let Some(bytes) = files.content("o") {
        add_line(shown, "file o")?;
        add_bytes(shown, alloc, bytes)?;
    }
    Ok(())
}

/// The calls of the files, each on a line.
fn add_calls(shown: &mut String, alloc: Global, calls: &[LoggedCall]) -> Result<()> {
    for call in calls {
        add_line(
            shown,
            match call.action() {
                FileAction::Read => "read",
                FileAction::Write => "write",
            },
        )?;
        add_bytes(shown, alloc, call.name().as_bytes())?;
        if call.failed() {
            shown.push_str(" failed")?;
        }
    }
    Ok(())
}

/// How many workers a run had.
#[derive(Clone, Copy)]
pub enum Workers {
    One,
    Several,
}

/// Which events are printed of a run with this status.
fn listed_of(workers: Workers, status: u8) -> Listed {
    match (workers, status) {
        (Workers::Several, 0) => Listed::Used,
        (Workers::Several, 11) => Listed::Nothing,
        _ => Listed::All,
    }
}

/// What was put, where several workers ran: without the number of records where it is that of the journal;
/// and without the number of a worker where its gate was opened.
fn add_put(shown: &mut String, alloc: Global, out: &str, opened: u64, records: u64) -> Result<()> {
    let mut end = format!(in alloc; "records: {records}\n")?;
    if let Some(report) = out.strip_suffix(end.as_str()) {
        return add_bytes(shown, alloc, report.as_bytes());
    }
    for number in 1..opened.saturating_add(1) {
        end = format!(in alloc; "worker {number}\n")?;
        if let Some(line) = out.strip_suffix(end.as_str()) {
            add_bytes(shown, alloc, line.as_bytes())?;
            shown.push_str("a worker")?;
            return Ok(());
        }
    }
    add_bytes(shown, alloc, out.as_bytes())
}

/// What was put on the output, if anything was, over gates that have these logs, beside so many records.
fn add_output(
    shown: &mut String,
    alloc: Global,
    out: &[u8],
    logs: &[&Log],
    records: u64,
    workers: Workers,
) -> Result<()> {
    if out.is_empty() {
        return Ok(());
    }
    add_line(shown, "put")?;
    match workers {
        Workers::One => add_bytes(shown, alloc, out),
        Workers::Several => add_put(
            shown,
            alloc,
            str::from_utf8(out)?,
            opened_count(logs),
            records,
        ),
    }
}

/// How the run of a case ended over gates that have these logs and answered so many asks.
pub fn shown(
    alloc: Global,
    case: &Case,
    outcome: &Outcome,
    logs: &[&Log],
    asked: u64,
    workers: Workers,
) -> Result<String> {
    let status = outcome.ended.status;
    let mut shown = format!(in alloc; "    status {status}")?;
    let journal = &outcome.ended.journal;
    let (events, torn) = events_of(alloc, journal)?;
    let (records, recorded) = record_counts(&events);
    let out = outcome.out.bytes();
    add_output(&mut shown, alloc, out, logs, records, workers)?;
    let listed = listed_of(workers, status);
    add_journal(&mut shown, alloc, journal, &events, torn, listed)?;
    add_openings(&mut shown, alloc, logs)?;
    match (workers, logs.first()) {
        (Workers::One, Some(log)) => add_asks(&mut shown, log, &events)?,
        _ if asked != recorded => add_line(
            &mut shown,
            "more or fewer texts were asked than recorded",
        )?,
        _ => {}
    }
    add_files(&mut shown, alloc, case, outcome.files.inner())?;
    if case.shows_calls {
        add_calls(&mut shown, alloc, outcome.files.calls())?;
    }
    Ok(shown)
}
