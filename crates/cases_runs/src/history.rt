//! Events that are put.

ghost use Rattle.std.specs.Prelude.{IsTrue};
ghost use Rattle.reduce_journal.specs.History.{HasShortText};

use crate::case::Case;
use crate::shown::{START, add_bytes, decoded};
use crate::{first_of, number_of};
use edge_io::{MemSink, Sink};
use faults::Memory;
use reduce_journal::{Event, digest_of, write_event, write_head};
use reduce_step::TEXT_LIMIT;
use script_gate_trait::{Bytes, Verdict};
use std::alloc::Global;

/// The record of `yes TEXT` or `no TEXT`.
fn record_of(alloc: Global, text: &str, kept: bool) -> Result<Event, Memory> {
    let (word, text) = first_of(text);
    let verdict = if word == "yes" {
        Verdict::Yes
    } else {
        Verdict::No
    };
    Ok(Event::Recorded {
        text: Bytes::from_vec(decoded(alloc, text)?)?,
        verdict,
        kept,
    })
}

/// The event of `commit N`, of a record, or of `kept` and a record.
fn event_of(alloc: Global, text: &str) -> Result<Event, Memory> {
    let (word, rest) = first_of(text);
    match word {
        "commit" => Ok(Event::Committed {
            number: number_of(rest),
        }),
        "kept" => record_of(alloc, rest, true),
        _ => record_of(alloc, text, false),
    }
}

/// Whether the event's text is no longer than a journal may have it.
fn is_short(event: &Event) -> bool
    ensures { IsTrue result → HasShortText event.now }
{
    match event {
        Event::Recorded { text, .. } => text.len() <= TEXT_LIMIT,
        Event::Committed { .. } => true,
    }
}

/// Whether the event is put.
fn is_put<J: Sink>(sink: &mut J, event: &Event) -> bool {
    if !is_short(event) {
        return false;
    }
    write_event(sink, event).is_ok()
}

/// Puts the head and the events; how many of these came through.
fn count_put<J: Sink>(sink: &mut J, alloc: Global, events: &str) -> Result<u64, Memory> {
    let mut count: u64 = 0;
    if write_head(sink, &digest_of(START)).is_err() {
        return Ok(count);
    }
    for text in events.split(" / ") {
        let event = event_of(alloc, text)?;
        if !is_put(sink, &event) {
            return Ok(count);
        }
        count = count.saturating_add(1);
    }
    Ok(count)
}

fn add_put_into(
    out: &mut String,
    sink: &mut MemSink,
    alloc: Global,
    events: &str,
) -> Result<(), Memory> {
    let count = count_put(sink, alloc, events)?;
    write!(out, "events {count}, failed {}: ", sink.faults())?;
    Ok(add_bytes(out, sink.bytes())?)
}

/// Adds how many events are put into a journal of so many bytes whose put of this number fails, from 1; how many
/// puts failed; and what is put.
pub(crate) fn add_put(
    out: &mut String,
    alloc: Global,
    case: &Case,
    text: &str,
) -> Result<(), Memory> {
    let (size, failing) = first_of(text);
    let failing = Vec::from_slice(alloc, &[number_of(failing)])?;
    let mut sink = MemSink::new(alloc, number_of(size), failing)?;
    add_put_into(out, &mut sink, alloc, case.history.as_str())
}
