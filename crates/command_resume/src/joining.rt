//! Two journals of one start in one.

ghost use Rattle.std.specs.Prelude.{◌≡◌, ◌++◌, Some, IfOk, IfSome, OnOk, option_map};
ghost use Rattle.edge_io.specs.Sink.{with_piece};
ghost use Rattle.verdict_table.specs.Kept.{SameVerdicts};
ghost use Rattle.reduce_journal.specs.History.{IsHistory, records_of};
ghost use Rattle.reduce_journal.specs.Journal.{journal_text};
ghost use Rattle.command_resume.specs.Joined.{IsOfBytes, added_to, joined};

use edge_io::{Sink, SinkFault};
use faults::Memory;
use reduce_journal::{Digest, Event, Journal, write_event, write_head};
use std::alloc::Global;
use verdict_table::Kept;

/// The events of one journal, and then the other's records of texts that it has no record of: asked or kept
/// as they were, without commits. Texts are shared, not copied. It costs a look-up for each record.
pub fn joined(alloc: Global, one: Journal, other: &Journal) -> Result<Vec<Event>, Memory>
    ensures events { IfOk result (λ events. events.items ≡ joined one.events.items other.now.events.items) }
    ensures readable { IsOfBytes one → IsOfBytes other.now → IfOk result (λ events. IsHistory events.items) }
    ensures first { IfOk result (λ events. SameVerdicts (records_of events.items)
        (records_of one.events.items ++ records_of other.now.events.items)) }
{
    let known = one.kept(alloc)?;
    let Journal { events: own, .. } = one;
    let mut events = own;
    for event in &other.events {
        add_missing(&mut events, &known, event)?;
    }
    Ok(events)
}

/// Adds the event, where it is a record of a text without a known verdict.
fn add_missing(events: &mut Vec<Event>, known: &Kept, event: &Event) -> Result<(), Memory>
    ensures { OnOk result (events.new.items ≡ events.old.items ++ added_to known.now event.now) }
{
    match event {
        Event::Recorded {
            text,
            verdict,
            kept,
        } => match known.find(text.as_slice()) {
            Some(_) => Ok(()),
            None => {
                let text = text.share()?;
                events.push(Event::Recorded {
                    text,
                    verdict: *verdict,
                    kept: *kept,
                })?;
                Ok(())
            }
        },
        Event::Committed { .. } => Ok(()),
    }
}

/// The digest of the start of both journals, where they have one and the same.
pub(crate) fn common_start(one: &Journal, other: &Journal) -> Option<Digest>
    ensures start { IfSome result (λ start. (one.now.start ≡ Some start) × (other.now.start ≡ Some start)) }
    ensures each { (start : Digest) → one.now.start ≡ Some start → other.now.start ≡ Some start → result ≡ Some start }
{
    let start = one.start?;
    let found = other.start?;
    if start == found { Some(start) } else { None }
}

/// Puts a journal of these events over a start with this digest. It takes no memory.
pub(crate) fn write_history<J: Sink>(
    journal: &mut J,
    start: &Digest,
    events: &[Event],
) -> Result<(), SinkFault>
    requires { IsHistory events.now }
    ensures ok { OnOk result
        (J.put_so_far journal.new ≡ option_map (with_piece (journal_text start.now events.now)) (J.put_so_far journal.old)) }
{
    write_head(journal, start)?;
    for event in events {
        write_event(journal, event)?;
    }
    Ok(())
}
