//! Reading a journal back.

ghost use Rattle.std.specs.Prelude.{◌≡◌, ◌↔◌, ◌⊎◌, ◌<◌, ◌^◌, ℕ, ◌+◌, ◌++◌, IfOk, IsErrOf};
ghost use Rattle.faults.specs.Memory.{ran_out};
ghost use Rattle.verdict_table.specs.Kept.{SameVerdicts};
ghost use Rattle.reduce_journal.specs.History.{History, IsHistory, records_of, records_with};
ghost use Rattle.reduce_journal.specs.Journal.{GivesJournal, IsBadAt, IsHead, IsJournalOf, IsReadOf, IsStart, IsStartOf, LacksHead, head_text};
ghost use Rattle.reduce_journal.specs.inner.Reading.{lent_event};

use crate::digest::{Digest, digest_of};
use crate::event::Event;
use crate::head::{Head, head_at};
use crate::numbers::Mismatch;
use crate::parts::{LentEvent, event_at};
use faults::Memory;
use script_gate_trait::Bytes;
use std::alloc::{AllocFailed, Global};
use thiserror::Error;
use verdict_table::Kept;

/// What was read of a journal. Its texts share the bytes that were read.
#[derive(Drop)]
pub struct Journal {
    /// The version of the format, 1 or 2.
    pub version: u32,
    /// The digest of the start: that of the head, in version 1 that of the first record's text. None in
    /// version 1 without events.
    pub start: Option<Digest>,
    /// The events that are whole, in their order.
    pub events: Vec<Event>,
    /// The bytes of a torn tail: of an event that was not written to its end.
    pub torn: u64,
}

/// Why bytes are no journal.
#[derive(Clone, Copy, Debug, PartialEq, Eq, Error)]
pub enum JournalFault {
    /// They begin with no whole head of a version.
    #[error("bad journal head")]
    BadHead,
    /// At this offset, in bytes from 0, is neither an event, nor the end, nor a torn tail.
    #[error("bad journal at byte {offset}")]
    BadRecord { offset: u64 },
    /// Memory ran out.
    #[error("out of memory")]
    Memory(Memory),
}

impl From<Memory> for JournalFault {
    ghost use Rattle.reduce_journal.specs.declared.read.JournalFault.TheVariants.{Memory as OutOfMemory};

    ghost from_gives = { λ memory fault. fault ≡ OutOfMemory memory };

    fn from(memory: Memory) -> JournalFault {
        JournalFault::Memory(memory)
    }
}

impl<T: Drop> From<AllocFailed<T>> for JournalFault {
    ghost use Rattle.faults.specs.Memory.{ran_out};
    ghost use Rattle.reduce_journal.specs.declared.read.JournalFault.TheVariants.{Memory as OutOfMemory};

    ghost from_gives = { λ _ fault. fault ≡ OutOfMemory ran_out };

    fn from(refused: AllocFailed<T>) -> JournalFault {
        JournalFault::Memory(Memory::from(refused))
    }
}

/// Reads a journal of version 1 or 2. Its texts may be any bytes, and need not be distinct. The time is
/// linear in the bytes. No text is copied: beside the bytes it takes the memory of the list of events.
pub fn read_journal(alloc: Global, bytes: &Bytes) -> Result<Journal, JournalFault>
    ensures journal { IfOk result (λ journal. IsReadOf bytes.now journal) }
    ensures each_journal { (first : Head) (events : History) (torn : ℕ) → IsJournalOf bytes.now first events torn
        → GivesJournal first events torn result }
    ensures bad_head { IsErrOf result JournalFault.BadHead ↔ LacksHead bytes.now }
    ensures bad_record { (offset : ℕ) → IsErrOf result (JournalFault.BadRecord offset) → IsBadAt bytes.now offset }
    ensures each_bad_record { (offset : ℕ) → IsBadAt bytes.now offset
        → IsErrOf result (JournalFault.BadRecord offset) ⊎ IsErrOf result (JournalFault.Memory ran_out) }
{
    let Some((head, rest)) = head_at(bytes.as_slice()) else {
        return Err(JournalFault::BadHead);
    };
    let (events, torn) = read_events(alloc, bytes, head, rest)?;
    Ok(Journal {
        version: head.version(),
        start: start_of(&head, &events),
        events,
        torn,
    })
}

/// The digest of the start: that of the head, or that of the first record's text.
fn start_of(head: &Head, events: &[Event]) -> Option<Digest>
    requires { IsHistory events.now }
    ensures { IsStart head.now events.now result }
{
    match head {
        Head::Version2(start) => Some(*start),
        Head::Version1 => first_digest(events),
    }
}

/// The digest of the first record's text, if there is a record.
fn first_digest(events: &[Event]) -> Option<Digest>
    requires { IsHistory events.now }
    ensures { IsStartOf (records_of events.now) result }
{
    match events.first()? {
        Event::Recorded { text, .. } => Some(digest_of(text.as_slice())),
        // The first event of a history is a record.
        Event::Committed { .. } => None,
    }
}

/// Reads the events after a head, and the bytes of a torn tail.
fn read_events(
    alloc: Global,
    bytes: &Bytes,
    head: Head,
    after_head: &[u8],
) -> Result<(Vec<Event>, u64), JournalFault>
    requires is_head { IsHead head }
    requires begins { bytes.now ≡ head_text head ++ after_head.now }
    ensures journal { IfOk result (λ read. IsJournalOf bytes.now head read.0.items read.1) }
    ensures head { ¬ IsErrOf result JournalFault.BadHead }
    ensures bad_record { (offset : ℕ) → IsErrOf result (JournalFault.BadRecord offset) → IsBadAt bytes.now offset }
{
    let version = head.version();
    let len = bytes.len();
    let mut events = Vec::new(alloc);
    let mut records = 0;
    let mut rest = after_head;
    loop {
        match event_at(version, records, rest) {
            Ok((event, later)) => {
                records = records_with(records, &event);
                events.push(event.to_event(bytes, len - later.len())?)?;
                rest = later;
            }
            Err(Mismatch::Torn) => return Ok((events, rest.len() as u64)),
            Err(Mismatch::Bad) => {
                return Err(JournalFault::BadRecord {
                    offset: (len - rest.len()) as u64,
                });
            }
        }
    }
}

/// The number of records, with that of this event.
fn records_with(records: u64, event: &LentEvent<'_>) -> u64
    requires { records + 1 < 2 ^ 64 }
    ensures { result ≡ records_with records (lent_event event.now) }
{
    match event {
        LentEvent::Recorded { .. } => records + 1,
        LentEvent::Committed { .. } => records,
    }
}

impl Journal {
    /// The verdict of each text by its first record, asked or kept. The texts are shared, not copied. It
    /// costs a look-up for each record.
    pub fn kept(&self, alloc: Global) -> Result<Kept, Memory>
        ensures { IfOk result (λ kept. SameVerdicts kept (records_of self.now.events.items)) }
    {
        let mut kept = Kept::new(alloc);
        for event in &self.events {
            match event {
                Event::Recorded { text, verdict, .. } => kept.add(text.share()?, *verdict)?,
                Event::Committed { .. } => {}
            }
        }
        Ok(kept)
    }
}
