//! One event of a journal.

ghost use Rattle.std.specs.Prelude.{◌≡◌, IfOk};
ghost use Rattle.reduce_journal.specs.inner.Reading.{EndsAt, Gives, commit_at, event_at, kept_at, lent_event, record_at, text_at, verdict_at};

use crate::event::Event;
use crate::numbers::{Mismatch, after, number_at, positive_at};
use faults::Memory;
use reduce_step::TEXT_LIMIT;
use script_gate_trait::{Bytes, Verdict};

/// An event whose text lies in the journal.
#[derive(Clone, Copy)]
pub(crate) enum LentEvent<'a> {
    /// A text got its verdict, of a gate or kept.
    Recorded {
        text: &'a [u8],
        verdict: Verdict,
        kept: bool,
    },
    /// The reducer was answered with the record of this number.
    Committed {
        number: u64,
    },
}

impl LentEvent<'_> {
    /// The event, whose bytes end here in the journal. Its text shares those of the journal.
    pub(crate) fn to_event(&self, journal: &Bytes, end: usize) -> Result<Event, Memory>
        requires { EndsAt journal.now end (lent_event self.now) }
        ensures { IfOk result (λ event. event ≡ lent_event self.now) }
    {
        match self {
            LentEvent::Recorded {
                text,
                verdict,
                kept,
            } => {
                let text_end = end - 1;
                let text = journal.part(text_end - text.len(), text_end)?;
                Ok(Event::Recorded {
                    text,
                    verdict: *verdict,
                    kept: *kept,
                })
            }
            LentEvent::Committed { number } => Ok(Event::Committed { number: *number }),
        }
    }
}

/// The event that these bytes begin with, after so many records of a journal of this version, and the
/// bytes after it.
#[tactic(auto, unfolding(crate::specs::inner::Reading::event_at))]
pub(crate) fn event_at(
    version: u32,
    records: u64,
    bytes: &[u8],
) -> Result<(LentEvent<'_>, &[u8]), Mismatch>
    ensures { Gives (λ found. (lent_event found.0, found.1.now)) result (event_at version records bytes.now) }
{
    match bytes {
        [] => Err(Mismatch::Torn),
        [b'R', rest @ ..] => record_at(false, rest),
        [b'C', rest @ ..] => commit_at(records, rest),
        [b'K', rest @ ..] => kept_at(version, rest),
        [_, ..] => Err(Mismatch::Bad),
    }
}

/// The record that these bytes begin with but for its first letter, asked or kept.
#[tactic(auto, unfolding(crate::specs::inner::Reading::record_at))]
fn record_at(kept: bool, bytes: &[u8]) -> Result<(LentEvent<'_>, &[u8]), Mismatch>
    ensures { Gives (λ found. (lent_event found.0, found.1.now)) result (record_at kept bytes.now) }
{
    let letter = after(b' ', bytes)?;
    let (verdict, rest) = verdict_at(letter)?;
    let number = after(b' ', rest)?;
    let (count, rest) = number_at(TEXT_LIMIT as u64, number)?;
    let (text, rest) = text_at(count as usize, rest)?;
    let event = LentEvent::Recorded {
        text,
        verdict,
        kept,
    };
    Ok((event, rest))
}

/// The kept record that these bytes begin with but for its first letter, where the version has them.
#[tactic(auto, unfolding(crate::specs::inner::Reading::kept_at))]
fn kept_at(version: u32, bytes: &[u8]) -> Result<(LentEvent<'_>, &[u8]), Mismatch>
    ensures { Gives (λ found. (lent_event found.0, found.1.now)) result (kept_at version bytes.now) }
{
    if version == 2 {
        record_at(true, bytes)
    } else {
        Err(Mismatch::Bad)
    }
}

/// The commit that these bytes begin with but for its first letter, after so many records.
#[tactic(auto, unfolding(crate::specs::inner::Reading::commit_at))]
fn commit_at(records: u64, bytes: &[u8]) -> Result<(LentEvent<'_>, &[u8]), Mismatch>
    ensures { Gives (λ found. (lent_event found.0, found.1.now)) result (commit_at records bytes.now) }
{
    if records == 0 {
        return Err(Mismatch::Bad);
    }
    let rest = after(b' ', bytes)?;
    let (number, rest) = positive_at(records, rest)?;
    Ok((LentEvent::Committed { number }, rest))
}

/// The verdict whose letter these bytes begin with.
fn verdict_at(bytes: &[u8]) -> Result<(Verdict, &[u8]), Mismatch>
    ensures { Gives (λ found. (found.0, found.1.now)) result (verdict_at bytes.now) }
{
    match bytes {
        [] => Err(Mismatch::Torn),
        [b'y', rest @ ..] => Ok((Verdict::Yes, rest)),
        [b'n', rest @ ..] => Ok((Verdict::No, rest)),
        [_, ..] => Err(Mismatch::Bad),
    }
}

/// The text of so many bytes that these bytes begin with, and what follows the newline after it.
#[tactic(auto, unfolding(crate::specs::inner::Reading::text_at))]
fn text_at(count: usize, bytes: &[u8]) -> Result<(&[u8], &[u8]), Mismatch>
    ensures { Gives (λ found. (found.0.now, found.1.now)) result (text_at count bytes.now) }
{
    if bytes.len() < count {
        return Err(Mismatch::Torn);
    }
    let (text, rest) = bytes.split_at(count);
    let rest = after(b'\n', rest)?;
    Ok((text, rest))
}
