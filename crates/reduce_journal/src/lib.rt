//! The journal of a reduction, as it is written and read, and the report at its end.
//!
//! A reduction's history is a list of [`Event`]s: verdicts as they came, and the answers that the
//! reducer was given. Read `specs/History.antt` and `specs/Journal.antt` first. [`write_head`] begins a
//! journal, with the [`Digest`] of its start, and [`write_event`] adds to it; [`read_journal`] reads it
//! back, also where the run that wrote it was killed, and reads version 1 too. [`Journal::kept`] has its
//! verdicts, with which a run that resumes it begins. [`report`] makes the five lines that a reduction
//! ends with, and [`first_lines`] the first four of them. Where a run was killed before the head was whole,
//! [`is_head_begun`] tells what it left from what is no journal. Bytes are a journal of one start and one
//! history at most ([`equal_bytes_have_one_history`]); what a killed run left, with the whole head, is a
//! journal of its first events ([`prefixes_are_read`]). So a history is kept:
//!
//! ```
//! write_head(&mut journal, &digest_of(start))?;
//! write_event(&mut journal, &Event::Recorded { text, verdict, kept: false })?;
//! write_event(&mut journal, &Event::Committed { number: 1 })?;
//! ```
#![tactic(auto)]

mod counts;
mod digest;
mod event;
mod head;
mod laws;
mod numbers;
mod parts;
mod read;
mod write;

pub use counts::{Counts, first_lines, report};
pub use digest::{Digest, digest_of};
pub use event::Event;
pub use faults::Memory;
pub use head::{Head, is_head_begun};
pub use laws::{
    bytes_are_journals_or_bad, equal_bytes_have_one_history, prefixes_are_read, written_is_read,
};
pub use read::{Journal, JournalFault, read_journal};
pub use write::{write_event, write_head};
