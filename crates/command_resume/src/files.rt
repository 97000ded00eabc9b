//! The files beside a journal's, and what they hold.

ghost use Rattle.std.specs.Prelude.{IfErr, IfOk, IfSome, option_map};
ghost use Rattle.command_resume.specs.Joined.{IsOfBytes};
ghost use Rattle.command_resume.specs.inner.Held.{IsAnswerOn, IsAnswerTo, IsAnswerToSome, IsUnread};

use crate::fault::AsideCause;
use command_ends::JOURNAL_LIMIT;
use faults::Memory;
use reduce_journal::{Journal, JournalFault, is_head_begun, read_journal};
use script_gate_trait::Bytes;
use std::alloc::Global;
use std::io::{ErrorKind, Read};
use std::os::unix::fs::MetadataExt;
use std::rt::Files;
use std::{fs, io};

/// What a journal of each version begins with.
const FIRST_BYTES: &[u8] = b"perses-journal ";

/// The paths of a journal and of the files beside it.
#[derive(Drop)]
pub(crate) struct Paths {
    /// The journal.
    pub(crate) journal: String,
    /// What is set aside of it.
    pub(crate) aside: String,
    /// Where that is made.
    pub(crate) copy: String,
}

/// The paths of this journal and of the files beside it.
pub(crate) fn paths_of(alloc: Global, journal: String) -> Result<Paths, Memory> {
    let aside = format!(in alloc; "{journal}.resumed")?;
    let copy = format!(in alloc; "{journal}.joined")?;
    Ok(Paths {
        journal,
        aside,
        copy,
    })
}

/// Whether both paths lead to one file. A file that isn't there yet is known by its path alone.
pub fn is_one_file<R: Files>(rt: &R, one: &str, other: &str) -> bool {
    match (fs::metadata(rt, one), fs::metadata(rt, other)) {
        (Ok(one), Ok(other)) => one.ino() == other.ino() && one.dev() == other.dev(),
        _ => one == other,
    }
}

/// Whether a file, which is there, begins as a journal: also one that wasn't begun to the end of its head.
fn begins_as_journal<R: Files + AllocGlobal>(rt: &R, path: &str) -> io::Result<bool> {
    let mut bytes = Vec::new(rt.alloc());
    let most = FIRST_BYTES.len() as u64;
    fs::open(rt, path)?.take(most).read_to_end(&mut bytes)?;
    Ok(FIRST_BYTES.starts_with(bytes.as_slice()))
}

/// Whether a file of this path is there that begins as a journal.
pub(crate) fn has_journal<R: Files + AllocGlobal>(rt: &R, path: &str) -> io::Result<bool> {
    match fs::metadata(rt, path) {
        Ok(found) if found.is_file() => begins_as_journal(rt, path),
        _ => Ok(false),
    }
}

/// Whether nothing but a journal is written over where this path is written to.
pub(crate) fn is_free<R: Files + AllocGlobal>(rt: &R, path: &str) -> io::Result<bool> {
    if !fs::exists(rt, path)? {
        return Ok(true);
    }
    has_journal(rt, path)
}

/// The bytes of an ordinary file, at most one more than a journal may have; None where it isn't there.
fn bytes_of<R: Files + AllocGlobal>(rt: &R, path: &str) -> Result<Option<Vec<u8>>, AsideCause>
    ensures { IfErr result IsUnread }
{
    match fs::metadata(rt, path) {
        Ok(found) if found.is_file() => {}
        Ok(_) => return Err(AsideCause::NoJournal),
        Err(error) if error.kind() == ErrorKind::NotFound => return Ok(None),
        Err(error) => return Err(AsideCause::from(error)),
    }
    let mut bytes = Vec::new(rt.alloc());
    fs::open(rt, path)?
        .take(JOURNAL_LIMIT + 1)
        .read_to_end(&mut bytes)?;
    Ok(Some(bytes))
}

/// The journal of these bytes; None where they are the beginning of one without a start.
fn begun_journal(alloc: Global, bytes: &Bytes) -> Result<Option<Journal>, AsideCause>
    ensures { IsAnswerOn bytes.now result }
{
    if is_head_begun(bytes.as_slice()) {
        return Ok(None);
    }
    match read_journal(alloc, bytes) {
        Ok(journal) if journal.start.is_none() => Ok(None),
        Ok(journal) => Ok(Some(journal)),
        Err(JournalFault::Memory(memory)) => Err(AsideCause::Memory(memory)),
        Err(JournalFault::BadHead) => Err(AsideCause::NoJournal),
        Err(JournalFault::BadRecord { .. }) => Err(AsideCause::NoJournal),
    }
}

/// The journal of a file of these bytes; None where it isn't there, or was begun and has no event.
fn held_journal(alloc: Global, held: Option<Vec<u8>>) -> Result<Option<Journal>, AsideCause>
    ensures { IsAnswerTo (option_map (λ bytes. bytes.items) held) result }
{
    let Some(found) = held else {
        return Ok(None);
    };
    if found.len() as u64 > JOURNAL_LIMIT {
        return Err(AsideCause::TooLong);
    }
    let bytes = Bytes::from_vec(found)?;
    begun_journal(alloc, &bytes)
}

/// The journal that a file holds; None where it isn't there, or was begun and has no event.
pub(crate) fn journal_in<R: Files + AllocGlobal>(
    rt: &R,
    path: &str,
) -> Result<Option<Journal>, AsideCause>
    ensures journal { IfOk result (λ found. IfSome found IsOfBytes) }
    ensures answer { IsAnswerToSome result }
{
    let held = bytes_of(rt, path)?;
    held_journal(rt.alloc(), held)
}
