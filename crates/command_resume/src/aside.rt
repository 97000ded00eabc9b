//! A journal is set aside before a run that writes it anew, and what was set aside removed at its end.

ghost use Rattle.command_resume.specs.Joined.{IsOfBytes};
ghost use Rattle.reduce_journal.specs.History.{IsHistory};

use crate::fault::{AsideCause, AsideFault};
use crate::files::{Paths, has_journal, is_free, is_one_file, journal_in, paths_of};
use crate::joining::{common_start, joined, write_history};
use command_ends::JOURNAL_LIMIT;
use command_words::{CommandLine, journal_name, read_words};
use edge_io::{OpenFault, Sink, SinkFault, StreamSink};
use reduce_journal::{Digest, Event, Journal};
use std::fs::OpenFile;
use std::io::ErrorKind;
use std::rt::Files;
use std::{fs, io};

/// A journal that is set aside while a run writes it anew.
#[derive(Drop)]
pub struct SetAside {
    path: String,
}

impl SetAside {
    /// After the run, which ended with this status. At 1, 11 and 12 what was set aside stays. At each other
    /// one it is removed: the run came to its end, or didn't begin the journal anew.
    pub fn leave<R: Files>(self, rt: &R, status: u8) -> Result<(), AsideFault> {
        let SetAside { path } = self;
        if [1, 11, 12].contains(&status) {
            return Ok(());
        }
        match fs::remove_file(rt, path.as_str()) {
            Ok(()) => Ok(()),
            Err(reason) => Err(AsideFault::NotRemoved {
                aside: path,
                reason,
            }),
        }
    }
}

/// Before a run by these words. Where it resumes the journal that it writes, that is set aside, together
/// with what an earlier run, which was stopped, had set aside. Where it writes a journal without resuming
/// it, what was set aside of that is removed: it may be of another script. None where nothing is set aside.
pub fn take_up<R: Files + Print + AllocGlobal + Clone + Drop>(
    rt: &R,
    words: &[String],
) -> Result<Option<SetAside>, AsideFault> {
    let Some(CommandLine::Reduce(line)) = read_words(rt.alloc(), words)? else {
        return Ok(None);
    };
    let paths = paths_of(rt.alloc(), journal_name(rt.alloc(), &line)?)?;
    match line.resume {
        Some(resume) if is_one_file(rt, resume, paths.journal.as_str()) => resumed(rt, paths),
        resume => {
            forget(rt, paths.aside, resume)?;
            forget(rt, paths.copy, resume)?;
            Ok(None)
        }
    }
}

/// Sets a journal aside that is resumed.
fn resumed<R: Files + Print + AllocGlobal + Clone + Drop>(
    rt: &R,
    paths: Paths,
) -> Result<Option<SetAside>, AsideFault> {
    let set = set_aside(rt, &paths);
    let Paths { journal, aside, .. } = paths;
    match set {
        Ok(true) => Ok(Some(SetAside { path: aside })),
        Ok(false) => Ok(None),
        Err(cause) => Err(AsideFault::NotSetAside { journal, cause }),
    }
}

/// Removes what was set aside of a journal that is begun anew, but not what is resumed itself.
fn forget<R: Files + AllocGlobal>(
    rt: &R,
    path: String,
    resume: Option<&str>,
) -> Result<(), AsideFault> {
    if let Some(resume) = resume
        && is_one_file(rt, resume, path.as_str())
    {
        return Ok(());
    }
    match remove_journal(rt, path.as_str()) {
        Ok(()) => Ok(()),
        Err(reason) => Err(AsideFault::NotRemoved {
            aside: path,
            reason,
        }),
    }
}

/// Removes the file of this path, where it begins as a journal.
fn remove_journal<R: Files + AllocGlobal>(rt: &R, path: &str) -> io::Result<()> {
    if has_journal(rt, path)? {
        fs::remove_file(rt, path)?;
    }
    Ok(())
}

/// Sets the journal aside; not so where there is none, or where it can't be resumed, as the run says itself.
fn set_aside<R: Files + Print + AllocGlobal + Clone + Drop>(
    rt: &R,
    paths: &Paths,
) -> Result<bool, AsideCause> {
    let own = match journal_in(rt, paths.journal.as_str()) {
        Ok(own) => own,
        Err(AsideCause::NoJournal | AsideCause::TooLong) => return Ok(false),
        Err(cause) => return Err(cause),
    };
    let before = journal_in(rt, paths.aside.as_str())?;
    match (own, before) {
        (None, None) => return Ok(false),
        (Some(_), None) => replace_aside(rt, paths)?,
        (None, Some(_)) => put_back(rt, paths)?,
        (Some(own), Some(before)) => set_both_aside(rt, paths, own, &before)?,
    }
    Ok(true)
}

/// Sets the journal aside as it is.
fn replace_aside<R: Files + AllocGlobal>(rt: &R, paths: &Paths) -> Result<(), AsideCause> {
    make_copy(rt, paths)?;
    let named = name_copy(rt, paths);
    end_copy(rt, paths, named)
}

/// Sets the journal aside with what was set aside before, and gives the journal all of it too.
fn set_both_aside<R: Files + Print + AllocGlobal + Clone + Drop>(
    rt: &R,
    paths: &Paths,
    own: Journal,
    before: &Journal,
) -> Result<(), AsideCause>
    requires own { IsOfBytes own }
    requires before { IsOfBytes before.now }
{
    let Some(start) = common_start(&own, before) else {
        return Err(AsideCause::OtherStart);
    };
    let events = joined(rt.alloc(), own, before)?;
    make_copy(rt, paths)?;
    let named = name_joined(rt, paths, &start, events.as_slice());
    end_copy(rt, paths, named)?;
    put_back(rt, paths)?;
    Ok(())
}

/// Makes the copy of the journal, which so has the journal's rights.
fn make_copy<R: Files + AllocGlobal>(rt: &R, paths: &Paths) -> Result<(), AsideCause> {
    if !is_free(rt, paths.copy.as_str())? {
        return Err(AsideCause::NoJournal);
    }
    let came = match fs::copy(rt, paths.journal.as_str(), paths.copy.as_str()) {
        Ok(_) => Ok(()),
        Err(error) => Err(AsideCause::from(error)),
    };
    end_copy(rt, paths, came)
}

/// Where something failed, removes the copy.
fn end_copy<R: Files>(
    rt: &R,
    paths: &Paths,
    came: Result<(), AsideCause>,
) -> Result<(), AsideCause> {
    if came.is_err() {
        let _ = fs::remove_file(rt, paths.copy.as_str());
    }
    came
}

/// Writes these events over the copy, and gives it its name.
fn name_joined<R: Files + Print + AllocGlobal + Clone + Drop>(
    rt: &R,
    paths: &Paths,
    start: &Digest,
    events: &[Event],
) -> Result<(), AsideCause>
    requires { IsHistory events.now }
{
    write_journal(rt, paths.copy.as_str(), start, events)?;
    if fs::metadata(rt, paths.copy.as_str())?.len() > JOURNAL_LIMIT {
        return Err(AsideCause::TooLong);
    }
    name_copy(rt, paths)
}

/// Writes a journal of these events into a file.
fn write_journal<R: Files + Print + Clone + Drop>(
    rt: &R,
    path: &str,
    start: &Digest,
    events: &[Event],
) -> Result<(), AsideCause>
    requires { IsHistory events.now }
{
    let mut sink = StreamSink::file(rt.clone()?);
    match sink.open(path) {
        Ok(()) => {}
        Err(OpenFault::Memory(memory)) => return Err(AsideCause::Memory(memory)),
        Err(OpenFault::Failed) => return Err(last_failure(&sink)),
    }
    match write_history(&mut sink, start, events) {
        Ok(()) => Ok(()),
        Err(SinkFault::Failed) => Err(last_failure(&sink)),
    }
}

/// The failure that the sink counted last.
fn last_failure<R: Files + Print>(sink: &StreamSink<R>) -> AsideCause {
    match sink.reason() {
        Some(reason) => AsideCause::Failed { reason },
        None => AsideCause::from(io::Error::from(ErrorKind::Other)),
    }
}

/// Gives the copy its name, once it is on the disk.
fn name_copy<R: Files>(rt: &R, paths: &Paths) -> Result<(), AsideCause> {
    fs::open(rt, paths.copy.as_str())?.sync_all()?;
    fs::rename(rt, paths.copy.as_str(), paths.aside.as_str())?;
    Ok(())
}

/// Writes what is set aside over the journal, whose rights stay.
fn put_back<R: Files>(rt: &R, paths: &Paths) -> io::Result<()> {
    let mut from = fs::open(rt, paths.aside.as_str())?;
    let mut to = fs::create(rt, paths.journal.as_str())?;
    io::copy(&mut from, &mut to)?;
    to.sync_all()
}
