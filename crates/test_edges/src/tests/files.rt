//! Files in memory and on the machine.

use super::held::holds;
use super::machine::SlowMachine;
use edge_io::{DiskFiles, FileAction, FileFault, Files, LoggedFiles, MemFiles, WriteFault};
use std::alloc::Global;
use std::fs;
use std::test::Fail;

/// A call of files, with the answer that is wanted.
#[derive(Clone, Copy)]
enum Call {
    Read(&'static str, u64, Result<&'static str, FileFault>),
    Write(&'static str, &'static str, Result<(), WriteFault>),
}

fn is_read(read: &Result<Vec<u8>, FileFault>, wanted: Result<&str, FileFault>) -> bool {
    match (read, wanted) {
        (Ok(bytes), Ok(text)) => bytes.as_slice() == text.as_bytes(),
        (Err(fault), Err(other)) => *fault == other,
        _ => false,
    }
}

fn is_answered<F: Files>(files: &mut F, call: Call) -> bool {
    match call {
        Call::Read(name, limit, wanted) => is_read(&files.read(name, limit), wanted),
        Call::Write(name, text, wanted) => files.write(name, text.as_bytes()) == wanted,
    }
}

/// The number, from 0, of the first call that isn't answered so.
fn first_other<F: Files>(files: &mut F, calls: &[Call]) -> Option<usize> {
    for (number, call) in calls.iter().enumerate() {
        if !is_answered(files, *call) {
            return Some(number);
        }
    }
    None
}

/// Files in memory, what they are asked, and what they then hold, where they are there.
#[derive(Clone, Copy)]
struct Case {
    entries: &'static [(&'static str, &'static str)],
    /// The numbers of the calls that fail, from 1.
    failing: &'static [u64],
    calls: &'static [Call],
    faults: u64,
    contents: &'static [(&'static str, Option<&'static str>)],
}

/// Reads and writes of whole files, and calls that are made to fail.
const CASES: [Case; 2] = [
    Case {
        entries: &[("a", "first"), ("b", ""), ("a", "second"), ("k", "kept")],
        failing: &[],
        calls: &[
            Call::Read("a", 5, Ok("first")),
            Call::Read("b", 0, Ok("")),
            Call::Read("a", 4, Err(FileFault::TooLong)),
            Call::Read("c", 5, Err(FileFault::Failed)),
            Call::Write("a", "new", Ok(())),
            Call::Write("c", "", Ok(())),
        ],
        faults: 1,
        contents: &[
            ("a", Some("new")),
            ("b", Some("")),
            ("c", Some("")),
            ("d", None),
            ("k", Some("kept")),
        ],
    },
    Case {
        entries: &[("a", "old")],
        failing: &[2, 3],
        calls: &[
            Call::Read("a", 3, Ok("old")),
            Call::Read("a", 3, Err(FileFault::Failed)),
            Call::Write("a", "new", Err(WriteFault::Failed)),
            Call::Read("a", 3, Ok("old")),
        ],
        faults: 2,
        contents: &[("a", Some("old"))],
    },
];

fn files_of(alloc: Global, case: &Case) -> Result<MemFiles, Fail> {
    let mut held = Vec::new(alloc);
    for (name, text) in case.entries {
        held.push((
            String::from_str(alloc, name)?,
            Vec::from_slice(alloc, text.as_bytes())?,
        ))?;
    }
    Ok(MemFiles::new(alloc, held, Vec::from_slice(alloc, case.failing)?))
}

/// Whether the files of these names hold these texts, or are missing.
fn has(files: &MemFiles, contents: &[(&str, Option<&str>)]) -> bool {
    for (name, text) in contents {
        if files.content(name) != text.map(str::as_bytes) {
            return false;
        }
    }
    true
}

/// The number, from 0, of the first case that isn't so.
fn first_other_case(alloc: Global, cases: &[Case]) -> Result<Option<usize>, Fail> {
    for (number, case) in cases.iter().enumerate() {
        let mut files = files_of(alloc, case)?;
        if first_other(&mut files, case.calls).is_some()
            || files.faults() != case.faults
            || !has(&files, case.contents)
        {
            return Ok(Some(number));
        }
    }
    Ok(None)
}

#[test]
fn files_in_memory_answer_and_hold_what_they_are_asked_for(rt: HostRuntime) -> Result<(), Fail> {
    assert_eq!(rt; first_other_case(rt.alloc(), &CASES)?, None);
    Ok(())
}

/// A call that was kept: the file's name, what was asked of it, and whether it failed.
#[derive(Clone, Copy)]
struct Kept(&'static str, FileAction, bool);

/// What is kept of the calls of the second case.
const KEPT: [Kept; 4] = [
    Kept("a", FileAction::Read, false),
    Kept("a", FileAction::Read, true),
    Kept("a", FileAction::Write, true),
    Kept("a", FileAction::Read, false),
];

/// Whether exactly these calls were kept, in their order.
fn are_kept(files: &LoggedFiles<MemFiles>, wanted: &[Kept]) -> bool {
    if files.calls().len() != wanted.len() {
        return false;
    }
    for (call, Kept(name, action, failed)) in files.calls().iter().zip(wanted) {
        if call.name() != *name || call.action() != *action || call.failed() != *failed {
            return false;
        }
    }
    true
}

/// The number of the first call of the second case that isn't answered so; whether its calls are kept; and
/// whether the files hold what they should.
fn logged(alloc: Global) -> Result<(Option<usize>, bool, bool), Fail> {
    let mut files = LoggedFiles::new(alloc, files_of(alloc, &CASES[1])?);
    let other = first_other(&mut files, CASES[1].calls);
    let holds_texts = has(files.inner(), CASES[1].contents);
    Ok((other, are_kept(&files, &KEPT), holds_texts))
}

#[test]
fn logged_files_keep_their_calls(rt: HostRuntime) -> Result<(), Fail> {
    assert_eq!(rt; logged(rt.alloc())?, (None, true, true));
    Ok(())
}

/// Every write of a full device fails that has a byte.
const ON_THE_MACHINE: [Call; 8] = [
    Call::Write("files/file", "old and long", Ok(())),
    Call::Write("files/file", "written", Ok(())),
    Call::Read("files/file", 7, Ok("written")),
    Call::Read("files/file", 6, Err(FileFault::TooLong)),
    Call::Read("files/missing", 7, Err(FileFault::Failed)),
    Call::Write("files/missing/below", "lost", Err(WriteFault::Failed)),
    Call::Write("/dev/full", "", Ok(())),
    Call::Write("/dev/full", "x", Err(WriteFault::Failed)),
];

const SLOWLY: [Call; 1] = [Call::Write("files/slow", "written whole", Ok(()))];

fn other_on_disk(rt: HostRuntime) -> Option<usize> {
    let alloc = rt.alloc();
    first_other(&mut DiskFiles::new(rt, alloc), &ON_THE_MACHINE)
}

fn other_slowly(rt: HostRuntime) -> Option<usize> {
    let alloc = rt.alloc();
    first_other(&mut DiskFiles::new(SlowMachine::new(rt), alloc), &SLOWLY)
}

/// The numbers of the first calls that aren't answered so, and whether the files are whole.
fn whole_files(rt: &HostRuntime) -> Result<(Option<usize>, Option<usize>, bool), Fail> {
    fs::create_dir_all(rt, "files")?;
    let on_disk = other_on_disk(rt.clone()?);
    let slowly = other_slowly(rt.clone()?);
    let held = holds(rt, "files/file", "written") && holds(rt, "files/slow", "written whole");
    fs::remove_dir_all(rt, "files")?;
    Ok((on_disk, slowly, held))
}

#[test]
fn the_machine_reads_and_writes_whole_files(rt: HostRuntime) -> Result<(), Fail> {
    assert_eq!(rt; whole_files(&rt)?, (None, None, true));
    Ok(())
}

/// Calls of a machine's files, and the machine's number of the last failure after each.
const REASONS: [(Call, Option<i32>); 6] = [
    (Call::Write("reasons/file", "first", Ok(())), None),
    (Call::Read("reasons/file", 6, Ok("first")), None),
    (
        Call::Read("reasons/missing", 6, Err(FileFault::Failed)),
        Some(2),
    ),
    (Call::Write("reasons/file", "second", Ok(())), Some(2)),
    (
        Call::Write("/dev/full", "x", Err(WriteFault::Failed)),
        Some(28),
    ),
    (Call::Read("reasons/file", 6, Ok("second")), Some(28)),
];

/// The number, from 0, of the first call that isn't answered so, or leaves another reason.
fn first_other_reason(files: &mut DiskFiles<HostRuntime>) -> Option<usize> {
    for (number, (call, wanted)) in REASONS.iter().enumerate() {
        let is_answered = is_answered(files, *call);
        let found = files.reason().and_then(|error| error.raw_os_error());
        if !is_answered || found != *wanted {
            return Some(number);
        }
    }
    None
}

/// That number; whether the first text of the file is kept that was read and written; and whether nothing is
/// kept of the missing one.
fn kept_by_files(rt: HostRuntime) -> (Option<usize>, bool, bool) {
    let alloc = rt.alloc();
    let mut files = DiskFiles::new(rt, alloc);
    let other = first_other_reason(&mut files);
    let keeps_first = files.first_read("reasons/file") == Some(b"first");
    (
        other,
        keeps_first,
        files.first_read("reasons/missing").is_none(),
    )
}

/// That, in a folder of its own.
fn kept_reasons(rt: &HostRuntime) -> Result<(Option<usize>, bool, bool), Fail> {
    fs::create_dir_all(rt, "reasons")?;
    let kept = kept_by_files(rt.clone()?);
    fs::remove_dir_all(rt, "reasons")?;
    Ok(kept)
}

#[test]
fn the_machine_keeps_the_last_reason_and_what_was_read_first(rt: HostRuntime) -> Result<(), Fail> {
    assert_eq!(rt; kept_reasons(&rt)?, (None, true, true));
    Ok(())
}

/// Whether a file of so many bytes is written, and read whole.
fn goes_through(files: &mut DiskFiles<HostRuntime>, bytes: &[u8]) -> (bool, bool) {
    let is_written = files.write("long/file", bytes).is_ok();
    let read = files.read("long/file", 2_000_000);
    (
        is_written,
        read.is_ok_and(|found| found.len() == bytes.len()),
    )
}

/// Whether a long file goes through, and nothing of it is kept.
fn long_file(rt: HostRuntime, bytes: &[u8]) -> ((bool, bool), bool) {
    let alloc = rt.alloc();
    let mut files = DiskFiles::new(rt, alloc);
    let goes = goes_through(&mut files, bytes);
    (goes, files.first_read("long/file").is_none())
}

/// That of a file of one byte more than is kept.
fn longer_than_kept(rt: HostRuntime) -> Result<((bool, bool), bool), Fail> {
    let bytes = vec![in rt.alloc(); b'x'; 1_048_577]?;
    Ok(long_file(rt, &bytes))
}

/// That, in a folder of its own.
fn kept_of_a_long_file(rt: &HostRuntime) -> Result<((bool, bool), bool), Fail> {
    fs::create_dir_all(rt, "long")?;
    let kept = longer_than_kept(rt.clone()?)?;
    fs::remove_dir_all(rt, "long")?;
    Ok(kept)
}

#[test]
fn the_machine_keeps_no_long_file(rt: HostRuntime) -> Result<(), Fail> {
    assert_eq!(rt; kept_of_a_long_file(&rt)?, ((true, true), true));
    Ok(())
}
