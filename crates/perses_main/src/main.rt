//! Perses reduces an input that makes something fail to the parts that matter.
//!
//! `perses reduce` asks the script for one candidate after another, or for up to 16 at once (`--jobs N`),
//! and writes what is left: by a grammar (`--grammar F`), of the input's tree, with `--mode hdd` by
//! deletions alone; or of the input's lines (`--mode lines`). It keeps a journal beside the output, and
//! prints a report at the end. `perses check` says whether files are those of a finished run.
//! `perses normal --grammar F` prints the normal form of a grammar, and `perses selftest` reduces a
//! generated program in memory. All words are in `docs/FORMATS.md`. The work is done by the top call,
//! [`command_perses::perses`], whose contract is the program's; here it gets the machine's threads, files,
//! processes, a file for the journal, and standard output. Beside it, a journal that is resumed and
//! written anew is set aside ([`command_resume::take_up`]).
#![tactic(auto)]

mod args;
mod notices;

ghost use Rattle.std.specs.Prelude.{◌≡◌, IfOk, length};
ghost use Rattle.command_perses.specs.Workers.{AreNumbered};

use args::words_of;
use command_perses::{add_worker, no_workers, perses};
use command_resume::{SetAside, take_up};
use edge_io::DiskFiles;
use notices::{Notices, ScriptGate};
use std::process::ExitCode;
use std::rt::Files;
use std::sync::Wait;
use std::thread::Threads;
use std::time::Clock;
use std::{fs, io};
use worker_pool::Worker;

/// The most workers.
const MOST_WORKERS: u32 = 16;

/// As many workers as there can be, each with a gate of its own.
fn all_workers(rt: &HostRuntime, notices: &Notices) -> io::Result<Vec<Worker<ScriptGate>>>
    ensures numbered { IfOk result (λ workers. AreNumbered workers.items) }
    ensures all { IfOk result (λ workers. length workers.items ≡ 16) }
{
    let mut workers = no_workers(rt.alloc());
    for _ in 0..MOST_WORKERS {
        add_worker(&mut workers, notices.gate(rt)?)?;
    }
    Ok(workers)
}

/// Where standard output is closed, two files that can't be written: while they are held, one of them or
/// standard input has its number. Else the journal would have it, and get the report too.
fn in_place_of_output<R: Files>(rt: &R) -> Option<(R::File, R::File)> {
    if fs::metadata(rt, "/dev/fd/1").is_ok() {
        return None;
    }
    Some((
        fs::open(rt, "/dev/null").ok()?,
        fs::open(rt, "/dev/null").ok()?,
    ))
}

/// Sets the journal aside that a run by these words resumes and writes anew.
fn set_journal_aside(rt: &HostRuntime, notices: &Notices, words: &[String]) -> Option<SetAside> {
    match take_up(rt, words) {
        Ok(aside) => aside,
        Err(fault) => {
            notices.warn(rt, &fault);
            None
        }
    }
}

/// Removes what was set aside, where the run ended so that the journal has all.
fn leave_aside(rt: &HostRuntime, notices: &Notices, aside: Option<SetAside>, status: u8) {
    let Some(aside) = aside else {
        return;
    };
    if let Err(fault) = aside.leave(rt, status) {
        notices.warn(rt, &fault);
    }
}

/// Runs the program over the machine's threads, files, processes and standard output.
fn run_program<W: Threads + Wait + Clock + Copy + Send + Sync + 'static>(
    threads: &W,
    rt: &HostRuntime,
) -> io::Result<u8> {
    let notices = Notices::new(rt)?;
    let in_place = in_place_of_output(rt);
    let words = words_of(rt)?;
    let mut files = DiskFiles::new(rt.clone()?, rt.alloc());
    let mut workers = all_workers(rt, &notices)?;
    let journal = notices.journal(rt)?;
    let mut out = notices.output(rt)?;
    let aside = set_journal_aside(rt, &notices, &words);
    let drawing = notices.begin(threads, rt, &words);
    let ended = perses(
        threads,
        rt.alloc(),
        &words,
        &mut files,
        &mut workers,
        journal,
        &mut out,
    );
    notices.end(rt, &words, &files, &workers, &ended, &out);
    if let Some(drawing) = drawing {
        drawing.join(threads);
    }
    leave_aside(rt, &notices, aside, ended.status);
    drop(in_place);
    Ok(ended.status)
}

/// Ends with the status of the call. Without memory to begin with it prints nothing and ends with
/// status 1.
fn main(rt: HostRuntime) -> ExitCode {
    ExitCode::from(run_program(&rt, &rt).unwrap_or(1))
}
