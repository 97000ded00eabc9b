//! A machine that takes one byte at a time, and on which a step fails where a file is replaced.

use std::alloc::Allocator;
use std::fs::{File, Metadata, OpenFile, OpenOptions, Permissions};
use std::io::{ErrorKind, Read, Seek, SeekFrom, Write};
use std::process::{Child, Command, Processes, Stdio};
use std::rt::Files;
use std::{fmt, io};

/// What is done where a file is replaced. A file that is opened only if it is new is the one that replaces.
#[derive(Clone, Copy, Debug, PartialEq, Eq)]
pub(crate) enum Step {
    Make,
    Permit,
    Write,
    Sync,
    Rename,
}

/// A step that fails, and by what.
#[derive(Clone, Copy, Debug, PartialEq, Eq)]
pub(crate) struct Failure(pub(crate) Step, pub(crate) ErrorKind);

/// The machine, but that its files and its standard output take one byte at a time, and that a step fails.
#[derive(Drop)]
pub(crate) struct SlowMachine {
    rt: HostRuntime,
    fails: Option<Failure>,
}

impl SlowMachine {
    /// The machine that `rt` reaches, on which no step fails.
    pub(crate) fn new(rt: HostRuntime) -> SlowMachine {
        SlowMachine { rt, fails: None }
    }

    /// The same, but that a step fails so, if one is named.
    pub(crate) fn failing(rt: HostRuntime, fails: Option<Failure>) -> SlowMachine {
        SlowMachine { rt, fails }
    }
}

/// An error where this step is the one that fails.
fn fail_at(fails: Option<Failure>, step: Step) -> io::Result<()> {
    match fails {
        Some(Failure(failing, kind)) if failing == step => Err(io::Error::from(kind)),
        _ => Ok(()),
    }
}

/// A file that takes one byte at a time, and on which a step fails.
#[derive(Drop)]
pub struct SlowFile {
    file: File,
    fails: Option<Failure>,
}

impl Read for SlowFile {
    fn read(&mut self, buf: &mut [u8]) -> io::Result<usize> {
        self.file.read(buf)
    }
}

impl Write for SlowFile {
    fn write(&mut self, buf: &[u8]) -> io::Result<usize> {
        fail_at(self.fails, Step::Write)?;
        self.file.write(&buf[..buf.len().min(1)])
    }

    fn flush(&mut self) -> io::Result<()> {
        self.file.flush()
    }
}

impl Seek for SlowFile {
    fn seek(&mut self, to: SeekFrom) -> io::Result<u64> {
        self.file.seek(to)
    }
}

impl OpenFile for SlowFile {
    fn metadata(&self) -> io::Result<Metadata> {
        self.file.metadata()
    }

    fn set_len(&self, size: u64) -> io::Result<()> {
        self.file.set_len(size)
    }

    fn sync_all(&self) -> io::Result<()> {
        fail_at(self.fails, Step::Sync)?;
        self.file.sync_all()
    }

    fn sync_data(&self) -> io::Result<()> {
        self.file.sync_data()
    }

    fn set_permissions(&self, perm: Permissions) -> io::Result<()> {
        fail_at(self.fails, Step::Permit)?;
        self.file.set_permissions(perm)
    }
}

impl Files for SlowMachine {
    type File = SlowFile;

    type Dir = <HostRuntime as Files>::Dir;

    fn open_file(&self, how: &OpenOptions, path: &str) -> io::Result<SlowFile> {
        let fails = if how.asks_create_new() {
            self.fails
        } else {
            None
        };
        fail_at(fails, Step::Make)?;
        Ok(SlowFile {
            file: self.rt.open_file(how, path)?,
            fails,
        })
    }

    fn open_dir(&self, path: &str) -> io::Result<<HostRuntime as Files>::Dir> {
        self.rt.open_dir(path)
    }

    fn metadata(&self, path: &str) -> io::Result<Metadata> {
        self.rt.metadata(path)
    }

    fn symlink_metadata(&self, path: &str) -> io::Result<Metadata> {
        self.rt.symlink_metadata(path)
    }

    fn copy(&self, from: &str, to: &str) -> io::Result<u64> {
        self.rt.copy(from, to)
    }

    fn rename(&self, from: &str, to: &str) -> io::Result<()> {
        fail_at(self.fails, Step::Rename)?;
        self.rt.rename(from, to)
    }

    fn remove_file(&self, path: &str) -> io::Result<()> {
        self.rt.remove_file(path)
    }

    fn create_dir(&self, path: &str) -> io::Result<()> {
        self.rt.create_dir(path)
    }

    fn remove_dir(&self, path: &str) -> io::Result<()> {
        self.rt.remove_dir(path)
    }

    fn remove_dir_all<B: Allocator>(&self, alloc: B, path: &str) -> io::Result<()> {
        self.rt.remove_dir_all(alloc, path)
    }
}

impl Processes for SlowMachine {
    type Started = <HostRuntime as Processes>::Started;

    fn spawn<B: Allocator + Clone>(
        &self,
        command: &Command<B>,
        stdin: &Stdio,
        stdout: &Stdio,
        stderr: &Stdio,
    ) -> io::Result<Child<<HostRuntime as Processes>::Started>> {
        self.rt.spawn(command, stdin, stdout, stderr)
    }
}

// What is printed isn't needed: a test would have to read its own standard output.
impl Print for SlowMachine {
    fn print<D: fmt::Display + Drop>(&self, value: D) -> io::Result<()> {
        self.rt.print(value)
    }

    fn println<D: fmt::Display + Drop>(&self, value: D) -> io::Result<()> {
        self.rt.println(value)
    }

    fn write_all(&self, bytes: &[u8]) -> io::Result<()> {
        self.rt.write_all(bytes)
    }
}
