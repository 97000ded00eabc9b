ghost use Rattle.std.specs.Prelude.{◌≡◌, ◌≤◌, ◌+◌, [], ◌∷◌, ◌++◌, vec_capacity, vec_len};

use crate::file_call::{FileAction, LoggedCall};
use crate::files::{FileFault, Files, WriteFault};
use std::alloc::Global;
use std::marker::Model;

/// Files that pass each call on to those within them, and keep it, so that contracts see which calls were made.
/// A call whose place can't be had isn't passed on, and answers out of memory.
#[derive(Drop)]
pub struct LoggedFiles<F: Drop> {
    alloc: Global,
    files: F,
    calls: Vec<LoggedCall>,
}

impl<F: Drop> Model for LoggedFiles<F> {
    ghost use Rattle.edge_io.specs.FileCalls.{Logged};

    ghost Value = { Logged F };

    ghost view = { λ logged. record { files = logged.files; calls = logged.calls.items } };
}

impl<F: Drop> LoggedFiles<F> {
    /// These files, before the first call.
    pub fn new(alloc: Global, files: F) -> LoggedFiles<F>
        ensures { result ≡ record { files = files; calls = [] } }
    {
        LoggedFiles {
            alloc,
            files,
            calls: Vec::new(alloc),
        }
    }

    /// The files within.
    pub fn inner(&self) -> &F
        ensures { result.now ≡ self.now.files }
    {
        &self.files
    }

    /// The calls that were made, in their order. One that ran out of memory isn't there.
    pub fn calls(&self) -> &[LoggedCall]
        ensures { result.now ≡ self.now.calls }
    {
        self.calls.as_slice()
    }
}

/// Adds a call to these, which have a place for it.
fn add_call(calls: &mut Vec<LoggedCall>, call: LoggedCall)
    requires { vec_len calls.old + 1 ≤ vec_capacity calls.old }
    ensures { calls.new.items ≡ calls.old.items ++ call ∷ [] }
{
    calls.push(call).unwrap();
}

impl<F: Files + Drop> Files for LoggedFiles<F> {
    ghost use Rattle.std.specs.Prelude.{Some};

    ghost content = { λ logged. F.content logged.files };

    ghost calls = { λ logged. Some logged.calls };

    ghost faults = { λ logged. F.faults logged.files };

    fn read(&mut self, name: &str, limit: u64) -> Result<Vec<u8>, FileFault> {
        let call = LoggedCall::new(self.alloc, name, FileAction::Read)?;
        self.calls.reserve(1)?;
        match self.files.read(name, limit) {
            Ok(bytes) => {
                add_call(&mut self.calls, call);
                Ok(bytes)
            }
            Err(FileFault::Failed) => {
                add_call(&mut self.calls, call.into_failed());
                Err(FileFault::Failed)
            }
            Err(FileFault::TooLong) => {
                add_call(&mut self.calls, call);
                Err(FileFault::TooLong)
            }
            Err(FileFault::Memory(memory)) => Err(FileFault::Memory(memory)),
        }
    }

    fn write(&mut self, name: &str, bytes: &[u8]) -> Result<(), WriteFault> {
        let call = LoggedCall::new(self.alloc, name, FileAction::Write)?;
        self.calls.reserve(1)?;
        match self.files.write(name, bytes) {
            Ok(()) => {
                add_call(&mut self.calls, call);
                Ok(())
            }
            Err(WriteFault::Failed) => {
                add_call(&mut self.calls, call.into_failed());
                Err(WriteFault::Failed)
            }
            Err(WriteFault::Memory(memory)) => Err(WriteFault::Memory(memory)),
        }
    }
}
